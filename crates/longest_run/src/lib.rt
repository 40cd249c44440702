// Runs the kernel on the calls that make a wait as long as the guarantee allows.

#![tactic(auto)]

mod run;

pub use run::longest_wait;
