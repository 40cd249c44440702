// The lines of an event file, run by a kernel: what is written of them, and what was
// wrong with them.

#![tactic(auto)]

mod ends;
mod play;
mod running;
mod take;
mod whole;

pub use whole::run_events;
