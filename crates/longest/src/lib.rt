// The longest wait behind a gate over first-come: as many blocked ticks as the
// guarantee allows.

#![tactic(auto)]

mod stands;

pub use stands::longest_wait_stands;
