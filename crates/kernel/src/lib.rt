// The kernel over any order of service and any kind of key: check and start, the
// calls, the questions, and the guarantee over every run.

#![tactic(auto)]

mod begin;
mod calls;
mod checked;
mod facts;
mod handle;
mod kernel;
mod known;
mod questions;
mod wait;

pub use begin::{check, start};
pub use facts::Facts;
pub use kernel::Kernel;
pub use wait::Wait;
