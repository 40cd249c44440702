// The records of a kernel for up to 64 tasks and 32 resources, and beside them
// which tasks run and which are blocked.

#![tactic(auto)]

mod board;
mod changes;
mod demand;
mod event;
mod events;
mod questions;
mod record;
mod settle;
mod step;
mod table;
mod tick;

pub use board::Board;
pub use event::TaskEvent;
pub use record::{ResourceRecord, TaskRecord};
