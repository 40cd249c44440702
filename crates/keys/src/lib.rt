// Kinds of key: what is declared for a task, and how urgent that makes a job of it.

#![tactic(auto)]

mod deadline;
mod fixed;
mod kind;

pub use deadline::Deadline;
pub use fixed::{BandLevel, Fixed};
pub use kind::KeyKind;
