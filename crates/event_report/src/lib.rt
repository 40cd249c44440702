// What is told of an event file: why it or one of its lines is refused, and the
// report of a whole file.

#![tactic(auto)]

mod reasons;
mod refusing;
mod report;
mod rows;
mod words;

pub use refusing::refuse;
pub use report::{Fault, Layer, Reason, Report, Row};
