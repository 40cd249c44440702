// The rows of what lockrun writes. Each function adds one row to the text, or has
// no memory for it.

#![tactic(auto)]

mod rows;

pub use rows::{add_event, add_resource, add_start, add_task};
