// Calls of the kernel, the histories that they make, and what holds of every one.

#![tactic(auto)]

mod call;
mod number;
mod refusal;
mod stands;

pub use call::{Accepted, Call};
pub use refusal::{Refusal, Unfit};
pub use stands::guarantee_stands;
