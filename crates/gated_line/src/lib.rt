// The gate over first-come, as installers use it: a short line, and before it a
// gate by urgency. And where a task stands at a gate, in one answer.

#![tactic(auto)]

mod ask;
mod make;
mod place;

pub use ask::where_stands;
pub use make::gated_line;
pub use place::Standing;
