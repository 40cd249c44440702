// An order of service for tests only: a line that tells twice the place as the
// count. It keeps the rules and is not first-come, so whatever is proved and run
// over it does not rest on first-come.

#![tactic(auto)]

mod double;
mod serve;
#[cfg(test)]
mod tests;

pub use double::DoubleLine;
