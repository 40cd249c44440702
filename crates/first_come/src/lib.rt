// The first-come order of service: for each resource one line of tasks, in the
// order in which they were admitted. The first in line holds the resource.

#![tactic(auto)]

mod first;
mod line;
mod serve;

pub use first::FirstCome;
