// The names of the fields of a line, recognised byte by byte.

#![tactic(auto)]

mod name;
mod names;

pub use name::Name;
