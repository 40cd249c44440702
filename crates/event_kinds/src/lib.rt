// Kinds of key with a text: which call a line of an event file says.

#![tactic(auto)]

mod kind;
mod kinds;

pub use kind::EventKind;
