// The fields of a line of text: how bytes are cut, words and numbers, and
// the tokens that they give.

#![tactic(auto)]

mod cut;
mod field;
mod numbers;
mod take;
mod word;
mod words;

pub use cut::place_of;
pub use field::{Cut, Field};
pub use numbers::number;
pub use take::field_at;
pub use word::Word;
