use field_names::Name;
use fields::Word;

// What a form of lines wants of one field: the name, then a number or one word.
#[derive(Clone, Copy, Debug, PartialEq, Eq)]
pub enum Wanted {
    Number(Name),
    Word(Name, Word),
}

// A field that was wanted and found: its number, where it fits (0 for a
// word, so that each field of a form has a number in its place), and
// the place of the field after it, if there is one.
#[derive(Clone, Copy, Debug, PartialEq, Eq)]
pub struct Found {
    pub number: Option<u32>,
    pub next: Option<usize>,
}
