// What is cut from a line as one field: the name with its `=`, the value, and the
// place in the line at which the field begins.
#[derive(Clone, Copy, Debug, PartialEq, Eq)]
pub struct Cut<'a> {
    pub name: &'a [u8],
    pub value: &'a [u8],
    pub at: usize,
}

// A field of a line. It is a number where the value is digits.
#[derive(Clone, Copy, Debug, PartialEq, Eq)]
pub enum Field<'a> {
    Number(Cut<'a>),
    Word(Cut<'a>),
}
