ghost use Rattle.std.specs.Prelude.{◌≡◌};
ghost use Rattle.std.specs.Str.{bytes_eq};
ghost use Rattle.fields.specs.Words.{word_text};

use crate::word::Word;

impl Word {
    // The bytes of the word: a file's are compared with them, and nothing prints them.
    fn text(self) -> &'static [u8]
        ensures { result.now ≡ word_text self }
    {
        match self {
            Word::Fifo => b"fifo",
            Word::Gate => b"gate",
            Word::Deadline => b"deadline",
            Word::Fixed => b"fixed",
            Word::Arrive => b"arrive",
            Word::Request => b"request",
            Word::Release => b"release",
            Word::Finish => b"finish",
            Word::Tick => b"tick",
        }
    }

    // Whether a value is this word.
    pub fn is(self, value: &[u8]) -> bool
        ensures { result ≡ bytes_eq value.now (word_text self) }
    {
        value == self.text()
    }
}
