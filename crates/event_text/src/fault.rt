ghost use Rattle.std.specs.Prelude.{Some};
ghost use Rattle.event_text.specs.Faults.{text_words};

use std::error::Error;
use std::fmt;

// Why a line of an event file is refused.
#[derive(Clone, Copy, Debug, PartialEq, Eq)]
pub enum TextFault {
    // It has more than 80 bytes.
    TooLong,
    NoForm,
    // It is of a form, and a number has a leading zero or is above 4,294,967,295.
    BadNumber,
}

impl fmt::Display for TextFault {
    ghost output = { λ fault. Some (text_words fault) };

    fn fmt<W: fmt::Write>(&self, f: &mut fmt::Formatter<W>) -> fmt::Result {
        f.write_str(match self {
            TextFault::TooLong => "the line has more than 80 bytes",
            TextFault::NoForm => "the line is not of a form that belongs here",
            TextFault::BadNumber => "a number has a leading zero or is above 4,294,967,295",
        })
    }
}

impl Error for TextFault {}
