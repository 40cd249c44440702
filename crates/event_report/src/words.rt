ghost use Rattle.std.specs.Prelude.{Some};
ghost use Rattle.event_report.specs.Reasons.{reason_words, layer_word, fault_words};

use crate::report::{Fault, Layer, Reason};
use std::fmt;

impl fmt::Display for Reason {
    ghost output = { λ why. Some (reason_words why) };

    fn fmt<W: fmt::Write>(&self, f: &mut fmt::Formatter<W>) -> fmt::Result {
        match self {
            Reason::LongFile => f.write_str("the file has more than 65,536 bytes"),
            Reason::Text(fault) => write!(f, "{fault}"),
            Reason::Check(fault) => write!(f, "{fault}"),
            Reason::Call(refusal) => write!(f, "{refusal}"),
        }
    }
}

impl fmt::Display for Layer {
    ghost output = { λ layer. Some (layer_word layer) };

    fn fmt<W: fmt::Write>(&self, f: &mut fmt::Formatter<W>) -> fmt::Result {
        f.write_str(self.word())
    }
}

// Which line was refused, and by what.
impl fmt::Display for Fault {
    ghost output = { λ fault. Some (fault_words fault) };

    fn fmt<W: fmt::Write>(&self, f: &mut fmt::Formatter<W>) -> fmt::Result {
        let line = self.line;
        let number = self.why.number();
        let layer = self.why.layer();
        write!(f, "line {line}: refused with {number} ({layer})")
    }
}
