ghost use Rattle.std.specs.Prelude.{◌≡◌};
ghost use Rattle.event_report.specs.declared.report.Reason.TheVariants.{Text as OfText, Check as OfCheck, Call as OfCall};
ghost use Rattle.event_report.specs.Reasons.{reason_number, layer_of, layer_word};

use crate::report::{Layer, Reason};
use event_text::TextFault;
use runs::{Refusal, Unfit};

impl From<TextFault> for Reason {
    ghost from_gives = { λ fault why. why ≡ OfText fault };

    fn from(text: TextFault) -> Reason {
        Reason::Text(text)
    }
}

impl From<Unfit> for Reason {
    ghost from_gives = { λ fault why. why ≡ OfCheck fault };

    fn from(unfit: Unfit) -> Reason {
        Reason::Check(unfit)
    }
}

impl From<Refusal> for Reason {
    ghost from_gives = { λ refusal why. why ≡ OfCall refusal };

    fn from(refusal: Refusal) -> Reason {
        Reason::Call(refusal)
    }
}

impl Reason {
    // The number by which people know the fault. A conversion would not say which
    // number it is.
    pub fn number(self) -> u32
        ensures { result ≡ reason_number self }
    {
        match self {
            Reason::LongFile => 23,
            Reason::Text(fault) => fault.number(),
            Reason::Check(why) => why.number(),
            Reason::Call(why) => why.number(),
        }
    }

    // The part that refused.
    pub fn layer(self) -> Layer
        ensures { result ≡ layer_of self }
    {
        match self {
            Reason::LongFile | Reason::Text(_) => Layer::Text,
            Reason::Check(_) => Layer::Check,
            Reason::Call(Refusal::Order(_)) => Layer::Order,
            Reason::Call(_) => Layer::Kernel,
        }
    }
}

impl Layer {
    // The part as a word. `Display` writes it too, and can fail where this can't.
    pub fn word(self) -> &'static str
        ensures { result.now ≡ layer_word self }
    {
        match self {
            Layer::Text => "text",
            Layer::Check => "check",
            Layer::Kernel => "kernel",
            Layer::Order => "order",
        }
    }
}
