ghost use Rattle.std.specs.Prelude.{◌≡◌};
ghost use Rattle.event_text.specs.Faults.{text_number};

use crate::fault::TextFault;

impl TextFault {
    // The number by which people know the fault. A conversion would not say which
    // number it is.
    pub fn number(self) -> u32
        ensures { result ≡ text_number self }
    {
        match self {
            TextFault::TooLong => 20,
            TextFault::NoForm => 21,
            TextFault::BadNumber => 22,
        }
    }
}
