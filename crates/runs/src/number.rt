ghost use Rattle.std.specs.Prelude.{◌≡◌};
ghost use Rattle.runs.specs.Refusals.{number_of, unfit_number};

use crate::refusal::{Refusal, Unfit};

impl Refusal {
    // The number by which people know the refusal. A conversion would not say which
    // number it is.
    pub fn number(self) -> u32
        ensures { result ≡ number_of self }
    {
        match self {
            Refusal::Unchecked => 1,
            Refusal::NoSuchTask => 2,
            Refusal::NoSuchResource => 3,
            Refusal::AlreadyPending => 4,
            Refusal::NoJobPending => 5,
            Refusal::Waits => 6,
            Refusal::DoesNotRun => 7,
            Refusal::HoldsResource => 8,
            Refusal::HoldsNothing => 9,
            Refusal::CountSpent => 10,
            Refusal::OutOfRange => 11,
            Refusal::Order(_) => 12,
        }
    }
}

impl Unfit {
    // The number by which people know the fault, by a name for the same reason.
    pub fn number(self) -> u32
        ensures { result ≡ unfit_number self }
    {
        match self {
            Unfit::Cores => 14,
            Unfit::Tasks => 15,
            Unfit::Resources => 16,
            Unfit::Width => 17,
            Unfit::Places => 18,
            Unfit::SomebodyQueued => 19,
        }
    }
}
