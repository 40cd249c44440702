ghost use Rattle.std.specs.Prelude.{◌≡◌};
ghost use Rattle.driver.specs.declared.refusal.DriverRefusal.TheVariants.{Kernel};

use crate::hold::Hold;
use crate::ticket::Ticket;
use runs::Refusal;

// Why the driver's face refuses.
#[derive(Clone, Copy, Debug, PartialEq, Eq)]
pub enum DriverRefusal {
    // The task has requested again since, or neither waits nor holds.
    Outdated,
    // The kernel's own refusal.
    Kernel(Refusal),
}

impl From<Refusal> for DriverRefusal {
    ghost from_gives = { λ why e. e ≡ Kernel why };

    fn from(why: Refusal) -> DriverRefusal {
        DriverRefusal::Kernel(why)
    }
}

// A ticket that was not turned into a hold, with the reason.
#[derive(Drop)]
pub struct Unclaimed {
    pub ticket: Ticket,
    pub why: DriverRefusal,
}

// A hold that was not closed. It may hold a token, which does not copy.
#[derive(Drop)]
pub enum Unclosed {
    // It was outdated, and is over.
    Ended,
    // The kernel refused the release, so the hold is still to be closed.
    Kept(Hold, Refusal),
}
