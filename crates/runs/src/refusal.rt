ghost use Rattle.std.specs.Prelude.{◌≡◌};
ghost use Rattle.runs.specs.declared.refusal.Refusal.TheVariants.{Order};

use orders::OrderRefusal;
use std::error::Error;
use std::fmt;

// Why the kernel refuses a call.
#[derive(Clone, Copy, Debug, PartialEq, Eq)]
pub enum Refusal {
    // It was started on facts that check refuses.
    Unchecked,
    NoSuchTask,
    NoSuchResource,
    AlreadyPending,
    NoJobPending,
    Waits,
    DoesNotRun,
    HoldsResource,
    HoldsNothing,
    // A serial or the tick count has reached its last number.
    CountSpent,
    OutOfRange,
    // The order of service refused, with its own word.
    Order(OrderRefusal),
}

impl From<OrderRefusal> for Refusal {
    ghost from_gives = { λ word why. why ≡ Order word };

    fn from(word: OrderRefusal) -> Refusal {
        Refusal::Order(word)
    }
}

impl fmt::Display for Refusal {
    ghost use Rattle.std.specs.Prelude.{Some};
    ghost use Rattle.runs.specs.Refusals.{text_of};

    ghost output = { λ e. Some (text_of e) };

    fn fmt<W: fmt::Write>(&self, f: &mut fmt::Formatter<W>) -> fmt::Result {
        match self {
            Refusal::Unchecked => {
                f.write_str("the kernel was started on facts that check refuses")
            }
            Refusal::NoSuchTask => f.write_str("there is no such task"),
            Refusal::NoSuchResource => f.write_str("there is no such resource"),
            Refusal::AlreadyPending => f.write_str("a job of the task is pending already"),
            Refusal::NoJobPending => f.write_str("no job of the task is pending"),
            Refusal::Waits => f.write_str("the job waits for a resource"),
            Refusal::DoesNotRun => f.write_str("the job does not run"),
            Refusal::HoldsResource => f.write_str("the job holds a resource"),
            Refusal::HoldsNothing => f.write_str("the job holds nothing"),
            Refusal::CountSpent => f.write_str("a count is at its last number"),
            Refusal::OutOfRange => f.write_str("what is declared is out of range"),
            Refusal::Order(order) => write!(f, "{order}"),
        }
    }
}

impl Error for Refusal {}

// Why check refuses the facts that a kernel would be made of.
#[derive(Clone, Copy, Debug, PartialEq, Eq)]
pub enum Unfit {
    Cores,
    Tasks,
    Resources,
    Width,
    Places,
    SomebodyQueued,
}

impl fmt::Display for Unfit {
    ghost use Rattle.std.specs.Prelude.{Some};
    ghost use Rattle.runs.specs.Refusals.{unfit_text};

    ghost output = { λ e. Some (unfit_text e) };

    fn fmt<W: fmt::Write>(&self, f: &mut fmt::Formatter<W>) -> fmt::Result {
        match self {
            Unfit::Cores => f.write_str("the cores are not 1 to 16"),
            Unfit::Tasks => f.write_str("the tasks are not 1 to 64"),
            Unfit::Resources => f.write_str("the resources are not 1 to 32"),
            Unfit::Width => f.write_str("the order of service is for another number of cores"),
            Unfit::Places => {
                f.write_str("the order of service has fewer places than there are tasks")
            }
            Unfit::SomebodyQueued => f.write_str("somebody is queued before the start"),
        }
    }
}

impl Error for Unfit {}
