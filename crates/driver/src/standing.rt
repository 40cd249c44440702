ghost use Rattle.std.specs.Prelude.{◌≡◌};
ghost use Rattle.driver.specs.Tokens.{standing_answer, driver_number, unclosed_number};

use crate::refusal::{DriverRefusal, Unclosed};
use jobs::TaskState;
use kernel::Kernel;
use keys::KeyKind;
use orders::Order;
use runs::Refusal;

impl DriverRefusal {
    // The number by which people know the refusal. A conversion would not say which
    // number it is.
    pub fn number(self) -> u32
        ensures { result ≡ driver_number self }
    {
        match self {
            DriverRefusal::Outdated => 13,
            DriverRefusal::Kernel(why) => why.number(),
        }
    }
}

impl Unclosed {
    // The number by which people know why a hold was not closed, by a name for the
    // same reason.
    pub fn number(&self) -> u32
        ensures { result ≡ unclosed_number self.now }
    {
        match self {
            Unclosed::Ended => DriverRefusal::Outdated.number(),
            Unclosed::Kept(_, why) => why.number(),
        }
    }
}

// How the task of a ticket or a hold stands: it waits or holds, by the request of
// that serial. Any other ticket or hold is outdated.
pub(crate) fn standing<O: Order, K: KeyKind>(
    kernel: &Kernel<O, K>,
    task: u32,
    serial: u32,
) -> Result<TaskState, DriverRefusal>
    ensures { result ≡ standing_answer kernel.now task serial }
{
    if !kernel.is_checked() {
        return Err(Refusal::Unchecked.into());
    }
    let record = kernel.task_record(task).ok_or(DriverRefusal::Outdated)?;
    if record.serial != serial {
        return Err(DriverRefusal::Outdated);
    }
    match record.state {
        TaskState::Waiting(_) | TaskState::Holding(_) => Ok(record.state),
        _ => Err(DriverRefusal::Outdated),
    }
}
