ghost use Rattle.std.specs.Prelude.{◌≡◌};
ghost use Rattle.kernel.specs.Views.{facts_of, state_of};
ghost use Rattle.driver.specs.Faces.{outdated, next_part, closed_by, Released, Closed};
ghost use Rattle.driver.specs.Naming.{Names};

use crate::hold::Hold;
use crate::names::names_stand;
use crate::refusal::{DriverRefusal, Unclosed};
use crate::standing::standing;
use kernel::Kernel;
use keys::KeyKind;
use orders::Order;
use runs::{Accepted, Call, Refusal, guarantee_stands};

// Whether the request of a hold is no longer on.
fn is_outdated<O: Order, K: KeyKind>(kernel: &Kernel<O, K>, hold: &Hold) -> bool
    ensures { result ≡ outdated kernel.now hold.now }
{
    matches!(
        standing(kernel, hold.task(), hold.serial()),
        Err(DriverRefusal::Outdated)
    )
}

// What comes of a hold by the kernel's answer to the release: it is spent, or
// handed back where the kernel refused.
fn settle(mut hold: Hold, answer: Result<Accepted, Refusal>) -> Result<Option<u32>, Unclosed>
    ensures { result ≡ closed_by hold (next_part answer) }
{
    match answer {
        Ok(accepted) => {
            hold.spend();
            Ok(accepted.next)
        }
        Err(why) => Err(Unclosed::Kept(hold, why)),
    }
}

// The task of a hold releases the resource.
fn release<O: Order, K: KeyKind>(
    kernel: &mut Kernel<O, K>,
    hold: Hold,
) -> Result<Option<u32>, Unclosed>
    ensures { Released O.Order K.KeyKind kernel.old hold result kernel.new }
{
    let answer = kernel.handle(Call::Release(hold.task()));
    settle(hold, answer)
}

// Closes a hold: its task releases the resource, and the next holder, if any, is
// the answer. An outdated hold ends here and the kernel stays as it is. Where the
// kernel refuses the release, the hold is handed back, and is still to be closed.
pub fn close<O: Order, K: KeyKind>(
    kernel: &mut Kernel<O, K>,
    mut hold: Hold,
) -> Result<Option<u32>, Unclosed>
    ensures closed { Closed O.Order K.KeyKind kernel.old hold result kernel.new }
    ensures names { Names O.Order K.KeyKind (facts_of kernel.old) (state_of kernel.old) hold.task hold.serial hold.resource }
{
    guarantee_stands::<O, K>();
    names_stand::<O, K>();
    if is_outdated(kernel, &hold) {
        hold.spend();
        return Err(Unclosed::Ended);
    }
    release(kernel, hold)
}
