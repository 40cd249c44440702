ghost use Rattle.std.specs.Prelude.{◌≡◌, None as Nothing};
ghost use Rattle.runs.specs.Steps.{at_start, kernel_of, Fresh};
ghost use Rattle.kernel.specs.Views.{fault, checked_answer, fits, facts_of, state_of, made_of};

use crate::facts::{Facts, Limits};
use crate::kernel::Kernel;
use board::Board;
use keys::KeyKind;
use orders::{Order, nobody_queued};
use runs::Unfit;

// Whether a kernel can be made of the facts and the order: the first fault, if any.
pub fn check<O: Order>(facts: Facts, order: &O) -> Result<(), Unfit>
    ensures { result ≡ checked_answer (fault O.Order facts order.now) }
{
    if !(1..=16).contains(&facts.cores) {
        return Err(Unfit::Cores);
    }
    if !(1..=64).contains(&facts.tasks) {
        return Err(Unfit::Tasks);
    }
    if !(1..=32).contains(&facts.resources) {
        return Err(Unfit::Resources);
    }
    if order.width() != facts.cores {
        return Err(Unfit::Width);
    }
    if order.places() < facts.tasks {
        return Err(Unfit::Places);
    }
    if !nobody_queued(order) {
        return Err(Unfit::SomebodyQueued);
    }
    Ok(())
}

// A kernel at its start, with no job and nothing counted yet. It is made of any
// facts, but where check refuses them all its calls answer `Unchecked` and its
// questions none.
pub fn start<O: Order, K: KeyKind>(facts: Facts, order: O, kind: K) -> Kernel<O, K>
    ensures order { state_of result ≡ at_start order }
    ensures checked { (facts_of result).checked ≡ fits (fault O.Order facts order) }
    ensures facts { fault O.Order facts order ≡ Nothing → facts_of result ≡ made_of facts.cores facts.tasks facts.resources }
    ensures fresh { fault O.Order facts order ≡ Nothing → Fresh (kernel_of O.Order K.KeyKind (facts_of result)) (state_of result) }
{
    // `map` was tried here: its closure does not know that the numbers are in range.
    let limits = match check(facts, &order) {
        Ok(()) => Some(Limits {
            tasks: facts.tasks,
            resources: facts.resources,
        }),
        Err(_) => None,
    };
    Kernel {
        limits,
        board: Board::new(facts.cores),
        order,
        kind,
    }
}
