ghost use Rattle.std.specs.Prelude.{ℕ};
ghost use Rattle.runs.specs.Steps.{Facts, State};
ghost use Rattle.driver.specs.Naming.{Names};

use keys::KeyKind;
use orders::Order;

// A ticket that a kernel gave names what its task comes to hold by it.
pub fn names_stand<O: Order, K: KeyKind>()
    ensures { (f : Facts) (s : State O) (t n r : ℕ) → Names O.Order K.KeyKind f s t n r }
{}
