ghost use Rattle.std.specs.Prelude.{ℕ, List};
ghost use Rattle.runs.specs.Histories.{Event};
ghost use Rattle.runs.specs.Steps.{Facts, State, Fresh, Leads, kernel_of};
ghost use Rattle.runs.specs.Guarantee.{Guarantee};

use keys::KeyKind;
use orders::Order;

// Every run of a kernel over any order of service and any kind of key keeps the guarantee.
pub fn guarantee_stands<O: Order, K: KeyKind>()
    ensures { (f : Facts) (start s : State O) (h : List (Event K.Declared)) → Fresh (kernel_of O.Order K.KeyKind f) start → Leads (kernel_of O.Order K.KeyKind f) start h s → Guarantee (kernel_of O.Order K.KeyKind f) start h s }
{}
