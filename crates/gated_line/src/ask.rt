ghost use Rattle.std.specs.Prelude.{◌≡◌};
ghost use Rattle.gated_line.specs.Standings.{standing_of};

use crate::place::Standing;
use gate::Gate;
use orders::Order;

// Where a task stands at a gate for a resource.
pub fn where_stands<L: Order>(gate: &Gate<L>, resource: u32, task: u32) -> Standing
    ensures { result ≡ standing_of L.Order gate.now resource task }
{
    let Some(count) = gate.count(resource, task) else {
        return Standing::Away;
    };
    if gate.holder(resource) == Some(task) {
        Standing::Holds
    } else if !gate.in_gate(resource, task) {
        Standing::Below(count)
    } else if gate.covered(resource, task) {
        Standing::Covered(count)
    } else {
        Standing::InGate(count)
    }
}
