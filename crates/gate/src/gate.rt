use crate::row::Row;
use orders::Order;

// A gate before the order of service `lower`. At most as many tasks as the width
// are queued below for a resource; whoever comes later waits in the gate, in the
// row of the resource.
#[derive(Drop)]
pub struct Gate<L: Order> {
    pub(crate) lower: L,
    // Nobody was queued below when the gate was made: a fact, with no value beside it.
    pub(crate) fresh: bool,
    pub(crate) rows: [Row; 32],
}
