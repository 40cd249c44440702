ghost use Rattle.std.specs.Prelude.{◌≡◌};
ghost use Rattle.orders.specs.Services.{meaning};
ghost use Rattle.orders.specs.Gating.{idle};

use crate::order::Order;

// Whether nobody is queued for any resource: one look at each.
pub fn nobody_queued<O: Order>(order: &O) -> bool
    ensures { result ≡ idle (meaning O.Order order.now) }
{
    (0..32u32).all(|r| order.holder(r).is_none())
}
