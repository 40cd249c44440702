ghost use Rattle.std.specs.Prelude.{◌≡◌};
ghost use Rattle.kernel.specs.Views.{facts_of};

use crate::kernel::Kernel;
use keys::KeyKind;
use orders::Order;

impl<O: Order, K: KeyKind> Kernel<O, K> {
    // Whether check accepted the facts and the order that the kernel was started on.
    pub fn is_checked(&self) -> bool
        ensures { result ≡ (facts_of self.now).checked }
    {
        self.limits.is_some()
    }
}
