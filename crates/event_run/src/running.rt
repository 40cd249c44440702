ghost use Rattle.std.specs.Prelude.{◌≡◌, if◌then◌else◌};
ghost use Rattle.jobs.specs.Jobs.{running};
ghost use Rattle.jobs.specs.Powers.{powers};
ghost use Rattle.kernel.specs.Views.{facts_of, state_of};

use jobs::power_sum;
use kernel::Kernel;
use keys::KeyKind;
use orders::Order;

// The sum of 2^task over the tasks that run; 0 of an unchecked kernel.
pub(crate) fn running_sum<O: Order, K: KeyKind>(kernel: &Kernel<O, K>) -> u64
    ensures { result ≡ (if (facts_of kernel.now).checked then powers (running (state_of kernel.now).jobs (facts_of kernel.now).cores) 64 else 0) }
{
    kernel.running().map_or(0, |set| power_sum(set))
}
