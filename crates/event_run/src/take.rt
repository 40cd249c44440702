ghost use Rattle.event_run.specs.Taking.{Taken};

use event_kinds::EventKind;
use event_report::Row;
use kernel::Kernel;
use orders::Order;

// Takes a line after the header: the kernel handles the call that it says, or
// stays as it is where the line says none.
pub(crate) fn take_line<O: Order, K: EventKind>(kernel: &mut Kernel<O, K>, line: &[u8]) -> Row
    ensures { Taken O.Order K.KeyKind kernel.old (K.EventKind.read line.now) result kernel.new }
{
    // Both arms go on with work of their own: two closures would be no plainer.
    match K::read_event(line) {
        Ok(call) => Row::answered(kernel.handle(call)),
        Err(fault) => Row::refused(fault.into()),
    }
}
