ghost use Rattle.std.specs.Prelude.{◌≡◌};
ghost use Rattle.kernel.specs.Views.{task_answer};
ghost use Rattle.driver.specs.Tokens.{last_serial};
ghost use Rattle.driver.specs.Faces.{Opened};

use crate::ticket::Ticket;
use kernel::Kernel;
use keys::KeyKind;
use orders::Order;
use runs::{Call, Refusal};

// The ticket of a task's latest request, which was for that resource. A task that there
// is not has made none, and the first has serial 1.
fn ticket<O: Order, K: KeyKind>(kernel: &Kernel<O, K>, task: u32, resource: u32) -> Ticket
    ensures { result ≡ record { task = task; resource = resource; serial = last_serial (task_answer kernel.now task) } }
{
    let serial = kernel.task_record(task).map_or(0, |record| record.serial);
    Ticket {
        task,
        resource,
        serial,
    }
}

// A task's job asks for a resource. The request is the kernel's own, and where it
// is accepted it gives a ticket.
pub fn open<O: Order, K: KeyKind>(
    kernel: &mut Kernel<O, K>,
    task: u32,
    resource: u32,
) -> Result<Ticket, Refusal>
    ensures { Opened O.Order K.KeyKind kernel.old task resource result kernel.new }
{
    kernel.handle(Call::Request(task, resource))?;
    Ok(ticket(kernel, task, resource))
}
