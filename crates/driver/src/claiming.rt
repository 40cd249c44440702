ghost use Rattle.std.specs.Prelude.{◌≡◌, ◌&&◌, []};
ghost use Rattle.kernel.specs.Views.{facts_of, state_of};
ghost use Rattle.kernel.specs.Promises.{Holds};
ghost use Rattle.driver.specs.Tokens.{claim_answer, is_on};
ghost use Rattle.driver.specs.Naming.{Names};

use crate::hold::Hold;
use crate::names::names_stand;
use crate::refusal::Unclaimed;
use crate::standing::standing;
use crate::ticket::Ticket;
use jobs::TaskState;
use kernel::Kernel;
use keys::KeyKind;
use orders::Order;
use runs::{Refusal, guarantee_stands};

// Turns a ticket into a hold once its task holds the resource. A refused ticket
// is handed back.
fn turn<O: Order, K: KeyKind>(kernel: &Kernel<O, K>, ticket: Ticket) -> Result<Hold, Unclaimed>
    ensures { result ≡ claim_answer kernel.now ticket }
{
    match standing(kernel, ticket.task, ticket.serial) {
        Err(why) => Err(Unclaimed { ticket, why }),
        Ok(TaskState::Waiting(_)) => Err(Unclaimed {
            ticket,
            why: Refusal::Waits.into(),
        }),
        Ok(_) => Ok(Hold::given(kernel, ticket)),
    }
}

// Claims what a ticket was opened for: a hold once the task holds the resource,
// else the ticket again with the reason. Nothing in the kernel changes.
pub fn claim<O: Order, K: KeyKind>(kernel: &Kernel<O, K>, ticket: Ticket) -> Result<Hold, Unclaimed>
    ensures told { result ≡ claim_answer kernel.now ticket }
    ensures names { Names O.Order K.KeyKind (facts_of kernel.now) (state_of kernel.now) ticket.task ticket.serial ticket.resource }
    ensures holds { Holds O.Order K.KeyKind kernel.now [] kernel.now }
{
    guarantee_stands::<O, K>();
    names_stand::<O, K>();
    turn(kernel, ticket)
}

// Lays a ticket down. Nothing in the kernel changes: a request that is still on,
// which is the answer, goes on, and its task has to release by itself.
pub fn lay_down<O: Order, K: KeyKind>(kernel: &Kernel<O, K>, ticket: Ticket) -> bool
    ensures told { result ≡ ((facts_of kernel.now).checked && is_on (facts_of kernel.now) (state_of kernel.now) ticket.task ticket.serial) }
    ensures holds { Holds O.Order K.KeyKind kernel.now [] kernel.now }
{
    guarantee_stands::<O, K>();
    standing(kernel, ticket.task, ticket.serial).is_ok()
}
