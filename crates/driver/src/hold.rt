ghost use Rattle.std.specs.Prelude.{◌≡◌, true, Ok as Gives};
ghost use Rattle.driver.specs.Tokens.{hold_of, spent_hold, claim_answer};

use crate::ticket::Ticket;
use kernel::Kernel;
use keys::KeyKind;
use orders::Order;

// A resource that is held by a ticket's task. It is a token of plain numbers that
// has to be spent by close: it may not be let go before. `drop` can demand only what
// a field says, so `spent` is one.
pub struct Hold {
    task: u32,
    resource: u32,
    serial: u32,
    spent: bool,
}

impl Drop for Hold {
    fn drop(self)
        requires { self.spent ≡ true }
    {
        let Hold {
            task: _,
            resource: _,
            serial: _,
            spent: _,
        } = self;
    }
}

impl Hold {
    // The hold that a ticket becomes. No other function makes one, and this one
    // asks for what claim has found: that the task holds the resource.
    pub(crate) fn given<O: Order, K: KeyKind>(_kernel: &Kernel<O, K>, ticket: Ticket) -> Hold
        requires { claim_answer _kernel.now ticket ≡ Gives (hold_of ticket) }
        ensures { result ≡ hold_of ticket }
    {
        let Ticket {
            task,
            resource,
            serial,
        } = ticket;
        Hold {
            task,
            resource,
            serial,
            spent: false,
        }
    }

    // The task that holds.
    pub(crate) fn task(&self) -> u32
        ensures { result ≡ self.now.task }
    {
        self.task
    }

    // The serial of the request by which it holds.
    pub(crate) fn serial(&self) -> u32
        ensures { result ≡ self.now.serial }
    {
        self.serial
    }

    // Spends the hold, so that it may be let go.
    pub(crate) fn spend(&mut self)
        ensures { self.new ≡ spent_hold self.old }
    {
        self.spent = true;
    }
}
