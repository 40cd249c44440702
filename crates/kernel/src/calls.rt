ghost use Rattle.runs.specs.declared.call.Call.TheVariants.{Arrive, Request, Release, Finish, Tick};
ghost use Rattle.kernel.specs.Views.{done, counted, handed, BelowTasks, HandedOver};
ghost use Rattle.kernel.specs.Promises.{Took};

use crate::kernel::Kernel;
use board::{Board, TaskEvent};
use jobs::{ResourceNo, TaskNo};
use keys::KeyKind;
use orders::Order;
use runs::Refusal;

// The next holder, if there is one, holds the resource, and the used ticks start again.
fn hand_over(board: &mut Board, next: Option<u32>, held: ResourceNo)
    requires { BelowTasks next }
    ensures { HandedOver board.old next held.number board.new }
{
    board.start_hold(held);
    if let Some(heir) = next.and_then(TaskNo::new) {
        board.grant(heir, held);
    }
}

impl<O: Order, K: KeyKind> Kernel<O, K> {
    // A job of the task arrives, with what is declared for it.
    pub fn arrive(&mut self, task: u32, declared: K::Declared) -> Result<(), Refusal>
        ensures { Took O.Order K.KeyKind self.old (Arrive task declared) (done result) self.new }
    {
        let no = self.task(task)?;
        self.board.may(no, TaskEvent::Arrive(0))?;
        let code = K::code_at(declared, self.board.now()).ok_or(Refusal::OutOfRange)?;
        self.board.step(no, TaskEvent::Arrive(code))
    }

    // The task's job asks for a resource; answers the count told.
    pub fn request(&mut self, task: u32, resource: u32) -> Result<u32, Refusal>
        ensures { Took O.Order K.KeyKind self.old (Request task resource) (counted result) self.new }
    {
        let no = self.task(task)?;
        let wanted = self.resource(resource)?;
        self.board.may(
            no,
            TaskEvent::Request {
                resource: wanted,
                granted: false,
                told: 0,
            },
        )?;
        let own = self.board.record(no);
        self.order.admit(resource, task, own.code)?;
        let granted = self.order.holder(resource) == Some(task);
        let told = self.order.count(resource, task).unwrap_or(0);
        // `may` accepts the request whatever is granted and told: no need to look.
        let _ = self.board.step(
            no,
            TaskEvent::Request {
                resource: wanted,
                granted,
                told,
            },
        );
        Ok(told)
    }

    // The task's job lays down what it holds; answers the next holder, if any.
    pub fn release(&mut self, task: u32) -> Result<Option<u32>, Refusal>
        ensures { Took O.Order K.KeyKind self.old (Release task) (handed result) self.new }
    {
        let no = self.task(task)?;
        self.board.may(no, TaskEvent::Release)?;
        let held = self.board.held(no).ok_or(Refusal::HoldsNothing)?;
        let next = self.order.pass(held.get())?;
        // `may` has just accepted it: no need to look.
        let _ = self.board.step(no, TaskEvent::Release);
        hand_over(&mut self.board, next, held);
        Ok(next)
    }

    // The task's job is over.
    pub fn finish(&mut self, task: u32) -> Result<(), Refusal>
        ensures { Took O.Order K.KeyKind self.old (Finish task) (done result) self.new }
    {
        let no = self.task(task)?;
        self.board.step(no, TaskEvent::Finish)
    }

    // A tick passes.
    pub fn tick(&mut self) -> Result<(), Refusal>
        ensures { Took O.Order K.KeyKind self.old Tick (done result) self.new }
    {
        self.limits.ok_or(Refusal::Unchecked)?;
        self.board.tick()
    }
}
