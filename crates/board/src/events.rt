ghost use Rattle.std.specs.Prelude.{◌≡◌, false, MatchOption};
ghost use Rattle.jobs.specs.declared.state.TaskState.TheVariants.{Holding};
ghost use Rattle.jobs.specs.Jobs.{is_holding};
ghost use Rattle.board.specs.Calls.{row};
ghost use Rattle.board.specs.Events.{refused, event_record, verdict, Stepped};

use crate::board::Board;
use crate::event::TaskEvent;
use jobs::{ResourceNo, TaskNo, TaskState};
use runs::Refusal;

impl Board {
    // Whether an event of a task's job would be accepted, or why not.
    pub fn may(&self, task: TaskNo, event: TaskEvent) -> Result<(), Refusal>
        ensures { result ≡ verdict (refused self.now task.number event) }
    {
        let mut record = self.record(task);
        record.step(event, self.runs(task))
    }

    // An event of a task's job: its record is lent to the record's own step, and
    // kept where that accepts the event.
    pub fn step(&mut self, task: TaskNo, event: TaskEvent) -> Result<(), Refusal>
        ensures told { result ≡ verdict (refused self.old task.number event) }
        ensures left { Stepped (refused self.old task.number event) self.old task.number (event_record (row self.old task.number) event) self.new }
    {
        let mut record = self.record(task);
        let runs = self.runs(task);
        record.step(event, runs)?;
        self.put(task, record);
        Ok(())
    }

    // The resource that a task's job holds, if any.
    pub fn held(&self, task: TaskNo) -> Option<ResourceNo>
        ensures { MatchOption result (is_holding (row self.now task.number).state ≡ false) (λ r. (row self.now task.number).state ≡ Holding r.number) }
    {
        match self.record(task).state {
            TaskState::Holding(r) => ResourceNo::new(r),
            _ => None,
        }
    }
}
