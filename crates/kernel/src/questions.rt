ghost use Rattle.std.specs.Prelude.{◌≡◌, Some as Given};
ghost use Rattle.kernel.specs.Views.{task_answer, resource_answer, wait_answer, RunningNow};
ghost use Rattle.kernel.specs.Promises.{EachHistory, Waited};

use crate::kernel::Kernel;
use crate::wait::Wait;
use board::{ResourceRecord, TaskRecord};
use keys::KeyKind;
use orders::Order;
use runs::guarantee_stands;

impl<O: Order, K: KeyKind> Kernel<O, K> {
    // Who runs, by task number; none of an unchecked kernel.
    pub fn running(&self) -> Option<[bool; 64]>
        ensures { RunningNow self.now result }
    {
        self.limits?;
        Some(self.board.who_runs())
    }

    // What is kept of a task; none for a number outside.
    pub fn task_record(&self, task: u32) -> Option<TaskRecord>
        ensures { result ≡ task_answer self.now task }
    {
        self.task(task).ok().map(|no| self.board.record(no))
    }

    // What is kept of a resource, which is another record; none for a number outside.
    pub fn resource_record(&self, resource: u32) -> Option<ResourceRecord>
        ensures { result ≡ resource_answer self.now resource }
    {
        self.resource(resource).ok().map(|no| self.board.hold(no))
    }

    // A task's latest wait, with the figure that its blocked ticks never pass;
    // none for a number outside.
    pub fn latest_wait(&self, task: u32) -> Option<Wait>
        ensures told { result ≡ wait_answer self.now task }
        ensures within { (w : Wait) → result ≡ Given w → EachHistory O.Order K.KeyKind self.now (λ start h. Waited O.Order K.KeyKind self.now task w h) }
    {
        guarantee_stands::<O, K>();
        let record = self.task_record(task)?;
        let longest = self.board.longest(record.resource);
        Some(Wait {
            blocked: record.blocked,
            told: record.told,
            longest,
            figure: u64::from(record.told) * u64::from(longest),
        })
    }
}
