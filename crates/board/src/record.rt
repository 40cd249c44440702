ghost use Rattle.std.specs.Prelude.{◌≡◌, ◌-◌, ◌^◌, ◌<◌};
ghost use Rattle.jobs.specs.Jobs.{pending, active};
ghost use Rattle.board.specs.Boards.{blank, unheld, begun_hold, raised, ticked_hold, ticked};

use jobs::TaskState;
use orders::Rank;

// What is kept of a task: where its job stands, the code of its key, and of its
// last request the resource, the ticket's serial number, the count it was told
// and how many ticks the job was blocked since. At the start every number is 0.
#[derive(Clone, Copy, Debug, PartialEq, Eq)]
pub struct TaskRecord {
    pub state: TaskState,
    pub code: u64,
    pub resource: u32,
    pub serial: u32,
    pub told: u32,
    pub blocked: u32,
}

impl TaskRecord {
    // The record of a task that has asked for nothing and has no job.
    pub(crate) fn new() -> TaskRecord
        ensures { result ≡ blank }
    {
        TaskRecord {
            state: TaskState::Idle,
            code: 0,
            resource: 0,
            serial: 0,
            told: 0,
            blocked: 0,
        }
    }

    // The job arrived and has not finished.
    pub(crate) fn is_pending(&self) -> bool
        ensures { result ≡ pending self.now.state }
    {
        self.state != TaskState::Idle
    }

    // The job is ready or holding, so it could run.
    pub(crate) fn is_active(&self) -> bool
        ensures { result ≡ active self.now.state }
    {
        matches!(self.state, TaskState::Ready | TaskState::Holding(_))
    }

    // The rank of the job, where the record is that of the task: its place in the table.
    pub(crate) fn rank(&self, task: usize) -> Rank
        requires { task < 64 }
        ensures { result ≡ record { code = self.now.code; task = task } }
    {
        Rank {
            code: self.code,
            task: task as u32,
        }
    }

    // One tick more, which finds the job blocked or not.
    pub(crate) fn tick(&mut self, blocked: bool)
        requires { self.old.blocked < 2 ^ 32 - 1 }
        ensures { self.new ≡ ticked blocked self.old }
    {
        if blocked {
            self.blocked += 1;
        }
    }
}

// What is kept of a resource: how many ticks the present hold was in use, and
// the most that any hold was.
#[derive(Clone, Copy, Debug, PartialEq, Eq)]
pub struct ResourceRecord {
    pub used: u32,
    pub longest: u32,
}

impl ResourceRecord {
    // The record of a resource that nobody has held.
    pub(crate) fn new() -> ResourceRecord
        ensures { result ≡ unheld }
    {
        ResourceRecord {
            used: 0,
            longest: 0,
        }
    }

    // A hold begins.
    pub(crate) fn start(&mut self)
        ensures { self.new ≡ begun_hold self.old }
    {
        self.used = 0;
    }

    // One tick more, which finds the resource in use or not.
    pub(crate) fn count(&mut self, used: bool)
        requires { self.old.used < 2 ^ 32 - 1 }
        ensures { self.new ≡ ticked_hold used self.old }
    {
        if used {
            self.used += 1;
            self.raise();
        }
    }

    // The longest hold is at least as long as the present one.
    fn raise(&mut self)
        ensures { self.new ≡ raised self.old }
    {
        self.longest = self.longest.max(self.used);
    }
}
