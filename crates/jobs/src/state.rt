use std::fmt;

// Where a task's job stands; waiting and holding name the resource.
#[derive(Clone, Copy, Debug, PartialEq, Eq)]
pub enum TaskState {
    // No job is pending.
    Idle,
    Ready,
    Waiting(u32),
    Holding(u32),
}

impl fmt::Display for TaskState {
    ghost use Rattle.std.specs.Prelude.{Some};
    ghost use Rattle.jobs.specs.States.{state_word};

    ghost output = { λ s. Some (state_word s) };

    // How the job stands, in a word.
    fn fmt<W: fmt::Write>(&self, f: &mut fmt::Formatter<W>) -> fmt::Result {
        f.write_str(match self {
            TaskState::Idle => "idle",
            TaskState::Ready => "ready",
            TaskState::Waiting(_) => "waiting",
            TaskState::Holding(_) => "holding",
        })
    }
}
