ghost use Rattle.std.specs.Prelude.{string_bytes};
ghost use Rattle.transcript.specs.Rows.{Added, start_row, event_row, task_row, resource_row};

use jobs::TaskState;
use std::alloc::AllocError;

// The first row: 0 where the run begins, else the number of what was refused.
pub fn add_start(text: &mut String, number: u32) -> Result<(), AllocError>
    ensures { Added result (string_bytes text.old) (string_bytes text.new) (start_row number) }
{
    writeln!(text, "start={number}")
}

// The row of the n-th line after the header.
pub fn add_event(
    text: &mut String,
    n: u64,
    answer: u32,
    running: u64,
    told: u32,
) -> Result<(), AllocError>
    ensures { Added result (string_bytes text.old) (string_bytes text.new) (event_row n answer running told) }
{
    writeln!(text, "n={n} ans={answer} run={running} told={told}")
}

// The row of a task at the end.
pub fn add_task(
    text: &mut String,
    task: u32,
    state: TaskState,
    blocked: u32,
) -> Result<(), AllocError>
    ensures { Added result (string_bytes text.old) (string_bytes text.new) (task_row task state blocked) }
{
    writeln!(text, "task={task} state={state} blocked={blocked}")
}

// The row of a resource at the end.
pub fn add_resource(
    text: &mut String,
    resource: u32,
    holder: Option<u32>,
    longest: u32,
) -> Result<(), AllocError>
    ensures { Added result (string_bytes text.old) (string_bytes text.new) (resource_row resource holder longest) }
{
    match holder {
        Some(task) => writeln!(text, "res={resource} holder={task} longest={longest}"),
        None => writeln!(text, "res={resource} holder=none longest={longest}"),
    }
}
