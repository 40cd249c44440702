ghost use Rattle.std.specs.Prelude.{◌≡◌, string_bytes};
ghost use Rattle.transcript.specs.Rows.{Added};
ghost use Rattle.kernel.specs.Views.{facts_of, state_of, made_of, task_answer};
ghost use Rattle.event_run.specs.Outputs.{holding, first, task_rows, resource_rows};

use jobs::TaskState;
use kernel::{Facts, Kernel};
use keys::KeyKind;
use orders::Order;
use std::alloc::AllocError;
use transcript::{add_resource, add_task};

// The rows of all tasks.
pub(crate) fn add_tasks<O: Order, K: KeyKind>(
    kernel: &Kernel<O, K>,
    facts: Facts,
    text: &mut String,
) -> Result<(), AllocError>
    requires { facts_of kernel.now ≡ made_of facts.cores facts.tasks facts.resources }
    ensures { Added result (string_bytes text.old) (string_bytes text.new) (task_rows (state_of kernel.now).jobs.state (state_of kernel.now).lost facts.tasks) }
{
    for task in 0..facts.tasks {
        let record = kernel.task_record(task).unwrap();
        add_task(text, task, record.state, record.blocked)?;
    }
    Ok(())
}

// Whether the task holds the resource.
fn holds<O: Order, K: KeyKind>(kernel: &Kernel<O, K>, task: u32, resource: u32) -> bool
    ensures { result ≡ holding resource (task_answer kernel.now task) }
{
    kernel
        .task_record(task)
        .is_some_and(|record| record.state == TaskState::Holding(resource))
}

// The holder of a resource among so many tasks, if there is one.
fn holder_of<O: Order, K: KeyKind>(kernel: &Kernel<O, K>, resource: u32, tasks: u32) -> Option<u32>
    ensures { result ≡ first (λ t. holding resource (task_answer kernel.now t)) tasks }
{
    (0..tasks).find(|task| holds(kernel, *task, resource))
}

// The rows of all resources.
pub(crate) fn add_resources<O: Order, K: KeyKind>(
    kernel: &Kernel<O, K>,
    facts: Facts,
    text: &mut String,
) -> Result<(), AllocError>
    requires { facts_of kernel.now ≡ made_of facts.cores facts.tasks facts.resources }
    ensures { Added result (string_bytes text.old) (string_bytes text.new) (resource_rows (state_of kernel.now).jobs.state (state_of kernel.now).longest facts.tasks facts.resources) }
{
    for resource in 0..facts.resources {
        let holder = holder_of(kernel, resource, facts.tasks);
        let record = kernel.resource_record(resource).unwrap();
        add_resource(text, resource, holder, record.longest)?;
    }
    Ok(())
}
