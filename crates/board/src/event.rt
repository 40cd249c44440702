use jobs::ResourceNo;

// What can happen to a task's job.
#[derive(Clone, Copy, Debug, PartialEq, Eq)]
pub enum TaskEvent {
    // It arrives, with the code of its key.
    Arrive(u64),
    // It is admitted for a resource, granted or not, and told a count in both cases.
    Request {
        resource: ResourceNo,
        granted: bool,
        told: u32,
    },
    // It lays down what it holds.
    Release,
    Finish,
}
