// An accepted request: the task, the resource that it asked for, and which of its
// accepted requests it was. Only open makes one.
#[derive(Drop)]
pub struct Ticket {
    pub(crate) task: u32,
    pub(crate) resource: u32,
    pub(crate) serial: u32,
}
