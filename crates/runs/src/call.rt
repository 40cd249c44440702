// A call of the kernel; D is what is declared for a task.
#[derive(Clone, Copy, Debug, PartialEq, Eq)]
pub enum Call<D> {
    Arrive(u32, D),
    Request(u32, u32),
    Release(u32),
    Finish(u32),
    Tick,
}

// What an accepted call answers: the count told at a request, else 0; the next
// holder after a release, if there is one. All calls have this one shape, so that
// every call with every answer is an event.
#[derive(Clone, Copy, Debug, PartialEq, Eq)]
pub struct Accepted {
    pub told: u32,
    pub next: Option<u32>,
}
