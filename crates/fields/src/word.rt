// The words that a field may have in place of a number.
#[derive(Clone, Copy, Debug, PartialEq, Eq)]
pub enum Word {
    Fifo,
    Gate,
    Deadline,
    Fixed,
    Arrive,
    Request,
    Release,
    Finish,
    Tick,
}
