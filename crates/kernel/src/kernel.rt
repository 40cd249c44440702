use crate::facts::Limits;
use board::Board;
use keys::KeyKind;
use orders::Order;

// A kernel: its limits, unless check refused its facts, the records of its tasks
// and resources, its order of service, and its kind of key.
#[derive(Drop)]
pub struct Kernel<O: Order, K: KeyKind> {
    pub(crate) limits: Option<Limits>,
    pub(crate) board: Board,
    pub(crate) order: O,
    pub(crate) kind: K,
}
