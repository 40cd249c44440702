// Where a task stands with respect to a resource, with its count where it waits.
#[derive(Clone, Copy, Debug, PartialEq, Eq)]
pub enum Standing {
    // It is not queued.
    Away,
    Holds,
    // It waits in the order below the gate.
    Below(u32),
    // It waits in the gate, and a task below is not ahead of it.
    InGate(u32),
    // It waits in the gate, and every task below is ahead of it.
    Covered(u32),
}
