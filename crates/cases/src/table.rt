// A bool here is the answer of a question that answers yes or no.

use runs::Refusal;

// First-come with tasks 0, 1 and 2 admitted: the count of each.
#[derive(Clone, Copy)]
pub struct LineCase {
    pub first: Option<u32>,
    pub second: Option<u32>,
    pub third: Option<u32>,
}

// A gate of width 2 with tasks 0, 1, 2, 3 admitted at codes 30, 20, 10, 5.
#[derive(Clone, Copy)]
pub struct GateCase {
    // The counts of tasks 2 and 3 as each is admitted.
    pub told_two: Option<u32>,
    pub told_three: Option<u32>,
    // After a pass: the holder, where task 3 is, and the count of task 2.
    pub first_holder: Option<u32>,
    pub three_in_gate: bool,
    pub count_three: Option<u32>,
    pub count_two: Option<u32>,
    // After another pass: the holder, where task 2 is, and its count.
    pub second_holder: Option<u32>,
    pub two_in_gate: bool,
    pub count_two_below: Option<u32>,
    // After a third pass: the holder.
    pub third_holder: Option<u32>,
}

// A gate of width 2 with codes 5, 6, 9: the third task, before and after a pass.
#[derive(Clone, Copy)]
pub struct CoveredCase {
    pub covered: bool,
    pub count: Option<u32>,
    pub in_gate_after: bool,
    pub count_after: Option<u32>,
}

// Codes of keys: tick and deadline both the last 32-bit number; band 1 level 255;
// band 2 level 0.
#[derive(Clone, Copy)]
pub struct KeyCase {
    pub last_due: Option<u64>,
    pub last_normal: Option<u64>,
    pub first_background: Option<u64>,
}

// A kernel with one core, two tasks and one resource: task 0 arrives, due at 90,
// and requests the resource; task 1 arrives, due at 10; and task 0 releases. What
// each call answers, and the number of the last refusal.
#[derive(Clone, Copy)]
pub struct ReleaseCase {
    pub first_arrival: Result<(), Refusal>,
    pub told: Result<u32, Refusal>,
    pub second_arrival: Result<(), Refusal>,
    pub release: Result<Option<u32>, Refusal>,
    pub release_number: Option<u32>,
}

#[derive(Clone, Copy)]
pub struct SmallCases {
    pub line: LineCase,
    pub gate: GateCase,
    pub covered: CoveredCase,
    pub key: KeyCase,
    pub release: ReleaseCase,
}
