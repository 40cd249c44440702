// A task's latest wait: its blocked ticks, the count told at the request, the
// longest hold so far of the resource requested, and the figure told × longest,
// which the blocked ticks never pass.
#[derive(Clone, Copy, Debug, PartialEq, Eq)]
pub struct Wait {
    pub blocked: u32,
    pub told: u32,
    pub longest: u32,
    pub figure: u64,
}
