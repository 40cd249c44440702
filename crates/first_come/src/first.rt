ghost use Rattle.std.specs.Prelude.{ℕ, ◌≤◌, length, slice_index_or};
ghost use Rattle.first_come.specs.Lines.{empty, waiting};

use crate::line::Line;

// First come, first served: a line of tasks for each of 32 resources, none
// longer than there are places.
#[derive(Drop)]
pub struct FirstCome {
    pub(crate) width: u32,
    pub(crate) places: u32,
    pub(crate) lines: [Line; 32],
    ghost few: { places ≤ 64 },
    ghost fits: { (r : ℕ) → length (waiting (slice_index_or lines r empty)) ≤ places },
}
