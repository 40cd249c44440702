ghost use Rattle.std.specs.Prelude.{ℕ, ◌-◌, ◌^◌, ◌<◌, false, get_or, slice_index_or};
ghost use Rattle.board.specs.Boards.{blank, unheld, ticked, ticked_hold, Done, Used};

use crate::record::ResourceRecord;
use crate::table::Table;
use jobs::TaskState;

impl Table {
    // One tick more for each task that is blocked. Tells which resources are held by
    // a job that runs.
    pub(crate) fn tick(&mut self, running: &[bool; 64], blocked: &[bool; 64]) -> [bool; 32]
        requires { (k : ℕ) → (get_or self.old.rows k blank).blocked < 2 ^ 32 - 1 }
        ensures rows { Done (λ k x. ticked (slice_index_or blocked.now k false) x) blank self.old.rows self.new.rows 64 }
        ensures used { Used self.old.rows running.now result }
    {
        let mut used = [false; 32];
        // `iter_mut().zip(..)` was tried: the check knows nothing of what it writes.
        for (k, row) in self.rows.iter_mut().enumerate() {
            if let TaskState::Holding(resource) = row.state {
                used[resource as usize] |= running[k];
            }
            row.tick(blocked[k]);
        }
        used
    }
}

// One tick more for the present hold of each resource that is in use.
pub(crate) fn tick_holds(holds: &mut [ResourceRecord; 32], used: &[bool; 32])
    requires { (r : ℕ) → (get_or holds.old r unheld).used < 2 ^ 32 - 1 }
    ensures { Done (λ r x. ticked_hold (slice_index_or used.now r false) x) unheld holds.old holds.new 32 }
{
    // `iter_mut().zip(..)` was tried: the check knows nothing of what it writes.
    for (r, hold) in holds.iter_mut().enumerate() {
        hold.count(used[r]);
    }
}
