ghost use Rattle.std.specs.Prelude.{◌≡◌, ℕ, ◌<◌, ◌≤◌, slice_index, slice_index_or};
ghost use Rattle.jobs.specs.Ranks.{total};
ghost use Rattle.board.specs.Boards.{blank, Run, Blocked};
ghost use Rattle.board.specs.Settling.{inherited, Foremost, Ranked, Shared};

use crate::table::Table;
use jobs::TaskState;
use std::array;

impl Table {
    // For each resource, how many are ahead of the best-ranked of the jobs that wait
    // for it; where nobody waits it is 64, which no job has ahead, so that `min` needs
    // no case.
    fn least_waiting(&self) -> [u32; 32]
        ensures { Foremost self.now.rows result }
    {
        let mut best = [64; 32];
        for (row, ahead) in self.rows.iter().zip(&self.ahead) {
            if let TaskState::Waiting(resource) = row.state {
                let r = resource as usize;
                best[r] = best[r].min(*ahead);
            }
        }
        best
    }

    // What job k, at its place in the table, ranks as: a holder inherits the rank of
    // the best of those that wait for what it holds, where that is better than its own.
    fn inherit(&self, k: usize, best: &[u32; 32]) -> u32
        requires { k < 64 }
        ensures { result ≡ inherited (slice_index_or self.now.rows k blank).state (slice_index self.now.ahead k) best.now }
    {
        let own = self.ahead[k];
        match self.rows[k].state {
            TaskState::Holding(resource) => own.min(best[resource as usize]),
            _ => own,
        }
    }

    // The effective rank of each job.
    fn effective_ranks(&self) -> [u32; 64]
        ensures { Ranked self.now.rows result }
    {
        let best = self.least_waiting();
        array::from_fn(|k| self.inherit(k, &best))
    }

    // How many ready or holding jobs have each effective rank.
    fn count_ranks(&self, ranks: &[u32; 64]) -> [u32; 64]
        requires { Ranked self.now.rows ranks.now }
        ensures { Shared self.now.rows result }
    {
        let mut counts = [0; 64];
        for (row, rank) in self.rows.iter().zip(ranks) {
            if row.is_active() {
                counts[*rank as usize] += 1;
            }
        }
        counts
    }

    // Which jobs run, by their effective ranks and how many have a lesser one.
    pub(crate) fn running_set(&self, cores: u32) -> [bool; 64]
        ensures { Run self.now.rows cores result }
    {
        let ranks = self.effective_ranks();
        let before = sums_before(&self.count_ranks(&ranks));
        array::from_fn(|k| self.rows[k].is_active() && before[ranks[k] as usize] < cores)
    }

    // Which jobs are blocked: a job is if it is pending and does not run, though
    // fewer than `cores` pending jobs are ahead of it.
    pub(crate) fn blocked_set(&self, running: &[bool; 64], cores: u32) -> [bool; 64]
        requires { Run self.now.rows cores running.now }
        ensures { Blocked self.now.rows cores result }
    {
        array::from_fn(|k| self.rows[k].is_pending() && !running[k] && self.ahead[k] < cores)
    }
}

// The sum of the counts before each place.
fn sums_before(counts: &[u32; 64]) -> [u32; 64]
    requires { (p : ℕ) → p < 64 → slice_index counts.now p ≤ 64 }
    ensures { (p : ℕ) → p < 64 → slice_index result p ≡ total (λ x. slice_index counts.now x) p }
{
    let mut sums = [0; 64];
    let mut sum = 0;
    // `iter_mut().zip(..)` was tried: the check knows nothing of what it writes.
    for (p, count) in counts.iter().enumerate() {
        sums[p] = sum;
        sum += *count;
    }
    sums
}
