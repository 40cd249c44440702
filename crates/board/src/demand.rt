ghost use Rattle.std.specs.Prelude.{◌≡◌, ◌+◌, ◌≤◌, ◌&&◌, if◌then◌else◌, slice_set};
ghost use Rattle.orders.specs.Counting.{ahead as is_ahead};
ghost use Rattle.jobs.specs.Jobs.{pending, demand as demand_of};
ghost use Rattle.board.specs.Boards.{jobs_of, Counted};

use crate::record::TaskRecord;
use jobs::TaskNo;
use orders::Rank;

// The job of `rival`, which has the rank `rank`, is pending and ahead of a job of
// rank `own`.
fn is_before(rival: &TaskRecord, rank: Rank, own: Rank) -> bool
    ensures { result ≡ (pending rival.now.state && is_ahead rank.code rank.task own.code own.task) }
{
    rival.is_pending() && rank.is_ahead_of(own)
}

// How many pending jobs are ahead of the job of a task.
fn demand(rows: &[TaskRecord; 64], task: TaskNo) -> u32
    ensures { result ≡ demand_of (jobs_of rows.now) task.number }
{
    let t = task.get() as usize;
    let own = rows[t].rank(t);
    let ahead = rows
        .iter()
        .enumerate()
        .filter(|(i, rival)| is_before(rival, rival.rank(*i), own))
        .count();
    ahead as u32
}

// A count that loses one, gains one, both or neither.
fn shifted(count: u32, lost: bool, gained: bool) -> u32
    requires { ((if lost then 1 else 0) ≤ count) × (count ≤ 64) }
    ensures { result + (if lost then 1 else 0) ≡ count + (if gained then 1 else 0) }
{
    count - u32::from(lost) + u32::from(gained)
}

// Keeps the counts of the pending jobs ahead, where they are those of the table
// `rows` with `old` as the record of `task`.
pub(crate) fn recount(rows: &[TaskRecord; 64], ahead: &mut [u32; 64], task: TaskNo, old: TaskRecord)
    requires { Counted (slice_set rows.now task.number old) ahead.old }
    ensures { Counted rows.now ahead.new }
{
    let t = task.get() as usize;
    let new = rows[t];
    // Where the job is as pending as it was, with the same code, no count changes.
    if old.is_pending() == new.is_pending() && old.code == new.code {
        return;
    }
    let (was, is) = (old.rank(t), new.rank(t));
    // `iter_mut().zip(..)` was tried: the check knows nothing of what it writes.
    for (k, count) in ahead.iter_mut().enumerate() {
        let own = rows[k].rank(k);
        *count = if k == t {
            demand(rows, task)
        } else {
            shifted(*count, is_before(&old, was, own), is_before(&new, is, own))
        };
    }
}
