ghost use Rattle.std.specs.Prelude.{◌≡◌, ℕ, true, length, slice_set, slice_index_or};
ghost use Rattle.board.specs.Boards.{blank, named, Known, Counted};

use crate::demand::recount;
use crate::record::TaskRecord;
use jobs::TaskNo;

// The records of the 64 tasks, and how many pending jobs are ahead of the job of
// each: these counts stand beside the records, which are handed out whole. The
// ghost fields say that no record names a resource that there is not, and that the
// counts are right. `long` repeats the table's length for who has it by reference.
#[derive(Drop)]
pub(crate) struct Table {
    pub(crate) rows: [TaskRecord; 64],
    pub(crate) ahead: [u32; 64],
    ghost long: { length rows ≡ 64 },
    ghost known: { Known rows },
    ghost counted: { Counted rows ahead },
}

impl Table {
    // The table of tasks that have asked for nothing and have no job.
    pub(crate) fn new() -> Table
        ensures { (k : ℕ) → slice_index_or result.rows k blank ≡ blank }
    {
        Table {
            rows: [TaskRecord::new(); 64],
            ahead: [0; 64],
        }
    }

    // Changes the record of a task.
    pub(crate) fn put(&mut self, task: TaskNo, new: TaskRecord)
        requires { named new.state ≡ true }
        ensures { self.new.rows ≡ slice_set self.old.rows task.number new }
    {
        let t = task.get() as usize;
        let old = self.rows[t];
        self.rows[t] = new;
        recount(&self.rows, &mut self.ahead, task, old);
    }
}
