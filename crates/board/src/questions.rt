ghost use Rattle.std.specs.Prelude.{◌≡◌};
ghost use Rattle.board.specs.Boards.{Run};
ghost use Rattle.board.specs.Calls.{row, hold as hold_of, runs as runs_in};

use crate::board::Board;
use crate::record::{ResourceRecord, TaskRecord};
use jobs::{ResourceNo, TaskNo};

impl Board {
    // How many ticks were counted.
    pub fn now(&self) -> u32
        ensures { result ≡ self.now.ticks }
    {
        self.ticks
    }

    // What is kept of a task.
    pub fn record(&self, task: TaskNo) -> TaskRecord
        ensures { result ≡ row self.now task.number }
    {
        self.table.rows[task.get() as usize]
    }

    // What is kept of a resource.
    pub fn hold(&self, resource: ResourceNo) -> ResourceRecord
        ensures { result ≡ hold_of self.now resource.number }
    {
        self.holds[resource.get() as usize]
    }

    // Whether a task's job runs.
    pub fn runs(&self, task: TaskNo) -> bool
        ensures { result ≡ runs_in self.now task.number }
    {
        self.running[task.get() as usize]
    }

    // Which tasks' jobs run.
    pub fn who_runs(&self) -> [bool; 64]
        ensures { Run self.now.table.rows self.now.cores result }
    {
        self.running
    }

    // The longest hold of a resource so far; 0 for a number that no resource has, which
    // nobody can have held.
    pub fn longest(&self, resource: u32) -> u32
        ensures { result ≡ (hold_of self.now resource).longest }
    {
        self.holds
            .get(resource as usize)
            .map_or(0, |hold| hold.longest)
    }
}
