ghost use Rattle.std.specs.Prelude.{◌≡◌, ◌≤◌, true, IsOk, IsErr};
ghost use Rattle.jobs.specs.declared.state.TaskState.TheVariants.{Holding};
ghost use Rattle.board.specs.Boards.{turned, begun_hold, named};
ghost use Rattle.board.specs.Calls.{row, hold as hold_of, New, Put, PutHold, Ticked};
ghost use Rattle.board.specs.Events.{verdict, tick_refusal};

use crate::board::Board;
use crate::record::{ResourceRecord, TaskRecord};
use crate::table::Table;
use crate::tick::tick_holds;
use jobs::{ResourceNo, TaskNo, TaskState};
use runs::Refusal;

impl Board {
    // A board for some cores, with no job on it and nothing counted yet.
    pub fn new(cores: u32) -> Board
        ensures { New cores result }
    {
        Board {
            cores,
            ticks: 0,
            table: Table::new(),
            holds: [ResourceRecord::new(); 32],
            running: [false; 64],
            blocked: [false; 64],
        }
    }

    // Changes the record of a task, and with it who runs and who is blocked.
    pub(crate) fn put(&mut self, task: TaskNo, new: TaskRecord)
        requires named { named new.state ≡ true }
        requires short { new.blocked ≤ self.old.ticks }
        ensures { Put self.old task.number new self.new }
    {
        self.table.put(task, new);
        self.running = self.table.running_set(self.cores);
        self.blocked = self.table.blocked_set(&self.running, self.cores);
    }

    // A task's job comes to hold a resource: only its state changes.
    pub fn grant(&mut self, task: TaskNo, resource: ResourceNo)
        ensures { Put self.old task.number (turned (row self.old task.number) (Holding resource.number)) self.new }
    {
        let mut new = self.record(task);
        new.state = TaskState::Holding(resource.get());
        self.put(task, new);
    }

    // A hold of a resource begins.
    pub fn start_hold(&mut self, resource: ResourceNo)
        ensures { PutHold self.old resource.number (begun_hold (hold_of self.old resource.number)) self.new }
    {
        self.holds[resource.get() as usize].start();
    }

    // Counts a tick: for each blocked job, and for the hold of each resource whose
    // holder runs. Refused where the count of ticks is at its last number.
    pub fn tick(&mut self) -> Result<(), Refusal>
        ensures told { result ≡ verdict (tick_refusal self.old) }
        ensures stays { IsErr result → self.new ≡ self.old }
        ensures goes { IsOk result → Ticked self.old self.new }
    {
        let ticks = self.ticks.checked_add(1).ok_or(Refusal::CountSpent)?;
        let used = self.table.tick(&self.running, &self.blocked);
        tick_holds(&mut self.holds, &used);
        self.ticks = ticks;
        Ok(())
    }
}
