ghost use Rattle.std.specs.Prelude.{ℕ, ◌≤◌, slice_index_or};
ghost use Rattle.board.specs.Boards.{blank, unheld, Run, Blocked};

use crate::record::ResourceRecord;
use crate::table::Table;

// The records of 64 tasks and 32 resources on some cores, the ticks counted, and
// which jobs run and which are blocked. The ghost fields say that these are right,
// and that no count of ticks in a record is above the board's.
//
// Who runs is handed out whole, so it stays a set beside the table, by task number;
// so does who is blocked, since a record is handed out too and tells neither.
#[derive(Drop)]
pub struct Board {
    pub(crate) cores: u32,
    pub(crate) ticks: u32,
    pub(crate) table: Table,
    pub(crate) holds: [ResourceRecord; 32],
    pub(crate) running: [bool; 64],
    pub(crate) blocked: [bool; 64],
    ghost runs: { Run table.rows cores running },
    ghost blocks: { Blocked table.rows cores blocked },
    ghost short: { (t : ℕ) → (slice_index_or table.rows t blank).blocked ≤ ticks },
    ghost brief: { (r : ℕ) → (slice_index_or holds r unheld).used ≤ ticks },
}
