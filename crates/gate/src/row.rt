ghost use Rattle.std.specs.Prelude.{◌≡◌, ℕ, ◌<◌, false, ◌&&◌, nat_lt, slice_index, slice_index_or};
ghost use Rattle.orders.specs.Orders.{asked};
ghost use Rattle.gate.specs.Gates.{fresh_row, Put};

// Which tasks wait in the gate for one resource, and under each task's number the code
// that it came with last. A table of options would lose the code of a task that waits no
// more, which a pass promises to leave as it is, and is larger by three quarters.
#[derive(Clone, Copy)]
pub struct Row {
    pub(crate) waits: [bool; 64],
    pub(crate) codes: [u64; 64],
}

impl Row {
    // Nobody waits.
    pub(crate) fn empty() -> Row
        ensures { result ≡ fresh_row }
    {
        Row {
            waits: [false; 64],
            codes: [0; 64],
        }
    }

    // The code of a task that waits, or none.
    pub(crate) fn code(&self, task: u32) -> Option<u64>
        ensures { result ≡ asked (nat_lt task 64 && slice_index_or self.now.waits task false) (slice_index self.now.codes task) }
    {
        if *self.waits.get(task as usize)? {
            Some(self.codes[task as usize])
        } else {
            None
        }
    }

    // A task comes to wait, with its code; with none, it waits no more. The gate has tested
    // the number or has it from the order; a type for it would be made for these calls.
    pub(crate) fn put(&mut self, task: u32, code: Option<u64>)
        requires { task < 64 }
        ensures { Put self.old task code self.new }
    {
        self.waits[task as usize] = code.is_some();
        if let Some(code) = code {
            self.codes[task as usize] = code;
        }
    }

    // Nobody waits any more.
    pub(crate) fn clear(&mut self)
        ensures marks { (u : ℕ) → slice_index_or self.new.waits u false ≡ false }
        ensures codes { self.new.codes ≡ self.old.codes }
    {
        self.waits = [false; 64];
    }
}
