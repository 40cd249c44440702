ghost use Rattle.std.specs.Prelude.{◌≡◌, true};
ghost use Rattle.first_come.specs.Entries.{proper, Seated};

use arrayvec::ArrayVec;

// A task in line, with the code that it was admitted with.
#[derive(Clone, Copy, Debug, Default, PartialEq, Eq)]
pub struct Entry {
    pub(crate) task: u32,
    pub(crate) code: u64,
}

// The tasks in line for one resource, the first in line at place 0. Under the
// number of each task in line, `seats` has its place, so that no question walks
// the line; under any other number it may have anything. The ghost fields say
// that each task in line is below 64 and in it once, and that the seats are right.
#[derive(Drop)]
pub struct Line {
    entries: ArrayVec<Entry, 64>,
    seats: [u32; 64],
    ghost neat: { proper entries.items ≡ true },
    ghost seated: { Seated entries.items seats },
}

impl Default for Line {
    ghost use Rattle.first_come.specs.Lines.{fresh_line};

    ghost is_default = { λ l. l ≡ fresh_line };

    // A line with nobody in it.
    fn default() -> Line {
        Line {
            entries: ArrayVec::new(),
            seats: [0; 64],
        }
    }
}

// Gives each task in line its place as its seat.
fn reseat(entries: &ArrayVec<Entry, 64>, seats: &mut [u32; 64])
    requires { proper entries.now.items ≡ true }
    ensures { Seated entries.now.items seats.new }
{
    for (place, entry) in entries.iter().enumerate() {
        seats[entry.task as usize] = place as u32;
    }
}

impl Line {
    ghost use Rattle.std.specs.Prelude.{◌<◌, false, [], ◌∷◌, ◌++◌, length, drop};
    ghost use Rattle.orders.specs.Orders.{asked};
    ghost use Rattle.first_come.specs.Lines.{waiting, has, place, code_of, leader};

    // How many are in line.
    pub(crate) fn len(&self) -> u32
        ensures { result ≡ length (waiting self.now) }
    {
        self.entries.len() as u32
    }

    // The first in line, or none.
    pub(crate) fn first(&self) -> Option<u32>
        ensures { result ≡ leader (waiting self.now) }
    {
        self.entries.first().map(|entry| entry.task)
    }

    // The place of a task in line, or none. Its seat says where to look; a seat
    // may be left from earlier, so the task must really stand there.
    pub(crate) fn find(&self, task: u32) -> Option<u32>
        ensures { result ≡ asked (has task (waiting self.now)) (place task (waiting self.now)) }
    {
        let seat = *self.seats.get(task as usize)?;
        let entry = self.entries.get(seat as usize)?;
        (entry.task == task).then_some(seat)
    }

    // The code of a task in line, or none.
    pub(crate) fn code(&self, task: u32) -> Option<u64>
        ensures { result ≡ asked (has task (waiting self.now)) (code_of task (waiting self.now)) }
    {
        let place = self.find(task)?;
        Some(self.entries[place as usize].code)
    }

    // Adds a task that is not in line at the end. `admit` has just tested the number; a
    // type for it would be made for this one call.
    pub(crate) fn join(&mut self, task: u32, code: u64)
        requires room { length (waiting self.old) < 64 }
        requires known { task < 64 }
        requires new { has task (waiting self.old) ≡ false }
        ensures { waiting self.new ≡ waiting self.old ++ (record { task = task; code = code } ∷ []) }
    {
        self.seats[task as usize] = self.len();
        self.entries.push(Entry { task, code });
    }

    // Takes the first task away; each other one moves up by one place, and its
    // seat with it.
    pub(crate) fn leave(&mut self)
        requires { 0 < length (waiting self.old) }
        ensures { waiting self.new ≡ drop 1 (waiting self.old) }
    {
        self.entries.remove(0);
        reseat(&self.entries, &mut self.seats);
    }
}
