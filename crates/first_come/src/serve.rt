ghost use Rattle.std.specs.Prelude.{◌≡◌, ℕ, ◌≤◌, false, length, replicate, slice_index_or, refl};
ghost use Rattle.orders.specs.Orders.{size};
ghost use Rattle.first_come.specs.Lines.{empty, fitting_places, fresh_line, waiting};
ghost use Rattle.first_come.specs.First.{first_meaning, FirstAdmitted, FirstPassed, line_of};
ghost use Rattle.first_come.specs.Lined.{lined_rules};
ghost use Rattle.first_come.specs.Firsts.{neat_of, first_admits, first_passes};

use crate::first::FirstCome;
use crate::line::Line;
use orders::{Order, OrderRefusal};

// The places of a line for `width` cores that is to have so many: none where
// one of the two numbers is out of range.
fn fitting(width: u32, places: u32) -> u32
    ensures told { result ≡ fitting_places width places }
    ensures few { result ≤ 64 }
{
    if (1..=16).contains(&width) && (1..=64).contains(&places) {
        places
    } else {
        0
    }
}

impl FirstCome {
    // An order for 1 to 16 cores with 1 to 64 places in each line, and nobody in
    // line. With other numbers it has no place at all.
    pub fn new(width: u32, places: u32) -> FirstCome
        ensures width { result.width ≡ width }
        ensures places { result.places ≡ fitting_places width places }
        ensures nobody { (r t : ℕ) → (first_meaning result).queued r t ≡ false }
        ensures lines { result.lines ≡ replicate 32 fresh_line }
    {
        let places = fitting(width, places);
        FirstCome {
            width,
            places,
            lines: Default::default(),
        }
    }

    // How many tasks are in line for a resource.
    fn length(&self, resource: u32) -> u32
        ensures long { result ≡ length (waiting (slice_index_or self.now.lines resource empty)) }
        ensures sized { result ≡ size (first_meaning self.now) resource }
    {
        self.lines.get(resource as usize).map_or(0, Line::len)
    }
}

impl Order for FirstCome {
    // What the order means: the first in line holds, and a task's count is its
    // place in line.
    ghost width = { λ s. (first_meaning s).width };

    ghost places = { λ s. (first_meaning s).places };

    ghost reach = { λ s. (first_meaning s).reach };

    ghost queue = { λ s. (first_meaning s).queued };

    ghost holder = { λ s. (first_meaning s).holder };

    ghost code = { λ s. (first_meaning s).code };

    ghost count = { λ s. (first_meaning s).count };

    ghost covered = { λ s. (first_meaning s).covered };

    // The newcomer goes to the end of the line; the first leaves it.
    ghost admitted = { FirstAdmitted };

    ghost passed = { FirstPassed };

    ghost rules = { λ s. lined_rules s.width s.places (line_of s) (neat_of s) };

    ghost admitting = { λ s r t c a z h. first_admits s r t c a z h };

    ghost passing = { λ s r a z h. first_passes s r a z h };

    ghost unadmitted = { λ s r t c e z h. h.refused e refl };

    ghost unpassed = { λ s r e z h. h.refused e refl };

    fn width(&self) -> u32 {
        self.width
    }

    fn places(&self) -> u32 {
        self.places
    }

    // So many are ahead of the last in a full line.
    fn reach(&self) -> u32 {
        self.places.saturating_sub(1)
    }

    // The first in line holds the resource.
    fn holder(&self, resource: u32) -> Option<u32> {
        self.lines.get(resource as usize)?.first()
    }

    fn queued(&self, resource: u32, task: u32) -> bool {
        self.count(resource, task).is_some()
    }

    fn code(&self, resource: u32, task: u32) -> Option<u64> {
        self.lines.get(resource as usize)?.code(task)
    }

    // Each task ahead in line holds the resource once before this one does.
    fn count(&self, resource: u32, task: u32) -> Option<u32> {
        self.lines.get(resource as usize)?.find(task)
    }

    // A line does not go by urgency, so nobody is covered.
    fn covered(&self, _resource: u32, _task: u32) -> bool {
        false
    }

    fn admit(&mut self, resource: u32, task: u32, urgency: u64) -> Result<(), OrderRefusal> {
        if resource >= 32 || task >= 64 {
            return Err(OrderRefusal::Unknown);
        }
        if self.queued(resource, task) {
            return Err(OrderRefusal::Queued);
        }
        if self.length(resource) == self.places {
            return Err(OrderRefusal::Full);
        }
        self.lines[resource as usize].join(task, urgency);
        Ok(())
    }

    // The first leaves; the second in line, if any, is then first and holds.
    fn pass(&mut self, resource: u32) -> Result<Option<u32>, OrderRefusal> {
        if resource >= 32 {
            return Err(OrderRefusal::Unknown);
        }
        self.holder(resource).ok_or(OrderRefusal::Empty)?;
        self.lines[resource as usize].leave();
        Ok(self.holder(resource))
    }
}
