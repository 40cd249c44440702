ghost use Rattle.std.specs.Prelude.{◌≡◌, ℕ, false, refl};
ghost use Rattle.double_line.specs.Doubled.{double_meaning, DoubleAdmitted, DoublePassed};
ghost use Rattle.std.proofs.Common.{arith};
ghost use Rattle.first_come.specs.Lines.{fitting_places};
ghost use Rattle.first_come.specs.First.{first_meaning, line_of};
ghost use Rattle.first_come.specs.Lined.{lined_rules};
ghost use Rattle.first_come.specs.Firsts.{neat_of, first_admits, first_passes};
ghost use Rattle.double_line.specs.Doubling.{doubled_rules, doubled_admits, doubled_passes, same};

use crate::double::DoubleLine;
use first_come::FirstCome;
use orders::{Order, OrderRefusal};

impl DoubleLine {
    // A line for 1 to 16 cores with 1 to 64 places, and nobody in it; with other
    // numbers it has no place at all.
    pub fn new(width: u32, places: u32) -> DoubleLine
        ensures width { (double_meaning result).width ≡ width }
        ensures places { (double_meaning result).places ≡ fitting_places width places }
        ensures nobody { (r t : ℕ) → (double_meaning result).queued r t ≡ false }
    {
        DoubleLine {
            line: FirstCome::new(width, places),
        }
    }
}

impl Order for DoubleLine {
    ghost width = { λ s. (double_meaning s).width };

    ghost places = { λ s. (double_meaning s).places };

    ghost reach = { λ s. (double_meaning s).reach };

    ghost queue = { λ s. (double_meaning s).queued };

    ghost holder = { λ s. (double_meaning s).holder };

    ghost code = { λ s. (double_meaning s).code };

    ghost count = { λ s. (double_meaning s).count };

    ghost covered = { λ s. (double_meaning s).covered };

    ghost admitted = { DoubleAdmitted };

    ghost passed = { DoublePassed };

    ghost rules = { λ s.
        let l = s.line in
        let few = l.few in
        doubled_rules (first_meaning l) (lined_rules l.width l.places (line_of l) (neat_of l)) (omega arith) };

    ghost admitting = { λ s r t c a z h. doubled_admits (first_meaning s.line) r t c a (first_meaning z.line) (first_admits s.line r t c a z.line h) };

    ghost passing = { λ s r a z h. doubled_passes (first_meaning s.line) r a (first_meaning z.line) (first_passes s.line r a z.line h) };

    ghost unadmitted = { λ s r t c e z h. same s z (h.refused e refl) };

    ghost unpassed = { λ s r e z h. same s z (h.refused e refl) };

    fn width(&self) -> u32 {
        self.line.width()
    }

    fn places(&self) -> u32 {
        self.line.places()
    }

    fn reach(&self) -> u32 {
        2 * self.line.reach()
    }

    fn holder(&self, resource: u32) -> Option<u32> {
        self.line.holder(resource)
    }

    fn queued(&self, resource: u32, task: u32) -> bool {
        self.line.queued(resource, task)
    }

    fn code(&self, resource: u32, task: u32) -> Option<u64> {
        self.line.code(resource, task)
    }

    // Twice the place in line.
    fn count(&self, resource: u32, task: u32) -> Option<u32> {
        self.line.count(resource, task).map(|place| 2 * place)
    }

    fn covered(&self, _resource: u32, _task: u32) -> bool {
        false
    }

    fn admit(&mut self, resource: u32, task: u32, urgency: u64) -> Result<(), OrderRefusal> {
        self.line.admit(resource, task, urgency)
    }

    fn pass(&mut self, resource: u32) -> Result<Option<u32>, OrderRefusal> {
        self.line.pass(resource)
    }
}
