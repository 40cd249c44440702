ghost use Rattle.keys.specs.Deadlines.{deadline_ranged, due, sooner, due_code};
ghost use Rattle.std.specs.Prelude.{refl};
ghost use Rattle.std.proofs.Common.{rules};

use crate::kind::KeyKind;

// The deadline kind declares a relative deadline, 1 to 4,294,967,295 ticks. The
// key is the tick at which the job is due, and so is its code.
#[derive(Clone, Copy, Debug, PartialEq, Eq)]
pub struct Deadline;

impl KeyKind for Deadline {
    type Declared = u32;

    type Key = u64;

    ghost ranged = { deadline_ranged };

    ghost key = { due };

    ghost ahead = { sooner };

    ghost code = { due_code };

    ghost some = { (1, refl) };

    ghost bounded = { Prim.search rules };

    ghost smaller = { Prim.search rules };

    ghost earlier = { Prim.search rules };

    fn code_at(declared: u32, arrival: u32) -> Option<u64> {
        if declared < 1 {
            return None;
        }
        Some(u64::from(arrival) + u64::from(declared))
    }
}
