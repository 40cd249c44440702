ghost use Rattle.std.specs.Prelude.{◌≡◌, ℕ, ◌-◌, ◌*◌, false, ◌&&◌, leb, if◌then◌else◌, nat_le};
ghost use Rattle.gate.specs.Gates.{gate_meaning};
ghost use Rattle.gated_line.specs.GatedLine.{line_order, Empty};

use first_come::FirstCome;
use gate::Gate;

// A gate for `width` cores over first-come with as many places. For 1 to 16
// cores it has 64 places and counts up to 2 × width - 1; for other widths it is closed.
#[tactic(auto, using(crate::proofs::Made::made_places, crate::proofs::Made::made_reach))]
pub fn gated_line(width: u32) -> Gate<FirstCome>
    ensures empty { Empty width result }
    ensures width { (gate_meaning line_order result).width ≡ width }
    ensures places { (gate_meaning line_order result).places ≡ (if leb 1 width && nat_le width 16 then 64 else 0) }
    ensures reach { (gate_meaning line_order result).reach ≡ (if leb 1 width && nat_le width 16 then 2 * width - 1 else 0) }
    ensures nobody { (r t : ℕ) → (gate_meaning line_order result).queued r t ≡ false }
{
    Gate::new(FirstCome::new(width, width))
}
