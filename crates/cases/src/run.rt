ghost use Rattle.std.specs.Prelude.{◌≡◌, ◌<◌, ◌≤◌};
ghost use Rattle.keys.specs.Bands.{more_urgent};
ghost use Rattle.cases.specs.Table.{line_table, gate_table, covered_table, key_table, release_table, the_table};

use crate::table::{CoveredCase, GateCase, KeyCase, LineCase, ReleaseCase, SmallCases};
use first_come::FirstCome;
use gated_line::gated_line;
use kernel::{Facts, start};
use keys::{BandLevel, Deadline, Fixed, KeyKind};
use orders::Order;

fn line_case() -> LineCase
    ensures { result ≡ line_table }
{
    let mut line = FirstCome::new(1, 64);
    let _ = line.admit(0, 0, 7);
    let _ = line.admit(0, 1, 7);
    let _ = line.admit(0, 2, 7);
    let first = line.count(0, 0);
    let second = line.count(0, 1);
    let third = line.count(0, 2);
    LineCase {
        first,
        second,
        third,
    }
}

fn gate_case() -> GateCase
    ensures { result ≡ gate_table }
{
    let mut gate = gated_line(2);
    let _ = gate.admit(0, 0, 30);
    let _ = gate.admit(0, 1, 20);
    let _ = gate.admit(0, 2, 10);
    let told_two = gate.count(0, 2);
    let _ = gate.admit(0, 3, 5);
    let told_three = gate.count(0, 3);
    let _ = gate.pass(0);
    let first_holder = gate.holder(0);
    let three_in_gate = gate.in_gate(0, 3);
    let count_three = gate.count(0, 3);
    let count_two = gate.count(0, 2);
    let _ = gate.pass(0);
    let second_holder = gate.holder(0);
    let two_in_gate = gate.in_gate(0, 2);
    let count_two_below = gate.count(0, 2);
    let _ = gate.pass(0);
    let third_holder = gate.holder(0);
    GateCase {
        told_two,
        told_three,
        first_holder,
        three_in_gate,
        count_three,
        count_two,
        second_holder,
        two_in_gate,
        count_two_below,
        third_holder,
    }
}

fn covered_case() -> CoveredCase
    ensures { result ≡ covered_table }
{
    let mut gate = gated_line(2);
    let _ = gate.admit(0, 0, 5);
    let _ = gate.admit(0, 1, 6);
    let _ = gate.admit(0, 2, 9);
    let covered = gate.covered(0, 2);
    let count = gate.count(0, 2);
    let _ = gate.pass(0);
    let in_gate_after = gate.in_gate(0, 2);
    let count_after = gate.count(0, 2);
    CoveredCase {
        covered,
        count,
        in_gate_after,
        count_after,
    }
}

fn key_case() -> KeyCase
    ensures { result ≡ key_table }
{
    let last_normal = BandLevel {
        band: 1,
        level: 255,
    };
    let first_background = BandLevel { band: 2, level: 0 };
    KeyCase {
        last_due: Deadline::code_at(4294967295, 4294967295),
        last_normal: Fixed::code_at(last_normal, 0),
        first_background: Fixed::code_at(first_background, 0),
    }
}

// Task 0, due at 90, holds when task 1 arrives, due sooner.
fn release_behind(due: u32) -> ReleaseCase
    requires sooner { (1 ≤ due) × (due < 90) }
    ensures { result ≡ release_table }
{
    let facts = Facts {
        cores: 1,
        tasks: 2,
        resources: 1,
    };
    let order = gated_line(1);
    let mut kernel = start(facts, order, Deadline);
    let first_arrival = kernel.arrive(0, 90);
    let told = kernel.request(0, 0);
    let second_arrival = kernel.arrive(1, due);
    let release = kernel.release(0);
    let release_number = release.err().map(|why| why.number());
    ReleaseCase {
        first_arrival,
        told,
        second_arrival,
        release,
        release_number,
    }
}

fn release_case() -> ReleaseCase
    ensures { result ≡ release_table }
{
    release_behind(10)
}

// All small cases. What the code answers is the table, and of the two keys of
// the fixed kind in it the first is ahead.
pub fn small_cases() -> SmallCases
    ensures table { result ≡ the_table }
    ensures ahead { more_urgent (record { band = 1; level = 255 }) (record { band = 2; level = 0 }) }
{
    SmallCases {
        line: line_case(),
        gate: gate_case(),
        covered: covered_case(),
        key: key_case(),
        release: release_case(),
    }
}
