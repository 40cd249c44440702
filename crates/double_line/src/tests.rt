use crate::double::DoubleLine;
use gate::Gate;
use orders::Order;

// A gate of width 2 over it: the reach is 2 × 2 + 1, the second below counts 2,
// and a task in the gate counts 2 + 1 for it and 2 for the line.
#[test]
fn stands_under_the_gate(rt: HostRuntime) {
    let mut gate = Gate::new(DoubleLine::new(2, 2));
    assert_eq!(rt; gate.reach(), 5);
    let _ = gate.admit(0, 0, 30);
    let _ = gate.admit(0, 1, 20);
    let _ = gate.admit(0, 2, 10);
    let _ = gate.admit(0, 3, 5);
    assert_eq!(rt; gate.count(0, 1), Some(2));
    assert_eq!(rt; gate.count(0, 2), Some(5));
    assert!(rt; gate.in_gate(0, 3));
    let _ = gate.pass(0);
    assert_eq!(rt; gate.holder(0), Some(1));
    assert!(rt; !gate.in_gate(0, 3));
    assert_eq!(rt; gate.count(0, 3), Some(2));
    assert_eq!(rt; gate.count(0, 2), Some(3));
}

// A gate over a gate is closed: the one below has 64 places and never as many as its width.
#[test]
fn gate_over_gate_is_closed(rt: HostRuntime) {
    let gate = Gate::new(Gate::new(DoubleLine::new(16, 16)));
    assert!(rt; !gate.is_open());
    assert_eq!(rt; gate.width(), 16);
    assert_eq!(rt; gate.places(), 0);
    assert_eq!(rt; gate.reach(), 0);
}
