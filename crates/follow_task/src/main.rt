// Follows one task, the divert arm's, through a gate over first-come on a dock
// with two cores, from its request to the end of its hold.

#![tactic(auto)]

use first_come::FirstCome;
use gate::Gate;
use gated_line::{Standing, gated_line, where_stands};
use keys::{Deadline, KeyKind};
use orders::Order;
use std::io;

const RADIO: u32 = 0;

const DIVERT_ARM: u32 = 2;

// A task as people call it. The gate tells tasks by number, so an enum would need a
// way back from each number.
fn name(task: u32) -> &'static str {
    match task {
        0 => "frame camera",
        1 => "encoder",
        DIVERT_ARM => "divert arm",
        _ => "safety stop",
    }
}

fn tell_standing(rt: HostRuntime, gate: &Gate<FirstCome>, task: u32) -> io::Result<()> {
    let who = name(task);
    match where_stands(gate, RADIO, task) {
        Standing::Away => println!(rt; "  {who}: is not queued."),
        Standing::Holds => println!(rt; "  {who}: holds the radio."),
        Standing::Below(n) => println!(rt;
            "  {who}: is in line; holds that count against it: at most {n}."
        ),
        Standing::InGate(n) => println!(rt;
            "  {who}: waits in the gate; holds that count against it: at most {n}."
        ),
        Standing::Covered(n) => println!(rt;
            "  {who}: waits in the gate behind more urgent tasks only, which costs it nothing; holds that count against it later: at most {n}."
        ),
    }
}

// A task asks for the radio: it arrives at a tick with a relative deadline.
fn ask(
    rt: HostRuntime,
    gate: &mut Gate<FirstCome>,
    task: u32,
    arrival: u32,
    deadline: u32,
) -> io::Result<()> {
    let who = name(task);
    let Some(due) = Deadline::code_at(deadline, arrival) else {
        return println!(rt; "{who} declares a deadline that is out of range.");
    };
    println!(rt;
        "{who} (task {task}) arrives at tick {arrival}, is due at tick {due}, and asks for the radio."
    )?;
    // Both arms go on with work of their own: two closures would be no plainer.
    match gate.admit(RADIO, task, due) {
        Ok(()) => tell_standing(rt, gate, task),
        Err(_) => println!(rt; "  It is refused."),
    }
}

// Which of the four tasks wait in the gate.
fn in_gate(gate: &Gate<FirstCome>) -> [bool; 4] {
    [0, 1, 2, 3].map(|task| gate.in_gate(RADIO, task))
}

// The holder lays the radio down; says who holds next, and who goes from the gate into the line.
fn pass(rt: HostRuntime, gate: &mut Gate<FirstCome>) -> io::Result<()> {
    let Some(holder) = gate.holder(RADIO) else {
        return println!(rt; "Nobody holds the radio.");
    };
    let old = name(holder);
    let before = in_gate(gate);
    match gate.pass(RADIO) {
        Ok(Some(next)) => {
            let new = name(next);
            println!(rt; "{old} lays the radio down; {new} holds it next.")?;
        }
        Ok(None) => println!(rt; "{old} lays the radio down; nobody wants it.")?,
        Err(_) => println!(rt; "The pass is refused.")?,
    }
    let after = in_gate(gate);
    for (task, (waited, waits)) in (0..).zip(before.iter().zip(&after)) {
        if *waited && !*waits {
            let who = name(task);
            println!(rt; "  {who}: goes from the gate into the line.")?;
        }
    }
    Ok(())
}

fn main(rt: HostRuntime) -> io::Result<()> {
    let mut gate = gated_line(2);
    let reach = gate.reach();
    println!(rt; "A dock with 2 cores: 2 tasks stand in line for the radio, and the others wait")?;
    println!(rt; "in the gate. At most {reach} holds of others count against anybody's wait.")?;
    println!(rt; "We follow the divert arm.")?;
    println!(rt; "")?;
    ask(rt, &mut gate, 0, 0, 30)?;
    ask(rt, &mut gate, 1, 1, 20)?;
    ask(rt, &mut gate, DIVERT_ARM, 2, 10)?;
    ask(rt, &mut gate, 3, 3, 5)?;
    println!(rt; "")?;
    for _ in 0..4u32 {
        pass(rt, &mut gate)?;
        tell_standing(rt, &gate, DIVERT_ARM)?;
    }
    Ok(())
}
