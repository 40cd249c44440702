// Runs the example event files, and prints the answers and what was refused.
//
// dock.events: a dock with two cores. Task 0 is the camera, task 1 the divert arm,
// task 2 writes frames and task 3 sends reports; resource 0 is the frame buffer and
// resource 1 the arm. The camera asks for the buffer that task 2 holds, so task 2
// runs in place of the more urgent task 3 until it lets go.
//
// scan_head.events: the scan head with eight cores. Task 0 watches the stop button,
// 1 to 3 are the cameras, 4 is the encoder, 5 the divert arm, and 6 to 13 work on
// what was seen; resources 0 to 4 are the belt, the frame buffer, the encoder, the
// radio and the arm. Eleven tasks want the buffer: the cameras wait in the gate.
//
// longest_wait.events: task 3 waits as long as a task on four cores can.
//
// wrong.events: typical mistakes, with good lines between them.

#![tactic(auto)]

use event_file::run_file;
use event_report::Report;
use std::{fs, io};

// Prints the answers, and then what was refused.
fn tell_report(rt: HostRuntime, report: &Report) -> io::Result<()> {
    rt.print(report.output.as_str())?;
    for fault in &report.faults {
        println!(rt; "{fault}")?;
    }
    Ok(())
}

// Runs a file of the folder that the program is run in, and prints its name first.
fn run_example(rt: HostRuntime, name: &str) -> anyhow::Result<()> {
    let bytes = fs::read(&rt, name)?;
    let report = run_file(rt.alloc(), bytes.as_slice())?;
    println!(rt; "== {name} ==")?;
    tell_report(rt, &report)?;
    Ok(())
}

fn main(rt: HostRuntime) -> anyhow::Result<()> {
    for name in [
        "dock.events",
        "scan_head.events",
        "longest_wait.events",
        "wrong.events",
    ] {
        run_example(rt, name)?;
    }
    Ok(())
}
