// lockrun: runs an event file from standard input. The answers go to standard
// output, and what was wrong with the file goes to standard error in words.

#![tactic(auto)]

use event_file::run_file;
use event_report::Report;
use std::io;
use std::io::Read;

// Reads standard input to its end, or until it is too long to be run.
fn read_input(rt: HostRuntime) -> io::Result<Vec<u8>> {
    let mut bytes = Vec::new(rt.alloc());
    rt.reader().take(65537).read_to_end(&mut bytes)?;
    Ok(bytes)
}

// Writes the answers, and what was wrong: each to a stream of its own, where
// `example_files` prints both.
fn write_report(rt: HostRuntime, report: &Report) -> io::Result<()> {
    rt.print(report.output.as_str())?;
    for fault in &report.faults {
        let why = fault.why;
        eprintln!(rt; "{fault}: {why}")?;
    }
    Ok(())
}

fn main(rt: HostRuntime) -> anyhow::Result<()> {
    let bytes = read_input(rt)?;
    let report = run_file(rt.alloc(), bytes.as_slice())?;
    write_report(rt, &report)?;
    Ok(())
}
