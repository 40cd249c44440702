// Event files at the edge of what is allowed, and beyond. Of each we print the name,
// the number of bytes, the first line of the output, how many lines the output has,
// and how many lines of the file were refused, with the number of the last refusal.

#![tactic(auto)]

mod build;
mod contention;

use build::{Case, built, of_part};
use contention::contention;
use event_file::run_file;
use event_report::{Fault, Report};
use std::alloc::{AllocError, Global};
use std::io;

// A header for small files, of 51 bytes.
const HEADER: &str = "cores=2 tasks=3 resources=2 order=gate key=deadline";

// The number of the last refusal; 0 where nothing was refused.
fn last_number(faults: &[Fault]) -> u32 {
    faults.last().map_or(0, |fault| fault.why.number())
}

// How the output begins, how many lines it has, and what was refused.
fn tell(rt: HostRuntime, output: &str, faults: &[Fault]) -> io::Result<()> {
    let first = output.lines().next().unwrap_or("");
    let lines = output.lines().count();
    let count = faults.len();
    let last = last_number(faults);
    println!(rt; "{first}, lines {lines}, faults {count}, last {last}")
}

// The report alone: the rest of the program needs to know nothing of it.
fn report_of(heap: Global, bytes: &[u8]) -> Result<Report, AllocError> {
    run_file(heap, bytes)
}

// Runs a file, and prints the line on it.
fn try_file(rt: HostRuntime, name: &str, bytes: &[u8]) -> anyhow::Result<()> {
    let size = bytes.len();
    print!(rt; "{name}: bytes {size}, ")?;
    let report = report_of(rt.alloc(), bytes)?;
    tell(rt, report.output.as_str(), report.faults.as_slice())?;
    Ok(())
}

// Files of the least and of the greatest size, and headers that are good or nearly so.
fn whole_files() -> [Case; 10] {
    [
        of_part("empty", "", b"", 0),
        of_part("one byte", "c", b"", 0),
        of_part("only a newline", "\n", b"", 0),
        of_part("65,536 newlines", "", b"\n", 65536),
        of_part("65,537 newlines", "", b"\n", 65537),
        of_part("a header and 65,536 bytes in all", HEADER, b"\n", 65485),
        of_part("a header with no newline", HEADER, b"", 0),
        of_part("carriage returns", HEADER, b"\r\nev=tick", 2),
        of_part("a header with a trailing space", HEADER, b" \nev=tick\n", 1),
        of_part("a header of 81 bytes", HEADER, b" ", 30),
    ]
}

// Lines that are refused, and many that are not. With the number of 60 digits the
// first line has 76 bytes, and the second 81.
fn line_files() -> [Case; 6] {
    [
        of_part("bytes 0 and 255", HEADER, b"\n\x00\n\xff\n\x00\xff", 1),
        of_part(
            "an event with a carriage return",
            HEADER,
            b"\nev=tick\r\nev=tick",
            1,
        ),
        of_part(
            "doubled and trailing spaces",
            HEADER,
            b"\nev=release  task=0\nev=tick \n ev=tick",
            1,
        ),
        of_part(
            "a task of 60 digits",
            "cores=2 tasks=3 resources=2 order=gate key=deadline\nev=release task=",
            b"1234567890",
            6,
        ),
        of_part(
            "a deadline of 60 digits",
            "cores=2 tasks=3 resources=2 order=gate key=deadline\nev=arrive task=0 due=",
            b"1234567890",
            6,
        ),
        of_part("8,000 ticks", HEADER, b"\nev=tick", 8000),
    ]
}

// Tries each case.
fn try_cases(rt: HostRuntime, cases: &[Case]) -> anyhow::Result<()> {
    for case in cases {
        let bytes = built(rt.alloc(), *case)?;
        try_file(rt, case.name, bytes.as_slice())?;
    }
    Ok(())
}

// Tries 64 tasks that want one resource.
fn try_contention(rt: HostRuntime, name: &str, header: &str, split: u32) -> anyhow::Result<()> {
    let text = contention(rt.alloc(), header, split)?;
    try_file(rt, name, text.as_bytes())
}

// In the line everybody has a turn in the order of coming; at the gate that holds
// for the first 16.
fn main(rt: HostRuntime) -> anyhow::Result<()> {
    try_cases(rt, &whole_files())?;
    try_cases(rt, &line_files())?;
    let line = "cores=16 tasks=64 resources=1 order=fifo key=deadline";
    try_contention(rt, "64 tasks in a line", line, 0)?;
    let gate = "cores=16 tasks=64 resources=1 order=gate key=deadline";
    try_contention(rt, "64 tasks at the gate", gate, 48)
}
