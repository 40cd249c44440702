// Lines, good and bad, with the number of the fault that each is refused with, 0
// for a line that is read.

#![tactic(auto)]

ghost use Rattle.std.specs.Prelude.{◌≡◌, length};
ghost use Rattle.fields.specs.Cutting.{lines};
ghost use Rattle.text_cases.specs.Cases.{case_fault};

use event_text::{TextFault, cut_line, read_deadline_event, read_fixed_event, read_header};
use reader::Reader;
use std::io;

mod reader;

#[derive(Clone, Copy)]
struct File {
    name: &'static str,
    bytes: &'static [u8],
}

#[derive(Clone, Copy)]
struct Case {
    name: &'static str,
    as_a: Reader,
    line: &'static [u8],
}

static CASES: [Case; 71] = [
    Case {
        name: "a header",
        as_a: Reader::Header,
        line: b"cores=2 tasks=8 resources=4 order=gate key=deadline",
    },
    Case {
        name: "the other words",
        as_a: Reader::Header,
        line: b"cores=1 tasks=1 resources=1 order=fifo key=fixed",
    },
    Case {
        name: "the largest numbers",
        as_a: Reader::Header,
        line: b"cores=4294967295 tasks=4294967295 resources=4294967295 order=gate key=deadline",
    },
    Case {
        name: "zeros",
        as_a: Reader::Header,
        line: b"cores=0 tasks=0 resources=0 order=fifo key=deadline",
    },
    Case {
        name: "a header that is not whole",
        as_a: Reader::Header,
        line: b"cores=99 tasks=02",
    },
    Case {
        name: "an unknown order",
        as_a: Reader::Header,
        line: b"cores=2 tasks=8 resources=4 order=lifo key=deadline",
    },
    Case {
        name: "an order in capitals",
        as_a: Reader::Header,
        line: b"cores=2 tasks=8 resources=4 order=GATE key=deadline",
    },
    Case {
        name: "an unknown kind of key",
        as_a: Reader::Header,
        line: b"cores=2 tasks=8 resources=4 order=gate key=band",
    },
    Case {
        name: "a number for a word",
        as_a: Reader::Header,
        line: b"cores=2 tasks=8 resources=4 order=1 key=deadline",
    },
    Case {
        name: "a word for a number",
        as_a: Reader::Header,
        line: b"cores=gate tasks=8 resources=4 order=gate key=deadline",
    },
    Case {
        name: "two fields the wrong way round",
        as_a: Reader::Header,
        line: b"tasks=8 cores=2 resources=4 order=gate key=deadline",
    },
    Case {
        name: "a field too many",
        as_a: Reader::Header,
        line: b"cores=2 tasks=8 resources=4 order=gate key=deadline due=1",
    },
    Case {
        name: "a space too many in a header",
        as_a: Reader::Header,
        line: b"cores=2  tasks=8 resources=4 order=gate key=deadline",
    },
    Case {
        name: "a space before a header",
        as_a: Reader::Header,
        line: b" cores=2 tasks=8 resources=4 order=gate key=deadline",
    },
    Case {
        name: "a leading zero in a header",
        as_a: Reader::Header,
        line: b"cores=02 tasks=8 resources=4 order=gate key=deadline",
    },
    Case {
        name: "a leading zero, then an unknown word",
        as_a: Reader::Header,
        line: b"cores=02 tasks=8 resources=4 order=lifo key=deadline",
    },
    Case {
        name: "a number too large in a header",
        as_a: Reader::Header,
        line: b"cores=2 tasks=8 resources=4294967296 order=gate key=deadline",
    },
    Case {
        name: "an event as a header",
        as_a: Reader::Header,
        line: b"ev=tick",
    },
    Case {
        name: "an empty header",
        as_a: Reader::Header,
        line: b"",
    },
    Case {
        name: "an arrival with a deadline",
        as_a: Reader::Deadline,
        line: b"ev=arrive task=3 due=40",
    },
    Case {
        name: "a request",
        as_a: Reader::Deadline,
        line: b"ev=request task=3 res=0",
    },
    Case {
        name: "a release",
        as_a: Reader::Deadline,
        line: b"ev=release task=3",
    },
    Case {
        name: "a finish",
        as_a: Reader::Deadline,
        line: b"ev=finish task=63",
    },
    Case {
        name: "a tick",
        as_a: Reader::Deadline,
        line: b"ev=tick",
    },
    Case {
        name: "an arrival of the other kind",
        as_a: Reader::Deadline,
        line: b"ev=arrive task=3 band=1 level=7",
    },
    Case {
        name: "an arrival with band and level",
        as_a: Reader::Fixed,
        line: b"ev=arrive task=3 band=1 level=7",
    },
    Case {
        name: "a tick for fixed keys",
        as_a: Reader::Fixed,
        line: b"ev=tick",
    },
    Case {
        name: "an arrival with a deadline for fixed keys",
        as_a: Reader::Fixed,
        line: b"ev=arrive task=3 due=40",
    },
    Case {
        name: "a leading zero in the last number",
        as_a: Reader::Fixed,
        line: b"ev=arrive task=3 band=1 level=07",
    },
    Case {
        name: "the last field has no form",
        as_a: Reader::Fixed,
        line: b"ev=arrive task=3 band=01 level=x",
    },
    Case {
        name: "a zero",
        as_a: Reader::Deadline,
        line: b"ev=finish task=0",
    },
    Case {
        name: "two zeros",
        as_a: Reader::Deadline,
        line: b"ev=finish task=00",
    },
    Case {
        name: "a leading zero",
        as_a: Reader::Deadline,
        line: b"ev=finish task=01",
    },
    Case {
        name: "a leading zero, then an empty value",
        as_a: Reader::Deadline,
        line: b"ev=request task=01 res=",
    },
    Case {
        name: "the largest number",
        as_a: Reader::Deadline,
        line: b"ev=finish task=4294967295",
    },
    Case {
        name: "one above the largest number",
        as_a: Reader::Deadline,
        line: b"ev=finish task=4294967296",
    },
    Case {
        name: "a number of ten nines",
        as_a: Reader::Deadline,
        line: b"ev=finish task=9999999999",
    },
    Case {
        name: "a number of 60 digits",
        as_a: Reader::Deadline,
        line: b"ev=finish task=999999999999999999999999999999999999999999999999999999999999",
    },
    Case {
        name: "80 bytes",
        as_a: Reader::Deadline,
        line: b"ev=finish task=11111111111111111111111111111111111111111111111111111111111111111",
    },
    Case {
        name: "81 bytes",
        as_a: Reader::Deadline,
        line: b"ev=finish task=111111111111111111111111111111111111111111111111111111111111111111",
    },
    Case {
        name: "81 bytes of no form",
        as_a: Reader::Deadline,
        line: b"xxxxxxxxxxxxxxxxxxxxxxxxxxxxxxxxxxxxxxxxxxxxxxxxxxxxxxxxxxxxxxxxxxxxxxxxxxxxxxxxx",
    },
    Case {
        name: "80 bytes of no form",
        as_a: Reader::Deadline,
        line: b"xxxxxxxxxxxxxxxxxxxxxxxxxxxxxxxxxxxxxxxxxxxxxxxxxxxxxxxxxxxxxxxxxxxxxxxxxxxxxxxx",
    },
    Case {
        name: "80 bytes and a byte 13",
        as_a: Reader::Deadline,
        line: b"ev=finish task=11111111111111111111111111111111111111111111111111111111111111111\r",
    },
    Case {
        name: "an empty value",
        as_a: Reader::Deadline,
        line: b"ev=finish task=",
    },
    Case {
        name: "a plus",
        as_a: Reader::Deadline,
        line: b"ev=finish task=+1",
    },
    Case {
        name: "a minus",
        as_a: Reader::Deadline,
        line: b"ev=finish task=-1",
    },
    Case {
        name: "a letter in a number",
        as_a: Reader::Deadline,
        line: b"ev=finish task=1a",
    },
    Case {
        name: "a letter as a number",
        as_a: Reader::Deadline,
        line: b"ev=finish task=x",
    },
    Case {
        name: "a space in a number",
        as_a: Reader::Deadline,
        line: b"ev=finish task=1 2",
    },
    Case {
        name: "a doubled space",
        as_a: Reader::Deadline,
        line: b"ev=finish  task=1",
    },
    Case {
        name: "a space at the end",
        as_a: Reader::Deadline,
        line: b"ev=tick ",
    },
    Case {
        name: "a space at the start",
        as_a: Reader::Deadline,
        line: b" ev=tick",
    },
    Case {
        name: "only a space",
        as_a: Reader::Deadline,
        line: b" ",
    },
    Case {
        name: "an empty line",
        as_a: Reader::Deadline,
        line: b"",
    },
    Case {
        name: "a byte 13 at the end",
        as_a: Reader::Deadline,
        line: b"ev=tick\r",
    },
    Case {
        name: "a byte 13 after a number",
        as_a: Reader::Deadline,
        line: b"ev=finish task=1\r",
    },
    Case {
        name: "a byte 0",
        as_a: Reader::Deadline,
        line: b"ev=tick\0",
    },
    Case {
        name: "a byte 255",
        as_a: Reader::Deadline,
        line: b"ev=finish task=\xff",
    },
    Case {
        name: "only a byte 255",
        as_a: Reader::Deadline,
        line: b"\xff",
    },
    Case {
        name: "a tab for a space",
        as_a: Reader::Deadline,
        line: b"ev=finish\ttask=1",
    },
    Case {
        name: "a field too many",
        as_a: Reader::Deadline,
        line: b"ev=tick task=1",
    },
    Case {
        name: "a field too few",
        as_a: Reader::Deadline,
        line: b"ev=request task=1",
    },
    Case {
        name: "the fields the wrong way round",
        as_a: Reader::Deadline,
        line: b"ev=request res=0 task=1",
    },
    Case {
        name: "an unknown event",
        as_a: Reader::Deadline,
        line: b"ev=stop",
    },
    Case {
        name: "a longer word",
        as_a: Reader::Deadline,
        line: b"ev=ticks",
    },
    Case {
        name: "a shorter word",
        as_a: Reader::Deadline,
        line: b"ev=tic",
    },
    Case {
        name: "another name",
        as_a: Reader::Deadline,
        line: b"event=tick",
    },
    Case {
        name: "a name that goes on",
        as_a: Reader::Deadline,
        line: b"ev=finish tasks=1",
    },
    Case {
        name: "a name with no value",
        as_a: Reader::Deadline,
        line: b"ev=finish task",
    },
    Case {
        name: "two equals signs",
        as_a: Reader::Deadline,
        line: b"ev=finish task==1",
    },
    Case {
        name: "a header as an event",
        as_a: Reader::Deadline,
        line: b"cores=2 tasks=8 resources=4 order=gate key=deadline",
    },
];

static FILES: [File; 7] = [
    File {
        name: "an empty file",
        bytes: b"",
    },
    File {
        name: "a line that is not ended",
        bytes: b"ev=tick",
    },
    File {
        name: "a line",
        bytes: b"ev=tick\n",
    },
    File {
        name: "an empty line",
        bytes: b"\n",
    },
    File {
        name: "two empty lines",
        bytes: b"\n\n",
    },
    File {
        name: "an empty line between two",
        bytes: b"a\n\nb",
    },
    File {
        name: "a byte 13 ends no line",
        bytes: b"a\r\nb\rc\n",
    },
];

fn fault(case: Case) -> Option<TextFault>
    ensures { result ≡ case_fault case.as_a case.line.now }
{
    match case.as_a {
        Reader::Header => read_header(case.line).err(),
        Reader::Deadline => read_deadline_event(case.line).err(),
        Reader::Fixed => read_fixed_event(case.line).err(),
    }
}

// How many lines `cut_line` cuts from a file, which is what is tried here.
fn count_lines(file: &[u8]) -> usize
    ensures { result ≡ length (lines file.now) }
{
    let mut count = 0;
    let mut left = file;
    while let Some((_, rest)) = cut_line(left) {
        count += 1;
        left = rest;
    }
    count
}

fn main(rt: HostRuntime) -> io::Result<()> {
    for case in &CASES {
        let name = case.name;
        let number = fault(*case).map_or(0, |fault| fault.number());
        println!(rt; "{number} {name}")?;
    }
    for file in &FILES {
        let name = file.name;
        let count = count_lines(file.bytes);
        println!(rt; "{count} lines: {name}")?;
    }
    Ok(())
}
