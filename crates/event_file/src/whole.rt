ghost use Rattle.std.specs.Prelude.{IfOk};
ghost use Rattle.fields.specs.Cutting.{lines};
ghost use Rattle.event_file.specs.Files.{Keyed, Chosen, FileRun};

use event_report::{Reason, Report, refuse};
use event_run::run_events;
use event_text::{Header, KeyWord, OrderWord, TextFault, cut_line, read_header};
use first_come::FirstCome;
use gated_line::gated_line;
use kernel::Facts;
use keys::{Deadline, Fixed};
use orders::Order;
use std::alloc::{AllocError, Global};

// Runs the lines after the header over an order of service, by the kind of key that
// the header names.
fn run_over<O: Order + Drop>(
    heap: Global,
    header: Header,
    order: O,
    rest: &[u8],
) -> Result<Report, AllocError>
    ensures { IfOk result (Keyed O.Order header.key header.cores header.tasks header.resources order (lines rest.now)) }
{
    let facts = Facts {
        cores: header.cores,
        tasks: header.tasks,
        resources: header.resources,
    };
    match header.key {
        KeyWord::Deadline => run_events(heap, facts, order, Deadline, rest),
        KeyWord::Fixed => run_events(heap, facts, order, Fixed, rest),
    }
}

// Runs the lines after the header by what it names: first-come with 64 places, or
// the gate over first-come.
fn run_header(heap: Global, header: Header, rest: &[u8]) -> Result<Report, AllocError>
    ensures { IfOk result (Chosen header.order header.key header.cores header.tasks header.resources (lines rest.now)) }
{
    match header.order {
        OrderWord::Fifo => run_over(heap, header, FirstCome::new(header.cores, 64), rest),
        OrderWord::Gate => run_over(heap, header, gated_line(header.cores), rest),
    }
}

// Runs a whole event file, and tells what is to be written and what was wrong.
pub fn run_file(heap: Global, bytes: &[u8]) -> Result<Report, AllocError>
    ensures { IfOk result (FileRun bytes.now) }
{
    if bytes.len() > 65536 {
        return refuse(heap, Reason::LongFile);
    }
    let Some((line, rest)) = cut_line(bytes) else {
        return refuse(heap, TextFault::NoForm.into());
    };
    // Both arms go on with work of their own: two closures would be no plainer.
    match read_header(line) {
        Ok(header) => run_header(heap, header, rest),
        Err(fault) => refuse(heap, fault.into()),
    }
}
