ghost use Rattle.std.specs.Prelude.{◌≡◌, IfOk, None as Nothing};
ghost use Rattle.orders.specs.Services.{meaning};
ghost use Rattle.runs.specs.Steps.{unfit};
ghost use Rattle.fields.specs.Cutting.{lines};
ghost use Rattle.event_run.specs.Files.{FileRan, KernelRun};

use crate::ends::{add_resources, add_tasks};
use crate::play::run_lines;
use event_kinds::EventKind;
use event_report::{Report, refuse};
use kernel::{Facts, check, start};
use orders::Order;
use runs::guarantee_stands;
use std::alloc::{AllocError, Global};
use transcript::add_start;

// Runs the lines after the header by a kernel that check accepts.
fn play<O: Order + Drop, K: EventKind + Drop>(
    heap: Global,
    facts: Facts,
    order: O,
    kind: K,
    rest: &[u8],
) -> Result<Report, AllocError>
    requires { unfit facts.cores facts.tasks facts.resources (meaning O.Order order) ≡ Nothing }
    ensures { IfOk result (FileRan O.Order K.KeyKind K.EventKind.read facts.cores facts.tasks facts.resources order (lines rest.now)) }
{
    guarantee_stands::<O, K>();
    let mut kernel = start(facts, order, kind);
    let mut report = Report {
        output: String::new(heap),
        faults: Vec::new(heap),
    };
    add_start(&mut report.output, 0)?;
    run_lines(&mut kernel, rest, &mut report)?;
    add_tasks(&kernel, facts, &mut report.output)?;
    add_resources(&kernel, facts, &mut report.output)?;
    Ok(report)
}

// Runs the lines after the header by a kernel of these facts over this order,
// unless check finds a fault.
pub fn run_events<O: Order + Drop, K: EventKind + Drop>(
    heap: Global,
    facts: Facts,
    order: O,
    kind: K,
    rest: &[u8],
) -> Result<Report, AllocError>
    ensures { IfOk result (KernelRun O.Order K.KeyKind K.EventKind.read facts.cores facts.tasks facts.resources order (lines rest.now)) }
{
    // Both arms go on with work of their own: two closures would be no plainer.
    match check(facts, &order) {
        Ok(()) => play(heap, facts, order, kind, rest),
        Err(why) => refuse(heap, why.into()),
    }
}
