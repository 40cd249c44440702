ghost use Rattle.std.specs.Prelude.{◌≡◌, ◌-◌, ◌^◌, ◌<◌, true, is_ok, string_bytes};
ghost use Rattle.runs.specs.Steps.{Fresh, kernel_of};
ghost use Rattle.kernel.specs.Views.{facts_of, state_of};
ghost use Rattle.fields.specs.Cutting.{lines};
ghost use Rattle.event_run.specs.Taking.{Lined, LinesRun};

use crate::running::running_sum;
use crate::take::take_line;
use event_kinds::EventKind;
use event_report::{Fault, Report};
use event_text::cut_line;
use kernel::Kernel;
use orders::Order;
use runs::guarantee_stands;
use std::alloc::AllocError;
use transcript::add_event;

// Runs the n-th line after the header: its row goes to the output, and its fault,
// if there is one, to the faults.
fn run_line<O: Order, K: EventKind>(
    kernel: &mut Kernel<O, K>,
    n: u64,
    line: &[u8],
    report: &mut Report,
) -> Result<(), AllocError>
    requires { n < 2 ^ 64 - 1 }
    ensures { is_ok result ≡ true → Lined O.Order K.KeyKind kernel.old (K.EventKind.read line.now) n (string_bytes report.old.output) report.old.faults.items kernel.new (string_bytes report.new.output) report.new.faults.items }
{
    let row = take_line(kernel, line);
    let running = running_sum(kernel);
    add_event(&mut report.output, n, row.answer(), running, row.told())?;
    if let Some(why) = row.fault() {
        report.faults.push(Fault { line: n + 1, why })?;
    }
    Ok(())
}

// Runs all lines that are left of a file, one by one. A line that is refused does
// not stop the run. The parts of `split_inclusive` keep the byte that ends them, so
// `cut_line` is plainer.
pub(crate) fn run_lines<O: Order, K: EventKind>(
    kernel: &mut Kernel<O, K>,
    bytes: &[u8],
    report: &mut Report,
) -> Result<(), AllocError>
    requires { Fresh (kernel_of O.Order K.KeyKind (facts_of kernel.old)) (state_of kernel.old) }
    ensures { is_ok result ≡ true → LinesRun O.Order K.KeyKind K.EventKind.read kernel.old (lines bytes.now) (string_bytes report.old.output) report.old.faults.items kernel.new (string_bytes report.new.output) report.new.faults.items }
{
    guarantee_stands::<O, K>();
    let mut rest = bytes;
    let mut n = 0u64;
    while let Some((line, next)) = cut_line(rest) {
        n += 1;
        run_line(kernel, n, line, report)?;
        rest = next;
    }
    Ok(())
}
