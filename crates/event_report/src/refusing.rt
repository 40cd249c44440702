ghost use Rattle.std.specs.Prelude.{IfOk};
ghost use Rattle.event_report.specs.Reasons.{Refused};

use crate::report::{Fault, Reason, Report};
use std::alloc::{AllocError, Global};
use transcript::add_start;

// What a file comes to that is refused before its run begins.
pub fn refuse(heap: Global, why: Reason) -> Result<Report, AllocError>
    ensures { IfOk result (λ rep. Refused why rep) }
{
    let mut output = String::new(heap);
    add_start(&mut output, why.number())?;
    let mut faults = Vec::new(heap);
    faults.push(Fault { line: 1, why })?;
    Ok(Report { output, faults })
}
