ghost use Rattle.std.specs.Prelude.{◌≡◌};
ghost use Rattle.event_report.specs.Reasons.{refused_row, answered_row, row_answer, row_told, row_fault};

use crate::report::{Reason, Row};
use runs::{Accepted, Refusal};

impl Row {
    // What is said of a line that is refused.
    pub fn refused(why: Reason) -> Row
        ensures { result ≡ refused_row why }
    {
        Row { said: Err(why) }
    }

    // What is said of a line whose call was answered.
    pub fn answered(answer: Result<Accepted, Refusal>) -> Row
        ensures { result ≡ answered_row answer }
    {
        Row {
            said: answer.map(|accepted| accepted.told).map_err(Reason::from),
        }
    }

    // 0 for an accepted line, else the number of the refusal.
    pub fn answer(self) -> u32
        ensures { result ≡ row_answer self }
    {
        self.said.map_or_else(Reason::number, |_| 0)
    }

    // The count that is told; a refused line is told none.
    pub fn told(self) -> u32
        ensures { result ≡ row_told self }
    {
        self.said.unwrap_or(0)
    }

    // Why the line is refused, if it is.
    pub fn fault(self) -> Option<Reason>
        ensures { result ≡ row_fault self }
    {
        self.said.err()
    }
}
