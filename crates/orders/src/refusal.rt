use std::error::Error;
use std::fmt;

// Why an order of service refuses a call, in the order in which it looks.
#[derive(Clone, Copy, Debug, PartialEq, Eq)]
pub enum OrderRefusal {
    // There is no such resource (0 to 31) or no such task (0 to 63).
    Unknown,
    // The task is queued for the resource already.
    Queued,
    // As many as there are places are queued for the resource.
    Full,
    // Nobody is queued for the resource, so nobody can pass it on.
    Empty,
}

impl fmt::Display for OrderRefusal {
    ghost use Rattle.std.specs.Prelude.{Some};
    ghost use Rattle.orders.specs.Refusals.{refusal_text};

    ghost output = { λ e. Some (refusal_text e) };

    fn fmt<W: fmt::Write>(&self, f: &mut fmt::Formatter<W>) -> fmt::Result {
        match self {
            OrderRefusal::Unknown => {
                f.write_str("the order of service knows no such task or resource")
            }
            OrderRefusal::Queued => f.write_str("the task is queued there already"),
            OrderRefusal::Full => f.write_str("every place of the resource is taken"),
            OrderRefusal::Empty => f.write_str("nobody is queued for the resource"),
        }
    }
}

impl Error for OrderRefusal {}
