// The driver's face of the kernel: a request gives a ticket, a ticket becomes a
// hold once its task holds the resource, and a hold is spent by closing it.

#![tactic(auto)]

mod claiming;
mod closing;
mod hold;
mod names;
mod opening;
mod refusal;
mod standing;
mod ticket;

pub use claiming::{claim, lay_down};
pub use closing::close;
pub use hold::Hold;
pub use names::names_stand;
pub use opening::open;
pub use refusal::{DriverRefusal, Unclaimed, Unclosed};
pub use ticket::Ticket;
