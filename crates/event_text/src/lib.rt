// The text of event files: lines, the header, events, and why a line is refused.

#![tactic(auto)]

mod events;
mod fault;
mod form;
mod headers;
mod heading;
mod lines;
mod number;
mod read;

pub use events::{read_deadline_event, read_fixed_event};
pub use fault::TextFault;
pub use headers::read_header;
pub use heading::{Header, KeyWord, OrderWord};
pub use lines::cut_line;
