// A gate by urgency before any order of service; itself an order of service.

#![tactic(auto)]

mod gate;
mod row;
mod serve;

pub use gate::Gate;
pub use row::Row;
