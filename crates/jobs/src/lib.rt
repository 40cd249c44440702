// Jobs: what state each is in, which are ahead of which, which run and which are blocked.

#![tactic(auto)]

mod members;
mod number;
mod stands;
mod state;

pub use members::power_sum;
pub use number::{Number, ResourceNo, TaskNo};
pub use stands::running_set_stands;
pub use state::TaskState;
