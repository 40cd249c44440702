// Orders of service: who is queued for a resource, who holds it, and how much
// is ahead of each. Whatever keeps the rules of `Order` is one.

#![tactic(auto)]

mod nobody;
mod order;
mod rank;
mod refusal;

pub use nobody::nobody_queued;
pub use order::Order;
pub use rank::Rank;
pub use refusal::OrderRefusal;
