// Small cases of the orders of service, of the kinds of key and of the kernel,
// run by the code and proved to come out as one table says.

#![tactic(auto)]

mod run;
mod table;

pub use run::small_cases;
pub use table::{CoveredCase, GateCase, KeyCase, LineCase, ReleaseCase, SmallCases};
