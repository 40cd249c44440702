// Event files: what a whole file comes to, by what its header chooses.

#![tactic(auto)]

mod whole;

pub use whole::run_file;
