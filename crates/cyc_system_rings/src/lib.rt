//! Laws of a system in threads whose levels are rings: what its firing side did of each id, on all CPUs together, what the
//! rings made of that, and how often each cyclic has expired, in closed form. The functions here do nothing when they run. Their
//! clauses are the laws, so that they are proved.
#![tactic(auto)]

mod conserving;
mod expecting;
mod leveling;
mod whole;

pub use conserving::conserved_law;
pub use expecting::{expected_everywhere_law, expected_law};
pub use leveling::{conserved_by_level_law, served_by_level_law};
pub use whole::whole_run_law;
