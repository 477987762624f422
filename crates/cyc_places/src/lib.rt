//! The records of a system of CPUs: for each id that was given and whose removal has not answered, where its cyclic is, and
//! the counts that its ended stays left on each CPU.
#![tactic(auto)]

mod record;
mod records;

pub use record::{Placement, Record};
pub use records::Records;
