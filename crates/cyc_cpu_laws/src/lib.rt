//! Laws of one CPU over any calls: what they add up to for each id, what stays of a CPU that has settled or is suspended, what
//! follows where an id has left, and what a receipt says of the calls.
//!
//! A run is any list of calls of `cyc_cpu`'s relation `Does`, each on what the one before it left. The functions here do
//! nothing when they run. Their clauses are the laws, so that they are proved.
#![tactic(auto)]

mod absence;
mod accounts;
mod passing;
mod receipts;
mod settling;
mod suspension;

pub use absence::absence_law;
pub use accounts::{account_core_law, account_law};
pub use passing::passing_law;
pub use receipts::{balance_law, receipt_law};
pub use settling::{settling_core_law, settling_law};
pub use suspension::{suspension_core_law, suspension_law};
