//! The CPUs of a system: their firing sides by number, which of them are online, and how a cyclic comes to one or goes from one
//! to another. Then what is true of every system of CPUs: the CPUs and the records agree on where each cyclic is. Beside it what
//! a new cyclic and one that goes to another CPU change, and why they are refused; how an omnipresent one comes to every online
//! CPU; and how a cyclic is removed from all CPUs that have it, with its counts over all of them.
//!
//! The calls of a system (`cyc_system`) stand over these functions, which take its CPUs and its records.
#![tactic(auto)]

mod adding;
mod choosing;
mod component;
mod cpus;
mod finding;
mod omni_laws;
mod removal_laws;
mod removing;
mod removing_at;
mod removing_on;
mod reserving;
mod shifting;
mod suspending;
mod totals;
mod totals_on;

pub use adding::{add_omni, enter};
pub use component::component_first;
pub use cpus::Cpus;
pub use finding::{is_leaving, is_leaving_at};
pub use omni_laws::{components_law, return_law};
pub use removal_laws::{forgotten_law, others_law, receipt_law, totals_law};
pub use removing::{SystemRemoval, begin_remove, poll_remove};
pub use totals::{SystemTotals, system_totals};
pub use totals_on::agreed_totals;
