//! Laws of several CPUs and of a system over any calls.
//!
//! Of CPUs: where a cyclic goes, what a move keeps, what each CPU sees of a run of calls, what stays of a CPU that has settled,
//! what follows where an id has left them all, and what leaves a CPU lawful. A run is any list of calls, each on the CPU of its
//! number and on what the one before it left.
//!
//! Of a system: of what calls on its CPUs each call is made, what follows once a removal has answered, which ids are given, what
//! holds while a CPU has settled, and what each call keeps of a cyclic's level, interval, moment and counts over all CPUs.
//!
//! Of what its calls add up to for a cyclic, over all CPUs: what the fires of a run make of it and lose, what a receipt says,
//! where nothing of it is lost, that nothing is made of a suspended system; and, where no other thread uses the levels, what is
//! outstanding after each call, and what that, the losses and the calls that were made add up to over a run.
//!
//! The functions here do nothing when they run. Their clauses are the laws, so that they are proved.
#![tactic(auto)]

mod absence;
mod choosing;
mod cpu_settling;
mod keeping;
mod lawful;
mod numbering;
mod parts;
mod pending;
mod removal;
mod running;
mod settling;
mod shifting;
mod sparing;
mod suspension;
mod totalling;

pub use absence::absence_core_law;
pub use choosing::destination_law;
pub use cpu_settling::{settling_core_law, settling_law};
pub use keeping::{counts_law, fires_law, interrupts_law, offlines_law, stays_law};
pub use lawful::lawful_law;
pub use numbering::{numbers_core_law, numbers_law};
pub use parts::parts_law;
pub use pending::{balance_law, pending_law};
pub use removal::{removal_core_law, removal_law};
pub use running::{calls_law, runs_core_law, runs_law};
pub use settling::{calm_core_law, calm_law, settled_law};
pub use shifting::{shift_core_law, shift_law};
pub use sparing::{spared_core_law, spared_law, unused_law};
pub use suspension::{suspension_core_law, suspension_law};
pub use totalling::{expirations_core_law, expirations_law};
