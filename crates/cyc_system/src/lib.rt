//! Several CPUs as one system: where each cyclic is, and how it comes there.
//!
//! `System` stands over any firing ends that implement `Raise`, two for each CPU. What each call does is a case of one
//! relation, in words of what it does to each CPU. Beside it how the cyclics of a CPU move to other CPUs, each to the one with
//! the fewest, how the CPU then goes offline, and how it takes part again.
#![tactic(auto)]

mod asking;
mod binding;
mod finding;
mod going_offline;
mod juggling;
mod laws;
mod over_cpus;
mod refusing;
mod reprogramming;
mod retiring;
mod returning;
mod splitting;
mod suspending;
mod system;
mod turning;

pub use asking::CpuOrOmni;
pub use cyc_agreement::{SystemRemoval, SystemTotals, others_law};
pub use cyc_timers::{FireRefused, Fired};
pub use laws::{away_law, ids_law};
pub use splitting::Desk;
pub use system::{SoftFault, System};
