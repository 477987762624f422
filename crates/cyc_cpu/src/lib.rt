//! The firing side of one CPU: its cyclics, exact firing, and what is asked of each cyclic.
//!
//! `Hard` stands over any pair of ends that implement `Raise`, one for the lock level and one for the low level. What it
//! promises of a fire is a definition of `cyc_types`; how the ends do their part is in the traits' laws alone.
#![tactic(auto)]

mod asking;
mod ends;
mod hard;
mod laws;
mod leaving;
mod moving;
mod next;
mod removing;
mod settling;
mod soft;
mod suspending;

pub use cyc_core::LevelCore;
pub use cyc_timers::{FireRefused, Fired, share_law};
pub use hard::{Hard, Totals};
pub use moving::Taken;
pub use removing::{Removal, leaving_law};
