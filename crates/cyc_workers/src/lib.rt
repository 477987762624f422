//! The workers of a CPU in threads: one that fires it, one that drains each of its soft levels, and the wait until each CPU of
//! several has settled.
#![tactic(auto)]

mod cpu;
mod draining;
mod firing;
mod settling;
mod signals;
mod wakers;
mod watch;

pub use cpu::{Handlers, Seats};
pub use draining::{Drained, Drains, drain};
pub use firing::{AfterFire, FiringSide, fire};
pub use settling::{Lead, settle, settle_all};
pub use signals::Signals;
pub use wakers::Wakers;
pub use watch::Watch;
