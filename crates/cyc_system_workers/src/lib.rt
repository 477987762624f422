//! A system of CPUs in threads: all that are online fire at once, each in a thread of its own, and all of them settle.
#![tactic(auto)]

mod advancing;
mod firing;
mod lanes;
mod laws;
mod settling;
mod side;

pub use advancing::{Advanced, advance};
pub use lanes::{Lane, LaneAfter};
pub use laws::advance_law;
pub use settling::{Asked, settle};
pub use side::SystemSide;
