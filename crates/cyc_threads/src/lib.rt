//! A script in threads: two draining workers for each CPU from the start to the end, and a firing worker for each online CPU at
//! each advance, over rings; what a run writes is the report alone.
//!
//! The thread that leads makes of each word one call of the system, while others drain the levels of its CPUs; a word other
//! than `advance` and `remove` waits first until no removal is open and every CPU has settled. The contracts say which calls were
//! made, with what answers, and which name has which of them. Beside it the law of the seats: whatever is done to a system over
//! rings, each CPU keeps its two.
#![tactic(auto)]

mod advancing;
mod counting;
mod halt;
mod leading;
mod progress;
mod reporting;
mod ring_seats;
mod running;
mod stepping;
mod tallying;
mod waiting;
mod working;

pub use ring_seats::seats_law;
pub use running::{Ended, run};
pub use tallying::tallies;
