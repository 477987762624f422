//! The values, refusals and traits that every crate of the cyclic subsystem shares, and which expirations a fire makes.
#![tactic(auto)]

pub mod calls;
pub mod draining;
pub mod expirations;
pub mod firing;
pub mod id;
pub mod level;
pub mod limits;
pub mod moment;
pub mod receipt;
pub mod refusal;
pub mod tally;

pub use calls::{Calls, Refused};
pub use draining::{Drain, Finished};
pub use firing::{Raise, Raised, Sent};
pub use id::CyclicId;
pub use level::{Ceiling, Index, Level, Soft};
pub use limits::{CPUS, CYCLICS, GREATEST_BANK, GREATEST_CEILING, LAST_ID, LATE, limits_law};
pub use moment::{Interval, Moment, When, due, next};
pub use receipt::Receipt;
pub use refusal::{JuggleReport, Refusal};
pub use tally::Tally;
