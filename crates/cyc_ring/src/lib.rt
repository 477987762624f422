//! One soft level of a CPU as shared words, between a firing thread and a draining thread, with no lock.
//!
//! A ring is one table of words: a pend word for each index, the buffers of all banks, their producer words, and the banks
//! that the two sides are on (`ring_steps`). The two sides are mostly at neighbouring indexes, whose pend words lie on two cache
//! lines, and so do their slots in a bank of 32 or more. A raise seat fills the buffer and a drain seat empties it, each by
//! single atomic steps, and every step of one may fall between two steps of the other. At each moment between two of them the
//! words and the two seats' trails show a lawful level (`cyc_level`), which `ring_rule` states and this crate keeps. `softint` is
//! the soft interrupt over the soft side. No call but `Ring::open` takes memory, and none waits.
#![tactic(auto)]

mod closed;
mod counts;
mod draining;
mod ends;
pub mod laws;
mod raising;
mod ring;
mod seats;
mod soft;

pub use closed::{Book, Closed};
pub use ends::{DrainEnd, RaiseEnd};
pub use ring::Ring;
pub use seats::{DrainSeat, RaiseSeat};
pub use soft::softint;
