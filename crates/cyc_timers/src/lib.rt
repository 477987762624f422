//! The timers of one CPU: its cyclics by id, each with its expiration in the heap and its counts, and what a fire does over them
//! and the firing ends of the two soft levels.
//!
//! `Table` keeps the heap of expirations, the records by index and the indexes by rising id, and shows them as one list of
//! rows. `cyc_cpu` stands on the rows alone. Which expirations a fire makes is a definition of `cyc_types`; how the ends do their
//! part is in the traits' laws alone.
#![tactic(auto)]

mod fire;
mod laws;
pub mod table;

pub use fire::{FireRefused, Fired, fire_all};
pub use laws::share_law;
pub use table::{Record, Table};
