//! The rings of a system of CPUs, and the workers that drain them: two of each for every CPU.
//!
//! `open_rings` opens them all, `attach` puts their seats under ends with the handlers beside them, `start_all` and `join_all`
//! are the lives of the draining workers, `first_refusal` says which of several refusals counts, and `close_rings` ends them.
#![tactic(auto)]

mod attaching;
mod closing;
mod detaching;
mod handlers;
mod levels;
mod opening;
mod preparing;
mod refusing;
mod seating;
mod taking;
mod working;

pub use attaching::{Attached, attach, detach};
pub use closing::{close_rings, in_pairs};
pub use detaching::leave_all;
pub use handlers::{by_cpu, in_one};
pub use levels::{Levels, Seated};
pub use opening::{Opened, open_rings};
pub use preparing::{Prepared, prepare};
pub use refusing::{Fire, first_refusal};
pub use seating::{seat_all, unseat_all};
pub use working::{Drainer, join_all, soft_sides, start_all, stop_all};
