//! One soft level of the cyclic subsystem as a plain sequential object.
//!
//! A `LevelCore` is one state of the model in `cyc_level`: it changes by that crate's ten events and by nothing else. It is
//! used where one thread has both sides of a level, and it is what the shared words of a ring are measured by.
#![tactic(auto)]

mod admitted;
pub mod books;
mod drain;
pub mod events;
mod laws;
pub mod level_core;
mod raise;

pub use books::{Books, Place};
pub use events::{NotEnabled, NotEnabledAt};
pub use laws::{hints_are_apart, idle_is_empty};
pub use level_core::LevelCore;
