//! The look-up by id, for all that keeps cyclics in the order of their ids.
//!
//! `search` finds the position of an id among things whose ids rise; `search_near` looks at a hinted position first, and
//! `search_new` at the last. `guess` and `stands_at` are first looks by themselves, and `search_unguessed` is what follows a
//! guess that was wrong. `Finder` is the map from the ids of cyclics to their indexes, in which coming and going moves nothing as
//! long as ids rise.
#![tactic(auto)]

pub mod finder;
mod halving;
mod hints;
pub mod slot;
pub mod slots;
pub mod sorted;

pub use finder::{Finder, HINTS, hint_of, hints_law};
pub use sorted::{HasId, guess, search, search_near, search_new, search_unguessed, stands_at};
