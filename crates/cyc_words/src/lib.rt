//! The words of a script, as calls of a system over any firing ends.
//!
//! Each word but `advance` and `softint`, which reach handlers, is at most one call of a `System`, with the parameters of its
//! step, at the clock; what its answer tells of a name, the name has from then on. One relation says which call that is, or why
//! there is none, and what the word answers: `DoesWord`. What a run does between two words, and what it writes, is its own.
#![tactic(auto)]

mod answer;
mod changing;
mod named;
mod removing;
mod word;

pub use answer::WordAnswer;
pub use named::{Named, Names};
pub use removing::poll;
pub use word::take_word;
