//! The words that the program `cyclic` is called with.
#![tactic(auto)]

mod words;

pub use words::{Command, command_of};
