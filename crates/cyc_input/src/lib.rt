//! The reading of a script's bytes from any reader, with a bound on the bytes and on how often the reader is asked.
#![tactic(auto)]

mod bounded;
mod fault;
mod input;

pub use bounded::BoundedReader;
pub use fault::InputFault;
pub use input::read_input;
