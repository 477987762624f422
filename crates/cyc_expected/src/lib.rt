//! The expirations of each cyclic of a script in closed form: a definition, and its laws.
//!
//! `specs/Course.antt` says what becomes of one cyclic, event by event; `specs/Expected.antt` reads the events off the words of a
//! script. That the report of the model of a script tells just these is a law. The functions here do nothing when they run. Their
//! clauses are the laws, so that they are proved.
#![tactic(auto)]

mod calm;
mod told;

pub use calm::calm_law;
pub use told::expired_as_expected;
