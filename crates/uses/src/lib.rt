//! Callers of the library, as its users write them: a tick of one CPU with handlers of its own, a ring between two threads, and a
//! CPU of a system that goes offline.
//!
//! Each of them is proved from the library's contracts. `docs/CALLING.md` reads them aloud.
#![tactic(auto)]

pub mod ring;
pub mod system;
pub mod tick;
