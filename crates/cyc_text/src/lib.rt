//! The lines that a replay of a script writes, what takes their bytes, and the faults of a run and of the program, with their
//! exit status.
#![tactic(auto)]

mod bounded;
mod fault;
mod lines;
mod sink;
mod writer;

pub use bounded::BoundedWriter;
pub use fault::{Fault, RunFault, status_of};
pub use lines::{
    Counts, write_accepted, write_fired, write_kept, write_left, write_moved, write_ran,
    write_refused, write_removed, write_report,
};
pub use sink::{PutFailed, Sink};
pub use writer::Out;
