//! What came of a call that may ask for memory.

use cyc_types::Refusal;
use std::fmt::{self, Display, Formatter, Write};

/// What came of a call that may ask for memory.
#[derive(Clone, Copy, Debug, PartialEq, Eq)]
pub(crate) enum Seen {
    /// Memory was refused before the call.
    Before,
    /// The call was refused memory, changed nothing that can be seen, and made again it was done.
    Refused,
    /// It went on without a step that was refused memory, and made again it was done.
    Without,
    /// It was refused no memory, and done.
    Done,
    /// It answered or changed what it must not.
    Wrong,
}

impl Display for Seen {
    fn fmt<W: Write>(&self, f: &mut Formatter<W>) -> fmt::Result {
        f.write_str(match self {
            Seen::Before => "before",
            Seen::Refused => "refused",
            Seen::Without => "without",
            Seen::Done => "done",
            Seen::Wrong => "wrong",
        })
    }
}

/// What came of a call that was refused so: `as_before` says that nothing changed that can be seen, and `done` that the same
/// call, made again, was not refused.
pub(crate) fn refused(why: Refusal, as_before: bool, done: bool) -> Seen {
    if why == Refusal::Memory && as_before && done {
        Seen::Refused
    } else {
        Seen::Wrong
    }
}
