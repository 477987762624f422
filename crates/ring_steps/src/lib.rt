//! The words of a ring, and the atomic steps of its two sides: nothing else reaches a word.
//!
//! `Words` has the table, and each side one seat of it, both in fields of their own. A side changes or reads a word only by its
//! fifteen steps here. Each adds one record to the side's trail, with the very value that the atomic step returned, and tells
//! that a lawful level stands at its position. What a record means, where a step may be made, and that it keeps the ring's rule,
//! says `ring_rule`: the law of a step, its function here and its record have one name.
//!
//! | Step | Word | Record | Event | Call | Seat |
//! |--|--|--|--|--|--|
//! | `split` | load of word 0 | | none | `Ring::open` | both |
//! | `admit` | load of the pend word, which is 0 | `Admitted` | Admit | `admit` | firing |
//! | `load` | load of the pend word | `Loaded` | none | `load_pend`, `poll_clear` | firing |
//! | `load_to_raise` | load of the pend word | `Lost` at the ceiling, else `Loaded` | Lose, else none | `raise` | firing |
//! | `add` | `fetch_add` of 1 on the pend word | `Added` | Expire | `raise` | firing |
//! | `store` | store of the entry at the producer index of the hard bank | `Stored` | none | `raise` | firing |
//! | `publish` | store of the producer word, one higher modulo 2^32 | `Published` | Publish | `raise` | firing |
//! | `mark` | `fetch_add` of 2^32 on the pend word | `Marked` | Mark | `mark` | firing |
//! | `clear` | store of 0 in the pend word | `Cleared` | Clear | `poll_clear` | firing |
//! | `switch` | store of the hard bank | `Switched` | Switch | `expand` | firing |
//! | `load_soft_bank` | load of the soft bank | `LoadedSoftBank` | none | `followed` | firing |
//! | `load_hard_bank` | load of the hard bank | `LoadedHardBank` | none | `take` | soft |
//! | `load_producer` | load of the producer word of the soft side's bank | `LoadedProducer` | none | `take` | soft |
//! | `take` | load of the buffer word at the consumer index | `Took` | Take | `take` | soft |
//! | `follow` | store of the soft bank | `Followed` | Follow | `take` | soft |
//! | `subtract` | `fetch_sub` of 1 on the pend word | `Subtracted` | Finish | `finish` | soft |
//! | `join` | load of word 0 | | none | `Ring::close` | both |
#![tactic(auto)]

mod firing;
mod plays;
mod positions;
mod sides;
mod soft;
mod words;

pub use plays::Served;
pub use positions::{ENTRY_BASE, INDEXES, MARK};
pub use sides::{BothSides, FiringSide, SoftSide};
pub use words::Words;
