//! A reader that is asked at most so often.

ghost use Rattle.std.specs.Prelude.{◌≡◌, ◌≤◌, ◌<◌, false, true, is_ok, if◌then◌else◌, IsErr, IfErr, OnOk};
ghost use Rattle.cyc_input.specs.Turns.{most_turns, turn_after, IsWithin, GivesBytes};

use crate::fault::InputFault;
use std::io::{ErrorKind, Read};

/// The most turns of a reading: as many as twice the most bytes of a script, so that each of them may come alone, and after an
/// interrupted read.
const MOST_TURNS: u32 = 33_554_432;

/// A reader that is asked for at most 33,554,432 reads in all, so that one which is interrupted for ever is given up.
///
/// It takes no memory. Our own rule.
#[derive(Drop)]
pub struct BoundedReader<R> {
    reader: R,
    turns: u32,
    failed: bool,
    ghost bounded: { turns ≤ 33554432 },
}

/// What a read gave.
#[derive(Clone, Copy, Drop)]
pub(crate) enum Turn {
    /// So many bytes, which stand at the front of the buffer. There are none at the reader's end.
    Bytes(usize),
    /// Nothing: it was interrupted.
    Interrupted,
}

impl<R: Read> BoundedReader<R> {
    /// A reader that was not asked yet.
    pub fn new(reader: R) -> BoundedReader<R>
        ensures reader { result.reader ≡ reader }
        ensures turns { result.turns ≡ 0 }
        ensures failed { result.failed ≡ false }
    {
        BoundedReader {
            reader,
            turns: 0,
            failed: false,
        }
    }

    /// Asks the reader once. It fails where the read fails otherwise than by an interruption; and where no turn is left, and then
    /// the reader is not asked.
    pub(crate) fn turn(&mut self, buffer: &mut [u8]) -> Result<Turn, InputFault>
        ensures bound { IsWithin result buffer.new }
        ensures bytes { GivesBytes (R.remaining self.old.reader) (R.remaining self.new.reader) result buffer.new }
        ensures turns { self.new.turns ≡ turn_after self.old.turns }
        ensures later { OnOk result (self.old.turns < self.new.turns) }
        ensures spent { self.old.turns ≡ most_turns → IsErr result × (self.new.reader ≡ self.old.reader) }
        ensures failed { self.new.failed ≡ (if is_ok result then self.old.failed else true) }
        ensures fault { IfErr result (λ e. e ≡ InputFault.Read) }
    {
        if self.turns == MOST_TURNS {
            self.failed = true;
            return Err(InputFault::Read);
        }
        self.turns += 1;
        match self.reader.read(buffer) {
            Ok(n) => Ok(Turn::Bytes(n)),
            Err(e) => if e.kind() == ErrorKind::Interrupted {
                Ok(Turn::Interrupted)
            } else {
                self.failed = true;
                Err(InputFault::Read)
            },
        }
    }
}
