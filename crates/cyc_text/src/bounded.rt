//! A writer that is asked at most so often.

ghost use Rattle.std.specs.Prelude.{◌≡◌, ◌≤◌, IsErrAnd};
ghost use Rattle.std.specs.IoError.{error_kind};
ghost use Rattle.std.specs.Io.{WritesAtMost};
ghost use Rattle.std.specs.Io.KnownBytes.{WriteAppends};
ghost use Rattle.cyc_text.specs.Turns.{most_write_turns, write_turn_after};

use std::io;
use std::io::ErrorKind;

/// The most turns of a writing. The text of a script has fewer than half as many bytes, so as many turns are left for
/// interrupted writes.
pub(crate) const MOST_TURNS: u32 = 33_554_432;

/// A writer that is asked for at most 33,554,432 writes in all, so that one which is interrupted for ever is given up.
///
/// After them a write fails unasked, and no longer as an interrupted one. It takes no memory. Our own rule.
#[derive(Drop)]
pub struct BoundedWriter<W> {
    writer: W,
    turns: u32,
    ghost bounded: { turns ≤ 33554432 },
}

impl<W: io::Write> BoundedWriter<W> {
    /// A writer that was not asked yet.
    pub fn new(writer: W) -> BoundedWriter<W>
        ensures writer { result.writer ≡ writer }
        ensures turns { result.turns ≡ 0 }
    {
        BoundedWriter { writer, turns: 0 }
    }
}

impl<W: io::Write> io::Write for BoundedWriter<W> {
    ghost contents = { λ w. W.contents w.writer };

    fn write(&mut self, buf: &[u8]) -> io::Result<usize>
        ensures bound { WritesAtMost result buf.now }
        ensures bytes { WriteAppends (W.contents self.old.writer) (W.contents self.new.writer) result buf.now }
        ensures turn { self.new.turns ≡ write_turn_after self.old.turns }
        ensures spent { self.old.turns ≡ most_write_turns
            → (self.new.writer ≡ self.old.writer) × IsErrAnd result (λ e. error_kind e ≡ ErrorKind.TimedOut) }
    {
        if self.turns == MOST_TURNS {
            return Err(io::Error::from(ErrorKind::TimedOut));
        }
        self.turns += 1;
        self.writer.write(buf)
    }

    fn flush(&mut self) -> io::Result<()> {
        self.writer.flush()
    }
}
