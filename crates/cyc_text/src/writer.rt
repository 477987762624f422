//! A sink over any writer.

ghost use Rattle.std.specs.Prelude.{◌≡◌, ◌≤◌, length, false, IfOk};
ghost use Rattle.std.specs.Io.KnownBytes.{WriteAppends};
ghost use Rattle.cyc_text.specs.Puts.{Puts};

use crate::bounded::MOST_TURNS;
use crate::sink::{PutFailed, Sink};
use std::io;

/// A sink over any writer. What was written is what the writer tells of its bytes.
///
/// A `put` asks the writer again where a write was interrupted or took only a part. It fails where the writer fails otherwise or
/// takes nothing, or was asked 33,554,432 times in this put. It takes no memory of its own.
#[derive(Drop)]
pub struct Out<W> {
    writer: W,
    failed: bool,
}

impl<W: io::Write> Out<W> {
    /// A sink that has not failed.
    pub fn new(writer: W) -> Out<W>
        ensures { (result.writer ≡ writer) × (result.failed ≡ false) }
    {
        Out {
            writer,
            failed: false,
        }
    }

    /// The writer, as the last `put` left it.
    pub fn into_inner(self) -> W
        ensures { result ≡ self.writer }
    {
        let Out { writer, .. } = self;
        writer
    }
}

/// Writes a prefix of the bytes, which is empty where the write was interrupted.
fn write_some<W: io::Write>(writer: &mut W, bytes: &[u8]) -> Result<usize, PutFailed>
    ensures most { IfOk result (λ n. n ≤ length bytes.now) }
    ensures bytes { WriteAppends (W.contents writer.old) (W.contents writer.new) result bytes.now }
{
    match writer.write(bytes) {
        Ok(0) => Err(PutFailed),
        Ok(n) => Ok(n),
        Err(e) => if e.kind() == io::ErrorKind::Interrupted {
            Ok(0)
        } else {
            Err(PutFailed)
        },
    }
}

fn write_whole<W: io::Write>(writer: &mut W, bytes: &[u8]) -> Result<(), PutFailed>
    ensures { Puts (W.contents writer.old) (W.contents writer.new) result bytes.now }
{
    let mut rest = bytes;
    for _ in 0..MOST_TURNS {
        if rest.is_empty() {
            return Ok(());
        }
        let n = write_some(writer, rest)?;
        (_, rest) = rest.split_at(n);
    }
    Err(PutFailed)
}

impl<W: io::Write> Sink for Out<W> {
    ghost written = { λ o. W.contents o.writer };

    ghost has_failed = { λ o. o.failed };

    fn put(&mut self, bytes: &[u8]) -> Result<(), PutFailed> {
        match write_whole(&mut self.writer, bytes) {
            Ok(()) => Ok(()),
            Err(e) => {
                self.failed = true;
                Err(e)
            }
        }
    }

    fn failed(&self) -> bool {
        self.failed
    }
}
