//! The reading of an input to its end, or to a bound.

ghost use Rattle.std.specs.Prelude.{◌≡◌, ◌≤◌, ◌<◌, ◌++◌, ◌⊎◌, List, ℕ, length, vec_len, false, IfOk, OnErr, OnOk};
ghost use Rattle.std.specs.Io.KnownBytes.{Consumes};
ghost use Rattle.cyc_input.specs.Input.{most_input_bytes, IsComplete, GrowsBy, is_read_fault, LosesAtMost};
ghost use Rattle.cyc_input.specs.Turns.{most_turns};

use crate::bounded::{BoundedReader, Turn};
use crate::fault::InputFault;
use std::alloc::Global;
use std::io::Read;

/// One byte more than a script may have, so that a longer input is refused.
const MOST_BYTES: usize = 16_777_217;

/// Asks the reader once, by way of the buffer, and puts what it gives behind the bytes. Whether it was at its end.
fn read_turn<R: Read>(
    reader: &mut BoundedReader<R>,
    buffer: &mut [u8],
    bytes: &mut Vec<u8>,
) -> Result<bool, InputFault>
    requires room { vec_len bytes.old < most_input_bytes }
    requires buffer { 0 < length buffer.old }
    requires whole { reader.old.failed ≡ false }
    ensures bytes { GrowsBy (R.remaining reader.old.reader) (R.remaining reader.new.reader)
        bytes.old.items bytes.new.items result }
    ensures later { OnOk result (reader.old.turns < reader.new.turns) }
    ensures failed { reader.new.failed ≡ is_read_fault result }
{
    let room = (MOST_BYTES - bytes.len()).min(buffer.len());
    match reader.turn(&mut buffer[..room])? {
        Turn::Bytes(n) => {
            bytes.extend_from_slice(&buffer[..n])?;
            Ok(n == 0)
        }
        Turn::Interrupted => Ok(false),
    }
}

/// The bytes that the reader gives, in order: up to its end, or the first 16,777,217. What follows them is left unread.
///
/// An interrupted read takes a turn, and the reader is asked again. `Memory` comes only where memory was refused, which it takes
/// for the bytes; `Read` only where a read failed otherwise, or after 33,554,432 turns. What was read before a fault is gone.
/// Our own rule.
pub fn read_input<R: Read>(
    alloc: Global,
    reader: &mut BoundedReader<R>,
) -> Result<Vec<u8>, InputFault>
    requires { reader.old.failed ≡ false }
    ensures bytes { IfOk result (λ bytes. Consumes (R.remaining reader.old.reader) (R.remaining reader.new.reader) bytes.items) }
    ensures complete { IfOk result (λ bytes. IsComplete (R.remaining reader.new.reader) bytes.items) }
    ensures lost { OnErr result (LosesAtMost most_input_bytes (R.remaining reader.old.reader) (R.remaining reader.new.reader)) }
    ensures turns { reader.new.turns ≤ most_turns }
    ensures failed { reader.new.failed ≡ is_read_fault result }
{
    let mut bytes = Vec::new(alloc);
    let mut buffer = [0u8; 4096];
    while bytes.len() < MOST_BYTES {
        if read_turn(reader, &mut buffer, &mut bytes)? {
            return Ok(bytes);
        }
    }
    Ok(bytes)
}
