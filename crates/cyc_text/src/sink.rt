//! What takes bytes, and what it tells of them.

ghost use Rattle.std.specs.Prelude.{◌≡◌, ℕ, List, Option, Bool, true, is_ok, if◌then◌else◌};
ghost use Rattle.cyc_text.specs.Puts.{Puts};

use thiserror::Error;

/// A sink did not take all the bytes that were put. Some of them, from the front, may be written.
#[derive(Clone, Copy, Debug, Drop, PartialEq, Eq, Error)]
#[error("the bytes were not written")]
pub struct PutFailed;

/// What takes bytes one after another.
///
/// Once a `put` has failed, the sink has failed for good.
pub trait Sink {
    /// The bytes that were written so far; `None` where that is not known, as of a terminal.
    ghost written: { Self → Option (List ℕ) };
    /// Whether a `put` has failed.
    ghost has_failed: { Self → Bool };

    /// Appends the bytes. At an error a prefix of them was appended, which may be empty.
    fn put(&mut self, bytes: &[u8]) -> Result<(), PutFailed>
        ensures bytes { Puts (written self.old) (written self.new) result bytes.now }
        ensures flag { has_failed self.new ≡ (if is_ok result then has_failed self.old else true) };

    /// Whether a `put` has failed.
    fn failed(&self) -> bool
        ensures { result ≡ has_failed self.now };
}
