//! Handlers that count their calls.

ghost use Rattle.std.specs.Prelude.{◌≡◌, ℕ, ◌+◌, ◌∷◌, [], IfOk, OnOk, OnErr, IsErr, ◌↔◌};
ghost use Rattle.cyc_types.specs.Counting.{times};
ghost use Rattle.cyc_types.specs.Tally.{tally_count, tally_get, tally_called, TallyRefuses, tally_made};

use crate::calls::{Calls, Refused};
use crate::id::CyclicId;
use crate::level::Level;
use std::alloc::{AllocError, Global};
use std::marker::Model;

/// Counts the calls of a range of ids, each up to a greatest count; a `Calls` for programs and tests (our own).
#[derive(Drop)]
pub struct Tally {
    first: u64,
    most: u64,
    counts: Vec<u64>,
}

impl Model for Tally {
    ghost use Rattle.cyc_types.specs.Tally.{TallyView};

    ghost Value = { TallyView };

    ghost view = { λ a. record { first = a.first; most = a.most; counts = a.counts.items } };
}

impl Tally {
    /// Counts the ids from `first` on, `len` of them, each up to `most`. It takes memory for all counts.
    pub fn new(alloc: Global, first: CyclicId, len: usize, most: u64) -> Result<Tally, AllocError>
        ensures { IfOk result (λ t. t ≡ tally_made first len most) }
    {
        Ok(Tally {
            first: first.number(),
            most,
            counts: vec![in alloc; 0; len]?,
        })
    }

    /// The calls of `id` so far. None out of the range.
    pub fn count(&self, id: CyclicId) -> Option<u64>
        ensures { result ≡ tally_get self.now id }
    {
        let number = id.number();
        if number < self.first {
            return None;
        }
        self.counts.get((number - self.first) as usize).copied()
    }
}

/// It refuses exactly the ids out of its range, and those whose count is `most`.
impl Calls for Tally {
    ghost count = { tally_count };

    ghost called = { tally_called };

    ghost may_refuse = { TallyRefuses };

    fn call(&mut self, id: CyclicId, level: Level) -> Result<(), Refused>
        ensures called { OnOk result (tally_called self.old id level self.new) }
        ensures counted { OnOk result ((q : ℕ) → tally_count self.new q ≡ tally_count self.old q + times q (id ∷ [])) }
        ensures refused { IsErr result ↔ TallyRefuses self.old id }
        ensures kept { OnErr result (self.new ≡ self.old) }
    {
        let number = id.number();
        if number < self.first {
            return Err(Refused);
        }
        let at = (number - self.first) as usize;
        if at >= self.counts.len() {
            return Err(Refused);
        }
        let count = self.counts[at];
        if count >= self.most {
            return Err(Refused);
        }
        self.counts[at] = count + 1;
        Ok(())
    }
}
