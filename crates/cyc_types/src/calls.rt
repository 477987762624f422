//! The handlers, and the law that each call of one keeps.

ghost use Rattle.std.specs.Prelude.{◌≡◌, ℕ, ◌+◌, ◌∷◌, [], OnOk, OnErr};
ghost use Rattle.cyc_types.specs.Counting.{times};

use crate::id::CyclicId;
use crate::level::Level;

/// A handler refused its call. The call counts as not made.
#[derive(Clone, Copy, Debug, PartialEq, Eq)]
pub struct Refused;

/// What calls the handlers (`cyc_handler_t` of sys/cyclic.h), with a count of the calls of each id.
///
/// The law of handlers: a call that succeeds counts once, for its own id, and is made at the level that it is given; a
/// refused call counts for none, and comes only where the implementation says that it may (refusing is our own rule).
pub trait Calls {
    ghost use Rattle.cyc_types.specs.declared.level.Level.{Level};

    /// The calls of each id so far, 0 for an id that was never called.
    ghost count: { Self → ℕ → ℕ };

    /// The one value may become the other by a call of this id at this level that succeeds.
    ghost called: { Self → ℕ → Level → Self → Type 0 };

    /// A call of this id may be refused.
    ghost may_refuse: { Self → ℕ → Type 0 };

    /// Calls the handler of `id` at `level`.
    fn call(&mut self, id: CyclicId, level: Level) -> Result<(), Refused>
        ensures called { OnOk result (called self.old id level self.new) }
        ensures counted { OnOk result ((q : ℕ) → count self.new q ≡ count self.old q + times q (id ∷ [])) }
        ensures refused { OnErr result (may_refuse self.old id) }
        ensures kept { OnErr result ((q : ℕ) → count self.new q ≡ count self.old q) };
}
