//! The soft side of a level, as a trait.

ghost use Rattle.std.specs.Prelude.{◌≡◌, ℕ, ◌+◌, Option, IsSome, Some, None, IfSome};
ghost use Rattle.cyc_types.specs.Draining.{DrainCall, Takes, Finishes, hand_after, one_of};

use crate::id::CyclicId;

/// What a finish found at the cyclic's pend.
#[derive(Clone, Copy, Debug, PartialEq, Eq)]
pub enum Finished {
    /// Further calls are outstanding: the cyclic stays in hand.
    More,
    /// It was the last call outstanding: the hand is empty.
    Last,
    /// It was the last call kept for an open removal: the hand is empty.
    LastOfRemoval,
}

/// The soft side of one level: it takes cyclics from the buffer and lowers their pends (`cyclic_softint` of cyclic.c).
///
/// No call takes memory and none waits.
pub trait Drain {
    /// The cyclic in hand.
    ghost held: { Self → Option ℕ };

    /// The finished calls of each id so far.
    ghost made: { Self → ℕ → ℕ };

    /// The one value may become the other by this call with its answer.
    ghost step: { Self → DrainCall → Self → Type 0 };

    /// The cyclic in hand.
    fn hand(&self) -> Option<CyclicId>
        ensures { result ≡ held self.now };

    /// Takes the oldest entry of the buffer into the hand. Where its bank is empty and the firing side was seen on a greater
    /// one, it follows there and looks again; else None.
    fn take(&mut self) -> Option<CyclicId>
        requires { held self.old ≡ None }
        ensures step { step self.old (Takes result) self.new }
        ensures hand { held self.new ≡ result }
        ensures made { (id : ℕ) → made self.new id ≡ made self.old id };

    /// One call of the cyclic in hand is done.
    fn finish(&mut self) -> Finished
        requires { IsSome (held self.old) }
        ensures step { IfSome (held self.old) (λ id. step self.old (Finishes id result) self.new) }
        ensures hand { held self.new ≡ hand_after result (held self.old) }
        ensures made { (id : ℕ) → made self.new id ≡ made self.old id + one_of id (held self.old) };
}
