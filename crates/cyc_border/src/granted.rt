//! Handlers that the caller has already called.

ghost use Rattle.std.specs.Prelude.{◌≡◌, ℕ, ◌+◌, ◌∷◌, [], OnOk, OnErr, IsErr, IsTrue, ◌↔◌};
ghost use Rattle.cyc_types.specs.Counting.{times};
ghost use Rattle.cyc_border.specs.Granted.{granted_count, granted_called, GrantedRefuses};
ghost use Rattle.cyc_border.specs.declared.granted.Granted.TheVariants.{One};

use cyc_types::{Calls, CyclicId, Level, Refused};

/// The handlers as a proved call sees them: those that the caller has said to have called. It stands for C's handlers, which
/// no proved code calls (our own).
#[derive(Clone, Copy, Debug, PartialEq, Eq)]
pub enum Granted {
    /// No call: every one is refused, and so named.
    Nothing,
    /// The next call of this cyclic, which the caller has made.
    One(CyclicId),
    /// That call, counted.
    Counted(CyclicId),
}

impl Calls for Granted {
    ghost count = { granted_count };

    ghost called = { granted_called };

    ghost may_refuse = { GrantedRefuses };

    fn call(&mut self, id: CyclicId, level: Level) -> Result<(), Refused>
        ensures called { OnOk result (granted_called self.old id level self.new) }
        ensures counted { OnOk result ((q : ℕ) → granted_count self.new q ≡ granted_count self.old q + times q (id ∷ [])) }
        ensures refused { IsErr result ↔ GrantedRefuses self.old id }
        ensures kept { OnErr result (self.new ≡ self.old) }
    {
        if !self.grants(id) {
            return Err(Refused);
        }
        *self = Granted::Counted(id);
        Ok(())
    }
}

impl Granted {
    /// Whether the next call of this cyclic is granted.
    fn grants(&self, id: CyclicId) -> bool
        ensures { IsTrue result ↔ (self.now ≡ One id) }
    {
        match self {
            Granted::One(next) => next.number() == id.number(),
            Granted::Nothing | Granted::Counted(_) => false,
        }
    }
}
