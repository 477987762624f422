//! What the workers tell each other.

ghost use Rattle.std.specs.Prelude.{◌≡◌, IfSome};
ghost use Rattle.cyc_workers.specs.Refusals.{CanRefuse};

use cyc_types::{Calls, CyclicId};
use std::marker::PhantomData;
use std::sync::atomic::{AtomicIn, Ordering, Rule};
use std::sync::{OnceLock, OnceToken};

/// The rule of the number that tells of a refusal: it is 0, or that of a cyclic whose handler may refuse.
pub struct Telling<C> {
    of: PhantomData<C>,
}

impl<C: Calls> Rule for Telling<C> {
    ghost use Rattle.std.specs.Prelude.{◌≡◌, ◌⊎◌};

    ghost invariant = { λ n. (n ≡ 0) ⊎ CanRefuse C.may_refuse n };
}

/// What the workers of a run tell each other: that they are to stop, and that a handler refused.
#[derive(Drop)]
pub struct Signals<C: Calls> {
    // Set once they are to stop.
    stop: OnceLock<()>,
    // The id whose handler refused, 0 where none did.
    refused: AtomicIn<Telling<C>>,
}

impl<C: Calls> Signals<C> {
    /// Neither is told yet.
    pub fn new() -> Signals<C> {
        Signals {
            stop: OnceLock::new(),
            refused: AtomicIn::new(0),
        }
    }

    /// Tells the draining workers to stop. One that is parked must be unparked after it.
    pub fn stop(&self) {
        let _ = self.stop.try_set(());
    }

    /// What shows that the draining workers were told to stop: there is none before `stop`.
    pub(crate) fn told_to_stop(&self) -> Option<OnceToken<'_, ()>>
        ensures { IfSome result (λ t. t.of ≡ self.now.stop.id) }
    {
        self.stop.witness()
    }

    /// Whether the draining workers are to stop.
    pub fn is_stopped(&self) -> bool {
        self.told_to_stop().is_some()
    }

    /// Tells that the handler of this cyclic refused.
    pub fn refuse(&self, id: CyclicId)
        requires { CanRefuse C.may_refuse id }
    {
        self.refused.store(id.number(), Ordering::SeqCst);
    }

    /// The cyclic whose handler refused; where several did, one of them.
    pub fn refused(&self) -> Option<CyclicId>
        ensures { IfSome result (λ id. CanRefuse C.may_refuse id) }
    {
        CyclicId::new(self.refused.load(Ordering::SeqCst))
    }
}
