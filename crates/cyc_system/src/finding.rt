//! The record of a cyclic whose removal is not open.

ghost use Rattle.std.specs.Prelude.{◌≡◌, Some, IfNone, IfSome};
ghost use Rattle.std.specs.Bool.{OnTrue, OnFalse};
ghost use Rattle.cyc_types.specs.declared.refusal.Refusal.TheVariants.{NoCyclic};
ghost use Rattle.cyc_places.specs.declared.record.Record.{Record as TheRecord};

use crate::system::System;
use cyc_agreement::is_leaving;
use cyc_types::{CyclicId, Raise};

impl<R: Raise> System<R> {
    ghost use Rattle.cyc_agreement.specs.Refusals.{no_cyclic, IsPresent};
    ghost use Rattle.cyc_places.specs.Places.{IsRecord};

    /// The position of the record of a cyclic whose removal is not open. None where there is no such cyclic.
    pub(crate) fn present(&self, id: CyclicId) -> Option<usize>
        ensures none { IfNone result (no_cyclic id self.now ≡ Some NoCyclic) }
        ensures some { IfSome result (λ k. (r : TheRecord) × IsPresent id k r self.now) }
    {
        let position = self.records.find(id)?;
        if self.stays(id, position) {
            return Some(position);
        }
        None
    }

    /// Whether the removal of the cyclic, of which this is the position, is not open.
    #[inline(always)]
    pub(crate) fn stays(&self, id: CyclicId, position: usize) -> bool
        requires { (r : TheRecord) × IsRecord self.now.records position r × (r.id ≡ id) }
        ensures stays { OnTrue result ((r : TheRecord) × IsPresent id position r self.now) }
        ensures leaves { OnFalse result (no_cyclic id self.now ≡ Some NoCyclic) }
    {
        self.records.law();
        !is_leaving(&self.cpus, id)
    }

    /// The position of the record of a cyclic, for one that will be looked for again. None where there is no such cyclic.
    pub(crate) fn seek(&mut self, id: CyclicId) -> Option<usize>
        ensures none { IfNone result (no_cyclic id self.new ≡ Some NoCyclic) }
        ensures some { IfSome result (λ k. (r : TheRecord) × IsRecord self.new.records k r × (r.id ≡ id)) }
        ensures same { self.new ≡ self.old }
    {
        self.records.seek(id)
    }
}
