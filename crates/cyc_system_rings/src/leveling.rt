//! The law of conservation at each level.

ghost use Rattle.std.specs.Prelude.{◌≡◌, ℕ, ◌+◌, false, List, map, sum_by, None};
ghost use Rattle.cyc_types.specs.Levels.{as_level, at_level};
ghost use Rattle.cyc_types.specs.declared.level.Level.TheVariants.{High};
ghost use Rattle.cyc_types.specs.declared.level.Soft.{Soft as Level};
ghost use Rattle.cyc_types.specs.Counting.{no_counts};
ghost use Rattle.cyc_ring.specs.declared.ends.RaiseEnd.{RaiseEnd as AnEnd};
ghost use Rattle.cyc_ring.specs.declared.closed.Closed.{Closed};
ghost use Rattle.cyc_system_laws.specs.System.{SystemView};
ghost use Rattle.cyc_system_workers.specs.declared.side.SystemSide.{SystemSide};
ghost use Rattle.cyc_system_rings.specs.Leading.{LeadCall};
ghost use Rattle.cyc_system_rings.specs.Rings.{counted_by, counts_in, AreSettledAndClosed};
ghost use Rattle.cyc_system_rings.specs.ByLevel.{level_in, is_own, counts_at, raised_at, dropped_at, rings_of, made_at};
ghost use Rattle.cyc_system_rings.specs.ByLevel.{AreServed, LeadsFromNew, HasNewEnds};

use cyc_types::Calls;

/// From a new system on, whatever the lead does, all that happens of an id happens at the level with which it was given: the
/// raises at the ends of that level, or the calls of the high levels' handlers, grow by its expirations, and nothing of it is
/// raised or called at another level. Its losses are those of the raises of its level; a cyclic of the high level loses none.
///
/// It does nothing when it runs: its clauses are the law.
pub fn conserved_by_level_law<C: Calls>()
    ensures raised { (id : ℕ) (soft : Level) (s t : SystemSide AnEnd C) (way : List LeadCall)
        → LeadsFromNew C.Calls s way t
        → raised_at soft id t.system ≡ raised_at soft id s.system + (counts_at (as_level soft) id way t.system).sent }
    ensures lost { (id : ℕ) (soft : Level) (s t : SystemSide AnEnd C) (way : List LeadCall)
        → LeadsFromNew C.Calls s way t
        → dropped_at soft id t.system ≡ dropped_at soft id s.system + (counts_at (as_level soft) id way t.system).lost }
    ensures called { (id : ℕ) (s t : SystemSide AnEnd C) (way : List LeadCall)
        → LeadsFromNew C.Calls s way t
        → counted_by C.count id t.leads.items ≡ counted_by C.count id s.leads.items + (counts_at High id way t.system).sent }
    ensures kept { (id : ℕ) (s t : SystemSide AnEnd C) (way : List LeadCall)
        → LeadsFromNew C.Calls s way t → (counts_at High id way t.system).lost ≡ 0 }
    // No high level's handlers were called for an id of another level.
    ensures uncalled { (id : ℕ) (s t : SystemSide AnEnd C) (way : List LeadCall)
        → LeadsFromNew C.Calls s way t → is_own High (level_in id way) ≡ false
        → map (λ l. C.count l.calls id) t.leads.items ≡ map (λ l. C.count l.calls id) s.leads.items }
    // Nothing is told of an id that was not given.
    ensures ungiven { (id : ℕ) (s t : SystemSide AnEnd C) (way : List LeadCall)
        → LeadsFromNew C.Calls s way t → level_in id way ≡ None → counts_in id way t.system ≡ no_counts }
{}

/// Where all CPUs have settled and the rings are closed, the soft sides of the rings of an id's level made a call for each of its
/// expirations that was not lost, and those of another level made none. As often the handlers of each level were called for it.
/// The rings are new at first.
///
/// It does nothing when it runs: its clauses are the law.
pub fn served_by_level_law<C: Calls>()
    ensures closed { (id : ℕ) (soft : Level) (t : SystemView AnEnd) (rings : List Closed) → AreSettledAndClosed t.cpus.cpus rings
        → made_at soft id rings + dropped_at soft id t ≡ raised_at soft id t }
    ensures made { (id : ℕ) (soft : Level) (s t : SystemSide AnEnd C) (way : List LeadCall) (rings : List Closed)
        → LeadsFromNew C.Calls s way t → HasNewEnds s.system → AreSettledAndClosed t.system.cpus.cpus rings
        → made_at soft id rings + (counts_at (as_level soft) id way t.system).lost
        ≡ (counts_at (as_level soft) id way t.system).sent }
    ensures served { (id : ℕ) (soft : Level) (s t : SystemSide AnEnd C) (way : List LeadCall) (rings : List Closed)
        (before after : List C) → LeadsFromNew C.Calls s way t → HasNewEnds s.system
        → AreSettledAndClosed t.system.cpus.cpus rings
        → AreServed (at_level C.called (as_level soft)) C.count (rings_of soft rings) before after
        → sum_by (λ c. C.count c id) after + (counts_at (as_level soft) id way t.system).lost
        ≡ sum_by (λ c. C.count c id) before + (counts_at (as_level soft) id way t.system).sent }
    // No handlers of this level were called for an id of another.
    ensures uncalled { (id : ℕ) (soft : Level) (s t : SystemSide AnEnd C) (way : List LeadCall) (rings : List Closed)
        (before after : List C) → LeadsFromNew C.Calls s way t → HasNewEnds s.system
        → AreSettledAndClosed t.system.cpus.cpus rings
        → AreServed (at_level C.called (as_level soft)) C.count (rings_of soft rings) before after
        → is_own (as_level soft) (level_in id way) ≡ false
        → map (λ c. C.count c id) after ≡ map (λ c. C.count c id) before }
{}
