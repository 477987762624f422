//! The law of conservation over all CPUs.

ghost use Rattle.std.specs.Prelude.{◌≡◌, ℕ, ◌+◌, List, length};
ghost use Rattle.std.specs.List.{FoldsTo};
ghost use Rattle.cyc_ring.specs.declared.ends.RaiseEnd.{RaiseEnd as AnEnd};
ghost use Rattle.cyc_ring.specs.declared.closed.Closed.{Closed};
ghost use Rattle.cyc_ring.specs.Ends.{raise_end, end_view};
ghost use Rattle.cyc_system_laws.specs.System.{SystemView};
ghost use Rattle.cyc_system_laws.specs.Counts.{all_expired, all_lost};
ghost use Rattle.cyc_system_laws.specs.Sound.{IsSound};
ghost use Rattle.cyc_system_workers.specs.declared.side.SystemSide.{SystemSide};
ghost use Rattle.cyc_system_rings.specs.Leading.{LeadCall, LeadSteps};
ghost use Rattle.cyc_system_rings.specs.Rings.{all_raised, all_dropped, counted_by, counts_in, AreSettledAndClosed, all_made};

use cyc_types::Calls;

/// Over whatever the thread that leads a system does, while other threads drain its levels: the expirations of each id are the
/// raises of it at the ends of all CPUs and the calls of it that the high levels' handlers had, and its losses are those of the
/// raises. It is the same wherever the cyclic went, and when its removal has answered the receipt says it.
///
/// It does nothing when it runs: its clauses are the law.
pub fn conserved_law<C: Calls>()
    ensures expired { (id : ℕ) (s t : SystemSide AnEnd C) (way : List LeadCall)
        → FoldsTo (LeadSteps C.Calls raise_end) s way t → IsSound end_view s.system
        → length s.leads.items ≡ length s.system.cpus.cpus
        → (counts_in id way t.system).sent + all_raised id s.system + counted_by C.count id s.leads.items
        ≡ all_expired id s.system + all_raised id t.system + counted_by C.count id t.leads.items }
    ensures lost { (id : ℕ) (s t : SystemSide AnEnd C) (way : List LeadCall)
        → FoldsTo (LeadSteps C.Calls raise_end) s way t → IsSound end_view s.system
        → length s.leads.items ≡ length s.system.cpus.cpus
        → (counts_in id way t.system).lost + all_dropped id s.system ≡ all_lost id s.system + all_dropped id t.system }
    // Where all CPUs have settled and the rings are closed, each raise was made or lost.
    ensures closed { (id : ℕ) (t : SystemView AnEnd) (rings : List Closed) → AreSettledAndClosed t.cpus.cpus rings
        → all_made id rings + all_dropped id t ≡ all_raised id t }
{}
