//! The law of the closed form over a whole run.

ghost use Rattle.std.specs.Prelude.{◌≡◌, ℕ, All, List, [], length};
ghost use Rattle.std.specs.List.{FoldsTo};
ghost use Rattle.cyc_ring.specs.declared.ends.RaiseEnd.{RaiseEnd as AnEnd};
ghost use Rattle.cyc_ring.specs.Ends.{end_view, raise_end};
ghost use Rattle.cyc_agreement.specs.Cpus.{new_cpus};
ghost use Rattle.cyc_expected.specs.Course.{untold, told_by};
ghost use Rattle.cyc_system_laws.specs.System.{SystemView};
ghost use Rattle.cyc_system_workers.specs.declared.side.SystemSide.{SystemSide};
ghost use Rattle.cyc_system_laws.specs.Sound.{IsSound};
ghost use Rattle.cyc_system_rings.specs.Leading.{LeadCall};
ghost use Rattle.cyc_system_rings.specs.Rings.{counts_in};
ghost use Rattle.cyc_system_rings.specs.Events.{events_in, AcceptedSteps, IsBeforeNever};
ghost use Rattle.cyc_system_rings.specs.Empty.{IsEmpty};

use cyc_types::Calls;

/// Over a whole run of a system that begins with no cyclic, whatever was called: each id has expired, on all CPUs together, just
/// as often as the closed form says of the calls that were accepted. Where its removal has answered, the receipt says so. It is
/// 0 of an id that was not given.
///
/// It does nothing when it runs: its clauses are the law.
pub fn whole_run_law<C: Calls>()
    ensures expired { (id : ℕ) (s t : SystemSide AnEnd C) (way : List LeadCall)
        → FoldsTo (AcceptedSteps C.Calls raise_end) s way t → IsSound end_view s.system
        → length s.leads.items ≡ length s.system.cpus.cpus → All IsBeforeNever way → IsEmpty s.system
        → (counts_in id way t.system).sent ≡ (told_by (events_in id way) (untold (length s.system.cpus.cpus))).expired }
    // A new system is empty.
    ensures begins { (most : ℕ) (ends : List (AnEnd × AnEnd)) (s : SystemView AnEnd) → s.cpus ≡ new_cpus most ends
        → s.records ≡ [] → IsEmpty s }
{}
