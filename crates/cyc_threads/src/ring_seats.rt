//! The law of the seats of a system's rings: each CPU keeps its two.

ghost use Rattle.std.specs.Prelude.{◌≡◌, ℕ, List, length};
ghost use Rattle.cyc_ring.specs.declared.ends.RaiseEnd.{RaiseEnd};
ghost use Rattle.cyc_ring.specs.Ends.{raise_end};
ghost use Rattle.cyc_system_laws.specs.Cpu.{CpuView};
ghost use Rattle.cyc_system_workers.specs.Settled.{AllAsked};
ghost use Rattle.cyc_system_workers.specs.System.{SystemView};
ghost use Rattle.cyc_system_workers.specs.Calls.{SystemCall, Changes};
ghost use Rattle.cyc_system_workers.specs.declared.side.SystemSide.{SystemSide};
ghost use Rattle.cyc_system_workers.specs.declared.advancing.Advanced.{Advanced};
ghost use Rattle.cyc_system_workers.specs.Advancing.{AllFire};
ghost use Rattle.cyc_threads.specs.SameSeats.{HaveSameSeats};

use cyc_types::Calls;

/// Each CPU of a system over rings keeps its two rings: over any call of the system, where its CPUs are asked whether they have
/// settled, where all online CPUs fire at once, and over one thing after another.
///
/// It does nothing when it runs: its clauses are the law.
pub fn seats_law<C: Calls>()
    ensures none { (v : List (CpuView RaiseEnd)) → HaveSameSeats v v }
    ensures joined { (u v w : List (CpuView RaiseEnd)) → HaveSameSeats u v → HaveSameSeats v w → HaveSameSeats u w }
    ensures called { (s t : SystemView RaiseEnd) (call : SystemCall) → Changes raise_end s call t
        → HaveSameSeats s.cpus.cpus t.cpus.cpus }
    ensures asked { (v w : List (CpuView RaiseEnd)) → AllAsked raise_end v w → HaveSameSeats v w }
    ensures fired { (now : ℕ) (a : SystemSide RaiseEnd C) (b : Advanced RaiseEnd C)
        → length a.system.cpus.online ≡ length a.system.cpus.cpus
        → length a.leads.items ≡ length a.system.cpus.cpus
        → AllFire C.Calls raise_end now a b
        → HaveSameSeats a.system.cpus.cpus b.side.system.cpus.cpus }
{}
