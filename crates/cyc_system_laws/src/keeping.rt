//! Laws of what calls keep of each cyclic: any call, and a fire, a soft interrupt and a CPU that goes offline.

ghost use Rattle.std.specs.Prelude.{◌≡◌, ◌≢◌, true, ℕ, Result};
ghost use Rattle.cyc_types.specs.declared.level.Soft.{Soft};
ghost use Rattle.cyc_types.specs.declared.refusal.Refusal.{Refusal as Reason};
ghost use Rattle.cyc_core.specs.Tables.{Tables};
ghost use Rattle.cyc_timers.specs.declared.fire.Fired.{Fired};
ghost use Rattle.cyc_timers.specs.declared.fire.FireRefused.{FireRefused};
ghost use Rattle.cyc_soft.specs.declared.Ran.{Ran};
ghost use Rattle.cyc_cpu.specs.Calls.{no_interrupts};
ghost use Rattle.cyc_cpu.specs.Soft.{raise_tables, firing_at, Interrupts};
ghost use Rattle.cyc_places.specs.Places.{HasRisingIds};
ghost use Rattle.cyc_system.specs.declared.system.SoftFault.{SoftFault};
ghost use Rattle.cyc_system.specs.System.{SystemView, RunningSystem, is_omnipresent};
ghost use Rattle.cyc_system.specs.RemovalLaws.{cyclic_on};
ghost use Rattle.cyc_system.specs.Calls.{SystemCall, Changes, Does, Reprogram, ReprogramOn, FireOne, Offline, SoftInterrupt};
ghost use Rattle.cyc_system_laws.specs.Keeping.{SameCounts, SameStays, SameButMoments, SameRecord, EndsRemoval, TouchesStays};
ghost use Rattle.cyc_system_laws.specs.Keeping.{TouchesRecord};
ghost use Rattle.cyc_system_laws.specs.Kinds.{SameKinds};
ghost use Rattle.cyc_system_laws.specs.Sound.{IsSound};

use cyc_types::{Calls, Raise};

/// No call but a fire changes the counts of an id, over all CPUs and all of its stays, open and ended, until the call that
/// answers its removal. So a whole juggle and a whole offline lose no expiration and no loss of any cyclic.
///
/// It does nothing when it runs: its clause is the law.
pub fn counts_law<R: Raise>()
    ensures { (id : ℕ) (s t : SystemView R) (call : SystemCall) → IsSound R.view s → IsSound R.view t
        → Changes R.Raise s call t → (EndsRemoval id call → ⊥) → SameCounts id s t }
{}

/// What calls keep of a cyclic, wherever they take it. Its stays are the same after every call that doesn't name it and reaches
/// no handler; of an omnipresent one but for a CPU that goes offline or online. So a juggle keeps the level, the interval and the
/// next expiration of each.
///
/// It does nothing when it runs: its clauses are the law.
pub fn stays_law<R: Raise>()
    ensures stays { (id : ℕ) (s t : SystemView R) (call : SystemCall) → IsSound R.view s → IsSound R.view t
        → Changes R.Raise s call t → (TouchesStays id call s → ⊥) → SameStays id s t }
    // A cyclic that is reprogrammed has another next expiration, and nothing else of it changes.
    ensures reprogrammed { (id moment : ℕ) (s t : SystemView R) (answer : Result (Unit {0}) Reason) → IsSound R.view s
        → IsSound R.view t
        → Changes R.Raise s (Reprogram id moment answer) t → SameButMoments id s t }
    ensures component { (id n moment : ℕ) (s t : SystemView R) (answer : Result (Unit {0}) Reason) → IsSound R.view s
        → IsSound R.view t → Changes R.Raise s (ReprogramOn id n moment answer) t → SameButMoments id s t }
    // An id has its record, with its level, until its removal answers.
    ensures known { (id : ℕ) (s t : SystemView R) (call : SystemCall) → HasRisingIds s.records
        → Changes R.Raise s call t → (TouchesRecord id call → ⊥) → SameRecord id s t }
{}

/// A fire, one that was refused or stopped too, changes next expirations and counts alone: of each cyclic, wherever it is, the
/// level and the interval stay, and none comes or goes.
///
/// It does nothing when it runs: its clause is the law.
pub fn fires_law<C: Calls, R: Raise>()
    ensures { (id n now : ℕ) (answer : Result Fired FireRefused) (s t : RunningSystem C R) → IsSound R.view s.system
        → IsSound R.view t.system
        → Does C.Calls R.Raise no_interrupts s (FireOne n now answer) t
        → SameKinds id s.system t.system }
{}

/// A soft interrupt keeps all of each cyclic: its level, its interval, its next expiration and its counts.
///
/// It does nothing when it runs: its clause is the law.
pub fn interrupts_law<C: Calls>()
    ensures { (id n budget : ℕ) (level : Soft) (answer : Result Ran SoftFault) (s t : RunningSystem C Tables)
        → IsSound firing_at s.system → IsSound firing_at t.system
        → Does C.Calls raise_tables (Interrupts C.Calls) s (SoftInterrupt n level budget answer) t
        → SameStays id s.system t.system }
{}

/// A CPU that goes offline touches no component of an omnipresent cyclic but its own: on every other CPU the cyclic has the
/// level, the interval, the next expiration, the expirations and the losses that it had, whatever the call answers and whichever
/// cyclics moved there.
///
/// It does nothing when it runs: its clause is the law.
pub fn offlines_law<R: Raise>()
    ensures { (id n m : ℕ) (answer : Result (Unit {0}) Reason) (s t : SystemView R) → is_omnipresent id s ≡ true → m ≢ n
        → Changes R.Raise s (Offline n answer) t → cyclic_on m id t.cpus ≡ cyclic_on m id s.cpus }
{}
