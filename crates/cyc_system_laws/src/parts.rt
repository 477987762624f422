//! The law of what calls on CPUs a call of a system is made of.

ghost use Rattle.cyc_system.specs.System.{SystemView};
ghost use Rattle.cyc_system.specs.Calls.{SystemCall, Changes};
ghost use Rattle.cyc_system_laws.specs.Parts.{IsMadeOf};

use cyc_types::Raise;

/// Each call of a system that reaches no handler is made of calls on its CPUs, and of CPUs that go online or offline, one after
/// another. None of them puts in a cyclic whose id was given before and has no record: one that was removed.
///
/// It does nothing when it runs: its clause is the law.
pub fn parts_law<R: Raise>()
    ensures { (s t : SystemView R) (call : SystemCall) → Changes R.Raise s call t → IsMadeOf R.Raise s t }
{}
