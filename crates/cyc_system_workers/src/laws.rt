//! What an advance is as calls of the system.

ghost use Rattle.std.specs.Prelude.{◌≡◌, ℕ, length};
ghost use Rattle.cyc_system.specs.Agreement.{Agrees};
ghost use Rattle.cyc_system_workers.specs.declared.side.SystemSide.{SystemSide};
ghost use Rattle.cyc_system_workers.specs.declared.advancing.Advanced.{Advanced};
ghost use Rattle.cyc_system_workers.specs.Advancing.{AllFire};
ghost use Rattle.cyc_system_workers.specs.Fires.{IsFires};

use cyc_types::{Calls, Raise};

/// An advance, in which all online CPUs fire at once, is what `System::fire_one` makes of the system, called once for each
/// online CPU, each with its own handlers.
///
/// It does nothing when it runs: its clause is the law.
pub fn advance_law<C: Calls, R: Raise>()
    ensures { (now : ℕ) (a : SystemSide R C) (b : Advanced R C) → Agrees a.system
        → length a.leads.items ≡ length a.system.cpus.cpus
        → AllFire C.Calls R.Raise now a b
        → IsFires C.Calls R.Raise now a b }
{}
