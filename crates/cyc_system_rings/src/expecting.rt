//! The laws of the closed form of a cyclic's expirations.

ghost use Rattle.std.specs.Prelude.{◌≡◌, ℕ, List, ◌∷◌, All, Ok, length};
ghost use Rattle.std.specs.List.{FoldsTo};
ghost use Rattle.cyc_types.specs.declared.level.Level.{Level as OneLevel};
ghost use Rattle.cyc_types.specs.declared.moment.When.{When as Times};
ghost use Rattle.cyc_expected.specs.Course.{Told, Begins, BeginsOnAll, told_by};
ghost use Rattle.cyc_system_laws.specs.System.{SystemView};
ghost use Rattle.cyc_system_laws.specs.Counts.{all_expired};
ghost use Rattle.cyc_system_laws.specs.SystemCalls.{Changes, Add, AddOmni, BeginRemove};
ghost use Rattle.cyc_system_laws.specs.SystemRemoval.TheVariants.{Done};
ghost use Rattle.cyc_types.specs.declared.receipt.Receipt.{Receipt};
ghost use Rattle.cyc_system_workers.specs.declared.side.SystemSide.{SystemSide};
ghost use Rattle.cyc_system_laws.specs.Sound.{IsSound};
ghost use Rattle.cyc_system_rings.specs.Leading.{LeadCall};
ghost use Rattle.cyc_system_rings.specs.Events.{given_everywhere, events_in, AcceptedSteps, KeepsIt, KeepsComponents};

use cyc_types::{Calls, Raise};

/// From the call that gives an id to a cyclic on one CPU, until its removal begins, the cyclic has expired on all CPUs together
/// just as often as the closed form says: of its start and interval, of the moments at which it was reprogrammed, and of those of
/// the advances. Wherever it went, and whatever became of other cyclics, nothing else matters.
///
/// It does nothing when it runs: its clause is the law.
pub fn expected_law<C: Calls, R: Raise>()
    ensures expired { (id : ℕ) (level : OneLevel) (when : Times) (now : ℕ) (before : SystemView R) (s t : SystemSide R C)
        (way : List LeadCall)
        (told : Told) → IsSound R.view before → Changes R.Raise before (Add level when now (Ok id)) s.system
        → IsSound R.view s.system → length s.leads.items ≡ length s.system.cpus.cpus
        → FoldsTo (AcceptedSteps C.Calls R.Raise) s way t → All (KeepsIt id) way
        → all_expired id t.system ≡ (told_by (Begins when.start when.interval now ∷ events_in id way) told).expired }
    // Where the removal is done as it begins, its receipt says so.
    ensures receipt { (id : ℕ) (level : OneLevel) (when : Times) (now : ℕ) (before after : SystemView R) (s t : SystemSide R C)
        (way : List LeadCall) (told : Told) (receipt : Receipt) → IsSound R.view before
        → Changes R.Raise before (Add level when now (Ok id)) s.system → IsSound R.view s.system
        → length s.leads.items ≡ length s.system.cpus.cpus
        → FoldsTo (AcceptedSteps C.Calls R.Raise) s way t → All (KeepsIt id) way
        → Changes R.Raise t.system (BeginRemove id (Ok (Done receipt))) after
        → receipt.sent ≡ (told_by (Begins when.start when.interval now ∷ events_in id way) told).expired }
{}

/// The same of an omnipresent cyclic, whose components are on all online CPUs: each has the start that its CPU's number gives it,
/// and together they have expired as often as the closed form says. It holds until its removal begins, a CPU goes offline or
/// comes back, or one component is set alone.
///
/// It does nothing when it runs: its clause is the law.
pub fn expected_everywhere_law<C: Calls, R: Raise>()
    ensures { (id : ℕ) (level : OneLevel) (when : Times) (skew now : ℕ) (before : SystemView R) (s t : SystemSide R C)
        (way : List LeadCall) (told : Told) → told.online ≡ before.cpus.online → IsSound R.view before
        → Changes R.Raise before (AddOmni level when skew now (Ok id)) s.system → IsSound R.view s.system
        → length s.leads.items ≡ length s.system.cpus.cpus
        → FoldsTo (AcceptedSteps C.Calls R.Raise) s way t → All (KeepsComponents id) way
        → all_expired id t.system
        ≡ (told_by (BeginsOnAll (given_everywhere level when skew) now ∷ events_in id way) told).expired }
{}
