//! Calls on the end of a cyclic's level, of whichever level it is.

ghost use Rattle.std.specs.Prelude.{◌≡◌, ◌≤◌, ◌^◌, ◌⊎◌, true, false};
ghost use Rattle.std.specs.Bool.{OnTrue, OnFalse};
ghost use Rattle.cyc_types.specs.Firing.{MayAsk, MayAdmit, Sound};
ghost use Rattle.cyc_types.specs.Limits.{cyclics, greatest_bank};
ghost use Rattle.cyc_types.specs.Runs.{Goes};
ghost use Rattle.cyc_types.specs.declared.level.Level.TheVariants.{Low, Lock, High};
ghost use Rattle.cyc_cpu.specs.Cpu.{bank_for};
ghost use Rattle.cyc_timers.specs.Quiet.{asks_at, admits_at, Looks1};

use cyc_types::{CyclicId, Index, Level, Raise};

/// The calls of the cyclic that are outstanding at its level, 0 at high level.
pub(crate) fn load_pend<R: Raise>(id: CyclicId, level: Level, lock: &mut R, low: &mut R) -> u32
    requires lock { level ≡ Lock → MayAsk id (R.view lock.old) }
    requires low { level ≡ Low → MayAsk id (R.view low.old) }
    ensures high { level ≡ High → result ≡ 0 }
    ensures lock { Goes R.Raise lock.old (asks_at Lock level id result) lock.new }
    ensures low { Goes R.Raise low.old (asks_at Low level id result) low.new }
    ensures sound_lock { Sound (R.view lock.old) → Sound (R.view lock.new) }
    ensures sound_low { Sound (R.view low.old) → Sound (R.view low.new) }
{
    match level {
        Level::High => 0,
        Level::Lock => lock.load_pend(id),
        Level::Low => low.load_pend(id),
    }
}

/// Whether both soft sides are on the firing side's bank.
pub(crate) fn both_followed<R: Raise>(lock: &mut R, low: &mut R) -> bool
    ensures lock { Looks1 R.Raise lock.old lock.new }
    ensures low { Looks1 R.Raise low.old low.new }
    ensures yes { OnTrue result (((R.view lock.new).followed ≡ true) × ((R.view low.new).followed ≡ true)) }
    ensures no { OnFalse result (((R.view lock.new).followed ≡ false) ⊎ ((R.view low.new).followed ≡ false)) }
    ensures sound_lock { Sound (R.view lock.new) }
    ensures sound_low { Sound (R.view low.new) }
{
    let lock_followed = lock.followed();
    let low_followed = low.followed();
    lock_followed && low_followed
}

/// Admits the cyclic at the end of its level.
pub(crate) fn admit_at<R: Raise>(
    id: CyclicId,
    level: Level,
    index: Index,
    lock: &mut R,
    low: &mut R,
)
    requires lock { level ≡ Lock → MayAdmit id index (R.view lock.old) }
    requires low { level ≡ Low → MayAdmit id index (R.view low.old) }
    ensures lock { Goes R.Raise lock.old (admits_at Lock level id index) lock.new }
    ensures low { Goes R.Raise low.old (admits_at Low level id index) low.new }
    ensures sound_lock { Sound (R.view lock.old) → Sound (R.view lock.new) }
    ensures sound_low { Sound (R.view low.old) → Sound (R.view low.new) }
{
    match level {
        Level::High => {}
        Level::Lock => lock.admit(id, index),
        Level::Low => low.admit(id, index),
    }
}

/// The least bank that has so many slots.
pub(crate) fn least_bank(slots: usize) -> u8
    requires { slots ≤ cyclics }
    ensures least { result ≡ bank_for slots }
    ensures enough { slots ≤ 2 ^ result }
    ensures greatest { result ≤ greatest_bank }
    ensures few { 2 ^ result ≤ cyclics }
{
    (usize::BITS - slots.saturating_sub(1).leading_zeros()) as u8
}

/// The slots of a bank.
pub(crate) fn slots_of(bank: u8) -> usize
    requires { bank ≤ greatest_bank }
    ensures { result ≡ 2 ^ bank }
{
    1 << bank
}
