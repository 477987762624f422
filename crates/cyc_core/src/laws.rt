//! What follows from the events of a call, and where hints stand. The functions here do nothing: each one's contract is a law.

ghost use Rattle.std.specs.Prelude.{◌≡◌, ◌≢◌, ℕ, ◌+◌, ◌<◌, [], None};
ghost use Rattle.cyc_types.specs.Limits.{cyclics};
ghost use Rattle.cyc_types.specs.Draining.{Takes};
ghost use Rattle.cyc_level.specs.Level.{SoftLevel};
ghost use Rattle.cyc_level.specs.Lawful.{Lawful};
ghost use Rattle.cyc_core.specs.DrainingSide.{Drains};
ghost use Rattle.cyc_core.specs.Shown.{level_hint};

/// A look that takes nothing leaves both lists empty. So a soft interrupt that ends idle leaves nothing in the buffer.
pub fn idle_is_empty()
    ensures { (before after : SoftLevel) → Lawful before → Drains before (Takes None) after → (after.old_list ≡ [])
        × (after.new_list ≡ []) }
{}

/// Two ids that are less than 4,095 apart have hints of their own: where ids rise by one, as many cyclics as a level may have,
/// but for the last, don't take each other's.
pub fn hints_are_apart()
    ensures { (low high : ℕ) → low < high → high + 1 < low + cyclics → level_hint low ≢ level_hint high }
{}
