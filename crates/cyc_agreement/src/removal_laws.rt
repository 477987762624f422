//! Laws of removals.

ghost use Rattle.std.specs.Prelude.{◌≡◌, ◌≢◌, ℕ, Option, Some, None, Result, Ok};
ghost use Rattle.cyc_types.specs.declared.receipt.Receipt.{Receipt};
ghost use Rattle.cyc_types.specs.declared.refusal.Refusal.{Refusal};
ghost use Rattle.cyc_places.specs.Places.{HasRisingIds};
ghost use Rattle.cyc_agreement.specs.System.{SystemView};
ghost use Rattle.cyc_agreement.specs.declared.removing.SystemRemoval.{SystemRemoval};
ghost use Rattle.cyc_agreement.specs.declared.removing.SystemRemoval.TheVariants.{Done, Kept};
ghost use Rattle.cyc_agreement.specs.declared.totals.SystemTotals.{SystemTotals};
ghost use Rattle.cyc_agreement.specs.Removing.{BeginsRemoval};
ghost use Rattle.cyc_agreement.specs.Polling.{PollsRemoval};
ghost use Rattle.cyc_agreement.specs.Counting.{AsksTotals};
ghost use Rattle.cyc_agreement.specs.RemovalLaws.{IsForgotten, IsUntouched};
ghost use Rattle.cyc_agreement.specs.Counts.{IsFit, AreLawful, all_expired, all_lost};

use cyc_types::Raise;

/// Once a removal has answered, as it began or at a poll, no CPU has the cyclic, and no record names it.
///
/// It does nothing when it runs: its clauses are the law.
pub fn forgotten_law<R: Raise>()
    ensures begun { (id : ℕ) (receipt : Receipt) (s t : SystemView R) → HasRisingIds s.records
        → BeginsRemoval R.Raise id (Ok (Done receipt)) s t → IsForgotten id t }
    ensures polled { (id : ℕ) (receipt : Receipt) (s t : SystemView R) → HasRisingIds s.records
        → PollsRemoval R.Raise id (Ok (Some receipt)) s t → IsForgotten id t }
{}

/// A removal, its polls and the question for a cyclic's counts leave every other cyclic as it was, whatever they answer; and
/// the question leaves its own too.
///
/// It does nothing when it runs: its clauses are the law.
pub fn others_law<R: Raise>()
    ensures begun { (id other : ℕ) (answer : Result SystemRemoval Refusal) (s t : SystemView R) → other ≢ id
        → BeginsRemoval R.Raise id answer s t → IsUntouched other s t }
    ensures polled { (id other : ℕ) (answer : Result (Option Receipt) Refusal) (s t : SystemView R) → other ≢ id
        → PollsRemoval R.Raise id answer s t → IsUntouched other s t }
    ensures asked { (id other : ℕ) (answer : Option SystemTotals) (s t : SystemView R) → AsksTotals R.Raise id answer s t
        → IsUntouched other s t }
{}

/// The counts of a cyclic over all CPUs and all of its stays, open and ended, are what its receipt has; and while its removal
/// is open no poll changes them.
///
/// It does nothing when it runs: its clauses are the law.
pub fn receipt_law<R: Raise>()
    ensures done { (id : ℕ) (receipt : Receipt) (s t : SystemView R) → IsFit s → AreLawful R.view s
        → BeginsRemoval R.Raise id (Ok (Done receipt)) s t
        → (receipt.sent ≡ all_expired id s) × (receipt.lost ≡ all_lost id s) }
    ensures kept { (id kept : ℕ) (s t : SystemView R) → IsFit s → AreLawful R.view s
        → BeginsRemoval R.Raise id (Ok (Kept kept)) s t
        → (all_expired id t ≡ all_expired id s) × (all_lost id t ≡ all_lost id s) }
    ensures answered { (id : ℕ) (receipt : Receipt) (s t : SystemView R) → IsFit s → AreLawful R.view s
        → PollsRemoval R.Raise id (Ok (Some receipt)) s t
        → (receipt.sent ≡ all_expired id s) × (receipt.lost ≡ all_lost id s) }
    ensures waits { (id : ℕ) (s t : SystemView R) → IsFit s → AreLawful R.view s → PollsRemoval R.Raise id (Ok None) s t
        → (all_expired id t ≡ all_expired id s) × (all_lost id t ≡ all_lost id s) }
{}

/// What a system tells of a cyclic's counts is what all of its stays, open and ended, came to on all CPUs.
///
/// It does nothing when it runs: its clause is the law.
pub fn totals_law<R: Raise>()
    ensures { (id : ℕ) (totals : SystemTotals) (s t : SystemView R) → AreLawful R.view s
        → AsksTotals R.Raise id (Some totals) s t
        → (totals.expired ≡ all_expired id s) × (totals.lost ≡ all_lost id s) }
{}
