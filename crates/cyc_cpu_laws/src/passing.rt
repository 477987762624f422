//! The law of an end's way from one value to another.

ghost use Rattle.std.specs.Prelude.{◌≡◌, ℕ, ◌+◌, ◌≤◌};
ghost use Rattle.cyc_types.specs.Firing.{FiringCall};
ghost use Rattle.cyc_types.specs.Runs.{Taught, raises_in_call, losses_in_call};
ghost use Rattle.cyc_cpu_laws.specs.Passing.{Passes};

use cyc_types::Raise;

/// How an end comes from one value to another, with so many raises and losses of each id: by no call, by one, and by some
/// and then others. So a loop that uses an end needs no list of its calls.
///
/// It does nothing when it runs: its clauses are the law.
pub fn passing_law<R: Raise>()
    ensures none { (e : R) → Passes R.Raise (λ id. 0) (λ id. 0) e e }
    ensures one { (e f : R) (call : FiringCall) → Taught R.Raise e call f
        → Passes R.Raise (λ id. raises_in_call id call) (λ id. losses_in_call id call) e f }
    ensures joined { (raised lost raised' lost' : ℕ → ℕ) (e f g : R) → Passes R.Raise raised lost e f
        → Passes R.Raise raised' lost' f g
        → Passes R.Raise (λ id. raised id + raised' id) (λ id. lost id + lost' id) e g }
    // The ceiling of the end never changes, and no more raises are lost than are made.
    ensures ceiling { (raised lost : ℕ → ℕ) (e f : R) → Passes R.Raise raised lost e f
        → (R.view f).ceiling ≡ (R.view e).ceiling }
    ensures few { (raised lost : ℕ → ℕ) (e f : R) → Passes R.Raise raised lost e f → (id : ℕ) → lost id ≤ raised id }
{}
