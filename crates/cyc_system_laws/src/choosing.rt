//! The law of a destination.

ghost use Rattle.std.specs.Prelude.{◌≡◌, ℕ, Option, Some, None};
ghost use Rattle.cyc_agreement.specs.Cpus.{CpusView};
ghost use Rattle.cyc_agreement.specs.Destination.{destination};
ghost use Rattle.cyc_system_laws.specs.Destinations.{IsFitTarget, IsDestination};

use cyc_types::Raise;

/// The destination of a cyclic is the online CPU, other than the source, with the fewest cyclics, and of several that with the
/// smallest number; there is one where any CPU is online other than the source.
///
/// It does nothing when it runs: its clauses are the law.
pub fn destination_law<R: Raise>()
    ensures some { (source : Option ℕ) (d : ℕ) (v : CpusView R) → destination source v ≡ Some d → IsDestination source d v }
    ensures only { (source : Option ℕ) (d : ℕ) (v : CpusView R) → IsDestination source d v → destination source v ≡ Some d }
    ensures none { (source : Option ℕ) (n : ℕ) (v : CpusView R) → destination source v ≡ None → IsFitTarget source n v → ⊥ }
{}
