//! The law of runs that differ in their moves alone.

ghost use Rattle.std.specs.Prelude.{◌≡◌, ℕ, List};
ghost use Rattle.cyc_expected.specs.Expected.{Met, expected};
ghost use Rattle.cyc_expected.specs.Calm.{AgreeButMoves};

/// Two runs of one script that accepted the same steps expect the same of each name, whatever became of their moves: where a
/// cyclic goes, and whether a move was refused, changes the places and no count.
///
/// It does nothing when it runs: its clause is the law.
pub fn calm_law()
    ensures { (cpus name : ℕ) (xs ys : List Met) → AgreeButMoves xs ys → expected cpus xs name ≡ expected cpus ys name }
{}
