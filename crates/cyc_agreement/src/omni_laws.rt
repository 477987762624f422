//! Laws of omnipresent cyclics.

ghost use Rattle.cyc_agreement.specs.OmniLaws.{EachHasItsComponent, OthersStay, AllCameBack, OtherCpusStay, NothingIsLost};

use cyc_types::Raise;

/// After an omnipresent cyclic was added, each online CPU has one component of it, whose first expiration is that of the start
/// of the CPU's number. Every other cyclic is where it was, as it was.
///
/// It does nothing when it runs: its clauses are the law.
pub fn components_law<R: Raise>()
    ensures each { EachHasItsComponent R.Raise }
    ensures others { OthersStay R.Raise }
{}

/// After a CPU took part again it has one component of each omnipresent cyclic whose removal is not open, which begins again
/// with the counts that this CPU kept. No other CPU was touched. No record has gone, and no count of any cyclic on any CPU: what
/// the CPU's ended stays came to is what its component counts.
///
/// It does nothing when it runs: its clauses are the law.
pub fn return_law<R: Raise>()
    ensures all { AllCameBack R.Raise }
    ensures others { OtherCpusStay R.Raise }
    ensures counts { NothingIsLost R.Raise }
{}
