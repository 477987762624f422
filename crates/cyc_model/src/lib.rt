//! What a script does with 1 to 16 CPUs: a definition, and its laws.
//!
//! The definition stands in `specs/`: what a call does on one CPU (`Firing`, `Serving`, `Moving`), what it must ask first
//! (`Questions`), the machine (`State`, `Places`), why a call is refused (`Refusals`), one file for each word of a script (`Add`
//! to `Resume`), and the whole (`Script`, `Report`). It has no heap, no ring and no thread in it.
//!
//! A step comes to its lines, to one list of acts in the order of time, and to the machine after it. The functions here do
//! nothing: each one's contract is a law.
#![tactic(auto)]

ghost use Rattle.std.specs.Prelude.{ℕ};
ghost use Rattle.cyc_model.specs.Script.{start};
ghost use Rattle.cyc_model.specs.Laws.{RefusedOrDone, ActsTellAll, TextTellsNoIndex, IdsAreGivenOnce, HandsAreFree};
ghost use Rattle.cyc_model.specs.Laws.{SoftSideIsEnabled, level_on};
ghost use Rattle.cyc_model.specs.Along.{LevelsStayLawful};
ghost use Rattle.cyc_model.specs.Agreement.{AllAgree, CpusAgree, FiringSideIsReady};
ghost use Rattle.cyc_model.specs.Kept.{MovesLoseNothing, CyclicsAreAtHome};
ghost use Rattle.cyc_model.specs.Numbers.{ReportsAddUp, RemovesTellCalls, PollsTellCalls, NothingFollowsRemoval};
ghost use Rattle.cyc_model.specs.Numbers.{RemovedCountsStay};
ghost use Rattle.cyc_model.specs.Bounds.{CountsStaySmall, ScriptsStayBelow};
ghost use Rattle.cyc_model.specs.Enabled.{EventsAreEnabled, IndexesAreFound};
ghost use Rattle.cyc_model.specs.Suspended.{SuspendSuspends, NothingExpiresSuspended};
ghost use Rattle.cyc_level.specs.Lawful.{Lawful};
ghost use Rattle.cyc_types.specs.declared.level.Soft.{Soft};

/// A step that is refused changes nothing, but that an `advance` sets the clock, and its line has the number of the refusal; any
/// other does what its word does.
pub fn refused_or_done()
    ensures { RefusedOrDone }
{}

/// The acts of a run tell all of it: each soft level of each CPU is what its events made of it, and the handler of each id was
/// called as often as they say.
pub fn acts_tell_all()
    ensures { ActsTellAll }
{}

/// The text of a script is the same whatever indexes its cyclics get.
pub fn text_tells_no_index()
    ensures { TextTellsNoIndex }
{}

/// After any steps the ids whose removal has not answered rise up to the one that was given last, and no cyclic on any CPU has an
/// id above it; and no further steps take an id back. So the id that an add gives is new everywhere, and is never given again.
pub fn ids_are_given_once()
    ensures { IdsAreGivenOnce }
{}

/// Between two steps no cyclic stands in a firer's hand, and whatever the soft side does, it may do: in every run each Take,
/// Finish and Follow is enabled when it happens, and so is each Publish.
pub fn soft_side_is_enabled()
    ensures start { (cpus ceiling names : ℕ) → HandsAreFree (start cpus ceiling names) }
    ensures run { SoftSideIsEnabled }
{}

/// In every run, on each CPU: a cyclic of a soft level is admitted at that level, both levels fill the same bank, and the CPU has
/// one index for each of its slots.
pub fn cpus_agree()
    ensures start { (cpus ceiling names : ℕ) → AllAgree (start cpus ceiling names).cpus }
    ensures run { CpusAgree }
{}

/// In every run, each Admit, Expire, Lose, Mark, Clear and Switch finds the firer's hand empty when it happens; each Expire, Lose
/// and Mark finds its cyclic admitted; and an expiration is lost just where the pend is at the ceiling.
pub fn firing_side_is_ready()
    ensures { FiringSideIsReady }
{}

/// In a run each soft level of each CPU is lawful before the first and after each of its events: each admitted cyclic's
/// expirations are its finished calls, its outstanding ones and those lost, a cyclic with calls outstanding stands in one place,
/// and no list outgrows its bank. This is so where each Admit is enabled, no cyclic expires while its removal is open, nor 2^64
/// times in a stay, each Mark finds no removal open, each Clear its own open and no call outstanding, and each Switch goes to a
/// greater bank, up to the greatest, while both sides are at one bank.
pub fn levels_stay_lawful()
    ensures start { (cpus ceiling names n : ℕ) (soft : Soft) → Lawful (level_on n soft (start cpus ceiling names)) }
    ensures run { LevelsStayLawful }
{}

/// Where the indexes are free, what a script does can be done: at every soft level of every CPU each event of the run is enabled
/// when it happens, and the level is lawful and conserved before the first of them, after each, and at the end. Nothing else is
/// asked: no cyclic expires while its removal is open, nor 2^64 times in a stay, and a CPU grows only where its soft levels have
/// followed.
pub fn events_are_enabled()
    ensures { EventsAreEnabled }
{}

/// Every script has free indexes: whatever it does, each cyclic that comes to a CPU finds there an index that no other has.
pub fn indexes_are_found()
    ensures { IndexesAreFound }
{}

/// For each name of each script: the expirations that its report prints are the calls, the losses and the pending calls that it
/// prints, and its calls are those of the handler in the run.
pub fn reports_add_up()
    ensures { ReportsAddUp }
{}

/// After any steps over any number of CPUs: the line of a removal that answers, at once or by a poll of a soft interrupt, gives
/// all calls that were ever made of the cyclic, on all CPUs.
pub fn removals_tell_calls()
    ensures remove { RemovesTellCalls }
    ensures poll { PollsTellCalls }
{}

/// Once the removal of a cyclic has answered, no act of the run calls its handler, whatever steps follow, and its id stays
/// unknown.
pub fn nothing_follows_removal()
    ensures { NothingFollowsRemoval }
{}

/// Once the removal of a cyclic has answered, what the report counts of it stays what it was, whatever steps follow: what its
/// removal told is what the report tells.
pub fn removed_counts_stay()
    ensures { RemovedCountsStay }
{}

/// After any steps over 1 to 16 CPUs each step has given one id at most, and brought each cyclic few expirations: in all, so in
/// each stay, with what it carried from earlier ones; and its handler was called no more often. In a script, of at most 65,536
/// steps, these numbers are below 2^50.
pub fn counts_stay_small()
    ensures few { CountsStaySmall }
    ensures below { ScriptsStayBelow }
{}

/// Binding, unbinding, juggling, offline and online lose no cyclic, no call and no count: after any steps over any number of CPUs
/// the same ids are known, each cyclic that is on one CPU is at home on one CPU with all that it had, and what the report counts
/// of each id is what it was.
pub fn moves_lose_nothing()
    ensures kept { MovesLoseNothing }
    ensures home { CyclicsAreAtHome }
{}

/// From a `suspend` that is accepted to the next `resume` no step makes an expiration, and none calls a handler of high level,
/// whatever the steps are: each call is one of a soft interrupt. The system stays suspended.
pub fn nothing_expires_suspended()
    ensures suspends { SuspendSuspends }
    ensures still { NothingExpiresSuspended }
{}
