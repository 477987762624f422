//! What runs of calls at the ends add up to, and what a moment says of a removal that has answered. The functions here do
//! nothing: each one's contract is a law.
ghost use Rattle.cyc_ring.specs.Laws.{RaiseWaysAddUp, DrainWaysAddUp, IdleIsFound, NoFinishFollowsRemoval};
ghost use Rattle.cyc_ring.specs.Laws.{QuietCallsRaiseNothing};
ghost use Rattle.cyc_ring.specs.Laws.{EndsKeepTheirCeiling};

/// A run of calls at a raise end leaves it an end of the same ring, and its trail gains the raises and losses of the run.
pub fn raise_ways_add_up()
    ensures { RaiseWaysAddUp }
{}

/// A run of calls at a drain end leaves it an end of the same ring, and its finishes grow by those of the run.
pub fn drain_ways_add_up()
    ensures { DrainWaysAddUp }
{}

/// Where the last call of a run was a `take` that answered None, the trail gained, last, a load of the hard bank that found
/// the soft side's bank, then a load of its producer word that found the consumer index. So a soft interrupt that answers
/// idle has looked.
pub fn idle_is_found()
    ensures { IdleIsFound }
{}

/// At each moment at which no stay of an id is open, its finishes are the calls of its ended stays. So once its `poll_clear`
/// has answered, and until it is admitted anew, no call of it is finished any more.
pub fn nothing_follows_removal()
    ensures { NoFinishFollowsRemoval }
{}

/// A run of calls with no raise among them raises nothing and loses nothing: `admit`, `load_pend`, `mark`, `poll_clear`,
/// `expand` and `followed` leave both counts of each id.
pub fn quiet_calls_raise_nothing()
    ensures { QuietCallsRaiseNothing }
{}

/// A run of calls at a raise end keeps its ceiling.
pub fn ends_keep_their_ceiling()
    ensures { EndsKeepTheirCeiling }
{}
