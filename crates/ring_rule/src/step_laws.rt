//! The laws of the fifteen steps of a ring, one for each kind.
//!
//! Where it may be made, a step keeps the ring's rule, and it is its one event of the level, or none: whatever the other side
//! did, the log gains this step and nothing else, its record has the next position and is true there, and a lawful level stands
//! then. `specs/FiringSteps.antt` and `specs/SoftSteps.antt` say when each step may be made, on which word, and what it tells.
//! A clause here, the function of `ring_steps` that stands on it and the record that the step adds have one name. The functions
//! do nothing: each one's contract is a law.

ghost use Rattle.ring_rule.specs.FiringSteps.{AdmitLaw, LoadLaw, LoadToRaiseLaw, AddLaw, StoreLaw, PublishLaw, MarkLaw, ClearLaw};
ghost use Rattle.ring_rule.specs.FiringSteps.{SwitchLaw, LoadSoftBankLaw};
ghost use Rattle.ring_rule.specs.SoftSteps.{LoadHardBankLaw, LoadProducerLaw, TakeLaw, FollowLaw, SubtractLaw};

/// The steps of the firing side: `admit` is the event Admit, `load_to_raise` Lose at the ceiling, `add` Expire, `publish`
/// Publish, `mark` Mark, `clear` Clear, `switch` Switch, and the others none.
pub fn firing_steps()
    ensures admit { AdmitLaw }
    ensures load { LoadLaw }
    ensures load_to_raise { LoadToRaiseLaw }
    ensures add { AddLaw }
    ensures store { StoreLaw }
    ensures publish { PublishLaw }
    ensures mark { MarkLaw }
    ensures clear { ClearLaw }
    ensures switch { SwitchLaw }
    ensures load_soft_bank { LoadSoftBankLaw }
{}

/// The steps of the soft side: `take` is the event Take, `follow` Follow, `subtract` Finish, and both loads are none.
pub fn soft_steps()
    ensures load_hard_bank { LoadHardBankLaw }
    ensures load_producer { LoadProducerLaw }
    ensures take { TakeLaw }
    ensures follow { FollowLaw }
    ensures subtract { SubtractLaw }
{}
