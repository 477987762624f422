//! The model of one soft level: its ten events, what each of them changes, and the laws that every reached level keeps.
//!
//! The definitions stand in `specs/`. A level as a plain object and the shared words of a lock-free ring are both proved
//! against them. The functions here do nothing: each one's contract is a law.
#![tactic(auto)]

ghost use Rattle.std.specs.Prelude.{ℕ, List};
ghost use Rattle.cyc_level.specs.declared.Event.{Event as AnEvent};
ghost use Rattle.cyc_level.specs.Level.{SoftLevel};
ghost use Rattle.cyc_level.specs.Lawful.{Lawful};
ghost use Rattle.cyc_level.specs.Events.{Enabled, after, reached, AllEnabled};
ghost use Rattle.cyc_level.specs.Conservation.{IsConserved};
ghost use Rattle.cyc_level.specs.Runs.{IsConservedOverStays, NothingFollowsClear};

use cyc_types::{CyclicId, Index};

/// What can happen to a level. It changes by these ten events and by nothing else.
///
/// Admit, Expire, Lose, Publish, Mark, Clear and Switch are events of the firing side; Take, Finish and Follow are events of
/// the soft side.
#[derive(Clone, Copy, Debug, PartialEq, Eq)]
pub enum Event {
    /// The cyclic begins a stay at this index, with its counts at 0 (`cyclic_add_here`).
    Admit(CyclicId, Index),
    /// The cyclic expires below the ceiling: its pend rises by one, and from 0 it comes into the firer's hand
    /// (`cyclic_expire`).
    Expire(CyclicId),
    /// The cyclic expires at the ceiling: the expiration is lost (`cyclic_expire`).
    Lose(CyclicId),
    /// The cyclic in the firer's hand goes to the end of the new list (`cyclic_expire`, where it advances `cypc_prodndx`).
    Publish,
    /// The first cyclic of the soft side's list comes into the drainer's hand (`cyclic_softint`).
    Take,
    /// One call of the cyclic in the drainer's hand is done; with the last one the hand is empty (`cyclic_softint`).
    Finish,
    /// The removal of the cyclic begins: from here on it doesn't expire (`cyclic_remove_xcall`).
    Mark(CyclicId),
    /// No call of the marked cyclic is outstanding: its stay ends (`cyclic_remove_xcall`).
    Clear(CyclicId),
    /// The firing side goes on to this greater bank (`cyclic_expand_xcall`).
    Switch(u8),
    /// The soft side, whose list is empty, goes on to the firing side's bank (`cyclic_softint`).
    Follow,
}

/// Each enabled event leads from a lawful level to a lawful level.
pub fn each_event_is_lawful()
    ensures { (event : AnEvent) (level : SoftLevel) → Lawful level → Enabled event level → Lawful (after event level) }
{}

/// Every reached level is lawful.
pub fn every_reached_level_is_lawful()
    ensures { (ceiling : ℕ) (events : List AnEvent) → AllEnabled ceiling events → Lawful (reached ceiling events) }
{}

/// In every reached level each admitted cyclic's expirations are its finished calls, its outstanding ones and those lost; an
/// id with calls outstanding stands in exactly one place; no list is longer than its bank.
pub fn level_conservation()
    ensures { (ceiling : ℕ) (events : List AnEvent) → AllEnabled ceiling events → IsConserved (reached ceiling events) }
{}

/// In every run, and for every id, admitted or not: the expirations of all its stays are the finished calls, the outstanding
/// ones and the losses; and of each stay that has ended the expirations are its finished calls and its losses.
pub fn stay_conservation()
    ensures { (ceiling : ℕ) (events : List AnEvent) → AllEnabled ceiling events → (id : ℕ)
        → IsConservedOverStays ceiling events id }
{}

/// Once the removal of a cyclic has answered, and until its id is admitted anew, the id stands in no place and no call of it
/// is made.
pub fn nothing_follows_clear()
    ensures { NothingFollowsClear }
{}
