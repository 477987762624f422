//! What each kind of atomic step tells the seat that makes it. Nothing here has a value: these types serve proofs alone.
ghost use Rattle.std.specs.Prelude.{ℕ};
ghost use Rattle.ring_rule.specs.declared.Setting.{Setting as TheSetting};
ghost use Rattle.ring_rule.specs.Rule.{raise_view, drain_view, joint_view, spent_view};
ghost use Rattle.ring_rule.specs.Steps.{AndStands, TellsAdmit, TellsLoadToRaise, TellsAdd, TellsStore, TellsPublish, TellsLoad};
ghost use Rattle.ring_rule.specs.Steps.{TellsMark, TellsClear, TellsSwitch, TellsLoadSoftBank, TellsLoadHardBank};
ghost use Rattle.ring_rule.specs.Steps.{TellsLoadProducer, TellsTake, TellsSubtract, TellsFollow};

use atomic_table::{Join, Play, Split};
use ring_rule::SeatView;
use std::marker::{Brand, PhantomData};

/// What a call knows and a step can't name: the id that it serves, and what is fixed of the ring.
pub trait Served {
    ghost id: { ℕ };

    ghost setting: { TheSetting };
}

impl Served for Brand {
    ghost id = { 0 };

    ghost setting = { record { ceiling = 0; start = 0 } };
}

// The load that admits an id.
pub(crate) struct AdmitPlay<J> {
    of: PhantomData<J>,
}

impl<J: Served> Play<(), SeatView> for AdmitPlay<J> {
    ghost then = { AndStands J.setting (TellsAdmit J.id) };
}

// The load that begins a raise.
pub(crate) struct LoadToRaisePlay<J> {
    of: PhantomData<J>,
}

impl<J: Served> Play<(), SeatView> for LoadToRaisePlay<J> {
    ghost then = { AndStands J.setting (TellsLoadToRaise J.id J.setting.ceiling) };
}

// The `fetch_add` of 1.
pub(crate) struct AddPlay<J> {
    of: PhantomData<J>,
}

impl<J: Served> Play<(), SeatView> for AddPlay<J> {
    ghost then = { AndStands J.setting (TellsAdd J.id) };
}

// The store of a buffer word.
pub(crate) struct StorePlay<J> {
    of: PhantomData<J>,
}

impl<J: Served> Play<(), SeatView> for StorePlay<J> {
    ghost then = { AndStands J.setting TellsStore };
}

// The store of a producer word.
pub(crate) struct PublishPlay<J> {
    of: PhantomData<J>,
}

impl<J: Served> Play<(), SeatView> for PublishPlay<J> {
    ghost then = { AndStands J.setting TellsPublish };
}

// The load of a pend word.
pub(crate) struct LoadPlay<J> {
    of: PhantomData<J>,
}

impl<J: Served> Play<(), SeatView> for LoadPlay<J> {
    ghost then = { AndStands J.setting (TellsLoad J.id) };
}

// The `fetch_add` of the mark.
pub(crate) struct MarkPlay<J> {
    of: PhantomData<J>,
}

impl<J: Served> Play<(), SeatView> for MarkPlay<J> {
    ghost then = { AndStands J.setting (TellsMark J.id) };
}

// The store of 0 that ends a stay.
pub(crate) struct ClearPlay<J> {
    of: PhantomData<J>,
}

impl<J: Served> Play<(), SeatView> for ClearPlay<J> {
    ghost then = { AndStands J.setting (TellsClear J.id) };
}

// The store of the hard bank.
pub(crate) struct SwitchPlay<J> {
    of: PhantomData<J>,
}

impl<J: Served> Play<(), SeatView> for SwitchPlay<J> {
    ghost then = { AndStands J.setting TellsSwitch };
}

// The load of the soft bank.
pub(crate) struct LoadSoftBankPlay<J> {
    of: PhantomData<J>,
}

impl<J: Served> Play<(), SeatView> for LoadSoftBankPlay<J> {
    ghost then = { AndStands J.setting TellsLoadSoftBank };
}

// The load of the hard bank.
pub(crate) struct LoadHardBankPlay<J> {
    of: PhantomData<J>,
}

impl<J: Served> Play<(), SeatView> for LoadHardBankPlay<J> {
    ghost then = { AndStands J.setting TellsLoadHardBank };
}

// The load of a producer word.
pub(crate) struct LoadProducerPlay<J> {
    of: PhantomData<J>,
}

impl<J: Served> Play<(), SeatView> for LoadProducerPlay<J> {
    ghost then = { AndStands J.setting TellsLoadProducer };
}

// The load of a buffer word.
pub(crate) struct TakePlay<J> {
    of: PhantomData<J>,
}

impl<J: Served> Play<(), SeatView> for TakePlay<J> {
    ghost then = { AndStands J.setting TellsTake };
}

// The `fetch_sub` of 1.
pub(crate) struct SubtractPlay<J> {
    of: PhantomData<J>,
}

impl<J: Served> Play<(), SeatView> for SubtractPlay<J> {
    ghost then = { AndStands J.setting TellsSubtract };
}

// The store of the soft bank.
pub(crate) struct FollowPlay<J> {
    of: PhantomData<J>,
}

impl<J: Served> Play<(), SeatView> for FollowPlay<J> {
    ghost then = { AndStands J.setting TellsFollow };
}

// The load of word 0 that gives each side its seat.
pub(crate) struct Parts;

impl Split<SeatView> for Parts {
    ghost left = { raise_view };

    ghost right = { drain_view };
}

// The load of word 0 that puts the two seats together.
pub(crate) struct Whole;

impl Join<SeatView> for Whole {
    ghost both = { joint_view };

    ghost spent = { spent_view };
}
