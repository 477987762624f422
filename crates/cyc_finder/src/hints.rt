//! Where the slot of an id was last.

ghost use Rattle.std.specs.Prelude.{◌≤◌, length};

use crate::finder::{HINTS, hint_of};
use crate::slot::Slot;
use cyc_types::CyclicId;
use std::alloc::{AllocError, Global};

/// How many far hints there are, where there are any: enough that ids a few apart, of as many cyclics as a CPU has, mostly don't
/// share one.
const FAR: usize = 8192;

/// For the low bits of an id, with those above them added, where the slot of the last such one was: right or not, it says where
/// to look.
///
/// The near hints are few and stand in the hints themselves, so that a look at one needs no other read. Where more cyclics may be
/// here than they are, there are far hints too.
#[derive(Drop)]
pub(crate) struct Hints {
    near: [u16; HINTS],
    far: Vec<u16>,
}

/// A position as a hint has it.
#[inline(always)]
fn short(position: usize) -> u16 {
    (position % 65_536) as u16
}

/// Where the far hint of an id stands, as `hint_of` among the near ones.
#[inline(always)]
fn far_of(id: CyclicId) -> usize {
    let number = id.number();
    let hints = FAR as u64;
    (number.wrapping_add(number / hints) % hints) as usize
}

impl Hints {
    /// Near hints alone, in memory of their own, so that a finder that is moved copies little. By a call, so that what calls it
    /// has no room for them on its stack.
    #[cold]
    #[inline(never)]
    pub(crate) fn new(alloc: Global) -> Result<Box<Hints>, AllocError> {
        let hints = Box::new(
            alloc,
            Hints {
                near: [0; HINTS],
                far: Vec::new(alloc),
            },
        )?;
        Ok(hints)
    }

    /// As many hints as so many cyclics need, which stand in these slots.
    pub(crate) fn reserve(&mut self, slots: &[Slot], size: usize) -> Result<(), AllocError> {
        if size > HINTS && self.far.is_empty() {
            self.far.resize(FAR, 0)?;
            self.set_all(slots);
        }
        Ok(())
    }

    /// Where the slot of this id may be.
    #[inline(always)]
    pub(crate) fn near(&self, id: CyclicId) -> usize {
        usize::from(self.near[hint_of(id)])
    }

    /// Where it may be, where `near` was wrong: the first position where there are no far hints.
    #[inline(always)]
    pub(crate) fn far(&self, id: CyclicId) -> usize {
        match self.far.get(far_of(id)) {
            Some(position) => usize::from(*position),
            None => 0,
        }
    }

    /// The slot of this id is at this position.
    #[inline(always)]
    pub(crate) fn set(&mut self, id: CyclicId, position: usize) {
        self.near[hint_of(id)] = short(position);
        if !self.far.is_empty() {
            self.set_far(id, position);
        }
    }

    /// As `set`, of the far hint alone.
    fn set_far(&mut self, id: CyclicId, position: usize) {
        if let Some(hint) = self.far.get_mut(far_of(id)) {
            *hint = short(position);
        }
    }

    /// The slots from one position up to another are where they are: the first `HINTS` of them, since there are no more near
    /// hints.
    pub(crate) fn set_few(&mut self, slots: &[Slot], from: usize, to: usize)
        requires { to ≤ length slots.now }
    {
        for at in from..to.min(from.saturating_add(HINTS)) {
            self.set(slots[at].id(), at);
        }
    }

    /// All slots are where they are.
    pub(crate) fn set_all(&mut self, slots: &[Slot]) {
        for at in 0..slots.len() {
            self.set(slots[at].id(), at);
        }
    }
}
