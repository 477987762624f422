//! What the tests ask of a level. No function here says what it gives: the tests compare that.

use cyc_core::{Books, LevelCore, NotEnabled, NotEnabledAt, Place};
use cyc_level::Event;
use cyc_types::{Ceiling, CyclicId, Index};
use std::process::Abort;

/// The id of this number.
pub fn id(rt: &impl Abort, number: u64) -> CyclicId {
    CyclicId::new(number).expect(rt, "an id")
}

/// The admission of the id of this number at this index.
pub fn admit(rt: &impl Abort, number: u64, index: u16) -> Event {
    Event::Admit(id(rt, number), Index::new(index).expect(rt, "an index"))
}

/// A new level.
pub fn level<R: AllocGlobal + Abort>(rt: &R, ceiling: u32) -> LevelCore {
    let ceiling = Ceiling::new(ceiling).expect(rt, "a ceiling");
    LevelCore::new(rt.alloc(), ceiling).expect(rt, "a level")
}

pub fn step(level: &mut LevelCore, event: Event) -> Result<(), NotEnabled> {
    level.step(event)
}

pub fn apply(level: &mut LevelCore, events: &[Event]) -> Result<(), NotEnabledAt> {
    level.apply(events)
}

pub fn place(level: &LevelCore, id: CyclicId) -> Option<Place> {
    level.place(id)
}

pub fn books(level: &LevelCore, id: CyclicId) -> Option<Books> {
    level.books(id)
}
