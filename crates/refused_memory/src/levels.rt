//! The calls of a tally, a level, a ring and a heap.

use crate::seen::{Seen, refused};
use cyc_core::LevelCore;
use cyc_heap::ExpiryHeap;
use cyc_ring::Ring;
use cyc_types::{CYCLICS, Ceiling, CyclicId, Moment, Refusal, Tally};
use std::alloc::Global;

fn make_tally(alloc: Global) -> Result<(), Refusal> {
    match CyclicId::new(1) {
        Some(first) => {
            let _tally = Tally::new(alloc, first, 8, 1)?;
            Ok(())
        }
        None => Err(Refusal::NoCyclic),
    }
}

/// `Tally::new`.
pub(crate) fn tally(alloc: Global) -> Seen {
    match make_tally(alloc) {
        Ok(()) => Seen::Done,
        Err(why) => refused(why, true, make_tally(alloc).is_ok()),
    }
}

fn make_level(alloc: Global) -> Result<(), Refusal> {
    match Ceiling::new(4) {
        Some(ceiling) => {
            let _level = LevelCore::new(alloc, ceiling)?;
            Ok(())
        }
        None => Err(Refusal::NoCyclic),
    }
}

/// `LevelCore::new`.
pub(crate) fn level(alloc: Global) -> Seen {
    match make_level(alloc) {
        Ok(()) => Seen::Done,
        Err(why) => refused(why, true, make_level(alloc).is_ok()),
    }
}

fn open_ring(alloc: Global) -> Result<(), Refusal> {
    match Ceiling::new(4) {
        Some(ceiling) => {
            let _ring = Ring::open(alloc, ceiling, 0)?;
            Ok(())
        }
        None => Err(Refusal::NoCyclic),
    }
}

/// `Ring::open`.
pub(crate) fn ring(alloc: Global) -> Seen {
    match open_ring(alloc) {
        Ok(()) => Seen::Done,
        Err(why) => refused(why, true, open_ring(alloc).is_ok()),
    }
}

fn make_heap(alloc: Global) -> Result<(), Refusal> {
    let _heap = ExpiryHeap::new(alloc)?;
    Ok(())
}

/// `ExpiryHeap::new`.
pub(crate) fn heap(alloc: Global) -> Seen {
    match make_heap(alloc) {
        Ok(()) => Seen::Done,
        Err(why) => refused(why, true, make_heap(alloc).is_ok()),
    }
}

/// `ExpiryHeap::reserve`, of a heap with one expiration.
pub(crate) fn heap_reserve(alloc: Global) -> Seen {
    let (Some(id), Ok(moment)) = (CyclicId::new(1), Moment::new(10)) else {
        return Seen::Wrong;
    };
    let Ok(mut heap) = ExpiryHeap::new(alloc) else {
        return Seen::Before;
    };
    let index = heap.insert(moment, id);
    match heap.reserve(usize::from(CYCLICS)) {
        Ok(()) => Seen::Done,
        Err(why) => {
            let as_before = heap.root() == Some((index, moment, id));
            refused(why, as_before, heap.reserve(usize::from(CYCLICS)).is_ok())
        }
    }
}
