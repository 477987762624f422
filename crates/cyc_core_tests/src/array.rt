//! The heap of expirations as it was before its tournament: a heap in an array, with no contract.

use std::alloc::{AllocError, Global};

/// An expiration and the index of its cyclic. Where the index is free, the expiration means nothing.
#[derive(Clone, Copy)]
pub(crate) struct Kept {
    moment: u64,
    id: u64,
    index: u16,
}

impl Kept {
    fn expires_before(&self, other: &Kept) -> bool {
        self.moment < other.moment || (self.moment == other.moment && self.id < other.id)
    }
}

/// The heap, and after it an entry for each free index.
#[derive(Drop)]
pub(crate) struct ArrayHeap {
    entries: Vec<Kept>,
    len: usize,
}

const NOTHING: Kept = Kept {
    moment: 0,
    id: 0,
    index: 0,
};

fn entry_at(entries: &[Kept], position: usize) -> Kept {
    entries.get(position).copied().unwrap_or(NOTHING)
}

fn put(entries: &mut [Kept], position: usize, entry: Kept) {
    if position < entries.len() {
        entries[position] = entry;
    }
}

/// Moves the hole up while the position above expires after the entry.
fn rise(entries: &mut [Kept], hole: usize, entry: &Kept) -> usize {
    let mut hole = hole;
    for _ in 0..u16::BITS {
        if hole == 0 {
            break;
        }
        let parent = (hole - 1) / 2;
        let moved = entry_at(entries, parent);
        if !entry.expires_before(&moved) {
            break;
        }
        put(entries, hole, moved);
        hole = parent;
    }
    hole
}

/// The child that expires first.
fn least_child(entries: &[Kept], len: usize, position: usize) -> usize {
    let left = position.wrapping_mul(2).wrapping_add(1);
    let right = left.wrapping_add(1);
    if right < len && entry_at(entries, right).expires_before(&entry_at(entries, left)) {
        right
    } else {
        left
    }
}

/// Moves the hole up, and down while a child expires before the entry, and puts the entry there.
fn sift(entries: &mut [Kept], len: usize, hole: usize, entry: Kept) {
    let mut hole = rise(entries, hole, &entry);
    for _ in 0..u16::BITS {
        let child = least_child(entries, len, hole);
        let moved = entry_at(entries, child);
        if child >= len || !moved.expires_before(&entry) {
            break;
        }
        put(entries, hole, moved);
        hole = child;
    }
    put(entries, hole, entry);
}

impl ArrayHeap {
    pub(crate) fn new(alloc: Global) -> Result<ArrayHeap, AllocError> {
        let mut heap = ArrayHeap {
            entries: Vec::new(alloc),
            len: 0,
        };
        heap.widen(1)?;
        Ok(heap)
    }

    pub(crate) fn widen(&mut self, size: usize) -> Result<(), AllocError> {
        for number in self.entries.len()..size {
            let index = u16::try_from(number).unwrap_or(0);
            self.entries.push(Kept { index, ..NOTHING })?;
        }
        Ok(())
    }

    pub(crate) fn insert(&mut self, moment: u64, id: u64) -> u16 {
        let hole = self.len;
        let index = entry_at(&self.entries, hole).index;
        self.len = hole.wrapping_add(1);
        sift(
            &mut self.entries,
            self.len,
            hole,
            Kept { moment, id, index },
        );
        index
    }

    pub(crate) fn root(&self) -> Option<(u16, u64, u64)> {
        if self.len == 0 {
            return None;
        }
        let entry = entry_at(&self.entries, 0);
        Some((entry.index, entry.moment, entry.id))
    }

    pub(crate) fn lower_root(&mut self, moment: u64) {
        let entry = entry_at(&self.entries, 0);
        sift(&mut self.entries, self.len, 0, Kept { moment, ..entry });
    }

    pub(crate) fn replace(&mut self, index: u16, moment: u64) {
        let hole = self.position_of(index);
        let entry = entry_at(&self.entries, hole);
        sift(&mut self.entries, self.len, hole, Kept { moment, ..entry });
    }

    pub(crate) fn remove(&mut self, index: u16) {
        let hole = self.position_of(index);
        let last = self.len.wrapping_sub(1);
        let removed = entry_at(&self.entries, hole);
        let moved = entry_at(&self.entries, last);
        self.len = last;
        put(&mut self.entries, last, removed);
        put(&mut self.entries, hole, moved);
        if hole < last {
            sift(&mut self.entries, last, hole, moved);
        }
    }

    pub(crate) fn at(&self, index: u16) -> Option<(u64, u64)> {
        let position = self.position_of(index);
        if position >= self.len {
            return None;
        }
        let entry = entry_at(&self.entries, position);
        Some((entry.moment, entry.id))
    }

    /// The index of the entry at a position of the heap.
    pub(crate) fn index_at(&self, position: usize) -> u16 {
        entry_at(&self.entries, position).index
    }

    pub(crate) fn len(&self) -> usize {
        self.len
    }

    pub(crate) fn size(&self) -> usize {
        self.entries.len()
    }

    fn position_of(&self, index: u16) -> usize {
        for position in 0..self.entries.len() {
            if entry_at(&self.entries, position).index == index {
                return position;
            }
        }
        self.entries.len()
    }
}
