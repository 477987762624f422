//! Worked runs of a heap.

use cyc_heap::ExpiryHeap;
use cyc_types::{CYCLICS, CyclicId, Index, Moment};
use std::process::Abort;

fn moment(rt: &impl Abort, nanoseconds: i64) -> Moment {
    let moment = Moment::new(nanoseconds).ok();
    moment.expect(rt, "a moment")
}

/// A heap of this size.
fn heap<R: AllocGlobal + Abort>(rt: &R, size: usize) -> ExpiryHeap {
    let mut heap = new_heap(rt);
    grow(rt, &mut heap, size);
    heap
}

fn new_heap<R: AllocGlobal + Abort>(rt: &R) -> ExpiryHeap {
    let heap = ExpiryHeap::new(rt.alloc()).ok();
    heap.expect(rt, "a heap")
}

/// Makes the heap as large as this.
fn grow(rt: &impl Abort, heap: &mut ExpiryHeap, size: usize) {
    assert!(rt; size <= usize::from(CYCLICS));
    assert!(rt; heap.reserve(size).is_ok());
    heap.widen(size);
}

fn insert(rt: &impl Abort, heap: &mut ExpiryHeap, nanoseconds: i64, id: u64) -> u16 {
    let moment = moment(rt, nanoseconds);
    let id = CyclicId::new(id).expect(rt, "an id");
    assert!(rt; heap.len() < heap.size());
    heap.insert(moment, id).number()
}

/// The index, the moment and the id at the root.
fn root(heap: &ExpiryHeap) -> Option<(u16, u64, u64)> {
    let (index, moment, id) = heap.root()?;
    Some((index.number(), moment.nanoseconds(), id.number()))
}

fn lower_root(rt: &impl Abort, heap: &mut ExpiryHeap, nanoseconds: i64) {
    let moment = moment(rt, nanoseconds);
    assert!(rt; heap.root().is_some());
    heap.lower_root(moment);
}

fn replace(rt: &impl Abort, heap: &mut ExpiryHeap, index: u16, nanoseconds: i64) {
    let index = Index::new(index).expect(rt, "an index");
    let moment = moment(rt, nanoseconds);
    assert!(rt; heap.at(index).is_some());
    heap.replace(index, moment);
}

fn is_free(rt: &impl Abort, heap: &ExpiryHeap, index: u16) -> bool {
    let index = Index::new(index).expect(rt, "an index");
    heap.at(index).is_none()
}

fn remove(rt: &impl Abort, heap: &mut ExpiryHeap, index: u16) {
    let index = Index::new(index).expect(rt, "an index");
    assert!(rt; heap.at(index).is_some());
    heap.remove(index);
}

/// The sizes of the heap: how many expirations it has, and how many it can have.
fn sizes(heap: &ExpiryHeap) -> (usize, usize) {
    (heap.len(), heap.size())
}

#[test]
fn of_equal_moments_the_smaller_id_is_the_root(rt: HostRuntime) {
    let mut heap = new_heap(&rt);
    assert_eq!(rt; sizes(&heap), (0, 1));
    assert_eq!(rt; root(&heap), None);
    assert_eq!(rt; insert(&rt, &mut heap, 30, 5), 0);
    grow(&rt, &mut heap, 2);
    assert_eq!(rt; insert(&rt, &mut heap, 30, 4), 1);
    assert_eq!(rt; root(&heap), Some((1, 30, 4)));
    lower_root(&rt, &mut heap, 40);
    assert_eq!(rt; root(&heap), Some((0, 30, 5)));
    remove(&rt, &mut heap, 0);
    assert_eq!(rt; root(&heap), Some((1, 40, 4)));
    assert_eq!(rt; sizes(&heap), (1, 2));
}

/// The moment and the id of each expiration.
static EXPECTED: [(u64, u64); 19] = [
    (3, 1),
    (4, 4),
    (5, 2),
    (6, 1),
    (7, 3),
    (8, 4),
    (9, 1),
    (10, 2),
    (12, 1),
    (12, 4),
    (14, 3),
    (15, 1),
    (15, 2),
    (16, 4),
    (18, 1),
    (20, 2),
    (20, 4),
    (21, 1),
    (21, 3),
];

/// The moment of the next expiration of this id's series.
fn following(moment: u64, id: u64) -> i64 {
    let interval = match id {
        1 => 3,
        2 => 5,
        3 => 7,
        _ => 4,
    };
    i64::try_from(moment.wrapping_add(interval)).unwrap_or(i64::MAX)
}

#[test]
fn four_series_come_in_order(rt: HostRuntime) {
    let mut heap = heap(&rt, 4);
    insert(&rt, &mut heap, 3, 1);
    insert(&rt, &mut heap, 5, 2);
    insert(&rt, &mut heap, 7, 3);
    insert(&rt, &mut heap, 4, 4);
    for &(moment, id) in &EXPECTED {
        let (_, at, first) = root(&heap).expect(&rt, "a root");
        assert_eq!(rt; (at, first), (moment, id));
        lower_root(&rt, &mut heap, following(at, first));
    }
}

#[test]
fn a_full_heap_empties_by_moment(rt: HostRuntime) {
    let many = u64::from(CYCLICS);
    let mut heap = heap(&rt, many as usize);
    // 37 has no factor in common with a power of two, so that each moment below it comes once.
    for k in 0..many {
        let moment = (37 * k % many) as i64;
        let index = insert(&rt, &mut heap, moment, k + 1);
        assert_eq!(rt; u64::from(index), k);
    }
    assert_eq!(rt; sizes(&heap), (many as usize, many as usize));
    for moment in 0..many {
        let (index, at, id) = root(&heap).expect(&rt, "a root");
        assert_eq!(rt; at, moment);
        assert_eq!(rt; u64::from(index) + 1, id);
        remove(&rt, &mut heap, index);
    }
    assert_eq!(rt; root(&heap), None);
}

#[test]
fn a_moment_is_replaced_by_an_earlier_or_a_later_one(rt: HostRuntime) {
    let mut heap = heap(&rt, 8);
    for k in 0..8u64 {
        insert(&rt, &mut heap, (10 * k) as i64, k + 1);
    }
    replace(&rt, &mut heap, 5, 1);
    replace(&rt, &mut heap, 0, 100);
    assert_eq!(rt; root(&heap), Some((5, 1, 6)));
    remove(&rt, &mut heap, 5);
    assert!(rt; is_free(&rt, &heap, 5));
    assert_eq!(rt; root(&heap), Some((1, 10, 2)));
    assert_eq!(rt; insert(&rt, &mut heap, 5, 9), 5);
    assert_eq!(rt; root(&heap), Some((5, 5, 9)));
}
