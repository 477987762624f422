//! The heap beside the array heap that it was: the same random calls give the same indexes, roots, looks and sizes.

use crate::array::ArrayHeap;
use cyc_heap::ExpiryHeap;
use cyc_types::{CYCLICS, CyclicId, Index, Moment};
use std::process::Abort;

/// Both heaps, and what chooses the calls.
#[derive(Drop)]
struct Beside {
    heap: ExpiryHeap,
    was: ArrayHeap,
    state: u64,
    id: u64,
}

/// By how much a full heap is widened, and for which size memory is taken.
#[derive(Clone, Copy)]
enum Widening {
    /// To twice its size, and for no more.
    Doubled,
    /// By one, and for no more.
    ByOne,
    /// By one, for the largest size from the first.
    Ahead,
}

fn moment_of(rt: &impl Abort, nanoseconds: u64) -> Moment {
    let moment = Moment::new((nanoseconds & 0xffff) as i64).ok();
    moment.expect(rt, "a moment")
}

impl Beside {
    fn new<R: AllocGlobal + Abort>(rt: &R) -> Beside {
        let heap = ExpiryHeap::new(rt.alloc()).ok();
        let was = ArrayHeap::new(rt.alloc()).ok();
        Beside {
            heap: heap.expect(rt, "a heap"),
            was: was.expect(rt, "an array"),
            state: 1,
            id: 0,
        }
    }

    /// The next number below this one, which is not 0.
    fn below(&mut self, limit: usize) -> usize {
        self.state = self
            .state
            .wrapping_mul(6364136223846793005)
            .wrapping_add(1442695040888963407);
        (self.state.wrapping_shr(33) as usize)
            .checked_rem(limit)
            .unwrap_or(0)
    }

    /// An index in use.
    fn used(&mut self) -> u16 {
        let len = self.was.len();
        let position = self.below(len);
        self.was.index_at(position)
    }

    fn widen(&mut self, rt: &impl Abort, widening: Widening) {
        let size = self.heap.size();
        if self.heap.len() < size {
            return;
        }
        let (wider, room) = match widening {
            Widening::Doubled => (2 * size, 2 * size),
            Widening::ByOne => (size + 1, size + 1),
            Widening::Ahead => (size + 1, usize::from(CYCLICS)),
        };
        assert!(rt; wider <= room && room <= usize::from(CYCLICS));
        assert!(rt; self.heap.reserve(room).is_ok());
        self.heap.widen(wider);
        assert!(rt; self.was.widen(wider).is_ok());
    }

    fn insert(&mut self, rt: &impl Abort, widening: Widening) {
        self.widen(rt, widening);
        self.id = self.id.wrapping_add(1);
        let nanoseconds = self.below(1000);
        let moment = moment_of(rt, nanoseconds as u64);
        let id = CyclicId::new(self.id).expect(rt, "an id");
        assert!(rt; self.heap.len() < self.heap.size());
        let index = self.heap.insert(moment, id).number();
        assert_eq!(rt; index, self.was.insert(moment.nanoseconds(), self.id));
    }

    fn remove(&mut self, rt: &impl Abort) {
        let number = self.used();
        let index = Index::new(number).expect(rt, "an index");
        assert!(rt; self.heap.at(index).is_some());
        self.heap.remove(index);
        self.was.remove(number);
    }

    fn replace(&mut self, rt: &impl Abort) {
        let number = self.used();
        let index = Index::new(number).expect(rt, "an index");
        let nanoseconds = self.below(1000);
        let moment = moment_of(rt, nanoseconds as u64);
        assert!(rt; self.heap.at(index).is_some());
        self.heap.replace(index, moment);
        self.was.replace(number, moment.nanoseconds());
    }

    fn lower_root(&mut self, rt: &impl Abort) {
        let nanoseconds = self.below(1000);
        let moment = moment_of(rt, nanoseconds as u64);
        assert!(rt; self.heap.root().is_some());
        self.heap.lower_root(moment);
        self.was.lower_root(moment.nanoseconds());
    }

    /// Both say the same of the root, of some index and of their sizes.
    fn compare(&mut self, rt: &impl Abort) {
        let root = match self.heap.root() {
            Some((index, moment, id)) => Some((index.number(), moment.nanoseconds(), id.number())),
            None => None,
        };
        assert_eq!(rt; root, self.was.root());
        let number = u16::try_from(self.below(usize::from(CYCLICS))).unwrap_or(0);
        let index = Index::new(number).expect(rt, "an index");
        let found = match self.heap.at(index) {
            Some((moment, id)) => Some((moment.nanoseconds(), id.number())),
            None => None,
        };
        assert_eq!(rt; found, self.was.at(number));
        assert_eq!(rt; self.heap.len(), self.was.len());
        assert_eq!(rt; self.heap.size(), self.was.size());
    }

    /// One call: on the way to so many expirations an insertion or a removal, or now and then another.
    fn step(&mut self, rt: &impl Abort, many: usize, widening: Widening) {
        let len = self.was.len();
        match self.below(8) {
            0 if len > 0 => self.replace(rt),
            1 if len > 0 => self.lower_root(rt),
            2 if len > 0 => self.remove(rt),
            3 if len < usize::from(CYCLICS) => self.insert(rt, widening),
            _ if len < many => self.insert(rt, widening),
            _ if len > many => self.remove(rt),
            _ => {}
        }
        self.compare(rt);
    }

    fn go(&mut self, rt: &impl Abort, many: usize, widening: Widening) {
        for _ in 0..20_000 {
            if self.was.len() == many {
                break;
            }
            self.step(rt, many, widening);
        }
        assert_eq!(rt; self.heap.len(), many);
    }
}

/// How many expirations there are by turns: to and fro across each number at which few become many or many few, of 64, 128 and
/// 256 indexes and then of 512 and 4,096, and across 12, 13, 16 and 17.
const TURNS: [usize; 33] = [
    17, 11, 18, 12, 34, 13, 50, 23, 49, 24, 51, 20, 82, 39, 81, 38, 130, 60, 256, 71, 146, 70, 145,
    16, 256, 0, 40, 512, 130, 4096, 1030, 2070, 40,
];

fn compared<R: AllocGlobal + Abort>(rt: &R, widening: Widening) {
    let mut beside = Beside::new(rt);
    for many in TURNS {
        beside.go(rt, many, widening);
    }
}

#[test]
fn the_array_heap_answers_the_same_widened_to_twice_its_size(rt: HostRuntime) {
    compared(&rt, Widening::Doubled);
}

#[test]
fn the_array_heap_answers_the_same_widened_by_one(rt: HostRuntime) {
    compared(&rt, Widening::ByOne);
}

#[test]
fn the_array_heap_answers_the_same_widened_by_one_with_memory_ahead(rt: HostRuntime) {
    compared(&rt, Widening::Ahead);
}
