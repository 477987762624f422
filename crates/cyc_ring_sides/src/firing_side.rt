//! A firing side that keeps, as values, what its calls require, and refuses the calls that are not allowed.
ghost use Rattle.std.specs.Prelude.{◌≡◌, ◌≢◌, ℕ, ◌<◌, ◌↔◌, true, IsTrue, Some, None, IfSome, IfNone, slice_index};
ghost use Rattle.cyc_types.specs.Limits.{cyclics};
ghost use Rattle.cyc_ring.specs.Ends.{IsRaiseSeatOf, seat_view, end_view};
ghost use Rattle.cyc_ring_sides.specs.Knowing.{Knows};

use cyc_ring::{RaiseEnd, RaiseSeat, Ring};
use cyc_types::{CYCLICS, CyclicId, GREATEST_BANK, Index, Raise, Raised, Sent};

/// What a call requires does not hold.
#[derive(Clone, Copy, Debug, PartialEq, Eq)]
pub struct NotAllowed;

/// More raises than these are not made.
const MOST_RAISES: u64 = 1_000_000_000;

/// Which cyclics are admitted, and how far the two sides were seen to be.
#[derive(Clone, Copy)]
pub struct Known {
    // The id at each index, 0 where it is free.
    ids: [u64; CYCLICS as usize],
    // The raises of all ids.
    raises: u64,
    marked: Option<CyclicId>,
    bank: u8,
    followed: bool,
}

/// A raise seat, and what is known of it.
#[derive(Drop)]
pub struct KnownSeat {
    seat: RaiseSeat,
    known: Known,
    ghost knows: { Knows known.ids known.raises known.marked known.bank known.followed (seat_view seat) },
}

/// The firing side of a ring, whose calls refuse where they are not allowed.
#[derive(Drop)]
pub struct FiringSide<'a> {
    ring: &'a Ring,
    end: RaiseEnd<'a>,
    known: Known,
    ghost own: { IsRaiseSeatOf ring.now end.seat },
    ghost knows: { Knows known.ids known.raises known.marked known.bank known.followed (end_view end) },
}

impl Known {
    /// No cyclic is admitted.
    fn new() -> Known
        ensures begins { (result.raises ≡ 0) × (result.marked ≡ None) × (result.bank ≡ 0) × (result.followed ≡ true) }
        ensures free { (i : ℕ) → i < cyclics → slice_index result.ids i ≡ 0 }
    {
        Known {
            ids: [0; CYCLICS as usize],
            raises: 0,
            marked: None,
            bank: 0,
            followed: true,
        }
    }

    /// The index at which the id is admitted.
    fn index_of(&self, id: CyclicId) -> Option<usize>
        ensures found { IfSome result (λ i. (i < cyclics) × (slice_index self.now.ids i ≡ id)) }
        ensures absent { IfNone result ((i : ℕ) → i < cyclics → slice_index self.now.ids i ≢ id) }
    {
        for i in 0..usize::from(CYCLICS) {
            if self.ids[i] == id.number() {
                return Some(i);
            }
        }
        None
    }

    /// The removal of the id is open.
    fn is_marked(&self, id: CyclicId) -> bool
        ensures { IsTrue result ↔ (self.now.marked ≡ Some id) }
    {
        match self.marked {
            Some(marked) => marked.number() == id.number(),
            None => false,
        }
    }
}

impl KnownSeat {
    ghost use Rattle.std.specs.Prelude.{◌≡◌, []};
    ghost use Rattle.cyc_ring.specs.Ends.{raise_trail};

    /// A seat that has made no call.
    pub fn new(seat: RaiseSeat) -> KnownSeat
        requires { raise_trail seat ≡ [] }
        ensures { result.seat ≡ seat }
    {
        KnownSeat {
            seat,
            known: Known::new(),
        }
    }

    /// The seat alone.
    pub fn seat(self) -> RaiseSeat
        ensures { result ≡ self.seat }
    {
        let KnownSeat { seat, known: _ } = self;
        seat
    }
}

impl<'a> FiringSide<'a> {
    ghost use Rattle.std.specs.Prelude.{◌≡◌};
    ghost use Rattle.cyc_ring.specs.Ends.{IsRaiseSeatOf};

    /// The firing side that goes on with this seat.
    pub fn new(ring: &'a Ring, seat: KnownSeat) -> FiringSide<'a>
        requires { IsRaiseSeatOf ring.now seat.seat }
        ensures { result.ring.now ≡ ring.now }
    {
        let KnownSeat { seat, known } = seat;
        FiringSide {
            ring,
            end: RaiseEnd::new(ring, seat),
            known,
        }
    }

    /// The seat, and what is known of it.
    pub fn into_seat(self) -> KnownSeat
        ensures { IsRaiseSeatOf self.entry.ring.now result.seat }
    {
        let FiringSide {
            ring: _,
            end,
            known,
        } = self;
        KnownSeat {
            seat: end.into_seat(),
            known,
        }
    }

    /// As `Raise::admit`.
    pub fn admit(&mut self, id: CyclicId, index: Index) -> Result<(), NotAllowed>
        ensures { self.new.ring.now ≡ self.old.ring.now }
    {
        let at = index.number() as usize;
        if at >= 1usize << self.known.bank || self.known.ids[at] != 0 {
            return Err(NotAllowed);
        }
        let None = self.known.index_of(id) else {
            return Err(NotAllowed);
        };
        self.end.admit(id, index);
        self.known.ids[at] = id.number();
        Ok(())
    }

    /// As `Raise::raise`.
    pub fn raise(&mut self, id: CyclicId) -> Result<Raised, NotAllowed>
        ensures { self.new.ring.now ≡ self.old.ring.now }
    {
        if self.known.is_marked(id) || self.known.raises >= MOST_RAISES {
            return Err(NotAllowed);
        }
        let Some(_) = self.known.index_of(id) else {
            return Err(NotAllowed);
        };
        let answer = self.end.raise(id);
        self.known.raises += 1;
        Ok(answer)
    }

    /// As `Raise::load_pend`.
    pub fn load_pend(&mut self, id: CyclicId) -> Result<u32, NotAllowed>
        ensures { self.new.ring.now ≡ self.old.ring.now }
    {
        let Some(_) = self.known.index_of(id) else {
            return Err(NotAllowed);
        };
        Ok(self.end.load_pend(id))
    }

    /// As `Raise::sent`.
    pub fn sent(&self, id: CyclicId) -> Result<Sent, NotAllowed> {
        let Some(_) = self.known.index_of(id) else {
            return Err(NotAllowed);
        };
        Ok(self.end.sent(id))
    }

    /// As `Raise::mark`.
    pub fn mark(&mut self, id: CyclicId) -> Result<u32, NotAllowed>
        ensures { self.new.ring.now ≡ self.old.ring.now }
    {
        let None = self.known.marked else {
            return Err(NotAllowed);
        };
        let Some(_) = self.known.index_of(id) else {
            return Err(NotAllowed);
        };
        let pend = self.end.mark(id);
        self.known.marked = Some(id);
        Ok(pend)
    }

    /// As `Raise::poll_clear`.
    pub fn poll_clear(&mut self, id: CyclicId) -> Result<Option<Sent>, NotAllowed>
        ensures { self.new.ring.now ≡ self.old.ring.now }
    {
        if !self.known.is_marked(id) {
            return Err(NotAllowed);
        }
        let Some(at) = self.known.index_of(id) else {
            return Err(NotAllowed);
        };
        let Some(counts) = self.end.poll_clear(id) else {
            return Ok(None);
        };
        self.known.ids[at] = 0;
        self.known.marked = None;
        Ok(Some(counts))
    }

    /// As `Raise::expand`.
    pub fn expand(&mut self, bank: u8) -> Result<(), NotAllowed>
        ensures { self.new.ring.now ≡ self.old.ring.now }
    {
        if bank <= self.known.bank || bank > GREATEST_BANK || !self.known.followed {
            return Err(NotAllowed);
        }
        self.end.expand(bank);
        self.known.bank = bank;
        self.known.followed = false;
        Ok(())
    }

    /// As `Raise::followed`.
    pub fn followed(&mut self) -> bool
        ensures { self.new.ring.now ≡ self.old.ring.now }
    {
        let answer = self.end.followed();
        self.known.followed = answer;
        answer
    }
}
