//! A ring between two threads: one raises a cyclic, the other makes its calls, and the closed ring says what came of them.

ghost use Rattle.std.specs.Prelude.{◌≡◌, ℕ, ◌+◌, [], IfOk, IfErr};
ghost use Rattle.cyc_types.specs.declared.refusal.Refusal.TheVariants.{Memory};
ghost use Rattle.cyc_types.specs.Firing.{IsAdmitted};
ghost use Rattle.cyc_types.specs.Tally.{tally_count};
ghost use Rattle.ring_rule.specs.Trail.{ended_calls};
ghost use Rattle.cyc_ring.specs.Books.{IsBook, IsFree};
ghost use Rattle.cyc_ring.specs.Ends.{IsDrainSeatOf, IsRaiseSeatOf, IsSameDrainSeat, end_made, raise_trail, seat_made, seat_view};
ghost use Rattle.uses.specs.Ring.{StoodThroughout};

use cyc_ring::laws::drain_ways_add_up;
use cyc_ring::{Book, Closed, DrainEnd, DrainSeat, RaiseEnd, RaiseSeat, Ring};
use cyc_soft::{Ran, SoftRefused, softint};
use cyc_types::{Ceiling, CyclicId, Index, Raise, Refusal, Soft, Tally};
use std::alloc::Global;
use std::thread::{Threads, join};

/// The soft interrupts that the draining thread makes at most, and the calls of each of them.
const LOOKS: u32 = 1_000;

const BUDGET: u32 = 64;

/// What two threads leave.
#[derive(Drop)]
pub struct HandedOver {
    /// The ring, which is closed.
    pub closed: Closed,
    /// What it says of the cyclic.
    pub book: Book,
    /// The handlers that were called.
    pub calls: Tally,
}

fn first_index() -> Index
    ensures { result ≡ 0 }
{
    match Index::new(0) {
        Some(index) => index,
        None => unreachable!(),
    }
}

/// The firing thread: it admits the cyclic and raises it so often.
fn raise_all(ring: &Ring, seat: RaiseSeat, id: CyclicId, raises: u32) -> RaiseSeat
    requires own { IsRaiseSeatOf ring.now seat }
    requires new { raise_trail seat ≡ [] }
    ensures own { IsRaiseSeatOf ring.now result }
    ensures raised { IsAdmitted id (seat_view result) (λ s. (s.index ≡ 0) × (s.sent ≡ raises)) }
    ensures stays { ended_calls id (raise_trail result) ≡ 0 }
{
    let mut end = RaiseEnd::new(ring, seat);
    end.admit(id, first_index());
    for raised in 0..raises {
        end.raise(id);
    }
    end.into_seat()
}

/// One soft interrupt: each call of a handler is one call more that is done, whatever the answer.
fn serve(end: &mut DrainEnd, calls: &mut Tally) -> Result<Ran, SoftRefused>
    ensures own { IsSameDrainSeat end.old.seat end.new.seat }
    ensures made { (id : ℕ) → tally_count calls.new id + end_made end.old id ≡ tally_count calls.old id + end_made end.new id }
{
    drain_ways_add_up();
    softint(end, calls, Soft::Low, BUDGET)
}

/// The draining thread: it makes the calls that it finds, until it has looked often enough or a handler refuses.
fn make_calls(ring: &Ring, seat: DrainSeat, calls: Tally) -> (DrainSeat, Tally)
    requires { IsDrainSeatOf ring.now seat }
    ensures own { IsDrainSeatOf ring.now result.0 }
    ensures made { (id : ℕ) → tally_count result.1 id + seat_made seat id ≡ tally_count calls id + seat_made result.0 id }
{
    let mut end = DrainEnd::new(ring, seat);
    let mut calls = calls;
    for look in 0..LOOKS {
        if serve(&mut end, &mut calls).is_err() {
            break;
        }
    }
    (end.into_seat(), calls)
}

/// Both at once.
fn both<R: Threads>(
    rt: &R,
    ring: &Ring,
    raise_seat: RaiseSeat,
    drain_seat: DrainSeat,
    id: CyclicId,
    raises: u32,
    calls: Tally,
) -> (RaiseSeat, (DrainSeat, Tally))
    requires own { IsRaiseSeatOf ring.now raise_seat × IsDrainSeatOf ring.now drain_seat }
    requires new { raise_trail raise_seat ≡ [] }
    ensures own { IsRaiseSeatOf ring.now result.0 × IsDrainSeatOf ring.now result.1.0 }
    ensures raised { IsAdmitted id (seat_view result.0) (λ s. (s.index ≡ 0) × (s.sent ≡ raises)) }
    ensures stays { ended_calls id (raise_trail result.0) ≡ 0 }
    ensures made { (q : ℕ) → tally_count result.1.1 q + seat_made drain_seat q ≡ tally_count calls q + seat_made result.1.0 q }
{
    join(
        rt,
        || raise_all(ring, raise_seat, id, raises),
        || make_calls(ring, drain_seat, calls),
    )
}

/// The book of the first index, where a cyclic is admitted.
fn first_book(closed: &Closed) -> Book
    requires { ¬ (IsFree 0 closed.now) }
    ensures { IsBook 0 result closed.now }
{
    match closed.book(first_index()) {
        Some(book) => book,
        None => unreachable!(),
    }
}

/// Opens a ring, raises a cyclic so often in one thread while another makes its calls, and closes the ring.
///
/// Refuses with Memory alone.
pub fn hand_over<R: Threads>(
    rt: &R,
    alloc: Global,
    ceiling: Ceiling,
    id: CyclicId,
    raises: u32,
    calls: Tally,
) -> Result<HandedOver, Refusal>
    // The cyclic expired exactly so often, and each expiration was called, is outstanding, or was lost at the ceiling.
    ensures raised { IfOk result (λ r. (r.book.id ≡ id) × (r.book.sent ≡ raises)) }
    ensures conserved { IfOk result (λ r. r.book.sent ≡ r.book.done + r.book.count + r.book.lost) }

    // The calls that are done are those that the handlers counted.
    ensures called { IfOk result (λ r. tally_count r.calls id ≡ tally_count calls id + r.book.done) }

    // A lawful level stood before and after each atomic step of the two threads.
    ensures stood { IfOk result (λ r. StoodThroughout ceiling r.closed) }
    ensures refused { IfErr result (λ why. why ≡ Memory) }
{
    let (ring, raise_seat, drain_seat) = Ring::open(alloc, ceiling, 0)?;
    let (raise_seat, (drain_seat, calls)) = both(
        rt, &ring, raise_seat, drain_seat, id, raises, calls,
    );
    raise_seat.law();
    let closed = ring.close(raise_seat, drain_seat);
    let book = first_book(&closed);
    Ok(HandedOver {
        closed,
        book,
        calls,
    })
}
