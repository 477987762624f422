//! The two threads of a round: one raises, removes and switches banks, the other makes the calls.
ghost use Rattle.std.specs.Prelude.{◌≡◌, ◌<◌};
ghost use Rattle.cyc_ring.specs.Ends.{IsRaiseSeatOf, IsDrainSeatOf};

use crate::ledger::{IDS, Ledger};
use cyc_ring::{DrainSeat, Ring};
use cyc_ring_sides::firing_side::{FiringSide, KnownSeat, NotAllowed};
use cyc_ring_sides::soft_side::SoftSide;
use cyc_types::{CyclicId, GREATEST_BANK, Index, Tally};
use std::sync::atomic::{AtomicBool, Ordering};
use std::thread::{Threads, join, yield_now};

fn id_at(at: usize) -> Result<CyclicId, NotAllowed>
    requires { at < IDS }
{
    CyclicId::new(at as u64 + 1).ok_or(NotAllowed)
}

/// Switches to the next bank where the soft side has followed, and admits the ids for which there is room.
fn grow(firing_side: &mut FiringSide, ledger: &mut Ledger) -> Result<(), NotAllowed>
    ensures { firing_side.new.ring.now ≡ firing_side.old.ring.now }
{
    if ledger.bank < GREATEST_BANK && firing_side.followed() {
        firing_side.expand(ledger.bank + 1)?;
        ledger.bank += 1;
        ledger.size = ledger.size.wrapping_mul(2);
    }
    for at in 0..IDS {
        if at >= ledger.admitted && at < ledger.size as usize {
            let index = at as u16;
            firing_side.admit(id_at(at)?, Index::new(index).ok_or(NotAllowed)?)?;
            ledger.index[at] = index;
            ledger.admitted = at + 1;
        }
    }
    Ok(())
}

/// Raises the id this many times.
fn burst(
    firing_side: &mut FiringSide,
    ledger: &mut Ledger,
    at: usize,
    times: usize,
) -> Result<(), NotAllowed>
    requires { at < IDS }
    ensures { firing_side.new.ring.now ≡ firing_side.old.ring.now }
{
    let id = id_at(at)?;
    for raised in 0..times {
        let answer = firing_side.raise(id)?;
        ledger.note(at, answer);
    }
    Ok(())
}

/// Begins the removal of this id, or polls the open one. A removal that answers is followed by the id's next stay.
fn remove(firing_side: &mut FiringSide, ledger: &mut Ledger, at: usize) -> Result<(), NotAllowed>
    requires { at < IDS }
    ensures { firing_side.new.ring.now ≡ firing_side.old.ring.now }
{
    let Some(marked) = ledger.marked else {
        if at < ledger.admitted {
            firing_side.mark(id_at(at)?)?;
            ledger.marked = Some(at);
        }
        return Ok(());
    };
    if marked >= IDS {
        return Err(NotAllowed);
    }
    let id = id_at(marked)?;
    let Some(counts) = firing_side.poll_clear(id)? else {
        return Ok(());
    };
    let index = ledger.ended(marked, counts);
    ledger.marked = None;
    firing_side.admit(id, Index::new(index).ok_or(NotAllowed)?)
}

/// A burst of each id, and one step of a removal.
fn turn(firing_side: &mut FiringSide, ledger: &mut Ledger, turn: u64) -> Result<(), NotAllowed>
    ensures { firing_side.new.ring.now ≡ firing_side.old.ring.now }
{
    let turn = (turn % IDS as u64) as usize;
    grow(firing_side, ledger)?;
    for at in 0..IDS {
        if ledger.may_raise(at) {
            burst(firing_side, ledger, at, (at ^ turn) % 4)?;
        }
    }
    remove(firing_side, ledger, turn)
}

/// The firing thread, which goes on until the other stops.
fn raise_all(
    ring: &Ring,
    raise_seat: KnownSeat,
    mut ledger: Ledger,
    stop: &AtomicBool,
) -> (KnownSeat, Ledger)
    requires { IsRaiseSeatOf ring.now raise_seat.seat }
    ensures { IsRaiseSeatOf ring.now result.0.seat }
{
    let mut firing_side = FiringSide::new(ring, raise_seat);
    for i in 0..u64::MAX {
        if stop.load(Ordering::SeqCst) {
            break;
        }
        if turn(&mut firing_side, &mut ledger, i).is_err() {
            ledger.refused = true;
            break;
        }
        yield_now();
    }
    stop.store(true, Ordering::SeqCst);
    (firing_side.into_seat(), ledger)
}

/// The draining thread: soft interrupts of small budgets, until so many calls are made or the other stops.
fn drain_all(
    ring: &Ring,
    drain_seat: DrainSeat,
    mut tally: Tally,
    stop: &AtomicBool,
    calls: u64,
) -> (DrainSeat, Tally)
    requires { IsDrainSeatOf ring.now drain_seat }
    ensures { IsDrainSeatOf ring.now result.0 }
{
    let mut end = SoftSide::new(ring, drain_seat);
    let mut made: u64 = 0;
    for turn in 0..u64::MAX {
        if made >= calls || stop.load(Ordering::SeqCst) {
            break;
        }
        let Ok(ran) = end.softint(&mut tally, (turn % 7) as u32) else {
            break;
        };
        made = made.wrapping_add(ran.calls as u64);
        if ran.idle {
            yield_now();
        }
    }
    stop.store(true, Ordering::SeqCst);
    (end.into_seat(), tally)
}

/// Both threads on one ring, from the seats of any earlier ones, until so many calls are made.
pub(crate) fn both<R: Threads>(
    rt: &R,
    ring: &Ring,
    raise_seat: (KnownSeat, Ledger),
    drain_seat: (DrainSeat, Tally),
    calls: u64,
) -> ((KnownSeat, Ledger), (DrainSeat, Tally))
    requires { IsRaiseSeatOf ring.now raise_seat.0.seat × IsDrainSeatOf ring.now drain_seat.0 }
    ensures { IsRaiseSeatOf ring.now result.0.0.seat × IsDrainSeatOf ring.now result.1.0 }
{
    let stop = AtomicBool::new(false);
    let (seat, ledger) = raise_seat;
    let (other, tally) = drain_seat;
    join(
        rt,
        || raise_all(ring, seat, ledger, &stop),
        || drain_all(ring, other, tally, &stop, calls),
    )
}
