//! The exports that open and close a CPU between threads.

ghost use Rattle.std.specs.Prelude.{◌≡◌};
ghost use Rattle.cyc_border.specs.Border.{Through};
ghost use Rattle.cyclic_c.specs.Exports.{written};
ghost use Rattle.cyclic_c.specs.PairOut.{OpensPair, ClosesPair, OneOpen, TakesSoft, FinishesSoft, HandsSoft, BookOut, handles};
ghost use Rattle.cyclic_c.specs.PairOut.{ClosesHandle, shelved};

use crate::answers::{MISUSED, or_zero};
use crate::handle_books::CyclicBooks;
use crate::handle_firing::CyclicFiring;
use crate::handle_soft::CyclicSoft;
use crate::records::{CyclicBook, book_of};
use cyc_border::pair::{Shelf, closed, opened};
use cyc_types::{CYCLICS, Ceiling, Index};
use std::alloc::Global;

/// Opens a CPU with no cyclic for three threads. Refuses with Misused where a handle is open, or `ceiling` or `most` is 0; then
/// with Memory.
#[unsafe(no_mangle)]
pub extern "C" fn cyclic_open(
    alloc: Global,
    ceiling: u32,
    most: u64,
    firing: &mut CyclicFiring,
    lock: &mut CyclicSoft,
    low: &mut CyclicSoft,
) -> u32
    ensures { OpensPair ceiling most result (handles firing.old.inner.held lock.old.inner.held low.old.inner.held)
        (handles firing.new.inner.held lock.new.inner.held low.new.inner.held) }
{
    let Some(ceiling) = Ceiling::new(ceiling) else {
        return MISUSED;
    };
    if most == 0 || firing.open || lock.open || low.open {
        return MISUSED;
    }
    let Ok((hard, lock_soft, low_soft)) = opened(alloc, ceiling, most) else {
        return 1;
    };
    let Ok(hard) = Box::new(alloc, hard) else {
        return 1;
    };
    let Ok(lock_soft) = Box::new(alloc, lock_soft) else {
        return 1;
    };
    let Ok(low_soft) = Box::new(alloc, low_soft) else {
        return 1;
    };
    firing.put(hard);
    lock.put(lock_soft);
    low.put(low_soft);
    0
}

/// Takes the three handles of one open back, and gives the books. Refuses with Misused where one of them is closed, or the books
/// are open, then with Memory where there is none for the books: nothing is changed then, and it may be called again. Where
/// another handle of the same open is about it answers Misused, and the CPU is closed without books.
#[unsafe(no_mangle)]
pub extern "C" fn cyclic_close(
    alloc: Global,
    firing: &mut CyclicFiring,
    lock: &mut CyclicSoft,
    low: &mut CyclicSoft,
    books: &mut CyclicBooks,
) -> u32
    requires { OneOpen (handles firing.old.inner.held lock.old.inner.held low.old.inner.held) }
    ensures { ClosesPair result (handles firing.old.inner.held lock.old.inner.held low.old.inner.held)
        (shelved books.old.inner.held) (handles firing.new.inner.held lock.new.inner.held low.new.inner.held)
        (shelved books.new.inner.held) }
{
    if books.open || !firing.open || !lock.open || !low.open {
        return MISUSED;
    }
    let Ok(mut shelf) = Box::new(alloc, Shelf { books: None }) else {
        return 1;
    };
    let Some(hard) = firing.take(alloc) else {
        unreachable!()
    };
    let Some(lock_soft) = lock.take(alloc) else {
        unreachable!()
    };
    let Some(low_soft) = low.take(alloc) else {
        unreachable!()
    };
    let Some(done) = closed(
        Box::into_inner(hard),
        Box::into_inner(lock_soft),
        Box::into_inner(low_soft),
    ) else {
        return MISUSED;
    };
    shelf.books = Some(done);
    books.put(shelf);
    0
}

/// Takes the cyclic whose handler the caller is to call next; `id` gets 0 where no call waits.
#[unsafe(no_mangle)]
pub extern "C" fn cyclic_soft_take(soft: &mut CyclicSoft, id: &mut u64) -> u32
    ensures { Through soft.old.inner.held soft.new.inner.held result (TakesSoft result id.new) }
{
    if !soft.open {
        return MISUSED;
    }
    let open = soft.inner.lend();
    let found = open.take();
    *id = or_zero(found);
    0
}

/// Counts the call of the cyclic in hand, which the caller has made.
#[unsafe(no_mangle)]
pub extern "C" fn cyclic_soft_finish(soft: &mut CyclicSoft) -> u32
    ensures { Through soft.old.inner.held soft.new.inner.held result (FinishesSoft result) }
{
    if !soft.open {
        return MISUSED;
    }
    let open = soft.inner.lend();
    let answer = open.finish();
    match answer {
        Some(_finished) => 0,
        None => MISUSED,
    }
}

/// The cyclic in hand, whose call was taken and is not finished; `id` gets 0 where none is.
#[unsafe(no_mangle)]
pub extern "C" fn cyclic_soft_hand(soft: &mut CyclicSoft, id: &mut u64) -> u32
    ensures { Through soft.old.inner.held soft.new.inner.held result (HandsSoft result id.new) }
{
    if !soft.open {
        return MISUSED;
    }
    let open = soft.inner.lend();
    let found = open.hand();
    *id = or_zero(found);
    0
}

/// The book of the cyclic at an index of a soft level, 0 low and 1 lock; its id is 0 where none is. Refuses with Misused where
/// the level or the index, which is below `CYCLICS`, is none.
#[unsafe(no_mangle)]
pub extern "C" fn cyclic_book(
    books: &mut CyclicBooks,
    level: u32,
    index: u32,
    book: &mut CyclicBook,
) -> u32
    ensures { Through (shelved books.old.inner.held) (shelved books.new.inner.held) result
        (BookOut level index result (written book.old book.new)) }
{
    if !books.open {
        return MISUSED;
    }
    let open = books.inner.lend();
    if level > 1 || index >= u32::from(CYCLICS) {
        return MISUSED;
    }
    let Some(index) = Index::new(index as u16) else {
        unreachable!()
    };
    let Some(shelf) = &open.books else {
        unreachable!()
    };
    let found = if level == 0 {
        shelf.low.book(index)
    } else {
        shelf.lock.book(index)
    };
    *book = match found {
        Some(found) => book_of(found),
        None => CyclicBook::NONE,
    };
    0
}

/// Gives the memory of the books back. Refuses with Misused where they are closed.
#[unsafe(no_mangle)]
pub extern "C" fn cyclic_books_close(alloc: Global, books: &mut CyclicBooks) -> u32
    ensures { ClosesHandle result (shelved books.old.inner.held) (shelved books.new.inner.held) }
{
    match books.take(alloc) {
        Some(_closed) => 0,
        None => MISUSED,
    }
}

/// Gives up a firing side whose CPU is not to be closed: its memory is given back with the last handle of its open. Refuses with
/// Misused where it is closed.
#[unsafe(no_mangle)]
pub extern "C" fn cyclic_firing_drop(alloc: Global, firing: &mut CyclicFiring) -> u32
    ensures { ClosesHandle result firing.old.inner.held firing.new.inner.held }
{
    match firing.take(alloc) {
        Some(_dropped) => 0,
        None => MISUSED,
    }
}

/// The same of a soft side.
#[unsafe(no_mangle)]
pub extern "C" fn cyclic_soft_drop(alloc: Global, soft: &mut CyclicSoft) -> u32
    ensures { ClosesHandle result soft.old.inner.held soft.new.inner.held }
{
    match soft.take(alloc) {
        Some(_dropped) => 0,
        None => MISUSED,
    }
}
