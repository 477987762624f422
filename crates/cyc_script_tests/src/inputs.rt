//! Readers that fail, are interrupted, or have too much.

use cyc_input::{BoundedReader, InputFault, read_input};
use std::alloc::Global;
use std::io;
use std::io::{ErrorKind, Read};
use std::process::Abort;
use std::test::Fail;

/// How a reader behaves.
#[derive(Clone, Copy, Debug, Drop, PartialEq, Eq)]
enum Habit {
    Steady,
    AlwaysInterrupted,
    InterruptedEveryOtherTime,
    /// Fails when it is asked this many times.
    FailsAt(u32),
}

/// A reader of the numbers from 0 on, modulo 251, up to an end, at most so many at a time.
#[derive(Drop)]
struct Numbers {
    next: usize,
    end: usize,
    at_once: usize,
    habit: Habit,
    asked: u32,
}

fn reader_of(end: usize, at_once: usize, habit: Habit) -> Numbers {
    Numbers {
        next: 0,
        end,
        at_once,
        habit,
        asked: 0,
    }
}

fn number(at: usize) -> u8 {
    (at % 251) as u8
}

fn put_numbers(slots: &mut [u8], first: usize) {
    let mut at = first;
    for slot in slots {
        *slot = number(at);
        at = at.wrapping_add(1);
    }
}

impl Read for Numbers {
    fn read(&mut self, buf: &mut [u8]) -> io::Result<usize> {
        self.asked = self.asked.saturating_add(1);
        match self.habit {
            Habit::AlwaysInterrupted => return Err(io::Error::from(ErrorKind::Interrupted)),
            Habit::InterruptedEveryOtherTime => if self.asked % 2 == 1 {
                return Err(io::Error::from(ErrorKind::Interrupted));
            },
            Habit::FailsAt(k) => if self.asked >= k {
                return Err(io::Error::from(ErrorKind::OutOfMemory));
            },
            Habit::Steady => {}
        }
        let left = self.end.saturating_sub(self.next);
        let given = buf.len().min(self.at_once).min(left);
        put_numbers(&mut buf[..given], self.next);
        self.next = self.next.wrapping_add(given);
        Ok(given)
    }
}

/// Reads the numbers, and looks at what came, at what is left and at how often the reader was asked.
fn reads<R: Abort>(rt: &R, alloc: Global, mut reader: Numbers, most: usize, asked: u32) {
    let habit = reader.habit;
    let read = read_input(alloc, &mut BoundedReader::new(&mut reader));
    assert_eq!(rt;
        read.as_ref().ok().map(|bytes| bytes.len()),
        Some(most),
        "{habit:?}"
    );
    let mut at: usize = 0;
    let mut right = true;
    if let Ok(bytes) = &read {
        for byte in bytes {
            right = right && *byte == number(at);
            at = at.wrapping_add(1);
        }
    }
    assert!(rt; right, "{habit:?}");
    assert_eq!(rt; reader.next, most, "{habit:?}");
    assert_eq!(rt; reader.asked, asked, "{habit:?}");
}

#[test]
fn an_input_is_read_up_to_its_end(rt: HostRuntime) {
    let alloc = rt.alloc();
    reads(&rt, alloc, reader_of(0, 4096, Habit::Steady), 0, 1);
    reads(
        &rt,
        alloc,
        reader_of(10_000, 7, Habit::Steady),
        10_000,
        1430,
    );
    reads(
        &rt,
        alloc,
        reader_of(10_000, 4096, Habit::Steady),
        10_000,
        4,
    );
    let every_other = Habit::InterruptedEveryOtherTime;
    reads(
        &rt,
        alloc,
        reader_of(10_000, 1, every_other),
        10_000,
        20_002,
    );
}

#[test]
fn one_byte_more_than_a_script_is_read_and_no_further(rt: HostRuntime) {
    let alloc = rt.alloc();
    let steady = reader_of(16_777_218, 1_000_000, Habit::Steady);
    reads(&rt, alloc, steady, 16_777_217, 4097);
    let least = reader_of(16_777_218, 1, Habit::Steady);
    reads(&rt, alloc, least, 16_777_217, 16_777_217);
}

#[test]
fn a_reader_that_is_always_interrupted_is_given_up(rt: HostRuntime) {
    let mut reader = reader_of(10, 10, Habit::AlwaysInterrupted);
    let read = read_input(rt.alloc(), &mut BoundedReader::new(&mut reader));
    assert_eq!(rt; read.err(), Some(InputFault::Read));
    assert_eq!(rt; reader.asked, 33_554_432);
}

/// Twice as many turns as bytes are too few for the end: the last turn gives the last byte but one.
#[test]
fn the_turns_are_counted_over_the_whole_reading(rt: HostRuntime) {
    let mut reader = reader_of(16_777_217, 1, Habit::InterruptedEveryOtherTime);
    let read = read_input(rt.alloc(), &mut BoundedReader::new(&mut reader));
    assert_eq!(rt; read.err(), Some(InputFault::Read));
    assert_eq!(rt; reader.asked, 33_554_432);
    assert_eq!(rt; reader.next, 16_777_216);
}

/// The error is one of memory, which the reader had and this program had not.
#[test]
fn a_failed_read_is_not_asked_again(rt: HostRuntime) {
    for k in 1..5u32 {
        let mut reader = reader_of(100_000, 10, Habit::FailsAt(k));
        let read = read_input(rt.alloc(), &mut BoundedReader::new(&mut reader));
        assert_eq!(rt; read.err(), Some(InputFault::Read), "at {k}");
        assert_eq!(rt; reader.asked, k);
        assert_eq!(rt; reader.next, (k as usize - 1) * 10);
    }
}

#[test]
fn a_fault_has_its_text(rt: HostRuntime) -> Result<(), Fail> {
    for (fault, text) in [
        (InputFault::Memory, "memory was refused"),
        (InputFault::Read, "the input was not read"),
    ] {
        let said = format!(in rt.alloc(); "{fault}")?;
        assert_eq!(rt; said.as_str(), text);
    }
    Ok(())
}
