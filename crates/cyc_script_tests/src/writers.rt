//! Writers that fail, are interrupted, or take a part.

use cyc_text::{BoundedWriter, Out, Sink};
use std::io;
use std::io::{BufWriter, ErrorKind, Write};
use std::test::Fail;

/// How a writer behaves.
#[derive(Clone, Copy, Debug, Drop, PartialEq, Eq)]
enum Habit {
    Steady,
    AlwaysInterrupted,
    InterruptedEveryOtherTime,
    /// Fails when it is asked this many times.
    FailsAt(u32),
    /// Takes nothing when it is asked this many times.
    FullAt(u32),
}

/// A writer that takes at most so many bytes at a time.
#[derive(Drop)]
struct Slow {
    taken: Vec<u8>,
    at_once: usize,
    habit: Habit,
    asked: u32,
}

impl Write for Slow {
    fn write(&mut self, buf: &[u8]) -> io::Result<usize> {
        self.asked = self.asked.saturating_add(1);
        match self.habit {
            Habit::AlwaysInterrupted => return Err(io::Error::from(ErrorKind::Interrupted)),
            Habit::InterruptedEveryOtherTime => if self.asked % 2 == 1 {
                return Err(io::Error::from(ErrorKind::Interrupted));
            },
            Habit::FailsAt(k) => if self.asked >= k {
                return Err(io::Error::from(ErrorKind::BrokenPipe));
            },
            Habit::FullAt(k) => if self.asked >= k {
                return Ok(0);
            },
            Habit::Steady => {}
        }
        let some = buf.len().min(self.at_once);
        self.taken.extend_from_slice(&buf[..some])?;
        Ok(some)
    }

    fn flush(&mut self) -> io::Result<()> {
        Ok(())
    }
}

const TEXT: &[u8] = b"12 fired 345 lost 6\n";

/// A habit, how many bytes at a time, the bytes that are taken of the text, and how often the writer is asked.
const PUTS: [(Habit, usize, usize, u32); 8] = [
    (Habit::Steady, 100, 20, 1),
    (Habit::Steady, 7, 20, 3),
    (Habit::InterruptedEveryOtherTime, 1, 20, 40),
    (Habit::AlwaysInterrupted, 100, 0, 33_554_432),
    (Habit::FailsAt(1), 3, 0, 1),
    (Habit::FailsAt(3), 3, 6, 3),
    (Habit::FullAt(1), 3, 0, 1),
    (Habit::FullAt(6), 3, 15, 6),
];

#[test]
fn a_put_writes_the_text_or_a_prefix_of_it_and_fails(rt: HostRuntime) {
    for (habit, at_once, most, asked) in PUTS {
        let mut writer = Slow {
            taken: Vec::new(rt.alloc()),
            at_once,
            habit,
            asked: 0,
        };
        let mut out = Out::new(&mut writer);
        let put = out.put(TEXT);
        assert_eq!(rt; put.is_ok(), most == TEXT.len(), "{habit:?}");
        assert_eq!(rt; out.failed(), most != TEXT.len(), "{habit:?}");
        drop(out);
        assert_eq!(rt; writer.asked, asked, "{habit:?}");
        assert_eq!(rt; writer.taken.len(), most, "{habit:?}");
        assert!(rt; TEXT.starts_with(writer.taken.as_slice()), "{habit:?}");
    }
}

/// What the last flush writes takes turns of the same writer, and no turn is taken past the last.
#[test]
fn a_flush_that_is_always_interrupted_is_given_up(rt: HostRuntime) -> Result<(), Fail> {
    let mut writer = Slow {
        taken: Vec::new(rt.alloc()),
        at_once: 100,
        habit: Habit::AlwaysInterrupted,
        asked: 0,
    };
    let mut buffered = BufWriter::new(rt.alloc(), BoundedWriter::new(&mut writer))?;
    let mut out = Out::new(&mut buffered);
    assert!(rt; out.put(TEXT).is_ok());
    drop(out);
    let first = buffered.flush().err().map(|e| e.kind());
    assert_eq!(rt; first, Some(ErrorKind::TimedOut));
    let second = buffered.flush().err().map(|e| e.kind());
    assert_eq!(rt; second, Some(ErrorKind::TimedOut));
    drop(buffered);
    assert_eq!(rt; writer.asked, 33_554_432);
    Ok(())
}

#[test]
fn a_bounded_writer_writes_what_it_is_given(rt: HostRuntime) -> Result<(), Fail> {
    let mut writer = Slow {
        taken: Vec::new(rt.alloc()),
        at_once: 3,
        habit: Habit::InterruptedEveryOtherTime,
        asked: 0,
    };
    let mut bounded = BoundedWriter::new(&mut writer);
    bounded.write_all(TEXT)?;
    bounded.flush()?;
    drop(bounded);
    assert_eq!(rt; writer.taken.as_slice(), TEXT);
    assert_eq!(rt; writer.asked, 14);
    Ok(())
}
