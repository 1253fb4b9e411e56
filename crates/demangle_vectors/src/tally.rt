//! Tests a `Tally` over readers and writers of std, and the faults.
ghost use Rattle.std.specs.Prelude.{◌≤◌, IfOk};

use std::cell::Cell;
use std::io;
use std::io::{ErrorKind, Read, Write};
use std::process::Abort;
use symfilter_engine::{Failed, FilterFault, Sink, Source, Tally};

/// The number of calls of a `Tally` that are tested.
const CALLS: usize = 5;

/// A number that no call has.
const NEVER: usize = 0;

/// The things that a reader or writer of std does at one of its calls. Any error is a failure.
const TURNS: [Turn; 7] = [
    Turn::DoesNothing,
    Turn::Fails(ErrorKind::Interrupted),
    Turn::Fails(ErrorKind::WouldBlock),
    Turn::Fails(ErrorKind::TimedOut),
    Turn::Fails(ErrorKind::UnexpectedEof),
    Turn::Fails(ErrorKind::BrokenPipe),
    Turn::Fails(ErrorKind::Other),
];

#[derive(Clone, Copy)]
enum Turn {
    /// Gives or takes no byte.
    DoesNothing,
    /// Fails with this error.
    Fails(ErrorKind),
}

/// A reader and a writer of std that counts its calls. Each call gives or takes two bytes, but the call with the
/// number `at` does what `turn` says.
#[derive(Drop)]
struct Counted<'a> {
    calls: &'a Cell<usize>,
    at: usize,
    turn: Turn,
}

impl Counted<'_> {
    /// Returns how many of `len` bytes this call gives or takes.
    fn count(&mut self, len: usize) -> io::Result<usize>
        ensures { IfOk result (λ count. count ≤ len) }
    {
        self.calls.set(self.calls.get().saturating_add(1));
        if self.calls.get() != self.at {
            return Ok(len.min(2));
        }
        match self.turn {
            Turn::Fails(kind) => Err(kind.into()),
            Turn::DoesNothing => Ok(0),
        }
    }
}

impl Read for Counted<'_> {
    fn read(&mut self, buf: &mut [u8]) -> io::Result<usize> {
        self.count(buf.len())
    }
}

impl Write for Counted<'_> {
    fn write(&mut self, buf: &[u8]) -> io::Result<usize> {
        self.count(buf.len())
    }

    fn flush(&mut self) -> io::Result<()> {
        Ok(())
    }
}

/// A call of a `Tally`: its number, its result, whether the `Tally` has failed by then, and how often its reader or
/// writer was called.
#[derive(Clone, Copy)]
struct Call {
    number: usize,
    answer: Result<usize, Failed>,
    has_failed: bool,
    calls: usize,
}

/// Asserts that each call of the `Tally` calls its reader or writer once and returns what that did, and that a failure
/// is kept.
fn assert_call(rt: &impl Abort, call: Call, at: usize, turn: Result<usize, Failed>) {
    assert_eq!(rt; call.calls, call.number);
    assert!(rt; call.answer == if call.number == at { turn } else { Ok(2) });
    let fails = turn.is_err() && at != NEVER;
    assert_eq!(rt; call.has_failed, fails && at <= call.number);
}

/// Returns what a `Tally` returns if its reader or writer does `turn`. If that gives or takes nothing, it is
/// `nothing`.
fn answer(turn: Turn, nothing: Result<usize, Failed>) -> Result<usize, Failed> {
    match turn {
        Turn::DoesNothing => nothing,
        Turn::Fails(_) => Err(Failed),
    }
}

/// Tests a `Tally` over a reader that does `turn` at the call with the number `at`.
fn assert_reads(rt: &impl Abort, at: usize, turn: Turn) {
    let calls = Cell::new(0);
    let mut source = Tally::new(Counted {
        calls: &calls,
        at,
        turn,
    });
    let mut buffer = [0u8; 3];
    for number in 1..=CALLS {
        let call = Call {
            number,
            answer: source.take(&mut buffer),
            has_failed: Source::failed(&source),
            calls: calls.get(),
        };
        assert_call(rt, call, at, answer(turn, Ok(0)));
    }
}

/// Tests a `Tally` over a writer that does `turn` at the call with the number `at`. A writer that takes nothing of
/// some bytes fails.
fn assert_writes(rt: &impl Abort, at: usize, turn: Turn) {
    let calls = Cell::new(0);
    let mut sink = Tally::new(Counted {
        calls: &calls,
        at,
        turn,
    });
    for number in 1..=CALLS {
        let call = Call {
            number,
            answer: sink.put(b"abc"),
            has_failed: Sink::failed(&sink),
            calls: calls.get(),
        };
        assert_call(rt, call, at, answer(turn, Err(Failed)));
    }
}

#[test]
fn a_tally_answers_what_its_reader_does(rt: HostRuntime) {
    for turn in TURNS {
        for at in NEVER..=CALLS {
            assert_reads(&rt, at, turn);
        }
    }
}

#[test]
fn a_tally_answers_what_its_writer_does(rt: HostRuntime) {
    for turn in TURNS {
        for at in NEVER..=CALLS {
            assert_writes(&rt, at, turn);
        }
    }
}

#[test]
fn nothing_to_write_is_no_failure_and_a_full_slice_is_one(rt: HostRuntime) {
    let mut buffer = [0u8; 2];
    let mut sink = Tally::new(buffer.as_mut_slice());
    assert!(rt; sink.put(b"") == Ok(0));
    assert!(rt; sink.put(b"abc") == Ok(2));
    assert!(rt; !sink.failed());
    assert!(rt; sink.put(b"c") == Err(Failed));
    assert!(rt; sink.failed());
}

/// Asserts the number of a fault, and the line that is printed for it.
fn assert_fault(rt: &impl Abort, fault: FilterFault, number: u8, line: &str) {
    assert_eq!(rt; fault as u8, number);
    assert_eq!(rt; fault.line(), line);
}

#[test]
fn numbers_and_lines_of_the_faults(rt: HostRuntime) {
    assert_fault(&rt, FilterFault::Read, 1, "symfilter: read failed");
    assert_fault(&rt, FilterFault::Write, 2, "symfilter: write failed");
    assert_fault(&rt, FilterFault::Memory, 3, "symfilter: out of memory");
}
