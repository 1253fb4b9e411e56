//! Makes a source of a reader of std, and a sink of a writer of std.
ghost use Rattle.std.specs.Prelude.{◌≡◌, ◌≤◌, ◌<◌, true, false, ◌+◌, ◌-◌, ◌^◌, length, take, IfOk, OnOk, OnErr};
ghost use Rattle.std.specs.Io.{ReadsAtMost};
ghost use Rattle.std.specs.Io.KnownBytes.{Appends, Keeps, ReadConsumes};

use super::streams::{Failed, Sink, Source};
use std::io::{Read, Write};

/// Adapts a reader or a writer of std, and keeps whether a call has failed. A call fails if the inner call returns an
/// error. A write also fails if it takes no byte although some were given. Each read after the first 2^64 - 1 fails.
#[derive(Drop)]
pub struct Tally<D> {
    inner: D,
    failed: bool,
    reads_left: u64,
}

impl<D> Tally<D> {
    ghost use Rattle.text_filter.specs.Tally.{inner_of, has_failed, reads_left};

    /// Wraps a reader or a writer. No call has failed, and 2^64 - 1 reads are left.
    pub fn new(inner: D) -> Self
        ensures inner { inner_of result ≡ inner }
        ensures not_failed { has_failed result ≡ false }
        ensures reads { reads_left result ≡ 2 ^ 64 - 1 }
    {
        Tally {
            inner,
            failed: false,
            reads_left: u64::MAX,
        }
    }
}

/// A read fails if the reader returns an error, and after 2^64 - 1 reads.
impl<D: Read> Source for Tally<D> {
    ghost use Rattle.text_filter.specs.Tally.{inner_of, has_failed, reads_left};

    ghost remaining = { λ tally. D.remaining (inner_of tally) };

    ghost failed = { has_failed };

    ghost calls_left = { reads_left };

    fn failed(&self) -> bool {
        self.failed
    }

    fn take(&mut self, into: &mut [u8]) -> Result<usize, Failed>
        ensures bound { ReadsAtMost result into.new }
        ensures bytes { ReadConsumes
            (D.remaining (inner_of self.old)) (D.remaining (inner_of self.new)) result into.new }
        ensures counted { OnOk result (reads_left self.new + 1 ≡ reads_left self.old) }
        ensures never_more { reads_left self.new ≤ reads_left self.old }
        ensures none_left { reads_left self.old ≡ 0 → inner_of self.new ≡ inner_of self.old }
        ensures fails { OnErr result (has_failed self.new ≡ true) }
        ensures stays { OnOk result (has_failed self.new ≡ has_failed self.old) }
    {
        if self.reads_left == 0 {
            self.failed = true;
            return Err(Failed);
        }
        self.reads_left -= 1;
        match self.inner.read(into) {
            Ok(count) => Ok(count),
            Err(_) => {
                self.failed = true;
                Err(Failed)
            }
        }
    }
}

/// A write fails if the writer returns an error, or takes 0 bytes of some.
impl<D: Write> Sink for Tally<D> {
    ghost use Rattle.text_filter.specs.Tally.{inner_of, has_failed, reads_left};

    ghost taken = { λ tally. D.contents (inner_of tally) };

    ghost failed = { has_failed };

    fn failed(&self) -> bool {
        self.failed
    }

    fn put(&mut self, bytes: &[u8]) -> Result<usize, Failed>
        ensures bound { IfOk result (λ count. count ≤ length bytes.now) }
        ensures some { IfOk result (λ count. 0 < length bytes.now → 0 < count) }
        ensures takes { IfOk result (λ count. Appends
            (D.contents (inner_of self.old)) (D.contents (inner_of self.new)) (take count bytes.now)) }
        ensures fails { OnErr result (has_failed self.new ≡ true) }
        ensures takes_none { OnErr result (Keeps (D.contents (inner_of self.old)) (D.contents (inner_of self.new))) }
        ensures stays { OnOk result (has_failed self.new ≡ has_failed self.old) }
        ensures reads { reads_left self.new ≡ reads_left self.old }
    {
        match self.inner.write(bytes) {
            Ok(count) if count > 0 || bytes.is_empty() => Ok(count),
            _ => {
                self.failed = true;
                Err(Failed)
            }
        }
    }
}
