//! Standard output, and whether its reader has gone.
ghost use Rattle.std.specs.Prelude.{◌≡◌, true, false};
ghost use Rattle.std.specs.Io.{WritesAtMost};
ghost use Rattle.std.specs.Io.KnownBytes.{Keeps, WriteAppends};
ghost use Rattle.cosvigle.specs.Output as spec;
ghost use Rattle.cosvigle.specs.Output.{IsBroken};

use std::io;
use std::io::{ErrorKind, Write};
use text_filter::FilterFault;

/// A writer, and whether a write to it has failed because its reader has gone.
#[derive(Drop)]
pub struct Output<W> {
    inner: W,
    closed: bool,
}

impl<W> Output<W> {
    /// Wraps a writer. No write has failed yet.
    pub fn new(inner: W) -> Self
        ensures inner { spec.inner_of result ≡ inner }
        ensures closed { spec.is_closed result ≡ false }
    {
        Output {
            inner,
            closed: false,
        }
    }

    /// Returns whether a write has failed because the reader has gone.
    pub fn is_closed(&self) -> bool
        ensures value { result ≡ spec.is_closed self.now }
    {
        self.closed
    }
}

impl<W: Write> Write for Output<W> {
    ghost contents = { λ output. W.contents (spec.inner_of output) };

    fn write(&mut self, bytes: &[u8]) -> io::Result<usize>
        ensures bound { WritesAtMost result bytes.now }
        ensures bytes { WriteAppends (W.contents (spec.inner_of self.old))
            (W.contents (spec.inner_of self.new)) result bytes.now }
        ensures closes { IsBroken result → spec.is_closed self.new ≡ true }
        ensures closed { spec.is_closed self.old ≡ true → spec.is_closed self.new ≡ true }
        ensures open { spec.is_closed self.old ≡ false → spec.is_closed self.new ≡ true → IsBroken result }
    {
        match self.inner.write(bytes) {
            Ok(count) => Ok(count),
            Err(error) => {
                if matches!(error.kind(), ErrorKind::BrokenPipe) {
                    self.closed = true;
                }
                Err(error)
            }
        }
    }

    fn flush(&mut self) -> io::Result<()>
        ensures bytes { Keeps (W.contents (spec.inner_of self.old)) (W.contents (spec.inner_of self.new)) }
        ensures closed { spec.is_closed self.new ≡ spec.is_closed self.old }
    {
        self.inner.flush()
    }
}

/// Returns the fault to report. Returns `None` for a failed write to a reader that has gone.
pub fn reported(fault: FilterFault, closed: bool) -> Option<FilterFault>
    ensures value { result ≡ spec.reported fault closed }
{
    match fault {
        FilterFault::Write if closed => None,
        _ => Some(fault),
    }
}
