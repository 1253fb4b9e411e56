//! A source and a sink in memory for the filter.
ghost use Rattle.std.specs.Prelude.{◌≡◌, ◌<◌, true, false, length, Some};

use std::alloc::Global;
use symfilter_engine::{Failed, FilterFault, Sink, Source, filter};

/// Returns whether a source or sink has been called after a failure, once one more call is made.
fn is_late(failed: bool, called_late: bool) -> bool
    ensures in_time { failed ≡ false → result ≡ called_late }
    ensures late { failed ≡ true → result ≡ true }
{
    failed || called_late
}

/// A source over bytes in memory. Each call gives at most `most` bytes. The source fails after `calls_left` calls, and
/// records whether it is called after that.
#[derive(Drop)]
pub struct MemorySource<'a> {
    pub rest: &'a [u8],
    most: usize,
    pub calls_left: usize,
    failed: bool,
    pub called_late: bool,
    ghost gives_some: { 0 < most },
}

impl<'a> MemorySource<'a> {
    /// Returns a source of these bytes that hasn't failed.
    pub fn new(bytes: &'a [u8], most: usize, calls_left: usize) -> Self
        requires some { 0 < most }
        ensures not_failed { result.failed ≡ false }
    {
        MemorySource {
            rest: bytes,
            most,
            calls_left,
            failed: false,
            called_late: false,
        }
    }
}

impl Source for MemorySource<'_> {
    ghost remaining = { λ source. Some source.rest.now };

    ghost failed = { λ source. source.failed };

    ghost called_late = { λ source. Some source.called_late };

    ghost calls_left = { λ source. length source.rest.now };

    fn failed(&self) -> bool {
        self.failed
    }

    fn take(&mut self, into: &mut [u8]) -> Result<usize, Failed> {
        self.called_late = is_late(self.failed, self.called_late);
        if self.calls_left == 0 {
            self.failed = true;
            return Err(Failed);
        }
        self.calls_left -= 1;
        let count = self.rest.len().min(into.len()).min(self.most);
        let (front, rest) = self.rest.split_at(count);
        into[..count].copy_from_slice(front);
        self.rest = rest;
        Ok(count)
    }
}

/// A sink in memory. Each call takes at most `most` bytes. The sink fails after `calls_left` calls, and records
/// whether it is called after that.
#[derive(Drop)]
pub struct MemorySink {
    pub bytes: Vec<u8>,
    most: usize,
    pub calls_left: usize,
    failed: bool,
    pub called_late: bool,
    ghost takes_some: { 0 < most },
}

impl MemorySink {
    /// Returns an empty sink that hasn't failed.
    pub fn new(alloc: Global, most: usize, calls_left: usize) -> Self
        requires some { 0 < most }
        ensures not_failed { result.failed ≡ false }
    {
        MemorySink {
            bytes: Vec::new(alloc),
            most,
            calls_left,
            failed: false,
            called_late: false,
        }
    }
}

impl Sink for MemorySink {
    ghost taken = { λ sink. Some sink.bytes.items };

    ghost failed = { λ sink. sink.failed };

    ghost called_late = { λ sink. Some sink.called_late };

    fn failed(&self) -> bool {
        self.failed
    }

    fn put(&mut self, bytes: &[u8]) -> Result<usize, Failed> {
        self.called_late = is_late(self.failed, self.called_late);
        let count = bytes.len().min(self.most);
        if self.calls_left > 0 && self.bytes.extend_from_slice(&bytes[..count]).is_ok() {
            self.calls_left -= 1;
            return Ok(count);
        }
        self.failed = true;
        Err(Failed)
    }
}

/// Filters from memory into memory. Neither the source nor the sink is called after a failure.
pub fn filter_in_memory(
    alloc: Global,
    source: &mut MemorySource,
    sink: &mut MemorySink,
) -> Result<(), FilterFault>
    requires source_not_failed { source.old.failed ≡ false }
    requires sink_not_failed { sink.old.failed ≡ false }
    ensures source_in_time { source.new.called_late ≡ source.old.called_late }
    ensures sink_in_time { sink.new.called_late ≡ sink.old.called_late }
{
    filter(alloc, source, sink)
}
