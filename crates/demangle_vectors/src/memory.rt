//! A source and a sink in memory, with one byte a call.
ghost use Rattle.std.specs.Prelude.{◌≡◌, false, length, Some};

use std::alloc::Global;
use symfilter_engine::{Failed, Sink, Source};

/// A source over bytes in memory. Each call gives one byte. The source fails after `calls_left` calls.
#[derive(Drop)]
pub struct MemorySource<'a> {
    rest: &'a [u8],
    calls_left: usize,
    failed: bool,
}

impl<'a> MemorySource<'a> {
    /// Returns a source of these bytes that hasn't failed.
    pub fn new(bytes: &'a [u8], calls_left: usize) -> Self
        ensures not_failed { result.failed ≡ false }
    {
        MemorySource {
            rest: bytes,
            calls_left,
            failed: false,
        }
    }
}

impl Source for MemorySource<'_> {
    ghost remaining = { λ source. Some source.rest.now };

    ghost failed = { λ source. source.failed };

    ghost calls_left = { λ source. length source.rest.now };

    fn failed(&self) -> bool {
        self.failed
    }

    fn take(&mut self, into: &mut [u8]) -> Result<usize, Failed> {
        if self.calls_left == 0 {
            self.failed = true;
            return Err(Failed);
        }
        self.calls_left -= 1;
        let count = self.rest.len().min(into.len()).min(1);
        let (front, rest) = self.rest.split_at(count);
        into[..count].copy_from_slice(front);
        self.rest = rest;
        Ok(count)
    }
}

/// A sink in memory. Each call takes one byte. The sink fails after `calls_left` calls.
#[derive(Drop)]
pub struct MemorySink {
    pub bytes: Vec<u8>,
    calls_left: usize,
    failed: bool,
}

impl MemorySink {
    /// Returns an empty sink that hasn't failed.
    pub fn new(alloc: Global, calls_left: usize) -> Self
        ensures not_failed { result.failed ≡ false }
    {
        MemorySink {
            bytes: Vec::new(alloc),
            calls_left,
            failed: false,
        }
    }
}

impl Sink for MemorySink {
    ghost taken = { λ sink. Some sink.bytes.items };

    ghost failed = { λ sink. sink.failed };

    fn failed(&self) -> bool {
        self.failed
    }

    fn put(&mut self, bytes: &[u8]) -> Result<usize, Failed> {
        let count = bytes.len().min(1);
        if self.calls_left > 0 && self.bytes.extend_from_slice(&bytes[..count]).is_ok() {
            self.calls_left -= 1;
            return Ok(count);
        }
        self.failed = true;
        Err(Failed)
    }
}
