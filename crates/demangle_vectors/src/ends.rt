//! Tests the filter between a source and a sink in memory, and where each of their calls fails.

use crate::memory::{MemorySink, MemorySource};
use crate::texts::assert_bytes;
use std::alloc::Global;
use std::process::Abort;
use symfilter_engine::{FilterFault, Sink, Source, filter};

/// Lines without a last line feed.
const TEXT: &[u8] = b"_Z3foov\nx\n_Z3bar";

/// What the filter writes for them.
const FILTERED: &[u8] = b"foo\nx\nbar";

/// More calls than any source or sink here gets.
const CALLS: usize = 100;

/// Asserts what the filter returns and writes if the source fails after `reads` calls, and the sink after `writes`.
fn assert_filtered(
    rt: &impl Abort,
    alloc: Global,
    reads: usize,
    writes: usize,
    outcome: Result<(), FilterFault>,
    written: &[u8],
) {
    let mut source = MemorySource::new(TEXT, reads);
    let mut sink = MemorySink::new(alloc, writes);
    let found = filter(alloc, &mut source, &mut sink);
    assert!(rt; found == outcome, "{reads} reads, {writes} writes");
    assert!(rt; source.failed() == (outcome == Err(FilterFault::Read)));
    assert!(rt; sink.failed() == (outcome == Err(FilterFault::Write)));
    assert_bytes(rt, sink.bytes.as_slice(), written);
}

#[test]
fn lines_with_one_byte_a_call(rt: HostRuntime) {
    assert_filtered(&rt, rt.alloc(), CALLS, CALLS, Ok(()), FILTERED);
}

#[test]
fn source_that_fails_at_each_call(rt: HostRuntime) {
    // A call for each byte, and one that finds the end. The lines that were read whole are written.
    for reads in 0..=TEXT.len() {
        let written: &[u8] = match reads {
            0..=7 => b"",
            8 | 9 => b"foo\n",
            _ => b"foo\nx\n",
        };
        let outcome = Err(FilterFault::Read);
        assert_filtered(&rt, rt.alloc(), reads, CALLS, outcome, written);
    }
}

#[test]
fn sink_that_fails_at_each_call(rt: HostRuntime) {
    for writes in 0..FILTERED.len() {
        let outcome = Err(FilterFault::Write);
        assert_filtered(&rt, rt.alloc(), CALLS, writes, outcome, &FILTERED[..writes]);
    }
}
