//! Copies the input to the output in chunks, and filters it on the way.
ghost use Rattle.std.specs.Prelude.{◌≡◌, ◌<◌, ◌≤◌, true, false, [], length, take, drop, IsErrOf, IfOk, IfSome, Some, OnOk, OnErr};
ghost use Rattle.std.specs.Io.KnownBytes.{Keeps};
ghost use Rattle.text_filter.specs.declared.symbols.ReplaceOptions.{ReplaceOptions};
ghost use Rattle.text_filter.specs.Printed.{placed, worded};
ghost use Rattle.text_filter.specs.Fault.{IsRunOutcome, IsReadOutcome, IsWriteOutcome};
ghost use Rattle.text_filter.specs.Filtered.{FiltersAll, FiltersBeginning, FiltersWhole, WritesFiltered};
ghost use Rattle.text_filter.specs.Progress.{AreKept, WritesChunkUpTo, ContinuesTo, ReadsMore, WritesAllButKept, WritesChunkBeginning, WritesSomeOfChunk};

use super::fault::FilterFault;
use super::output::write_all;
use super::streams::{Failed, Sink, Source};
use super::symbols::{Placement, SymbolReader};
use super::word_bounds::{whole_words_len, word_end};
use super::words::may_hold_symbol;
use super::writing::{whole_lines_len, write_last, write_whole};
use growing_text::Text;
use std::alloc::Global;

/// The length of a chunk in bytes. A chunk grows by as many bytes if a longer line or word must be kept.
const CHUNK_LEN: usize = 131072;

/// Reads to the end in chunks, and writes the filtered text. The front of the chunk keeps the beginning of a line that
/// isn't whole, or of a word that may hold a symbol.
pub(crate) fn filter_chunks<S: SymbolReader, R: Source, W: Sink>(
    alloc: Global,
    symbols: &mut S,
    placement: Placement<S::Printing>,
    source: &mut R,
    sink: &mut W,
) -> Result<(), FilterFault>
    requires source_not_failed { R.failed source.old ≡ false }
    requires sink_not_failed { W.failed sink.old ≡ false }
    ensures outcome { IsRunOutcome result (R.failed source.new) (W.failed sink.new) }
    ensures source_in_time { R.called_late source.new ≡ R.called_late source.old }
    ensures sink_in_time { W.called_late sink.new ≡ W.called_late sink.old }
    ensures used_up { OnOk result (IfSome (R.remaining source.old) (λ _. R.remaining source.new ≡ Some [])) }
    ensures ok { OnOk result (IfSome (R.remaining source.old) (λ given.
        WritesFiltered (placed S.all S.prints placement) given (W.taken sink.old) (W.taken sink.new))) }
    ensures all { OnOk result (FiltersAll (placed S.all S.prints placement)
        (R.remaining source.old) (R.remaining source.new) (W.taken sink.old) (W.taken sink.new)) }
    ensures err { OnErr result (FiltersBeginning (placed S.all S.prints placement)
        (R.remaining source.old) (R.remaining source.new) (W.taken sink.old) (W.taken sink.new)) }
    ensures put { IsErrOf result FilterFault.Read → WritesAllButKept (placed S.all S.prints placement)
        (R.remaining source.old) (R.remaining source.new) (W.taken sink.old) (W.taken sink.new) }
    ensures memory { IsErrOf result FilterFault.Memory → FiltersWhole (placed S.all S.prints placement)
        (R.remaining source.old) (R.remaining source.new) (W.taken sink.old) (W.taken sink.new) }
{
    let mut chunk = vec![in alloc; 0u8; CHUNK_LEN]?;
    let mut output = Text::new(alloc);
    let mut kept = 0;
    let mut mid_word = false;
    'chunks: loop {
        let end = read_more(source, &mut chunk, kept)?;
        if end == kept {
            return write_last(alloc, symbols, placement, &chunk[..kept], sink);
        }
        let (done, goes_on) = write_chunk(
            alloc,
            symbols,
            placement,
            &chunk[..end],
            kept,
            mid_word,
            &mut output,
            sink,
        )?;
        // What isn't written moves to the front.
        if done > 0 {
            chunk.copy_within(done..end, 0);
        }
        kept = end - done;
        mid_word = goes_on;
    }
}

/// Reads into the chunk after its first `kept` bytes. Returns `kept` plus the number of bytes read. If the chunk is
/// full, it grows first. The result is `kept` only at the end of the input.
fn read_more<R: Source>(
    source: &mut R,
    chunk: &mut Vec<u8>,
    kept: usize,
) -> Result<usize, FilterFault>
    requires not_failed { R.failed source.old ≡ false }
    requires inside { kept ≤ length chunk.old.items }
    ensures outcome { IsReadOutcome result (R.failed source.new) }
    ensures in_time { R.called_late source.new ≡ R.called_late source.old }
    ensures ok { IfOk result (λ end. ReadsMore kept end chunk.old.items chunk.new.items
        (R.remaining source.old) (R.remaining source.new)) }
    ensures fewer { IfOk result (λ end. kept < end → R.calls_left source.new < R.calls_left source.old) }
    ensures err { OnErr result (Keeps (R.remaining source.old) (R.remaining source.new)) }
    ensures full { IsErrOf result FilterFault.Memory → kept ≡ length chunk.old.items }
{
    if kept == chunk.len() {
        chunk.resize(kept + CHUNK_LEN, 0)?;
    }
    match source.take(&mut chunk[kept..]) {
        Ok(count) => Ok(kept + count),
        Err(Failed) => Err(FilterFault::Read),
    }
}

/// Writes the text for these bytes, up to a last line that isn't whole or a last word that may hold a symbol. Returns
/// how many of the bytes were consumed, and whether they stop in the middle of a word that holds no symbol. If
/// `mid_word` is true, the bytes begin inside such a word. The first `kept` bytes were kept.
fn write_chunk<S: SymbolReader, W: Sink>(
    alloc: Global,
    symbols: &mut S,
    placement: Placement<S::Printing>,
    bytes: &[u8],
    kept: usize,
    mid_word: bool,
    output: &mut Text,
    sink: &mut W,
) -> Result<(usize, bool), FilterFault>
    requires not_failed { W.failed sink.old ≡ false }
    requires within { kept ≤ length bytes.now }
    requires kept { AreKept (placed S.all S.prints placement) (take kept bytes.now) }
    requires mid_word_keeps_none { mid_word ≡ true → kept ≡ 0 }
    ensures outcome { IsWriteOutcome result (W.failed sink.new) }
    ensures in_time { W.called_late sink.new ≡ W.called_late sink.old }
    ensures bound { IfOk result (λ written. written.0 ≤ length bytes.now) }
    ensures kept { IfOk result (λ written. AreKept (placed S.all S.prints placement) (drop written.0 bytes.now)) }
    ensures mid_word_keeps_none { IfOk result (λ written. written.1 ≡ true → drop written.0 bytes.now ≡ []) }
    ensures ok { IfOk result (λ written. WritesChunkUpTo (placed S.all S.prints placement) mid_word bytes.now
        (drop written.0 bytes.now) written.1 (W.taken sink.old) (W.taken sink.new)) }
    ensures err { OnErr result (WritesChunkBeginning (placed S.all S.prints placement) mid_word bytes.now
        (W.taken sink.old) (W.taken sink.new)) }
    ensures memory { IsErrOf result FilterFault.Memory →
        WritesSomeOfChunk (placed S.all S.prints placement) mid_word bytes.now (W.taken sink.old) (W.taken sink.new) }
{
    match placement {
        Placement::Lines(_) => {
            let ended = whole_lines_len(bytes, kept);
            write_whole(alloc, symbols, placement, &bytes[..ended], output, sink)?;
            Ok((ended, false))
        }
        Placement::Words(options) => {
            let (first, goes_on) = rest_of_word::<S>(mid_word, bytes);
            write_all(sink, &bytes[..first])?;
            if goes_on {
                return Ok((first, goes_on));
            }
            let rest = &bytes[first..];
            let whole = whole_words_len(rest, kept);
            write_whole(
                alloc,
                symbols,
                Placement::Words(options),
                &rest[..whole],
                output,
                sink,
            )?;
            let word = &rest[whole..];
            let all = S::reads_all(options.printing);
            if may_hold_symbol(options.strip, all, word) {
                return Ok((first + whole, false));
            }
            write_all(sink, word)?;
            Ok((bytes.len(), true))
        }
    }
}

/// Returns how many bytes at the front are written as they are: if `mid_word` is true, those of the first word and the
/// byte after it, otherwise none. Also returns whether the word may go on after the bytes.
fn rest_of_word<S: SymbolReader>(mid_word: bool, bytes: &[u8]) -> (usize, bool)
    ensures bound { result.0 ≤ length bytes.now }
    ensures outside { mid_word ≡ false → result.0 ≡ 0 }
    ensures goes_on { result.1 ≡ true → result.0 ≡ length bytes.now }
    ensures leads { (options : ReplaceOptions S.Printing) →
        ContinuesTo (worded S.all S.prints options) mid_word (take result.0 bytes.now) (take result.0 bytes.now) result.1 }
{
    if !mid_word {
        return (0, false);
    }
    let end = word_end(bytes, 0);
    if end == bytes.len() {
        return (end, true);
    }
    (end + 1, false)
}
