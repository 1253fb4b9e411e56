//! Writes whole lines or words, and a last line or word.
//!
//! A parameter `complete_text` ends at a boundary: after a line feed for `Placement::Lines`, and after a byte that is
//! in no word for `Placement::Words`. Ordinary text is written as it is: a line that doesn't begin with an underscore,
//! or text that has no `_Z`. Where all is read, no line and no word is ordinary.
ghost use Rattle.std.specs.Prelude.{◌≡◌, ◌<◌, ◌≤◌, [], false, length, take, drop, IsTrue, IsErrOf, IsUtf8, IfOk, OnOk, OnErr};
ghost use Rattle.std.specs.Io.KnownBytes.{Keeps};
ghost use Rattle.text_filter.specs.Fault.{IsWriteOutcome};
ghost use Rattle.text_filter.specs.Replaced.{ends_word};
ghost use Rattle.text_filter.specs.declared.symbols.Placement.TheVariants as code;
ghost use Rattle.text_filter.specs.Printed.{Lines, Words, placed, worded};
ghost use Rattle.text_filter.specs.Filtered.{HasNoLineFeed, EndsInLineFeed, AreWhole, IsLineAnswer, AreLinesAnswered, AreWholeFiltered, WritesFiltered, WritesBeginning};
ghost use Rattle.text_filter.specs.Progress.{AppendsFiltered, FiltersUpTo, WritesWholeFiltered, WritesBeginningOfAny, FiltersSome};

use super::byte_search::first_place;
use super::fault::FilterFault;
use super::output::write_all;
use super::prefixes::ordinary_words_len;
use super::streams::Sink;
use super::symbols::{Placement, ReplaceOptions, SymbolReader};
use super::word_bounds::{whole_words_len, word_end};
use super::words::append_words;
use abi_scalars::utf8::is_utf8;
use growing_text::Text;
use std::alloc::{AllocError, Global};
use std::str;

/// The length in bytes at which the output is written.
const OUTPUT_LEN: usize = 32768;

/// The capacity that is reserved for the output, in bytes. The capacity is more than `OUTPUT_LEN`.
const OUTPUT_CAPACITY: usize = 40960;

/// The least length in bytes of ordinary lines or words that are written without a copy.
const LONG_LEN: usize = 16384;

/// The most bytes whose words are replaced at once, unless the first word is longer.
const BLOCK_LEN: usize = 8192;

/// The first byte of each mangled symbol.
const UNDERSCORE: u8 = b'_';

const LINE_FEED: u8 = b'\n';

/// Returns the length in bytes of the whole lines, up to the last line feed and with it. The first `kept` bytes have
/// no line feed.
pub(crate) fn whole_lines_len(bytes: &[u8], kept: usize) -> usize
    requires inside { kept ≤ length bytes.now }
    requires before { HasNoLineFeed (take kept bytes.now) }
    ensures bound { result ≤ length bytes.now }
    ensures ended { EndsInLineFeed (take result bytes.now) }
    ensures unended { HasNoLineFeed (drop result bytes.now) }
{
    for place in (kept..bytes.len()).rev() {
        if bytes[place] == LINE_FEED {
            return place + 1;
        }
    }
    0
}

/// Returns the length in bytes of the first whole lines or words, up to one that isn't ordinary.
#[inline(always)]
fn ordinary_len<S: SymbolReader>(placement: Placement<S::Printing>, complete_text: &[u8]) -> usize
    ensures bound { result ≤ length complete_text.now }
    ensures ordinary { AreWholeFiltered (placed S.all S.prints placement) (take result complete_text.now) (take result complete_text.now) }
{
    match placement {
        Placement::Lines(printing) => ordinary_lines_len::<S>(printing, complete_text),
        Placement::Words(options) => {
            ordinary_words_len(S::reads_all(options.printing), complete_text)
        }
    }
}

/// Returns the length in bytes of the first whole lines, up to one that begins with an underscore, or none if all are
/// read.
fn ordinary_lines_len<S: SymbolReader>(printing: S::Printing, lines: &[u8]) -> usize
    ensures bound { result ≤ length lines.now }
    ensures ordinary { AreLinesAnswered (S.prints printing) (take result lines.now) (take result lines.now) }
{
    if S::reads_all(printing) {
        return 0;
    }
    let mut len = 0;
    while len < lines.len() && lines[len] != UNDERSCORE {
        let Some(end) = first_place(&lines[len..], LINE_FEED) else {
            return len;
        };
        len += end + 1;
    }
    len
}

/// Returns what is written for a line, which has no line feed here: what is printed for its symbol. Returns the line
/// itself if nothing is printed, or if the line isn't UTF-8. If `known_utf8` is true, the line is UTF-8 and isn't
/// tested again.
#[inline(always)]
fn line_answer<'a, S: SymbolReader>(
    alloc: Global,
    symbols: &'a mut S,
    printing: S::Printing,
    line: &'a [u8],
    known_utf8: bool,
) -> Result<&'a [u8], AllocError>
    requires { IsTrue known_utf8 → IsUtf8 line.now }
    ensures { IfOk result (λ text. IsLineAnswer (S.prints printing) line.now text.now) }
{
    if !known_utf8 && !is_utf8(line) {
        return Ok(line);
    }
    let symbol = unsafe { str::from_utf8_unchecked(line) };
    symbols.read(alloc, printing, symbol)?;
    match symbols.text() {
        Some(answer) => Ok(answer.as_bytes()),
        None => Ok(line),
    }
}

/// Appends what is written for the first line, and returns the length in bytes of that line with its line feed. Lines
/// are symbols here. After an error nothing is appended.
#[inline(always)]
fn append_line<S: SymbolReader>(
    alloc: Global,
    symbols: &mut S,
    printing: S::Printing,
    lines: &[u8],
    known_utf8: bool,
    output: &mut Text,
) -> Result<usize, AllocError>
    requires some { 0 < length lines.now }
    requires ended { EndsInLineFeed lines.now }
    requires known { IsTrue known_utf8 → IsUtf8 lines.now }
    ensures some { IfOk result (λ len. 0 < len) }
    ensures bound { IfOk result (λ len. len ≤ length lines.now) }
    ensures ok { IfOk result (λ len. AppendsFiltered (Lines (S.prints printing)) (take len lines.now) output.old output.new) }
    ensures err { OnErr result (output.new ≡ output.old) }
{
    let Some(end) = first_place(lines, LINE_FEED) else {
        unreachable!()
    };
    let answer = line_answer(alloc, symbols, printing, &lines[..end], known_utf8)?;
    output.add_pair(answer, b"\n")?;
    Ok(end + 1)
}

/// Returns the length in bytes of the first block of whole words: as many as fit in `most` bytes, and at least one.
fn block_len(text: &[u8], most: usize) -> usize
    requires some { 0 < length text.now }
    requires whole { ends_word text.now ≡ false }
    ensures some { 0 < result }
    ensures bound { result ≤ length text.now }
    ensures whole { ends_word (take result text.now) ≡ false }
{
    if text.len() <= most {
        return text.len();
    }
    let len = whole_words_len(&text[..most], 0);
    if len > 0 {
        return len;
    }
    word_end(text, 0) + 1
}

/// Appends a block of words with its symbols replaced, or one word if the allocation for the block fails. Returns the
/// length in bytes of the text that was replaced. After an error nothing is appended.
fn append_block<S: SymbolReader>(
    alloc: Global,
    symbols: &mut S,
    options: ReplaceOptions<S::Printing>,
    text: &[u8],
    output: &mut Text,
) -> Result<usize, AllocError>
    requires some { 0 < length text.now }
    requires whole { ends_word text.now ≡ false }
    ensures some { IfOk result (λ len. 0 < len) }
    ensures bound { IfOk result (λ len. len ≤ length text.now) }
    ensures ok { IfOk result (λ len. AppendsFiltered (Words (worded S.all S.prints options)) (take len text.now) output.old output.new) }
    ensures err { OnErr result (output.new ≡ output.old) }
{
    let len = block_len(text, BLOCK_LEN);
    if append_words(alloc, symbols, options, &text[..len], output).is_ok() {
        return Ok(len);
    }
    let first = block_len(text, 1);
    append_words(alloc, symbols, options, &text[..first], output)?;
    Ok(first)
}

/// Appends what is written for all ordinary lines or words at the front, or otherwise for the first line or block of
/// words. Returns their length in bytes. After an error nothing is appended.
#[inline(always)]
fn append_next<S: SymbolReader>(
    alloc: Global,
    symbols: &mut S,
    placement: Placement<S::Printing>,
    complete_text: &[u8],
    known_utf8: bool,
    output: &mut Text,
) -> Result<usize, AllocError>
    requires some { 0 < length complete_text.now }
    requires whole { AreWhole (placed S.all S.prints placement) complete_text.now }
    requires known { (printing : S.Printing) → placement ≡ code.Lines printing → IsTrue known_utf8 → IsUtf8 complete_text.now }
    ensures some { IfOk result (λ len. 0 < len) }
    ensures bound { IfOk result (λ len. len ≤ length complete_text.now) }
    ensures ok { IfOk result (λ len. AppendsFiltered (placed S.all S.prints placement) (take len complete_text.now) output.old output.new) }
    ensures err { OnErr result (output.new ≡ output.old) }
{
    let ordinary = ordinary_len::<S>(placement, complete_text);
    if ordinary > 0 {
        output.add(&complete_text[..ordinary])?;
        return Ok(ordinary);
    }
    match placement {
        Placement::Lines(printing) => append_line(
            alloc,
            symbols,
            printing,
            complete_text,
            known_utf8,
            output,
        ),
        Placement::Words(options) => append_block(alloc, symbols, options, complete_text, output),
    }
}

/// Appends what is written for lines or words to an empty output, until the output has `OUTPUT_LEN` bytes or none is
/// left. Returns the length in bytes of these lines or words. If an allocation fails, returns the error if nothing was
/// appended before. Otherwise it stops there, and the next call begins with the line or words that failed.
fn gather_whole<S: SymbolReader>(
    alloc: Global,
    symbols: &mut S,
    placement: Placement<S::Printing>,
    complete_text: &[u8],
    known_utf8: bool,
    output: &mut Text,
) -> Result<usize, AllocError>
    requires some { 0 < length complete_text.now }
    requires whole { AreWhole (placed S.all S.prints placement) complete_text.now }
    requires known { (printing : S.Printing) → placement ≡ code.Lines printing → IsTrue known_utf8 → IsUtf8 complete_text.now }
    requires empty { output.old ≡ [] }
    ensures some { IfOk result (λ len. 0 < len) }
    ensures bound { IfOk result (λ len. len ≤ length complete_text.now) }
    ensures filtered { IfOk result (λ len. AreWholeFiltered (placed S.all S.prints placement) (take len complete_text.now) output.new) }
{
    let mut rest = complete_text;
    while !rest.is_empty() && output.len() < OUTPUT_LEN {
        match append_next(alloc, symbols, placement, rest, known_utf8, output) {
            Ok(more) => rest = &rest[more..],
            Err(error) if rest.len() == complete_text.len() => return Err(error),
            Err(_) => break,
        }
    }
    Ok(complete_text.len() - rest.len())
}

/// Writes one portion, and returns the length in bytes of the lines or words that it is for. That is the ordinary ones
/// at the front, without a copy, if they have at least `LONG_LEN` bytes. Otherwise it is what `gather_whole` gathers.
fn write_next<S: SymbolReader, W: Sink>(
    alloc: Global,
    symbols: &mut S,
    placement: Placement<S::Printing>,
    complete_text: &[u8],
    known_utf8: bool,
    output: &mut Text,
    sink: &mut W,
) -> Result<usize, FilterFault>
    requires not_failed { W.failed sink.old ≡ false }
    requires some { 0 < length complete_text.now }
    requires whole { AreWhole (placed S.all S.prints placement) complete_text.now }
    requires known { (printing : S.Printing) → placement ≡ code.Lines printing → IsTrue known_utf8 → IsUtf8 complete_text.now }
    ensures outcome { IsWriteOutcome result (W.failed sink.new) }
    ensures in_time { W.called_late sink.new ≡ W.called_late sink.old }
    ensures some { IfOk result (λ len. 0 < len) }
    ensures bound { IfOk result (λ len. len ≤ length complete_text.now) }
    ensures ok { IfOk result (λ len. WritesWholeFiltered (placed S.all S.prints placement) (take len complete_text.now)
        (W.taken sink.old) (W.taken sink.new)) }
    ensures err { OnErr result (WritesBeginningOfAny (placed S.all S.prints placement) complete_text.now
        (W.taken sink.old) (W.taken sink.new)) }
    ensures memory { IsErrOf result FilterFault.Memory → Keeps (W.taken sink.old) (W.taken sink.new) }
{
    // A shorter run of ordinary lines or words goes into the output, like the others that `append_next` finds.
    let ordinary = ordinary_len::<S>(placement, complete_text);
    if ordinary >= LONG_LEN {
        write_all(sink, &complete_text[..ordinary])?;
        return Ok(ordinary);
    }
    output.clear();
    output.reserve(OUTPUT_CAPACITY)?;
    let len = gather_whole(alloc, symbols, placement, complete_text, known_utf8, output)?;
    write_all(sink, output.as_slice())?;
    Ok(len)
}

/// Writes the text for these whole lines or words.
pub(crate) fn write_whole<S: SymbolReader, W: Sink>(
    alloc: Global,
    symbols: &mut S,
    placement: Placement<S::Printing>,
    complete_text: &[u8],
    output: &mut Text,
    sink: &mut W,
) -> Result<(), FilterFault>
    requires not_failed { W.failed sink.old ≡ false }
    requires whole { AreWhole (placed S.all S.prints placement) complete_text.now }
    ensures outcome { IsWriteOutcome result (W.failed sink.new) }
    ensures in_time { W.called_late sink.new ≡ W.called_late sink.old }
    ensures ok { OnOk result (FiltersUpTo (placed S.all S.prints placement) complete_text.now [] (W.taken sink.old) (W.taken sink.new)) }
    ensures err { OnErr result (WritesBeginningOfAny (placed S.all S.prints placement) complete_text.now
        (W.taken sink.old) (W.taken sink.new)) }
    ensures memory { IsErrOf result FilterFault.Memory →
        FiltersSome (placed S.all S.prints placement) complete_text.now (W.taken sink.old) (W.taken sink.new) }
{
    let known_utf8 = matches!(placement, Placement::Lines(_)) && is_utf8(complete_text);
    let mut rest = complete_text;
    while !rest.is_empty() {
        let len = write_next(alloc, symbols, placement, rest, known_utf8, output, sink)?;
        rest = &rest[len..];
    }
    Ok(())
}

/// Writes the text for the last bytes of the input: a line without a line feed, a word, or nothing.
pub(crate) fn write_last<S: SymbolReader, W: Sink>(
    alloc: Global,
    symbols: &mut S,
    placement: Placement<S::Printing>,
    last: &[u8],
    sink: &mut W,
) -> Result<(), FilterFault>
    requires not_failed { W.failed sink.old ≡ false }
    requires unended { (printing : S.Printing) → placement ≡ code.Lines printing → HasNoLineFeed last.now }
    ensures outcome { IsWriteOutcome result (W.failed sink.new) }
    ensures in_time { W.called_late sink.new ≡ W.called_late sink.old }
    ensures ok { OnOk result (WritesFiltered (placed S.all S.prints placement) last.now (W.taken sink.old) (W.taken sink.new)) }
    ensures err { OnErr result (WritesBeginning (placed S.all S.prints placement) last.now (W.taken sink.old) (W.taken sink.new)) }
    ensures memory { IsErrOf result FilterFault.Memory → Keeps (W.taken sink.old) (W.taken sink.new) }
    ensures some { IsErrOf result FilterFault.Memory → 0 < length last.now }
{
    if last.is_empty() {
        return Ok(());
    }
    match placement {
        Placement::Lines(printing) => {
            let answer = line_answer(alloc, symbols, printing, last, false)?;
            write_all(sink, answer)
        }
        Placement::Words(options) => {
            let mut output = Text::new(alloc);
            append_words(alloc, symbols, options, last, &mut output)?;
            write_all(sink, output.as_slice())
        }
    }
}
