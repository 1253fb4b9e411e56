//! The functions for whole texts: the filter, the replacement, and the one that writes a text that a handle keeps
//! because the capacity was too small.
ghost use Rattle.std.specs.Prelude.{◌≡◌, ◌≢◌, ◌↔◌, [], pos, Some, None, IfOk, IfSome, OnErr};
ghost use Rattle.cosvigle_engine.specs.Printed.{IsPrintedAs};
ghost use Rattle.text_filter.specs.Filtered.{IsAnswered};
ghost use Rattle.text_filter.specs.Replaced.{IsReplaced};
ghost use Rattle.cosvigle_c.specs.Capacity.{Fills, IsShort};
ghost use Rattle.cosvigle_c.specs.Kept.{asked_of, last_of, limit_of, text_of};
ghost use Rattle.cosvigle_c.specs.Numbers as numbers;
ghost use Rattle.cosvigle_c.specs.Calls.{by_printing, WritesLines, KeepsLines, WritesWords, KeepsWords};

use crate::handle::Handle;
use crate::kept::Kept;
use crate::numbers::{printing_of, within};
use crate::status::{BAD_CALL, NO_ANSWER, NO_MEMORY, NO_ROOM, WRITTEN, write_if_fits};
use crate::take_kept;
use cosvigle_engine::{
    DeclarationReader, Failed, FilterFault, Printing, ReplaceOptions, Sink, Tally, filter_with,
    replace,
};
use std::alloc::{AllocError, Global};
use std::mem;

/// A sink in memory. A call fails if an allocation fails.
#[derive(Drop)]
struct Gathered {
    text: Vec<u8>,
    failed: bool,
}

impl Sink for Gathered {
    ghost taken = { λ sink. Some sink.text.items };

    ghost failed = { λ sink. sink.failed };

    fn failed(&self) -> bool {
        self.failed
    }

    fn put(&mut self, bytes: &[u8]) -> Result<usize, Failed> {
        match self.text.extend_from_slice(bytes) {
            Ok(()) => Ok(bytes.len()),
            Err(_) => {
                self.failed = true;
                Err(Failed)
            }
        }
    }
}

/// Returns the filtered text of a block of lines. A fault means that an allocation failed: neither the source nor the
/// sink can fail in another way, since both are in memory.
fn filtered(alloc: Global, printing: Printing, lines: &[u8]) -> Result<Vec<u8>, FilterFault>
    ensures text { IfOk result (λ text. IsAnswered (IsPrintedAs printing) lines.now text.items) }
{
    let mut source = Tally::new(lines);
    let mut sink = Gathered {
        text: Vec::new(alloc),
        failed: false,
    };
    let mut reader = DeclarationReader::new(alloc);
    filter_with(alloc, &mut reader, printing, &mut source, &mut sink)?;
    Ok(sink.text)
}

/// Returns a text with its symbols replaced. A fault means that an allocation failed.
fn replaced(
    alloc: Global,
    options: ReplaceOptions<Printing>,
    bytes: &[u8],
) -> Result<Vec<u8>, FilterFault>
    ensures text { IfOk result
        (λ text. IsReplaced (by_printing options.strip options.printing) bytes.now text.items) }
{
    let mut source = Tally::new(bytes);
    let mut sink = Gathered {
        text: Vec::new(alloc),
        failed: false,
    };
    let mut reader = DeclarationReader::new(alloc);
    replace(alloc, &mut reader, options, &mut source, &mut sink)?;
    Ok(sink.text)
}

/// Takes what a handle keeps out of it, and drops the text that it keeps. If the handle keeps nothing, makes a new
/// demangler. Returns an error if an allocation fails.
fn take_without_text(alloc: Global, handle: &mut Handle) -> Result<Box<Kept>, AllocError>
    ensures last { IfOk result (λ kept. last_of handle.old.kept ≢ None →
        Some kept.value.demangler ≡ last_of handle.old.kept) }
    ensures limit { IfOk result (λ kept. kept.value.limit ≡ limit_of handle.old.kept) }
    ensures no_text { IfOk result (λ kept. kept.value.text.items ≡ []) }
    ensures failed { OnErr result (handle.old.kept ≡ None) }
    ensures none { handle.new.kept ≡ None }
{
    let mut kept = take_kept(alloc, handle)?;
    kept.text = Vec::new(alloc);
    Ok(kept)
}

/// Writes a text at the front of the caller's memory, and its length in bytes to `needed`. If the memory is too small,
/// keeps the text instead. Returns `WRITTEN` or `NO_ROOM`.
fn write_if_fits_or_keep(kept: &mut Kept, made: Vec<u8>, into: &mut [u8], needed: &mut usize) -> i32
    requires no_text { kept.old.text.items ≡ [] }
    ensures status { result ≢ pos 0 → result ≡ pos 3 }
    ensures fills { result ≡ pos 0 → Fills made.items into.old into.new needed.new }
    ensures short { result ≡ pos 3 → IsShort made.items into.old into.new needed.new }
    ensures text { result ≡ pos 3 → kept.new.text.items ≡ made.items }
    ensures no_text { result ≡ pos 0 → kept.new.text.items ≡ [] }
    ensures demangler { kept.new.demangler ≡ kept.old.demangler }
    ensures limit { kept.new.limit ≡ kept.old.limit }
{
    let status = write_if_fits(&made, into, needed);
    if status == NO_ROOM {
        kept.text = made;
    }
    status
}

/// Writes the filtered text of a block of lines at the front of `into`, and its length in bytes to `needed`. Each line
/// is one symbol: what is printed for it is written, or the line itself if nothing is. So is a line that needs more
/// than the handle's limit. A line goes up to the next line feed or the end. `printing` is a sum of flags
/// (`numbers.rt`). The bytes of `into` after the text stay as they are.
///
/// Returns 0 if the text is written, 2 if an allocation fails, 3 if the text is longer than `into`, and 5 if `printing`
/// isn't a sum of flags. With 2, 3 and 5 nothing is written to `into`. With 3, `needed` is the length of the text; with
/// 2 and 5, `needed` is 0.
///
/// With 3 the handle keeps the text for `cosvigle_take`; with 0 and 2 it keeps none. With 5 what the handle keeps is as
/// it was. The handle's demangler and its limit stay. A handle without a demangler may get one.
#[unsafe(no_mangle)]
pub extern "C" fn cosvigle_filter(
    alloc: Global,
    handle: &mut Handle,
    printing: u32,
    lines: &[u8],
    into: &mut [u8],
    needed: &mut usize,
) -> i32
    ensures status { result ≢ pos 0 → result ≢ pos 2 → result ≢ pos 3 → result ≡ pos 5 }
    ensures bad_call { result ≡ pos 5 ↔ (numbers.printing_of printing ≡ None) }
    ensures written { result ≡ pos 0 → IfSome (asked_of printing handle.old.kept)
        (λ asked. WritesLines asked lines.now into.old into.new needed.new) }
    ensures no_room { result ≡ pos 3 → IfSome (asked_of printing handle.old.kept)
        (λ asked. KeepsLines asked lines.now into.old into.new needed.new (text_of handle.new.kept)) }
    ensures stays { result ≢ pos 0 → into.new ≡ into.old }
    ensures no_length { result ≢ pos 0 → result ≢ pos 3 → needed.new ≡ 0 }
    ensures no_text { result ≢ pos 3 → result ≢ pos 5 → text_of handle.new.kept ≡ [] }
    ensures keeps { last_of handle.old.kept ≢ None → last_of handle.new.kept ≡ last_of handle.old.kept }
    ensures limit { limit_of handle.new.kept ≡ limit_of handle.old.kept }
    ensures same { result ≡ pos 5 → handle.new.kept ≡ handle.old.kept }
{
    *needed = 0;
    let Some(asked) = printing_of(printing) else {
        return BAD_CALL;
    };
    let Ok(mut kept) = take_without_text(alloc, handle) else {
        return NO_MEMORY;
    };
    let status = match filtered(alloc, within(asked, kept.limit), lines) {
        Ok(made) => write_if_fits_or_keep(&mut kept, made, into, needed),
        Err(_) => NO_MEMORY,
    };
    *handle = Handle::of(kept);
    status
}

/// Writes a text with its symbols replaced at the front of `into`, and its length in bytes to `needed`. What is printed
/// for each symbol in a word is written in its place, and all other bytes as they are. A symbol stays if nothing is
/// printed for it, or if it needs more than the handle's limit. With `strip`, one more underscore may be in front of a
/// symbol, and is dropped. `printing` is a sum of flags (`numbers.rt`). The bytes of `into` after the text stay as they
/// are.
///
/// Returns 0 if the text is written, 2 if an allocation fails, 3 if the text is longer than `into`, and 5 if `printing`
/// isn't a sum of flags. With 2, 3 and 5 nothing is written to `into`. With 3, `needed` is the length of the text; with
/// 2 and 5, `needed` is 0.
///
/// With 3 the handle keeps the text for `cosvigle_take`; with 0 and 2 it keeps none. With 5 what the handle keeps is as
/// it was. The handle's demangler and its limit stay. A handle without a demangler may get one.
#[unsafe(no_mangle)]
pub extern "C" fn cosvigle_replace(
    alloc: Global,
    handle: &mut Handle,
    printing: u32,
    strip: bool,
    text: &[u8],
    into: &mut [u8],
    needed: &mut usize,
) -> i32
    ensures status { result ≢ pos 0 → result ≢ pos 2 → result ≢ pos 3 → result ≡ pos 5 }
    ensures bad_call { result ≡ pos 5 ↔ (numbers.printing_of printing ≡ None) }
    ensures written { result ≡ pos 0 → IfSome (asked_of printing handle.old.kept)
        (λ asked. WritesWords strip asked text.now into.old into.new needed.new) }
    ensures no_room { result ≡ pos 3 → IfSome (asked_of printing handle.old.kept)
        (λ asked. KeepsWords strip asked text.now into.old into.new needed.new (text_of handle.new.kept)) }
    ensures stays { result ≢ pos 0 → into.new ≡ into.old }
    ensures no_length { result ≢ pos 0 → result ≢ pos 3 → needed.new ≡ 0 }
    ensures no_text { result ≢ pos 3 → result ≢ pos 5 → text_of handle.new.kept ≡ [] }
    ensures keeps { last_of handle.old.kept ≢ None → last_of handle.new.kept ≡ last_of handle.old.kept }
    ensures limit { limit_of handle.new.kept ≡ limit_of handle.old.kept }
    ensures same { result ≡ pos 5 → handle.new.kept ≡ handle.old.kept }
{
    *needed = 0;
    let Some(asked) = printing_of(printing) else {
        return BAD_CALL;
    };
    let Ok(mut kept) = take_without_text(alloc, handle) else {
        return NO_MEMORY;
    };
    let options = ReplaceOptions {
        strip,
        printing: within(asked, kept.limit),
    };
    let status = match replaced(alloc, options, text) {
        Ok(made) => write_if_fits_or_keep(&mut kept, made, into, needed),
        Err(_) => NO_MEMORY,
    };
    *handle = Handle::of(kept);
    status
}

/// Writes the text that the handle keeps at the front of `into`, and its length in bytes to `needed`. Afterwards the
/// handle keeps no text. The bytes of `into` after the text stay as they are.
///
/// Returns 0 if the text is written, 1 if the handle keeps no text, and 3 if the text is longer than `into`. With 1
/// and 3 nothing is written to `into`, and the handle keeps what it kept. With 3, `needed` is the length of the text;
/// with 1, `needed` is 0.
#[unsafe(no_mangle)]
pub extern "C" fn cosvigle_take(
    alloc: Global,
    handle: &mut Handle,
    into: &mut [u8],
    needed: &mut usize,
) -> i32
    ensures status { result ≢ pos 0 → result ≢ pos 3 → result ≡ pos 1 }
    ensures written { result ≡ pos 0 → Fills (text_of handle.old.kept) into.old into.new needed.new }
    ensures no_room { result ≡ pos 3 → IsShort (text_of handle.old.kept) into.old into.new needed.new }
    ensures no_text { result ≡ pos 1 ↔ (text_of handle.old.kept ≡ []) }
    ensures stays { result ≢ pos 0 → into.new ≡ into.old }
    ensures no_length { result ≡ pos 1 → needed.new ≡ 0 }
    ensures taken { result ≡ pos 0 → text_of handle.new.kept ≡ [] }
    ensures kept { result ≢ pos 0 → handle.new.kept ≡ handle.old.kept }
    ensures keeps { last_of handle.new.kept ≡ last_of handle.old.kept }
    ensures limit { limit_of handle.new.kept ≡ limit_of handle.old.kept }
{
    *needed = 0;
    let Some(mut kept) = mem::replace(handle, Handle::none(alloc)).into_box() else {
        return NO_ANSWER;
    };
    let mut status = NO_ANSWER;
    if !kept.text.is_empty() {
        status = write_if_fits(&kept.text, into, needed);
    }
    if status == WRITTEN {
        kept.text = Vec::new(alloc);
    }
    *handle = Handle::of(kept);
    status
}
