//! The functions that C, C++ and Python call: the demangler, the filter and the replacement. The caller provides the
//! memory. `include/cosvigle.h` declares the functions.
//!
//! A call that writes a text returns a status: 0 if the text is written, 1 if there is none, 2 if an allocation failed,
//! 3 if the capacity is too small, 4 if the symbol isn't UTF-8, 5 if a number asks for nothing that there is, 6 if the
//! symbol needs more than the handle's limit.
//!
//! `cxx_demangle`, `cosvigle_engine` and `text_filter` do the work. Begin with `cosvigle_ask` below. `numbers.rt` says
//! what a number asks for, `parts.rt` has the functions for the parts of a symbol, `texts.rt` those for whole texts,
//! and `handle.rt` keeps a demangler from one call to the next.
#![tactic(auto)]

ghost use Rattle.std.specs.Prelude.{◌≡◌, ◌≢◌, ◌↔◌, pos, Some, None, IfOk, IfSome, OnErr};
ghost use Rattle.std.specs.Str.{IsUtf8};
ghost use Rattle.cosvigle_engine.specs.Printed.{IsAnswer};
ghost use Rattle.cosvigle_c.specs.Numbers as numbers;
ghost use Rattle.cosvigle_c.specs.Kept.{asked_of, last_of, limit_of, text_of, IsNew, KeepsNoSymbol, KeepsSymbol};
ghost use Rattle.cosvigle_c.specs.Calls.{WritesAnswer, LacksCapacity};

mod handle;
mod kept;
mod loose;
mod numbers;
mod parts;
mod status;
mod texts;

use abi_scalars::utf8::is_utf8;
use cosvigle_engine::DemangleError;
use handle::Handle;
use kept::Kept;
use numbers::printing_of;
use status::{BAD_CALL, NO_ANSWER, NO_MEMORY, NOT_UTF8, OVER_LIMIT, WRITTEN, write_if_fits};
use std::alloc::{AllocError, Global};
use std::mem::replace;
use std::str::from_utf8_unchecked;

/// Returns the version of the library, 0.1.0, as a number: 1,000,000 times the major version, plus 1,000 times the
/// minor version, plus the patch.
#[unsafe(no_mangle)]
pub extern "C" fn cosvigle_version() -> u32
    ensures value { result ≡ 1000 }
{
    1000
}

/// Takes what a handle keeps out of it. If the handle keeps nothing, makes a new demangler. Returns an error if an
/// allocation fails.
fn take_kept(alloc: Global, handle: &mut Handle) -> Result<Box<Kept>, AllocError>
    ensures last { IfOk result (λ kept. last_of handle.old.kept ≢ None →
        Some kept.value.demangler ≡ last_of handle.old.kept) }
    ensures limit { IfOk result (λ kept. kept.value.limit ≡ limit_of handle.old.kept) }
    ensures text { IfOk result (λ kept. kept.value.text.items ≡ text_of handle.old.kept) }
    ensures failed { OnErr result (handle.old.kept ≡ None) }
    ensures none { handle.new.kept ≡ None }
{
    match replace(handle, Handle::none(alloc)).into_box() {
        Some(kept) => Ok(kept),
        None => match Box::new(alloc, Kept::new(alloc)) {
            Ok(made) => Ok(made),
            Err(_) => Err(AllocError),
        },
    }
}

/// Writes what is printed for a symbol at the front of `out`, and its length in bytes to `needed`. `printing` is a sum
/// of flags, which says how much is printed and in which style (`numbers.rt`). The bytes of `out` after the text stay
/// as they are.
///
/// Returns 0 if the text is written, 1 if nothing is printed for the symbol, 2 if an allocation fails, 3 if the text is
/// longer than `out`, 4 if the symbol isn't UTF-8, 5 if `printing` isn't a sum of flags, and 6 if the symbol needs more
/// than the handle's limit, which is set then. If the status isn't 0, nothing is written to `out`. With 3, `needed` is
/// the length of the text; with any other status but 0, `needed` is 0.
///
/// The symbol is read by the handle's demangler, or by a new one if the handle has none. The demangler keeps its memory
/// for the next symbol. After 0, 1 and 3 the handle has a demangler, which keeps the symbol for the calls that ask for
/// its parts. After 2 and 6 no symbol is kept, and after 4 and 5 what the handle keeps is as it was. The handle's
/// limit, and a text that it keeps, stay.
#[unsafe(no_mangle)]
pub extern "C" fn cosvigle_ask(
    alloc: Global,
    handle: &mut Handle,
    printing: u32,
    symbol: &[u8],
    out: &mut [u8],
    needed: &mut usize,
) -> i32
    ensures status { result ≢ pos 0 → result ≢ pos 1 → result ≢ pos 2 → result ≢ pos 3 → result ≢ pos 4
        → result ≢ pos 5 → result ≡ pos 6 }
    ensures bad_call { result ≡ pos 5 ↔ (numbers.printing_of printing ≡ None) }
    ensures not_utf8 { numbers.printing_of printing ≢ None → (result ≡ pos 4 ↔ (IsUtf8 symbol.now → ⊥)) }
    ensures written { result ≡ pos 0 → IfSome (asked_of printing handle.old.kept)
        (λ asked. WritesAnswer asked symbol.now out.old out.new needed.new) }
    ensures no_answer { result ≡ pos 1 → IfSome (asked_of printing handle.old.kept)
        (λ asked. IsAnswer asked symbol.now None) }
    ensures no_room { result ≡ pos 3 → IfSome (asked_of printing handle.old.kept)
        (λ asked. LacksCapacity asked symbol.now out.old out.new needed.new) }
    ensures over_limit { result ≡ pos 6 → limit_of handle.old.kept ≢ None }
    ensures stays { result ≢ pos 0 → out.new ≡ out.old }
    ensures no_length { result ≢ pos 0 → result ≢ pos 3 → needed.new ≡ 0 }
    ensures made { result ≢ pos 2 → result ≢ pos 4 → result ≢ pos 5 → result ≢ pos 6 →
        IfSome (asked_of printing handle.old.kept) (λ asked. KeepsSymbol asked symbol.now handle.new.kept) }
    ensures no_symbol { result ≡ pos 2 → KeepsNoSymbol handle.new.kept }
    ensures none_over_limit { result ≡ pos 6 → KeepsNoSymbol handle.new.kept }
    ensures keeps { handle.old.kept ≢ None → handle.new.kept ≢ None }
    ensures limit { limit_of handle.new.kept ≡ limit_of handle.old.kept }
    ensures text { text_of handle.new.kept ≡ text_of handle.old.kept }
    ensures same { result ≡ pos 4 → handle.new.kept ≡ handle.old.kept }
    ensures same_after_bad_call { result ≡ pos 5 → handle.new.kept ≡ handle.old.kept }
{
    *needed = 0;
    let Some(asked) = printing_of(printing) else {
        return BAD_CALL;
    };
    if !is_utf8(symbol) {
        return NOT_UTF8;
    }
    let text = unsafe { from_utf8_unchecked(symbol) };
    let Ok(mut kept) = take_kept(alloc, handle) else {
        return NO_MEMORY;
    };
    let status = match kept.read(alloc, asked, text) {
        Ok(_) => match kept.demangler.text() {
            Some(found) => write_if_fits(found.as_bytes(), out, needed),
            None => NO_ANSWER,
        },
        Err(DemangleError::Memory) => NO_MEMORY,
        Err(DemangleError::Limit) => OVER_LIMIT,
    };
    *handle = Handle::of(kept);
    status
}

/// Sets the limit of a handle, which later calls keep to: `bytes` is how much memory may be taken to read a symbol, and
/// 256 bytes are counted for each node. 0 is the default. A handle without a demangler gets one. Returns 0, or 2 if an
/// allocation fails; then the handle had no demangler, and has none. What else the handle keeps stays.
#[unsafe(no_mangle)]
pub extern "C" fn cosvigle_limit(alloc: Global, handle: &mut Handle, bytes: usize) -> i32
    ensures status { result ≢ pos 0 → result ≡ pos 2 }
    ensures limit { result ≡ pos 0 → limit_of handle.new.kept ≡ numbers.limit_of bytes }
    ensures made { result ≡ pos 0 → handle.new.kept ≢ None }
    ensures none { result ≡ pos 2 → (handle.old.kept ≡ None) × (handle.new.kept ≡ None) }
    ensures keeps { last_of handle.old.kept ≢ None → last_of handle.new.kept ≡ last_of handle.old.kept }
    ensures text { text_of handle.new.kept ≡ text_of handle.old.kept }
{
    let Ok(mut kept) = take_kept(alloc, handle) else {
        return NO_MEMORY;
    };
    kept.limit = numbers::limit_of(bytes);
    *handle = Handle::of(kept);
    WRITTEN
}

/// Gives the handle a new demangler with the default limit, and frees what the handle had. Afterwards the handle keeps
/// no text. Returns 0, or 2 if an allocation fails; then the handle has no demangler.
#[unsafe(no_mangle)]
pub extern "C" fn cosvigle_new(alloc: Global, handle: &mut Handle) -> i32
    ensures status { result ≢ pos 0 → result ≡ pos 2 }
    ensures made { result ≡ pos 0 → handle.new.kept ≢ None }
    ensures new { result ≡ pos 0 → IfSome handle.new.kept IsNew }
    ensures none { result ≡ pos 2 → handle.new.kept ≡ None }
{
    cosvigle_free(alloc, handle);
    match Box::new(alloc, Kept::new(alloc)) {
        Ok(made) => {
            *handle = Handle::of(made);
            WRITTEN
        }
        Err(_) => NO_MEMORY,
    }
}

/// Frees what the handle has. Afterwards the handle has no demangler and no text. If it had none, nothing is done.
#[unsafe(no_mangle)]
pub extern "C" fn cosvigle_free(alloc: Global, handle: &mut Handle)
    ensures none { handle.new.kept ≡ None }
{
    *handle = Handle::none(alloc);
}
