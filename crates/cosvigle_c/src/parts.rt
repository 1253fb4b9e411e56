//! The functions for what the last symbol stands for, and for its parts.
ghost use Rattle.std.specs.Prelude.{◌≡◌, ◌≢◌, ◌↔◌, [], pos, None, false, OnOk};
ghost use Rattle.cxx_demangle.specs.Parts as trees;
ghost use Rattle.cxx_demangle.specs.Demangler.{last_tree};
ghost use Rattle.cosvigle_c.specs.Capacity.{Fills, IsShort};
ghost use Rattle.cosvigle_c.specs.Kept.{tree_of};
ghost use Rattle.cosvigle_c.specs.Numbers as numbers;
ghost use Rattle.cosvigle_c.specs.Calls.{asked_part, part_text, piece_text};

use crate::handle::Handle;
use crate::numbers::{Piece, number_of, piece_of, printing_of};
use crate::status::{BAD_CALL, NO_ANSWER, NO_MEMORY, write_if_fits};
use cosvigle_engine::{Demangler, Style};
use cxx_demangle::Text;
use std::alloc::{AllocError, Global};
use std::mem::replace;

/// Makes the text that of a part of the last symbol.
fn print_piece(
    demangler: &Demangler,
    piece: Piece,
    style: Style,
    text: &mut Text,
) -> Result<(), AllocError>
    requires empty { text.old ≡ [] }
    ensures prints { OnOk result (text.new ≡ piece_text piece style (last_tree demangler.now)) }
{
    match piece {
        Piece::BaseName => demangler.print_base_name(style, text),
        Piece::Context => demangler.print_context(style, text),
        Piece::Parameters => demangler.print_parameters(style, text),
        Piece::ReturnType => demangler.print_return_type(style, text),
    }
}

/// Writes a part of the last symbol at the front of `out`, and its length in bytes to `needed`.
fn write_piece(
    alloc: Global,
    demangler: &Demangler,
    piece: Piece,
    style: Style,
    out: &mut [u8],
    needed: &mut usize,
) -> i32
    requires zero { needed.old ≡ 0 }
    ensures status { result ≢ pos 0 → result ≢ pos 1 → result ≢ pos 2 → result ≡ pos 3 }
    ensures written { result ≡ pos 0 →
        Fills (piece_text piece style (last_tree demangler.now)) out.old out.new needed.new }
    ensures no_room { result ≡ pos 3 →
        IsShort (piece_text piece style (last_tree demangler.now)) out.old out.new needed.new }
    ensures no_answer { result ≡ pos 1 → piece_text piece style (last_tree demangler.now) ≡ [] }
    ensures some { result ≡ pos 0 → piece_text piece style (last_tree demangler.now) ≢ [] }
    ensures stays { result ≢ pos 0 → out.new ≡ out.old }
    ensures no_length { result ≢ pos 0 → result ≢ pos 3 → needed.new ≡ 0 }
{
    let mut text = Text::new(alloc);
    if print_piece(demangler, piece, style, &mut text).is_err() {
        return NO_MEMORY;
    }
    if text.len() == 0 {
        return NO_ANSWER;
    }
    write_if_fits(text.as_slice(), out, needed)
}

/// Writes a part of the last symbol that the handle was asked for at the front of `out`, and its length in bytes to
/// `needed`. `part` says which part, and `printing` is a sum of flags, of which the style counts (`numbers.rt`). The
/// bytes of `out` after the text stay as they are.
///
/// Returns 0 if the text is written, 1 if the symbol has no such part or none is kept, 2 if an allocation fails, 3 if
/// the text is longer than `out`, and 5 if there is no such part or `printing` isn't a sum of flags. If the status
/// isn't 0, nothing is written to `out`. With 3, `needed` is the length of the text; with 1, 2 and 5, `needed` is 0.
/// What the handle keeps stays.
#[unsafe(no_mangle)]
pub extern "C" fn cosvigle_part(
    alloc: Global,
    handle: &mut Handle,
    part: u32,
    printing: u32,
    out: &mut [u8],
    needed: &mut usize,
) -> i32
    ensures status { result ≢ pos 0 → result ≢ pos 1 → result ≢ pos 2 → result ≢ pos 3 → result ≡ pos 5 }
    ensures bad_call { result ≡ pos 5 ↔ (asked_part part printing ≡ None) }
    ensures written { result ≡ pos 0 →
        Fills (part_text part printing (tree_of handle.old.kept)) out.old out.new needed.new }
    ensures no_room { result ≡ pos 3 →
        IsShort (part_text part printing (tree_of handle.old.kept)) out.old out.new needed.new }
    ensures no_answer { result ≡ pos 1 → part_text part printing (tree_of handle.old.kept) ≡ [] }
    ensures some { result ≡ pos 0 → part_text part printing (tree_of handle.old.kept) ≢ [] }
    ensures stays { result ≢ pos 0 → out.new ≡ out.old }
    ensures no_length { result ≢ pos 0 → result ≢ pos 3 → needed.new ≡ 0 }
    ensures same { handle.new.kept ≡ handle.old.kept }
{
    *needed = 0;
    let Some(piece) = piece_of(part) else {
        return BAD_CALL;
    };
    let Some(asked) = printing_of(printing) else {
        return BAD_CALL;
    };
    let Some(kept) = replace(handle, Handle::none(alloc)).into_box() else {
        return NO_ANSWER;
    };
    let style = asked.part.style;
    let status = write_piece(alloc, &kept.demangler, piece, style, out, needed);
    *handle = Handle::of(kept);
    status
}

/// Returns what the last symbol stands for that the handle was asked for: 1 for a function, 2 for data, 3 for what has
/// a special name, and 0 if it wasn't read or none is kept. What the handle keeps stays.
#[unsafe(no_mangle)]
pub extern "C" fn cosvigle_kind(alloc: Global, handle: &mut Handle) -> i32
    ensures value { result ≡ numbers.number_of (trees.kind_of (tree_of handle.old.kept)) }
    ensures same { handle.new.kept ≡ handle.old.kept }
{
    let Some(kept) = replace(handle, Handle::none(alloc)).into_box() else {
        return number_of(None);
    };
    let number = number_of(kept.demangler.kind());
    *handle = Handle::of(kept);
    number
}

/// Returns whether the last symbol that the handle was asked for is that of a member function with qualifiers, such as
/// `const` or `&&`. What the handle keeps stays.
#[unsafe(no_mangle)]
pub extern "C" fn cosvigle_has_qualifiers(alloc: Global, handle: &mut Handle) -> bool
    ensures value { result ≡ trees.has_qualifiers (tree_of handle.old.kept) }
    ensures same { handle.new.kept ≡ handle.old.kept }
{
    let Some(kept) = replace(handle, Handle::none(alloc)).into_box() else {
        return false;
    };
    let has = kept.demangler.has_qualifiers();
    *handle = Handle::of(kept);
    has
}
