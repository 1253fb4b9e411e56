//! Edits that join texts, and edits that build lists as they are read.
ghost use Rattle.std.specs.Prelude.{◌≡◌, ℕ, ◌<◌, ◌++◌, All, map, length, decimal, IfOk, OnOk};
ghost use Rattle.demangle_text.specs.Shape.{text_len, appended};
ghost use Rattle.demangle_text.specs.State.{IsLiving, shape, Lives, IsEdit, KeepsAll, StaysInPlace, AppendsPiece};
ghost use Rattle.demangle_text.specs.State.{Stands, main_bytes};
ghost use Rattle.demangle_text.specs.Calls.{IsLast, IsInner, text_after};
ghost use Rattle.demangle_edit.specs.Lists.{glued, pack_shape};
ghost use Rattle.demangle_edit.specs.Calls.{part_text, IsLivingPart};
ghost use Rattle.demangle_edit.specs.Built.{arguments_opened, arguments_closed, params_opened, params_closed, lambda_closed};

use crate::appends::append_piece;
use crate::dimensions::{MOST_DIGITS, number_bytes};
use crate::glue_parts::Glue;
use demangle_quals::{Quals, reference_bytes};
use demangle_text::{Buffer, Piece};
use std::alloc::AllocError;

/// Joins the parts to a plain piece whose base name is the whole text, with no flag set. Without parts the text is
/// empty.
pub fn glue(buf: &mut Buffer, parts: &[Glue]) -> Result<Piece, AllocError>
    requires parts { All (IsLivingPart buf.old) parts.now }
    ensures shape { IfOk result (λ p. Lives buf.new p (glued (map (part_text (shape buf.old)) parts.now))) }
    ensures edit { OnOk result (IsEdit buf.old buf.new) }
    ensures appends { IfOk result (λ p. AppendsPiece buf.old buf.new p) }
{
    let mark = buf.open();
    let mut all = tri!(buf.push(b""));
    for part in parts {
        all = match part {
            Glue::Text(bytes) => {
                let longer = tri!(buf.append(all, bytes));
                buf.whole(longer)
            }
            Glue::Piece(piece) => tri!(buf.join(all, b"", *piece)),
        };
    }
    buf.close(mark, all)
}

// Makes a plain piece of the texts of the pieces, with `, ` between them.
pub(crate) fn list_pieces(buf: &mut Buffer, pieces: &[Piece]) -> Result<Piece, AllocError>
    requires pieces { All (IsLiving buf.old) pieces.now }
    ensures shape { IfOk result (λ p. Lives buf.new p (pack_shape (map (shape buf.old) pieces.now))) }
    ensures kept { OnOk result (KeepsAll buf.old buf.new) }
    ensures appends { IfOk result (λ p. AppendsPiece buf.old buf.new p) }
{
    let mark = buf.open();
    let mut list = tri!(buf.push(b""));
    for (i, piece) in pieces.iter().enumerate() {
        let between: &[u8] = if i == 0 { b"" } else { b", " };
        list = tri!(append_piece(buf, list, between, *piece));
    }
    let whole = buf.whole(list);
    buf.close(mark, whole)
}

/// Appends the `<` of template arguments to the name, after a space if the name ends in `<`. The result is a plain
/// piece with the base name and the flag `ctor` of the name; `templ` is set.
///
/// The caller appends the list to the output: `, ` before each argument but the first, and the text of each. Then
/// `close_arguments` makes one piece of all that.
#[inline(always)]
pub fn open_arguments(buf: &mut Buffer, name: Piece) -> Result<Piece, AllocError>
    requires name { IsLiving buf.old name }
    ensures shape { IfOk result (λ p. Lives buf.new p (arguments_opened (shape buf.old name))) }
    ensures edit { OnOk result (IsEdit buf.old buf.new) }
    ensures in_place { IfOk result (λ p. StaysInPlace buf.old buf.new name p) }
{
    let ctor = buf.ctor(name);
    let angle = buf.bytes(name).ends_with(b"<");
    let opening: &[u8] = if angle { b" <" } else { b"<" };
    let plain = buf.plain(name);
    let opened = tri!(buf.append(plain, opening));
    Ok(buf.with_flags(opened, true, ctor))
}

/// Completes a list of template arguments. `list` is the piece that `open_arguments` returned, and all after it in the
/// output is the arguments. Appends `>`, after a space if the text ends in `>`, and makes one piece of it all.
#[tactic(auto, using(
// The laws of calls, of runs of calls, and of what ends the output.
demangle_text::proofs::Laws::laws, demangle_text::proofs::Laws::lasts, demangle_text::proofs::Laws::runs))]
#[inline(always)]
pub fn close_arguments(buf: &mut Buffer, list: Piece) -> Result<Piece, AllocError>
    requires list { IsLiving buf.old list }
    requires inner { IsInner buf.old list }
    requires some { 0 < text_len (shape buf.old list) }
    ensures shape { IfOk result (λ p. Lives buf.new p
        (arguments_closed (appended (text_after buf.old list) (shape buf.old list)))) }
    ensures kept { OnOk result (KeepsAll buf.old buf.new) }
    ensures last { IfOk result (IsLast buf.new) }
    ensures in_place { (from to : ℕ) → Stands list from to
        → IfOk result (λ p. Stands p from (length (main_bytes buf.new))) }
{
    let angle = buf.main_bytes().ends_with(b">");
    let end: &[u8] = if angle { b" >" } else { b">" };
    tri!(buf.push(end));
    Ok(buf.up_to_end(list))
}

/// Appends the `(` of parameters to the name. The result is a plain piece with the base name and the flag `ctor` of
/// the name; `templ` isn't set.
///
/// Append `, ` before each parameter but the first, and the text of each, and call `close_params`. The result is what
/// `format_params` makes of the name, the parameters and the qualifiers.
pub fn open_params(buf: &mut Buffer, name: Piece) -> Result<Piece, AllocError>
    requires name { IsLiving buf.old name }
    ensures shape { IfOk result (λ p. Lives buf.new p (params_opened (shape buf.old name))) }
    ensures edit { OnOk result (IsEdit buf.old buf.new) }
    ensures in_place { IfOk result (λ p. StaysInPlace buf.old buf.new name p) }
{
    let ctor = buf.ctor(name);
    let plain = buf.plain(name);
    let opened = tri!(buf.append(plain, b"("));
    Ok(buf.with_flags(opened, false, ctor))
}

/// Completes a list of parameters: appends `)` and the qualifiers of the function, the words and then the reference.
pub fn close_params(buf: &mut Buffer, list: Piece, quals: Quals) -> Result<Piece, AllocError>
    requires list { IsLiving buf.old list }
    ensures shape { IfOk result (λ p. Lives buf.new p (params_closed quals (shape buf.old list))) }
    ensures edit { OnOk result (IsEdit buf.old buf.new) }
    ensures in_place { IfOk result (λ p. StaysInPlace buf.old buf.new list p) }
{
    let closed = tri!(buf.append(list, b")"));
    let worded = tri!(buf.append(closed, quals.words()));
    buf.append(worded, reference_bytes(quals.reference))
}

/// Appends the number to the piece, in decimal digits without leading zeros.
pub fn append_number(buf: &mut Buffer, piece: Piece, number: u64) -> Result<Piece, AllocError>
    requires piece { IsLiving buf.old piece }
    ensures shape { IfOk result (λ p. Lives buf.new p (appended (decimal number) (shape buf.old piece))) }
    ensures edit { OnOk result (IsEdit buf.old buf.new) }
    ensures in_place { IfOk result (λ p. StaysInPlace buf.old buf.new piece p) }
{
    let mut spare = [0; MOST_DIGITS];
    let digits = number_bytes(&mut spare, number);
    buf.append(piece, digits)
}

/// Completes the list of a lambda's parameters: appends `)#`, the lambda's number and `}`. The base name is the whole
/// text.
pub fn close_lambda(buf: &mut Buffer, list: Piece, number: u64) -> Result<Piece, AllocError>
    requires list { IsLiving buf.old list }
    ensures shape { IfOk result (λ p. Lives buf.new p (lambda_closed number (shape buf.old list))) }
    ensures edit { OnOk result (IsEdit buf.old buf.new) }
    ensures in_place { IfOk result (λ p. StaysInPlace buf.old buf.new list p) }
{
    let closed = tri!(buf.append(list, b")#"));
    let numbered = tri!(append_number(buf, closed, number));
    let lambda = tri!(buf.append(numbered, b"}"));
    Ok(buf.whole(lambda))
}
