//! Edits that make a type from types: pointers, references, qualifiers, arrays and functions (Itanium C++ ABI 5.1.5).
ghost use Rattle.std.specs.Prelude.{◌≡◌, ◌≢◌, ◌+◌, ◌++◌, All, map, codes, is_some, true, false, IfOk, OnOk};
ghost use Rattle.demangle_text.specs.Shape.{text, plain_shape, inserted};
ghost use Rattle.demangle_text.specs.Calls.{CanInsert, IsPlain, IsDeclared, kind_of, group_of, front_text};
ghost use Rattle.demangle_text.specs.State.{IsLiving, shape, Lives, IsEdit, KeepsAll, main_bytes};
ghost use Rattle.demangle_text.specs.State.{StaysInPlace, IsUnchangedOrStays, JoinsInPlace, AppendsPiece, StandsShortened};
ghost use Rattle.demangle_edit.specs.Answers.{Answers, IfFound, OnNone};
ghost use Rattle.demangle_edit.specs.Types.{pointed, collapse_step, pointer_shape, cv_place, cv_shape};
ghost use Rattle.demangle_edit.specs.Built.{function_closed};
ghost use Rattle.demangle_edit.specs.Calls.{ref_shortens, pointer_shortens, ref_is_same, pointer_is_same};
ghost use Rattle.demangle_edit.specs.Calls.{function_step, opening_step, array_step, after_text, member_pointer_step};
ghost use Rattle.demangle_edit.specs.Types.{expansion_shape, dimension_digits, array_shape, member_pointer_shape};

use crate::appends::append_piece;
use crate::dimensions::{MOST_DIGITS, dimension_bytes};
use crate::lists::{close_params, list_pieces};
use demangle_quals::{Pointer, Quals, reference_bytes};
use demangle_text::{Buffer, Kind, Piece, Place};
use std::alloc::AllocError;

// Adds a token such as `*` at the end of a plain text or of a group. A declarator without a group gets one.
#[inline(always)]
fn wrap_token(buf: &mut Buffer, inner: Piece, token: &[u8]) -> Result<Piece, AllocError>
    requires inner { IsLiving buf.old inner }
    ensures shape { IfOk result (λ p. Lives buf.new p (pointed token.now (shape buf.old inner))) }
    ensures edit { OnOk result (IsEdit buf.old buf.new) }
    ensures in_place { IfOk result (λ p. StaysInPlace buf.old buf.new inner p) }
{
    if buf.kind(inner).is_none() {
        buf.append(inner, token)
    } else if buf.has_group(inner) {
        buf.insert(inner, Place::Close, token)
    } else {
        buf.open_group(inner, token)
    }
}

/// Makes a pointer or a reference to the type: adds `*`, `&` or `&&` at the end of a plain text or of a group. A
/// declarator without a group gets one. A reference to a plain text that ends in `&` collapses, see `collapse_ref`.
/// The flags stay.
pub fn wrap_pointer(buf: &mut Buffer, inner: Piece, kind: Pointer) -> Result<Piece, AllocError>
    requires inner { IsLiving buf.old inner }
    ensures shape { IfOk result (λ p. Lives buf.new p (pointer_shape kind (shape buf.old inner))) }
    ensures edit { OnOk result (IsEdit buf.old buf.new) }
    ensures in_place { pointer_shortens kind (shape buf.old inner) ≡ false
        → IfOk result (λ p. IsUnchangedOrStays buf.old buf.new inner p) }
    ensures same { pointer_is_same kind (shape buf.old inner) ≡ true → (result ≡ Ok inner) × (buf.new ≡ buf.old) }
    ensures cut_main { pointer_shortens kind (shape buf.old inner) ≡ true
        → OnOk result (main_bytes buf.new ≡ main_bytes buf.old) }
    ensures cut_stands { pointer_shortens kind (shape buf.old inner) ≡ true
        → IfOk result (λ p. StandsShortened 1 inner p) }
{
    match kind {
        Pointer::Star => wrap_token(buf, inner, b"*"),
        Pointer::Left => match tri!(collapse_ref(buf, inner, false)) {
            Some(collapsed) => Ok(collapsed),
            None => wrap_token(buf, inner, b"&"),
        },
        Pointer::Right => match tri!(collapse_ref(buf, inner, true)) {
            Some(collapsed) => Ok(collapsed),
            None => wrap_token(buf, inner, b"&&"),
        },
    }
}

/// Collapses a reference to a plain text that ends in `&`. `rvalue` is true for the reference `&&`. A reference `&` to
/// a text that ends in `&&` is that text without its last byte. In all other cases the reference is the piece itself.
///
/// Returns `None`, and changes nothing, if the piece is a declarator or its text doesn't end in `&`.
pub fn collapse_ref(
    buf: &mut Buffer,
    inner: Piece,
    rvalue: bool,
) -> Result<Option<Piece>, AllocError>
    requires inner { IsLiving buf.old inner }
    ensures shape { Answers result buf.new (collapse_step rvalue (shape buf.old inner)) }
    ensures edit { OnOk result (IsEdit buf.old buf.new) }
    ensures none { OnNone result (KeepsAll buf.old buf.new) }
    ensures none_main { OnNone result (main_bytes buf.new ≡ main_bytes buf.old) }
    ensures in_place { ref_shortens rvalue (shape buf.old inner) ≡ false
        → IfFound result (λ p. IsUnchangedOrStays buf.old buf.new inner p) }
    ensures same { ref_is_same rvalue (shape buf.old inner) ≡ true → (result ≡ Ok (Some inner)) × (buf.new ≡ buf.old) }
    ensures cut_main { ref_shortens rvalue (shape buf.old inner) ≡ true
        → OnOk result (main_bytes buf.new ≡ main_bytes buf.old) }
    ensures cut_stands { ref_shortens rvalue (shape buf.old inner) ≡ true
        → IfFound result (λ p. StandsShortened 1 inner p) }
{
    if buf.kind(inner).is_some() || !buf.bytes(inner).ends_with(b"&") {
        return Ok(None);
    }
    if rvalue || !buf.bytes(inner).ends_with(b"&&") {
        return Ok(Some(inner));
    }
    Ok(Some(tri!(buf.cut(inner, 1))))
}

/// Adds the words ` const`, ` volatile` and ` restrict` of the qualifiers to the type. The words go to the end of the
/// group. For an array without a group they go in front of its dimensions, and otherwise to the end of the text. The
/// flags stay. The reference of the qualifiers isn't printed.
pub fn wrap_cv(buf: &mut Buffer, inner: Piece, quals: Quals) -> Result<Piece, AllocError>
    requires inner { IsLiving buf.old inner }
    ensures shape { IfOk result (λ p. Lives buf.new p (cv_shape quals (shape buf.old inner))) }
    ensures edit { OnOk result (IsEdit buf.old buf.new) }
    ensures in_place { IfOk result (λ p. StaysInPlace buf.old buf.new inner p) }
{
    let place = match buf.kind(inner) {
        Some(_) if buf.has_group(inner) => Place::Close,
        Some(Kind::Array) => Place::Suffix,
        Some(Kind::Function) | None => Place::End,
    };
    buf.insert(inner, place, quals.words())
}

// Inserts the opening bytes, the digits of a dimension and `]` at a place of the piece's text.
fn insert_dimension(
    buf: &mut Buffer,
    piece: Piece,
    place: Place,
    opening: &[u8],
    dimension: Option<u64>,
) -> Result<Piece, AllocError>
    requires living { IsLiving buf.old piece }
    requires fits { CanInsert place (shape buf.old piece).form }
    requires not_first { place ≢ Place.Start }
    ensures shape { IfOk result (λ p. Lives buf.new p
        (inserted place (opening.now ++ (dimension_digits dimension ++ codes "]")) (shape buf.old piece))) }
    ensures edit { OnOk result (IsEdit buf.old buf.new) }
    ensures in_place { IfOk result (λ p. StaysInPlace buf.old buf.new piece p) }
{
    let mut spare = [0; MOST_DIGITS];
    let digits = dimension_bytes(&mut spare, dimension);
    let opened = tri!(buf.insert(piece, place, opening));
    let filled = tri!(buf.insert(opened, place, digits));
    buf.insert(filled, place, b"]")
}

/// Makes an array of the type, with this dimension, or with `[]` if there is none. ` [n]` goes to the end of a group
/// or after a plain text. For an array without a group, `[n]` goes after the first byte of `after`, so that the outer
/// dimension is first. The flags stay.
///
/// Returns `None`, and changes nothing, for a function without a group.
pub fn wrap_array(
    buf: &mut Buffer,
    elem: Piece,
    dimension: Option<u64>,
) -> Result<Option<Piece>, AllocError>
    requires elem { IsLiving buf.old elem }
    ensures shape { Answers result buf.new (array_step dimension (shape buf.old elem)) }
    ensures edit { OnOk result (IsEdit buf.old buf.new) }
    ensures none { OnNone result (KeepsAll buf.old buf.new) }
    ensures none_main { OnNone result (main_bytes buf.new ≡ main_bytes buf.old) }
    ensures in_place { IfFound result (λ p. StaysInPlace buf.old buf.new elem p) }
{
    match buf.kind(elem) {
        None => {
            let at = buf.len(elem);
            let longer = tri!(insert_dimension(buf, elem, Place::End, b" [", dimension));
            // The prover learns here that the length fits 64 bits, and so does each place in the text.
            let _len = buf.len(longer);
            Ok(Some(buf.declare(longer, Kind::Array, at)))
        }
        Some(_) if buf.has_group(elem) => {
            let array = tri!(insert_dimension(buf, elem, Place::Close, b" [", dimension));
            Ok(Some(array))
        }
        // The dimension goes in front of the others: after the first byte of `after`.
        Some(Kind::Array) => {
            let at = buf.after_at(elem).unwrap();
            let len = buf.len(elem);
            let past = at + (len - at).min(1);
            let flat = buf.plain(elem);
            let cut = buf.declare(flat, Kind::Array, past);
            let longer = tri!(insert_dimension(buf, cut, Place::Suffix, b"[", dimension));
            let whole = buf.plain(longer);
            Ok(Some(buf.declare(whole, Kind::Array, at)))
        }
        Some(Kind::Function) => Ok(None),
    }
}

// Returns the text of a declarator in two parts, cut where `after` begins.
fn cut_declarator(buf: &Buffer, piece: Piece) -> (Piece, Piece)
    requires living { IsLiving buf.now piece }
    requires declared { IsDeclared (shape buf.now piece).form }
    ensures front { Lives buf.now result.0 (plain_shape (front_text (shape buf.now piece).form)) }
    ensures after { Lives buf.now result.1 (plain_shape (after_text (shape buf.now piece).form)) }
{
    let at = buf.after_at(piece).unwrap();
    let len = buf.len(piece);
    let text = buf.plain(piece);
    let front = buf.own_at(text, 0, at);
    let after = buf.own_at(text, at, len);
    (buf.own(front), buf.own(after))
}

// Makes a pointer to a member function: the class and `::*` go into a new group.
fn wrap_member_function(buf: &mut Buffer, class: Piece, member: Piece) -> Result<Piece, AllocError>
    requires class { IsLiving buf.old class }
    requires member { IsLiving buf.old member }
    requires function { kind_of (shape buf.old member).form ≡ Some Kind.Function }
    ensures shape { IfOk result (λ p. Lives buf.new p
        (member_pointer_shape (shape buf.old class) (shape buf.old member))) }
    ensures edit { OnOk result (IsEdit buf.old buf.new) }
    ensures appends { IfOk result (λ p. AppendsPiece buf.old buf.new p) }
{
    let (templ, ctor) = (buf.templ(member), buf.ctor(member));
    let class_len = buf.len(class);
    let (front, after) = cut_declarator(buf, member);
    let after_len = buf.len(after);
    let opening = Buffer::group_opening(buf.bytes(front));
    let mark = buf.open();
    let begun = tri!(buf.join(front, opening, class));
    let joined = tri!(buf.join(begun, b"::*)", after));
    let whole = tri!(buf.close(mark, joined));
    let at = buf.len(whole) - after_len;
    let from = at - 5 - class_len;
    let declared = buf.declare_group(whole, Kind::Function, from, at);
    Ok(buf.with_flags(declared, templ, ctor))
}

/// Makes a pointer to a member of the class: adds the class and `::*`. They go to the end of a plain text, after a
/// space unless the text ends in a space or `(`. For a function they go into a new group. The flags are those of the
/// member.
///
/// Returns `None`, and changes nothing, for an array.
pub fn wrap_member_pointer(
    buf: &mut Buffer,
    class: Piece,
    member: Piece,
) -> Result<Option<Piece>, AllocError>
    requires class { IsLiving buf.old class }
    requires member { IsLiving buf.old member }
    ensures shape { Answers result buf.new (member_pointer_step (shape buf.old class) (shape buf.old member)) }
    ensures edit { OnOk result (IsEdit buf.old buf.new) }
    ensures none { OnNone result (KeepsAll buf.old buf.new) }
    ensures none_main { OnNone result (main_bytes buf.new ≡ main_bytes buf.old) }
    ensures in_place { kind_of (shape buf.old member).form ≡ None
        → IfFound result (λ p. JoinsInPlace buf.old buf.new member class p) }
    ensures appends { kind_of (shape buf.old member).form ≡ Some Kind.Function
        → IfFound result (λ p. AppendsPiece buf.old buf.new p) }
{
    match buf.kind(member) {
        None => {
            let bytes = buf.bytes(member);
            let gapless = bytes.ends_with(b"(") || bytes.ends_with(b" ");
            let gap: &[u8] = if gapless { b"" } else { b" " };
            let begun = tri!(append_piece(buf, member, gap, class));
            Ok(Some(tri!(buf.append(begun, b"::*"))))
        }
        Some(Kind::Function) => Ok(Some(tri!(wrap_member_function(buf, class, member)))),
        Some(Kind::Array) => Ok(None),
    }
}

/// Makes a function type: the return type and a space, then the parameters in parentheses with `, ` between them, then
/// the qualifiers. The base name is the whole text, and no flag is set.
///
/// Returns `None`, and changes nothing, if the return type is a declarator.
///
/// The function is offered to other callers. The readers here build the type as they read it (`open_function`).
pub fn function_type(
    buf: &mut Buffer,
    ret: Piece,
    params: &[Piece],
    quals: Quals,
) -> Result<Option<Piece>, AllocError>
    requires ret { IsLiving buf.old ret }
    requires params { All (IsLiving buf.old) params.now }
    ensures shape { Answers result buf.new (function_step (shape buf.old ret) (map (shape buf.old) params.now) quals) }
    ensures edit { OnOk result (IsEdit buf.old buf.new) }
    ensures none { OnNone result (KeepsAll buf.old buf.new) }
    ensures none_main { OnNone result (main_bytes buf.new ≡ main_bytes buf.old) }
    ensures in_place { IfFound result (λ p. StaysInPlace buf.old buf.new ret p) }
{
    if buf.kind(ret).is_some() {
        return Ok(None);
    }
    let before = buf.len(ret);
    let list = tri!(list_pieces(buf, params));
    let begun = tri!(buf.join(ret, b" (", list));
    let closed = tri!(buf.append(begun, b")"));
    let worded = tri!(buf.append(closed, quals.words()));
    let whole = tri!(buf.append(worded, reference_bytes(quals.reference)));
    // The prover learns here that the length fits 64 bits, and so does each place in the text.
    let _len = buf.len(whole);
    Ok(Some(buf.declare(whole, Kind::Function, before + 1)))
}

/// Makes the beginning of a function type: the return type and ` (`, as a plain piece whose base name is the whole
/// text, with no flag set.
///
/// Append `, ` before each parameter but the first, and the text of each, and call `close_function`. The result is
/// what `function_type` makes of the return type, the parameters and the qualifiers.
///
/// Returns `None`, and changes nothing, if the return type is a declarator.
pub fn open_function(buf: &mut Buffer, ret: Piece) -> Result<Option<Piece>, AllocError>
    requires ret { IsLiving buf.old ret }
    ensures shape { Answers result buf.new (opening_step (shape buf.old ret)) }
    ensures edit { OnOk result (IsEdit buf.old buf.new) }
    ensures none { OnNone result (KeepsAll buf.old buf.new) }
    ensures none_main { OnNone result (main_bytes buf.new ≡ main_bytes buf.old) }
    ensures in_place { IfFound result (λ p. StaysInPlace buf.old buf.new ret p) }
{
    if buf.kind(ret).is_none() {
        let opened = tri!(buf.append(ret, b" ("));
        let unflagged = buf.with_flags(opened, false, false);
        return Ok(Some(buf.whole(unflagged)));
    }
    Ok(None)
}

/// Completes a function type: appends `)` and the qualifiers to the list of parameters, the words and then the
/// reference. The return type has `front` bytes, and `after` begins one byte later, at the parenthesis. If the list
/// has no more than `front` bytes, all of it is `before`. The base name is the whole text, and no flag is set.
pub fn close_function(
    buf: &mut Buffer,
    list: Piece,
    front: usize,
    quals: Quals,
) -> Result<Piece, AllocError>
    requires list { IsLiving buf.old list }
    ensures shape { IfOk result (λ p. Lives buf.new p (function_closed front quals (shape buf.old list))) }
    ensures edit { OnOk result (IsEdit buf.old buf.new) }
    ensures in_place { IfOk result (λ p. StaysInPlace buf.old buf.new list p) }
{
    let plain = buf.plain(list);
    let closed = tri!(close_params(buf, plain, quals));
    let len = buf.len(closed);
    let at = if front < len { front + 1 } else { len };
    let declared = buf.declare(closed, Kind::Function, at);
    Ok(buf.with_flags(declared, false, false))
}

/// Makes a pack expansion: appends `...` to the text of the type. The piece stays the same declarator and keeps its
/// flags. The base name stays too, unless the piece is a function.
pub fn expand(buf: &mut Buffer, inner: Piece) -> Result<Piece, AllocError>
    requires inner { IsLiving buf.old inner }
    ensures shape { IfOk result (λ p. Lives buf.new p (expansion_shape (shape buf.old inner))) }
    ensures edit { OnOk result (IsEdit buf.old buf.new) }
    ensures in_place { IfOk result (λ p. StaysInPlace buf.old buf.new inner p) }
{
    buf.append(inner, b"...")
}
