//! Edits that make literals and operands of expressions (Itanium C++ ABI 5.1, "Expressions").
ghost use Rattle.std.specs.Prelude.{◌≡◌, codes, [], ◌++◌, false, IfOk, OnOk};
ghost use Rattle.demangle_text.specs.Shape.{text, plain_shape, appended, whole_shape};
ghost use Rattle.demangle_text.specs.State.{IsLiving, shape, Lives, IsEdit, KeepsAll, main_bytes};
ghost use Rattle.demangle_text.specs.State.{StaysInPlace, IsUnchangedOrStays, JoinsInPlace, AppendsPiece};
ghost use Rattle.demangle_edit.specs.Answers.{Answers, IfFound, OnNone};
ghost use Rattle.demangle_edit.specs.Expressions as spec;
ghost use Rattle.demangle_edit.specs.Calls as calls;

use demangle_text::{Buffer, Piece, Place};
use std::alloc::AllocError;

/// How a literal is printed.
#[derive(Clone, Copy)]
pub enum LiteralForm {
    /// `false` or `true`
    Boolean,
    /// `nullptr`, whatever the value
    Null,
    /// The digits.
    Integer,
    /// The digits in square brackets.
    Float,
    /// The type in parentheses, and then the digits.
    Cast,
}

// Returns how a literal is printed whose type has this text, with this value.
#[inline(always)]
fn literal_form(ty: &[u8], value: &[u8]) -> LiteralForm
    ensures value { result ≡ spec.literal_form ty.now (spec.is_minus value.now) }
{
    if ty == b"bool".as_slice() && !value.starts_with(b"n") {
        return LiteralForm::Boolean;
    }
    if ty == b"std::nullptr_t".as_slice() {
        return LiteralForm::Null;
    }
    if ty == b"int".as_slice() {
        return LiteralForm::Integer;
    }
    if ty == b"float".as_slice() || ty == b"double".as_slice() || ty == b"long double".as_slice() {
        return LiteralForm::Float;
    }
    LiteralForm::Cast
}

// Returns the sign of a value, `-` or nothing, and its digits: all bytes but the `n` of a minus.
fn sign_and_digits(value: &[u8]) -> (&'static [u8], &[u8])
    ensures sign { result.0.now ≡ spec.sign_text value.now }
    ensures digits { result.1.now ≡ spec.digits_text value.now }
{
    match value {
        [b'n', digits @ ..] => (b"-", digits),
        _ => (b"", value),
    }
}

// Puts the text of the piece in parentheses, as a plain piece whose base name is the whole text, with no flag set.
fn parenthesize(buf: &mut Buffer, piece: Piece) -> Result<Piece, AllocError>
    requires piece { IsLiving buf.old piece }
    ensures shape { IfOk result (λ p. Lives buf.new p (spec.parenthesized (shape buf.old piece))) }
    ensures edit { OnOk result (IsEdit buf.old buf.new) }
    ensures in_place { IfOk result (λ p. StaysInPlace buf.old buf.new piece p) }
{
    let plain = buf.plain(piece);
    let opened = tri!(buf.insert(plain, Place::Start, b"("));
    let closed = tri!(buf.append(opened, b")"));
    let whole = buf.whole(closed);
    Ok(buf.with_flags(whole, false, false))
}

// Appends a value to the piece. The base name becomes the whole text.
#[inline(always)]
fn append_value(buf: &mut Buffer, piece: Piece, value: &[u8]) -> Result<Piece, AllocError>
    requires piece { IsLiving buf.old piece }
    ensures shape { IfOk result (λ p. Lives buf.new p
        (whole_shape (appended (calls.value_text value.now) (shape buf.old piece)))) }
    ensures edit { OnOk result (IsEdit buf.old buf.new) }
    ensures in_place { IfOk result (λ p. StaysInPlace buf.old buf.new piece p) }
{
    let (sign, digits) = sign_and_digits(value);
    let signed = tri!(buf.append(piece, sign));
    let all = tri!(buf.append(signed, digits));
    Ok(buf.whole(all))
}

// Pushes a value with its digits in square brackets, as a plain piece whose base name is the whole text.
fn push_bracketed(buf: &mut Buffer, value: &[u8]) -> Result<Piece, AllocError>
    ensures shape { IfOk result (λ p. Lives buf.new p
        (plain_shape (spec.sign_text value.now ++ codes "[" ++ spec.digits_text value.now ++ codes "]"))) }
    ensures edit { OnOk result (IsEdit buf.old buf.new) }
    ensures appends { IfOk result (λ p. AppendsPiece buf.old buf.new p) }
{
    let (sign, digits) = sign_and_digits(value);
    let signed = tri!(buf.push(sign));
    let opened = tri!(buf.append(signed, b"["));
    let filled = tri!(buf.append(opened, digits));
    let closed = tri!(buf.append(filled, b"]"));
    Ok(buf.whole(closed))
}

/// Makes the literal of a type with this value. One leading `n` of the value is the minus, and the rest are the
/// digits, which are printed as they are. The text of the type selects the form:
///
/// `bool` without a minus prints `false` for `0` and `true` for `1`. `std::nullptr_t` prints `nullptr`, whatever the
/// value. `int` prints the digits. `float`, `double` and `long double` print the digits in square brackets. All other
/// types, and `bool` with a minus, print the type in parentheses and then the digits. A `-` is in front of the digits,
/// or of their brackets.
///
/// The result is a plain piece whose base name is the whole text, with no flag set. Returns `None`, and changes
/// nothing, for a `bool` without a minus whose value is neither `0` nor `1`.
pub fn write_literal(buf: &mut Buffer, ty: Piece, value: &str) -> Result<Option<Piece>, AllocError>
    requires ty { IsLiving buf.old ty }
    ensures shape { Answers result buf.new (calls.literal_step (shape buf.old ty) value.now) }
    ensures edit { OnOk result (IsEdit buf.old buf.new) }
    ensures none { OnNone result (KeepsAll buf.old buf.new) }
    ensures none_main { OnNone result (main_bytes buf.new ≡ main_bytes buf.old) }
    ensures put { IfFound result (calls.IsPut
        (spec.literal_form (text (shape buf.old ty)) (spec.is_minus value.now)) buf.old buf.new ty) }
{
    let bytes = value.as_bytes();
    let literal = match literal_form(buf.bytes(ty), bytes) {
        LiteralForm::Boolean if value == "0" => buf.push(b"false"),
        LiteralForm::Boolean if value == "1" => buf.push(b"true"),
        LiteralForm::Boolean => return Ok(None),
        LiteralForm::Null => buf.push(b"nullptr"),
        LiteralForm::Integer => {
            let empty = tri!(buf.push(b""));
            append_value(buf, empty, bytes)
        }
        LiteralForm::Float => push_bracketed(buf, bytes),
        LiteralForm::Cast => {
            let cast = tri!(parenthesize(buf, ty));
            append_value(buf, cast, bytes)
        }
    };
    Ok(Some(tri!(literal)))
}

/// Makes a literal as `write_literal` does, from a piece `paren` whose text is `(`. A literal that prints its type in
/// parentheses begins with that piece. If the text of the type follows the `(` in the output, no text moves.
pub fn write_opened_literal(
    buf: &mut Buffer,
    paren: Piece,
    ty: Piece,
    value: &str,
) -> Result<Option<Piece>, AllocError>
    requires paren { Lives buf.old paren (plain_shape (codes "(")) }
    requires ty { IsLiving buf.old ty }
    ensures shape { Answers result buf.new (calls.literal_step (shape buf.old ty) value.now) }
    ensures edit { OnOk result (IsEdit buf.old buf.new) }
    ensures none { OnNone result (KeepsAll buf.old buf.new) }
    ensures none_main { OnNone result (main_bytes buf.new ≡ main_bytes buf.old) }
    ensures put { IfFound result (calls.IsPutAfter
        (spec.literal_form (text (shape buf.old ty)) (spec.is_minus value.now)) buf.old buf.new paren ty) }
{
    let bytes = value.as_bytes();
    match literal_form(buf.bytes(ty), bytes) {
        LiteralForm::Cast => {
            let opened = tri!(buf.join(paren, b"", ty));
            let closed = tri!(buf.append(opened, b")"));
            let cast = buf.whole(closed);
            Ok(Some(tri!(append_value(buf, cast, bytes))))
        }
        _ => write_literal(buf, ty, value),
    }
}

/// Makes an operand of an expression. If `paren` is true, that is the text in parentheses, as a plain piece whose base
/// name is the whole text, with no flag set. Otherwise it is the piece itself.
pub fn subexpr(buf: &mut Buffer, piece: Piece, paren: bool) -> Result<Piece, AllocError>
    requires piece { IsLiving buf.old piece }
    ensures shape { IfOk result (λ p. Lives buf.new p (spec.operand_shape paren (shape buf.old piece))) }
    ensures edit { OnOk result (IsEdit buf.old buf.new) }
    ensures in_place { IfOk result (λ p. IsUnchangedOrStays buf.old buf.new piece p) }
    ensures same { paren ≡ false → (result ≡ Ok piece) × (buf.new ≡ buf.old) }
{
    if !paren {
        return Ok(piece);
    }
    parenthesize(buf, piece)
}

/// Makes the address of what the piece names: inserts `&` in front of its text. The piece stays the same declarator
/// and keeps its flags. Its base name moves on by one byte; that of a function is the whole text.
pub fn address(buf: &mut Buffer, piece: Piece) -> Result<Piece, AllocError>
    requires piece { IsLiving buf.old piece }
    ensures shape { IfOk result (λ p. Lives buf.new p (spec.address_shape (shape buf.old piece))) }
    ensures edit { OnOk result (IsEdit buf.old buf.new) }
    ensures in_place { IfOk result (λ p. StaysInPlace buf.old buf.new piece p) }
{
    buf.insert(piece, Place::Start, b"&")
}
