//! Edits that make a name from names (Itanium C++ ABI 5.1.2).
ghost use Rattle.std.specs.Prelude.{◌≡◌, All, map, false, IfOk, OnOk, OnErr};
ghost use Rattle.demangle_quals.specs.Quals.{has_quals};
ghost use Rattle.demangle_text.specs.Shape.{plain_shape};
ghost use Rattle.demangle_text.specs.State.{IsLiving, shape, Lives, IsEdit, StaysInPlace, IsUnchangedOrStays, JoinsInPlace, AppendsPiece};
ghost use Rattle.demangle_edit.specs.Names.{qualified, qualified_ctor, angle_gap, attached, tagged};
ghost use Rattle.demangle_edit.specs.Names.{encoding_shape, with_name_qualifiers, default_arg_shape};
ghost use Rattle.demangle_edit.specs.Built.{parent_opened, default_arg_opened, enclosed};

use crate::appends::append_piece;
use crate::lists::{append_number, close_params, open_params};
use demangle_quals::{Quals, reference_bytes};
use demangle_text::{Buffer, Piece};
use std::alloc::AllocError;

/// Makes `parent::leaf`, as a plain piece with the base name and the flags of the leaf. The function is offered to
/// other callers. The readers open the parent first (`open_parent`).
pub fn qualify(buf: &mut Buffer, parent: Piece, leaf: Piece) -> Result<Piece, AllocError>
    requires parent { IsLiving buf.old parent }
    requires leaf { IsLiving buf.old leaf }
    ensures shape { IfOk result (λ p. Lives buf.new p (qualified (shape buf.old parent) (shape buf.old leaf))) }
    ensures edit { OnOk result (IsEdit buf.old buf.new) }
    ensures in_place { IfOk result (λ p. JoinsInPlace buf.old buf.new parent leaf p) }
{
    let before = buf.len(parent);
    let (from, to) = buf.own_range(leaf);
    let (templ, ctor) = (buf.templ(leaf), buf.ctor(leaf));
    let whole = tri!(buf.join(parent, b"::", leaf));
    // The prover learns here that the length fits 64 bits, and so does each place in the text.
    let _len = buf.len(whole);
    let named = buf.own_at(whole, before + 2 + from, before + 2 + to);
    Ok(buf.with_flags(named, templ, ctor))
}

/// Makes `parent::text`, as a plain piece whose base name is the text, with no flag set. The function is offered to
/// other callers. The readers append the name to the parent with `append_name` of the buffer, since their parent ends
/// the output.
pub fn qualify_text(buf: &mut Buffer, parent: Piece, text: &[u8]) -> Result<Piece, AllocError>
    requires parent { IsLiving buf.old parent }
    ensures shape { IfOk result (λ p. Lives buf.new p (qualified (shape buf.old parent) (plain_shape text.now))) }
    ensures edit { OnOk result (IsEdit buf.old buf.new) }
    ensures in_place { IfOk result (λ p. StaysInPlace buf.old buf.new parent p) }
{
    let mut name = tri!(buf.append(parent, b""));
    tri!(buf.append_name(&mut name, b"::", text));
    Ok(name)
}

/// Makes the text in front of an entity in a default argument of a parent: `parent::{default arg#k}::`, where k is its
/// number. The result is a plain piece with the base name and the flags of the parent.
pub fn open_default_arg(buf: &mut Buffer, parent: Piece, number: u64) -> Result<Piece, AllocError>
    requires parent { IsLiving buf.old parent }
    ensures shape { IfOk result (λ p. Lives buf.new p (default_arg_opened (shape buf.old parent) number)) }
    ensures edit { OnOk result (IsEdit buf.old buf.new) }
    ensures in_place { IfOk result (λ p. StaysInPlace buf.old buf.new parent p) }
{
    let plain = buf.plain(parent);
    let opened = tri!(buf.append(plain, b"::{default arg#"));
    let numbered = tri!(append_number(buf, opened, number));
    buf.append(numbered, b"}::")
}

/// Appends a name to what `open_parent` or `open_default_arg` opened for it. The result is a plain piece with the base
/// name and the flags of the name.
pub fn append_leaf(buf: &mut Buffer, opened: Piece, name: Piece) -> Result<Piece, AllocError>
    requires opened { IsLiving buf.old opened }
    requires name { IsLiving buf.old name }
    ensures shape { IfOk result (λ p. Lives buf.new p (enclosed (shape buf.old opened) (shape buf.old name))) }
    ensures edit { OnOk result (IsEdit buf.old buf.new) }
    ensures in_place { IfOk result (λ p. JoinsInPlace buf.old buf.new opened name p) }
{
    let before = buf.len(opened);
    let (from, to) = buf.own_range(name);
    let (templ, ctor) = (buf.templ(name), buf.ctor(name));
    let whole = tri!(buf.join(opened, b"", name));
    // The prover learns here that the length fits 64 bits, and so does each place in the text.
    let _len = buf.len(whole);
    let named = buf.own_at(whole, before + from, before + to);
    Ok(buf.with_flags(named, templ, ctor))
}

/// Makes a parent with `::` after it, as a plain piece with the base name and the flags of the parent. `append_leaf`
/// appends the leaf. The two calls give what `qualify` gives.
pub fn open_parent(buf: &mut Buffer, parent: Piece) -> Result<Piece, AllocError>
    requires parent { IsLiving buf.old parent }
    ensures shape { IfOk result (λ p. Lives buf.new p (parent_opened (shape buf.old parent))) }
    ensures edit { OnOk result (IsEdit buf.old buf.new) }
    ensures in_place { IfOk result (λ p. StaysInPlace buf.old buf.new parent p) }
{
    let plain = buf.plain(parent);
    buf.append(plain, b"::")
}

/// Makes an entity in a default argument of a parent: `parent::{default arg#k}::entity`, where k is its number. The
/// result is a plain piece with the base name and the flags of the entity. The function is offered to other callers.
/// The readers make the text in front of the entity first (`open_default_arg`).
pub fn default_arg(
    buf: &mut Buffer,
    parent: Piece,
    number: u64,
    entity: Piece,
) -> Result<Piece, AllocError>
    requires parent { IsLiving buf.old parent }
    requires entity { IsLiving buf.old entity }
    ensures shape { IfOk result (λ p. Lives buf.new p
        (default_arg_shape (shape buf.old parent) number (shape buf.old entity))) }
    ensures edit { OnOk result (IsEdit buf.old buf.new) }
    ensures appends { IfOk result (λ p. AppendsPiece buf.old buf.new p) }
{
    let mark = buf.open();
    let opened = tri!(open_default_arg(buf, parent, number));
    let named = tri!(append_leaf(buf, opened, entity));
    buf.close(mark, named)
}

/// Makes the constructor of a parent, which is `parent::name` with the base name of the parent; or its destructor,
/// which is `parent::~name`. The result is a plain piece whose base name is all after the `::`. Only the flag `ctor`
/// is set.
pub fn qualify_ctor(buf: &mut Buffer, parent: Piece, destructor: bool) -> Result<Piece, AllocError>
    requires parent { IsLiving buf.old parent }
    ensures shape { IfOk result (λ p. Lives buf.new p (qualified_ctor (shape buf.old parent) destructor)) }
    ensures edit { OnOk result (IsEdit buf.old buf.new) }
    ensures in_place { IfOk result (λ p. StaysInPlace buf.old buf.new parent p) }
{
    let before = buf.len(parent);
    let name = buf.plain(parent);
    let between: &[u8] = if destructor { b"::~" } else { b"::" };
    let whole = tri!(buf.append_own(name, between));
    let len = buf.len(whole);
    let named = buf.own_at(whole, before + 2, len);
    Ok(buf.with_flags(named, false, true))
}

/// Appends the list of its template arguments to the name, after a space if the name ends in `<`. The result is a
/// plain piece with the base name and the flag `ctor` of the name; `templ` is set. The function is offered to other
/// callers. The readers build the list on the name (`open_arguments`).
#[inline(always)]
pub fn attach_template_args(buf: &mut Buffer, name: Piece, args: Piece) -> Result<Piece, AllocError>
    requires name { IsLiving buf.old name }
    requires args { IsLiving buf.old args }
    ensures shape { IfOk result (λ p. Lives buf.new p (attached (shape buf.old name) (shape buf.old args))) }
    ensures edit { OnOk result (IsEdit buf.old buf.new) }
    ensures in_place { IfOk result (λ p. JoinsInPlace buf.old buf.new name args p) }
{
    let ctor = buf.ctor(name);
    let angle = buf.bytes(name).ends_with(b"<");
    let gap: &[u8] = if angle { b" " } else { b"" };
    let whole = tri!(append_piece(buf, name, gap, args));
    Ok(buf.with_flags(whole, true, ctor))
}

/// Appends its parameters to the name of a function, in parentheses with `, ` between them, and then the qualifiers:
/// the words and then the reference. Without parameters the text is `name()`. The result is a plain piece with the
/// base name and the flag `ctor` of the name; `templ` isn't set. The function is offered to other callers. The readers
/// build the list on the name (`open_params`).
pub fn format_params(
    buf: &mut Buffer,
    name: Piece,
    params: &[Piece],
    quals: Quals,
) -> Result<Piece, AllocError>
    requires name { IsLiving buf.old name }
    requires params { All (IsLiving buf.old) params.now }
    ensures shape { IfOk result (λ p. Lives buf.new p
        (encoding_shape (shape buf.old name) (map (shape buf.old) params.now) quals)) }
    ensures edit { OnOk result (IsEdit buf.old buf.new) }
    ensures appends { IfOk result (λ p. AppendsPiece buf.old buf.new p) }
{
    let mark = buf.open();
    let mut list = tri!(open_params(buf, name));
    for (i, param) in params.iter().enumerate() {
        let between: &[u8] = if i == 0 { b"" } else { b", " };
        list = tri!(append_piece(buf, list, between, *param));
    }
    let whole = tri!(close_params(buf, list, quals));
    buf.close(mark, whole)
}

/// Appends an ABI tag to the name: `name[abi:tag]`. The result is a plain piece with the base name and the flags of
/// the name.
pub fn tag(buf: &mut Buffer, name: Piece, text: &[u8]) -> Result<Piece, AllocError>
    requires name { IsLiving buf.old name }
    ensures shape { IfOk result (λ p. Lives buf.new p (tagged (shape buf.old name) text.now)) }
    ensures edit { OnOk result (IsEdit buf.old buf.new) }
    ensures in_place { IfOk result (λ p. StaysInPlace buf.old buf.new name p) }
{
    let plain = buf.plain(name);
    let opened = tri!(buf.append(plain, b"[abi:"));
    let filled = tri!(buf.append(opened, text));
    buf.append(filled, b"]")
}

/// Appends the qualifiers to the name: the words ` const`, ` volatile` and ` restrict` only if `shown` is true, and
/// then the reference. The result is a plain piece with the base name and the flags of the name, also if nothing is
/// printed. Without qualifiers the result is the name itself.
pub fn apply_name_qualifiers(
    buf: &mut Buffer,
    name: Piece,
    quals: Quals,
    shown: bool,
) -> Result<Piece, AllocError>
    requires name { IsLiving buf.old name }
    ensures shape { IfOk result (λ p. Lives buf.new p (with_name_qualifiers (shape buf.old name) quals shown)) }
    ensures edit { OnOk result (IsEdit buf.old buf.new) }
    ensures in_place { IfOk result (λ p. IsUnchangedOrStays buf.old buf.new name p) }
    ensures same { has_quals quals ≡ false → (result ≡ Ok name) × (buf.new ≡ buf.old) }
{
    if !quals.is_set() {
        return Ok(name);
    }
    let words: &[u8] = if shown { quals.words() } else { b"" };
    let plain = buf.plain(name);
    let worded = tri!(buf.append(plain, words));
    buf.append(worded, reference_bytes(quals.reference))
}
