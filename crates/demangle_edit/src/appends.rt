//! Appends the text of one piece to another.
ghost use Rattle.std.specs.Prelude.{◌≡◌, ◌+◌, ◌++◌, IfOk, OnOk};
ghost use Rattle.demangle_text.specs.Shape.{text, appended, flattened};
ghost use Rattle.demangle_text.specs.State.{IsLiving, shape, Lives, IsEdit, JoinsInPlace};

use demangle_text::{Buffer, Piece};
use std::alloc::AllocError;

/// Makes a plain piece of the text of the first piece, the bytes, and the text of the second. The base name and the
/// flags are those of the first.
#[inline(always)]
pub fn append_piece(
    buf: &mut Buffer,
    first: Piece,
    between: &[u8],
    second: Piece,
) -> Result<Piece, AllocError>
    requires first { IsLiving buf.old first }
    requires second { IsLiving buf.old second }
    ensures shape { IfOk result (λ p. Lives buf.new p (appended
        (between.now ++ text (shape buf.old second)) (flattened (shape buf.old first)))) }
    ensures edit { OnOk result (IsEdit buf.old buf.new) }
    ensures in_place { IfOk result (λ p. JoinsInPlace buf.old buf.new first second p) }
{
    let before = buf.len(first);
    let (from, to) = buf.own_range(first);
    let (templ, ctor) = (buf.templ(first), buf.ctor(first));
    let whole = tri!(buf.join(first, between, second));
    let len = buf.len(whole);
    let n = if before <= from { len - before } else { 0 };
    let named = buf.own_at(whole, from + n, to + n);
    Ok(buf.with_flags(named, templ, ctor))
}
