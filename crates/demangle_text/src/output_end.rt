//! Puts the texts of pieces at the end of the output.
ghost use Rattle.std.specs.Prelude.{◌≡◌, ◌≤◌, ◌++◌, length, take, IfOk, OnOk, OnErr};
ghost use Rattle.demangle_text.specs.Pieces.{home_bytes, piece_text, HasAtEnd};

use crate::pieces::Piece;
use growing_text::Text;
use std::alloc::AllocError;

// Appends a copy of the text of a piece to the output.
#[inline(always)]
pub(crate) fn add_text(output: &mut Text, spill: &Text, piece: Piece) -> Result<(), AllocError>
    requires ordered { piece.from_byte ≤ piece.to_byte }
    requires within { piece.to_byte ≤ length (home_bytes output.old spill.now piece.spilled) }
    ensures ok { OnOk result (output.new ≡ output.old ++ piece_text output.old spill.now piece) }
    ensures err { OnErr result (output.new ≡ output.old) }
{
    if piece.spilled {
        output.add(spill.part(piece.from_byte, piece.to_byte))
    } else {
        output.add_part(piece.from_byte, piece.to_byte)
    }
}

// Cuts the output to its first `len` bytes if `added` is an error, and returns `added`.
#[inline(always)]
pub(crate) fn truncated_on_err(
    output: &mut Text,
    len: usize,
    added: Result<(), AllocError>,
) -> Result<(), AllocError>
    requires within { len ≤ length output.old }
    ensures same { result ≡ added }
    ensures ok { OnOk result (output.new ≡ output.old) }
    ensures err { OnErr result (output.new ≡ take len output.old) }
{
    if added.is_err() {
        output.truncate(len);
    }
    added
}

// Makes the text of a piece end the output, and returns where it begins there. The text is copied, unless it ends the
// output already and begins at the mark's byte or later.
#[inline(always)]
pub(crate) fn ensure_at_end(
    output: &mut Text,
    spill: &Text,
    mark: usize,
    piece: Piece,
) -> Result<usize, AllocError>
    requires ordered { piece.from_byte ≤ piece.to_byte }
    requires within { piece.to_byte ≤ length (home_bytes output.old spill.now piece.spilled) }
    requires mark { mark ≤ length output.old }
    ensures at_end { IfOk result (HasAtEnd output.old spill.now mark piece output.new) }
    ensures err { OnErr result (output.new ≡ output.old) }
{
    if piece.is_tail(mark, output.len()) {
        return Ok(piece.from_byte);
    }
    let from = output.len();
    tri!(add_text(output, spill, piece));
    Ok(from)
}
