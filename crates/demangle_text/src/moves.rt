//! What a move of bytes in the output does to the pieces that are kept.
ghost use Rattle.std.specs.Prelude.{◌≡◌, ◌<◌, ◌≤◌, length, All, map, OnOk, true, false};
ghost use Rattle.demangle_text.specs.Pieces.{IsPiece, IsApart, IsSpilled, Extends, shape_in};

use crate::piece_list::{Block, PieceList};
use crate::pieces::Piece;
use growing_text::Text;
use std::alloc::AllocError;

// The saved pieces, the arguments of all scopes, and the spill. The spill has those of their texts that a move would
// tear.
#[derive(Drop)]
pub(crate) struct KeptPieces {
    pub(crate) spill: Text,
    pub(crate) saved: PieceList,
    pub(crate) args: PieceList,
}

impl KeptPieces {
    // Spills the texts of all pieces of both lists that a move of the block would tear.
    pub(crate) fn spill_torn(&mut self, output: &[u8], block: Block) -> Result<(), AllocError>
        requires saved { All (IsPiece output.now self.old.spill) self.old.saved }
        requires args { All (IsPiece output.now self.old.spill) self.old.args }
        ensures spilled { IsSpilled output.now self.old.spill self.new.spill self.old.saved self.new.saved
            self.old.args self.new.args }
        ensures saved_apart { OnOk result (All (IsApart block.low block.from block.end) self.new.saved) }
        ensures args_apart { OnOk result (All (IsApart block.low block.from block.end) self.new.args) }
    {
        tri!(spill_torn_of(output, &mut self.spill, &mut self.saved, block));
        spill_torn_of(output, &mut self.spill, &mut self.args, block)
    }
}

// Returns whether a move of the block would tear a kept piece. Such a piece is in the output, and neither ends by
// `block.low` nor is wholly inside the block.
fn is_torn(piece: Piece, block: Block) -> bool
    ensures torn { result ≡ true → piece.spilled ≡ false }
    ensures apart { result ≡ false → IsApart block.low block.from block.end piece }
{
    !piece.spilled
        && block.low < piece.to_byte
        && (piece.from_byte < block.from || block.end < piece.to_byte)
}

// Returns the total length in bytes of the pieces of a list that a move of the block would tear.
pub(crate) fn torn_len(pieces: &PieceList, block: Block) -> usize
    requires ordered { All (λ p. p.from_byte ≤ p.to_byte) pieces.now }
{
    let mut n: usize = 0;
    for i in pieces.count_ending_by(block.low)..pieces.len() {
        let piece = pieces.piece_at(i);
        if is_torn(piece, block) {
            n = n.saturating_add(piece.text_len());
        }
    }
    n
}

// Spills the texts of all pieces of a list that a move of the block would tear. The search begins at the first piece
// that the move can reach.
#[inline(always)]
fn spill_torn_of(
    output: &[u8],
    spill: &mut Text,
    pieces: &mut PieceList,
    block: Block,
) -> Result<(), AllocError>
    requires lie { All (IsPiece output.now spill.old) pieces.old }
    ensures spill { Extends spill.old spill.new }
    ensures lie { All (IsPiece output.now spill.new) pieces.new }
    ensures shapes { map (shape_in output.now spill.new) pieces.new ≡ map (shape_in output.now spill.old) pieces.old }
    ensures long { length pieces.new ≡ length pieces.old }
    ensures apart { OnOk result (All (IsApart block.low block.from block.end) pieces.new) }
{
    let first = pieces.count_ending_by(block.low);
    for i in first..pieces.len() {
        let mut piece = pieces.piece_at(i);
        if is_torn(piece, block) {
            let from = spill.len();
            tri!(spill.add(&output[piece.from_byte..piece.to_byte]));
            piece.from_byte = from;
            piece.to_byte = spill.len();
            piece.spilled = true;
            pieces.set(i, piece);
        }
    }
    Ok(())
}
