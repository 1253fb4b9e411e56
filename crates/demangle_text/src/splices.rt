//! The private steps of the methods of `Buffer`: move a range of the output down to the mark, open a gap in it, insert
//! bytes or a piece, and append to a piece.
ghost use Rattle.std.specs.Prelude.{◌≡◌, ◌+◌, ◌-◌, ◌^◌, ◌<◌, ◌≤◌, ◌++◌, length, take, drop, slice_range, IfOk, OnOk, OnErr, true};

use crate::buffer::Buffer;
use crate::moves::torn_len;
use crate::output_end::{add_text, ensure_at_end, truncated_on_err};
use crate::piece_list::Block;
use crate::pieces::Piece;
use std::alloc::AllocError;

#[tactic(auto, using(crate::proofs::States::states), unfolding(crate::proofs::States::internals))]
impl Buffer {
    ghost use Rattle.demangle_text.specs.State.{IsLiving, KeepsAll, IsEdit};
    ghost use Rattle.demangle_text.specs.Gaps.{IsGap, IsOpen};
    ghost use Rattle.demangle_text.specs.Pieces.{IsSplice, IsAdjacent, IsAt, EndsBy, outline_of, piece_text, home_bytes};

    // Replaces everything after the innermost mark by one range of the output or the spill. A range in the spill, or
    // before the mark, is copied to the end first. Then the range moves down to the mark, and everything else after
    // the mark goes.
    #[cold]
    pub(crate) fn move_down(
        &mut self,
        at: usize,
        spilled: bool,
        from: usize,
        to: usize,
    ) -> Result<(), AllocError>
        requires mark { self.old.marked_len ≡ at }
        requires ordered { from ≤ to }
        requires within { to ≤ length (home_bytes self.old.output_text self.old.spill_text spilled) }
        ensures edit { OnOk result (IsEdit self.old self.new) }
        ensures output { OnOk result (self.new.output_text ≡ take at self.old.output_text
            ++ slice_range (home_bytes self.old.output_text self.old.spill_text spilled) from to) }
    {
        let mut from = from;
        let mut to = to;
        if spilled || from < at {
            let copied = self.output.len();
            let mut part = Piece::whole_at(from, to);
            part.spilled = spilled;
            tri!(add_text(&mut self.output, &self.kept.spill, part));
            from = copied;
            to = self.output.len();
            if from == at {
                return Ok(());
            }
        }
        let block = Block {
            low: at,
            from,
            end: to,
        };
        tri!(self.kept.spill_torn(self.output.as_slice(), block));
        self.output.keep_only(at, from, to);
        self.kept.saved.shift(block, at);
        self.kept.args.shift(block, at);
        Ok(())
    }

    // Inserts bytes at a place of the output, at the innermost mark or later. What is after the place moves on.
    #[inline(always)]
    pub(crate) fn insert_at(&mut self, at: usize, bytes: &[u8]) -> Result<(), AllocError>
        requires inner { self.old.marked_len ≤ at }
        requires within { at ≤ length self.old.output_text }
        ensures edit { OnOk result (IsEdit self.old self.new) }
        ensures err { OnErr result (KeepsAll self.old self.new) }
        ensures output { OnOk result (self.new.output_text ≡ take at self.old.output_text
            ++ (bytes.now ++ drop at self.old.output_text)) }
        ensures main_err { OnErr result (self.new.output_text ≡ self.old.output_text) }
    {
        if bytes.is_empty() {
            return Ok(());
        }
        tri!(self.open_gap(at, bytes.len()));
        self.output.put(at, bytes);
        Ok(())
    }

    // Opens a gap of n spare bytes at a place of the output, at the innermost mark or later. What is after the place
    // moves on.
    #[inline(never)]
    fn open_gap(&mut self, at: usize, n: usize) -> Result<(), AllocError>
        requires inner { self.old.marked_len ≤ at }
        requires within { at ≤ length self.old.output_text }
        ensures gap { OnOk result (IsGap self.old self.new at n) }
        ensures err { OnErr result (KeepsAll self.old self.new) }
        ensures main_err { OnErr result (self.new.output_text ≡ self.old.output_text) }
    {
        let len = self.output.len();
        let rest = Block {
            low: at,
            from: at,
            end: len,
        };
        // All memory is reserved before anything changes.
        let torn = torn_len(&self.kept.saved, rest);
        let torn = torn.saturating_add(torn_len(&self.kept.args, rest));
        tri!(self.output.reserve(n));
        tri!(self.kept.spill.reserve(torn));
        tri!(self.kept.spill_torn(self.output.as_slice(), rest));
        tri!(self.output.open_gap(at, n));
        let dest = at + (self.output.len() - len);
        self.kept.saved.shift(rest, dest);
        self.kept.args.shift(rest, dest);
        Ok(())
    }

    // Brings the text of a piece to the end of the output, with a gap of n bytes at a place of the text. The caller
    // overwrites the gap. Returns where the text begins.
    pub(crate) fn open_gap_in(
        &mut self,
        piece: Piece,
        at: usize,
        n: usize,
    ) -> Result<usize, AllocError>
        requires living { IsLiving self.old piece }
        requires within { at ≤ piece.to_byte - piece.from_byte }
        ensures opened { IfOk result (IsOpen self.old self.new piece at n) }
        ensures fits { IfOk result (λ from. from + at < 2 ^ 64) }
        ensures err { OnErr result (KeepsAll self.old self.new) }
        ensures main_err { OnErr result (self.new.output_text ≡ self.old.output_text) }
    {
        if piece.is_tail(self.marked_len, self.output.len()) {
            tri!(self.open_gap(piece.from_byte + at, n));
            return Ok(piece.from_byte);
        }
        let from = self.output.len();
        let rest = piece.text_len() - at;
        tri!(add_text(&mut self.output, &self.kept.spill, piece));
        let opened = self.output.open_gap(self.output.len() - rest, n);
        tri!(truncated_on_err(&mut self.output, from, opened));
        Ok(from)
    }

    // Brings the text of a piece to the end of the output and appends the bytes and the text of another piece. Returns
    // where the text begins.
    #[inline(always)]
    pub(crate) fn extend_by(
        &mut self,
        piece: Piece,
        bytes: &[u8],
        other: Piece,
    ) -> Result<usize, AllocError>
        requires living { IsLiving self.old piece }
        requires other_living { IsLiving self.old other }
        ensures splice { IfOk result (IsSplice self.old self.new piece (piece.to_byte - piece.from_byte)
            (bytes.now ++ piece_text self.old.output_text self.old.spill_text other)) }
        ensures edit { OnOk result (IsEdit self.old self.new) }
        ensures err { OnErr result (KeepsAll self.old self.new) }
        ensures main_err { OnErr result (self.new.output_text ≡ self.old.output_text) }
    {
        let len = self.output.len();
        let from = tri!(ensure_at_end(&mut self.output, &self.kept.spill, self.marked_len, piece));
        let added = self.output.add(bytes);
        tri!(truncated_on_err(&mut self.output, len, added));
        let added = add_text(&mut self.output, &self.kept.spill, other);
        tri!(truncated_on_err(&mut self.output, len, added));
        Ok(from)
    }

    // Inserts the text of a piece and the bytes at a place of the output, at the innermost mark or later. What is
    // after the place moves on. If the piece is in the output, it ends by that place.
    pub(crate) fn insert_piece(
        &mut self,
        at: usize,
        first: Piece,
        bytes: &[u8],
    ) -> Result<(), AllocError>
        requires inner { self.old.marked_len ≤ at }
        requires within { at ≤ length self.old.output_text }
        requires living { IsLiving self.old first }
        requires before { EndsBy at first }
        ensures edit { OnOk result (IsEdit self.old self.new) }
        ensures err { OnErr result (KeepsAll self.old self.new) }
        ensures output { OnOk result (self.new.output_text ≡ take at self.old.output_text
            ++ ((piece_text self.old.output_text self.old.spill_text first ++ bytes.now)
            ++ drop at self.old.output_text)) }
        ensures main_err { OnErr result (self.new.output_text ≡ self.old.output_text) }
    {
        let n = self.len(first) + bytes.len();
        tri!(self.open_gap(at, n));
        let middle = if first.spilled {
            let text = self.kept.spill.part(first.from_byte, first.to_byte);
            self.output.put(at, text)
        } else {
            self.output.put_part(at, first.from_byte, first.to_byte)
        };
        self.output.put(middle, bytes);
        Ok(())
    }
}
