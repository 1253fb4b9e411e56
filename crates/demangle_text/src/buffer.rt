//! A buffer of pieces over one output and one spill.
ghost use Rattle.std.specs.Prelude.{◌≡◌, ℕ, ◌+◌, ◌-◌, ◌^◌, ◌<◌, ◌≤◌, [], ◌++◌, length, take, IfOk};
ghost use Rattle.std.specs.Prelude.{OnOk, OnErr, slice_range, slice_index, is_some, codes};
ghost use Rattle.demangle_text.specs.Shape.{gap_after};

use crate::moves::KeptPieces;
use crate::output_end::{add_text, ensure_at_end, truncated_on_err};
use crate::piece_list::PieceList;
use crate::pieces::{Kind, Mark, Piece, Place};
use growing_text::Text;
use std::alloc::{AllocError, Global};
use std::marker::Model;

/// A buffer of pieces, with the substitution table, which is a list of saved shapes, and a list of scopes.
#[derive(Drop)]
pub struct Buffer {
    // The text that is being made.
    pub(crate) output: Text,
    // The substitution table, the arguments of all scopes, and the spill, which has copies of those of their texts
    // that a move would have overwritten or cut.
    pub(crate) kept: KeptPieces,
    // The index at which the arguments of each scope begin.
    pub(crate) starts: Vec<usize>,
    // The length of the output at the innermost mark, in bytes.
    pub(crate) marked_len: usize,
}

impl Model for Buffer {
    ghost use Rattle.demangle_text.specs.Pieces.{Store};

    ghost Value = { Store };

    ghost use Rattle.demangle_text.specs.View.{store_of, IsConsistent};

    ghost view = { store_of };

    ghost invariant = { IsConsistent };
}

#[tactic(auto, using(crate::proofs::States::states), unfolding(crate::proofs::States::internals))]
impl Buffer {
    ghost use Rattle.demangle_text.specs.State.{IsLiving, shape, saved, scopes, frame, inside, outermost, Lives};
    ghost use Rattle.demangle_text.specs.State.{KeepsAll, IsEdit, Opens, Closes, IsAsOld, main_bytes, Stands};
    ghost use Rattle.demangle_text.specs.State.{StandsAs, StandsShortened, frame_start, Frame, IsOlder, KeepsFront};
    ghost use Rattle.demangle_text.specs.State.{IsEditOf, IsJoinOf};
    ghost use Rattle.demangle_text.specs.Shape.{text, text_len, plain_shape, inserted, appended, opened_group};
    ghost use Rattle.demangle_text.specs.Shape.{shortened, flagged, with_own, flattened, whole_shape, own_shape, declared_at};
    ghost use Rattle.demangle_text.specs.Calls.{joined, named, CanInsert, IsPlain, IsDeclared, IsNotFunction, kind_of};
    ghost use Rattle.demangle_text.specs.Calls.{group_of, after_of, declared_group, IsLast, IsInner, text_after};

    /// Returns an empty buffer, with no mark open. Allocates nothing.
    pub fn new(alloc: Global) -> Self
        ensures no_saved { saved result ≡ [] }
        ensures no_scopes { scopes result ≡ [] }
        ensures no_mark { frame result ≡ outermost }
        ensures no_bytes { main_bytes result ≡ [] }
        ensures from_start { frame_start (frame result) ≡ 0 }
    {
        Buffer {
            output: Text::new(alloc),
            kept: KeptPieces {
                spill: Text::new(alloc),
                saved: PieceList::new(alloc),
                args: PieceList::new(alloc),
            },
            starts: Vec::new(alloc),
            marked_len: 0,
        }
    }

    /// Invalidates all pieces and marks. Afterwards nothing is saved, no scope is open, and the output is empty. No
    /// mark is open either; the clauses can't tell that from a mark at the start of the output. Reserved memory stays.
    pub fn clear(&mut self)
        ensures no_saved { saved self.new ≡ [] }
        ensures no_scopes { scopes self.new ≡ [] }
        ensures no_mark { frame self.new ≡ outermost }
        ensures no_bytes { main_bytes self.new ≡ [] }
        ensures no_spill { self.new.spill_text ≡ [] }
        ensures from_start { frame_start (frame self.new) ≡ 0 }
    {
        self.kept.saved.truncate(0);
        self.kept.args.truncate(0);
        self.starts.clear();
        self.output.clear();
        self.kept.spill.clear();
        self.marked_len = 0;
    }

    /// Opens a mark at the end of the output, which becomes the innermost mark. All living pieces are older than the
    /// mark.
    #[inline(always)]
    pub fn open(&mut self) -> Mark
        ensures opens { Opens self.old self.new result }
        ensures output { main_bytes self.new ≡ main_bytes self.old }
        ensures mark { frame_start (inside result) ≡ length (main_bytes self.old) }
    {
        let mark = Mark {
            inside_len: self.output.len(),
            outside_len: self.marked_len,
        };
        self.marked_len = mark.inside_len;
        mark
    }

    /// Closes the innermost mark. The piece keeps its shape and becomes all of the output since the mark. It counts as
    /// made under the mark outside. Invalidates the other pieces made since the mark. After `AllocError` all pieces
    /// and marks made before are lost: no clause says which pieces live, which mark is innermost, or what the output
    /// and both lists are. Calls that require nothing, such as `clear`, `open` and `push`, keep their contracts.
    #[inline(always)]
    pub fn close(&mut self, mark: Mark, piece: Piece) -> Result<Piece, AllocError>
        requires innermost { frame self.old ≡ inside mark }
        requires living { IsLiving self.old piece }
        ensures shape { IfOk result (λ p. Lives self.new p (shape self.old piece)) }
        ensures closed { OnOk result (Closes self.old self.new mark) }
        ensures output { OnOk result (main_bytes self.new
            ≡ take (frame_start (inside mark)) (main_bytes self.old) ++ text (shape self.old piece)) }
        ensures stands { IfOk result (λ p. Stands p (frame_start (inside mark)) (length (main_bytes self.new))) }
    {
        let mut piece = piece;
        tri!(self.close_in_place(mark, &mut piece));
        Ok(piece)
    }

    /// Closes the innermost mark as `close` does, and changes the piece in place.
    #[inline(always)]
    pub fn close_in_place(&mut self, mark: Mark, piece: &mut Piece) -> Result<(), AllocError>
        requires innermost { frame self.old ≡ inside mark }
        requires living { IsLiving self.old piece.old }
        ensures shape { OnOk result (Lives self.new piece.new (shape self.old piece.old)) }
        ensures closed { OnOk result (Closes self.old self.new mark) }
        ensures output { OnOk result (main_bytes self.new
            ≡ take (frame_start (inside mark)) (main_bytes self.old) ++ text (shape self.old piece.old)) }
        ensures stands { OnOk result (Stands piece.new (frame_start (inside mark)) (length (main_bytes self.new))) }
    {
        let at = mark.inside_len;
        if !piece.spilled && piece.from_byte == at && piece.to_byte == self.output.len() {
            self.marked_len = mark.outside_len;
            return Ok(());
        }
        tri!(self.move_down(at, piece.spilled, piece.from_byte, piece.to_byte));
        piece.from_byte = at;
        piece.to_byte = self.output.len();
        piece.spilled = false;
        self.marked_len = mark.outside_len;
        Ok(())
    }

    /// Appends the bytes to the output, and returns a plain piece of them. Its base name is the whole text, and both
    /// flags are off. After `AllocError` nothing has changed.
    #[inline(always)]
    pub fn push(&mut self, bytes: &[u8]) -> Result<Piece, AllocError>
        ensures shape { IfOk result (λ p. Lives self.new p (plain_shape bytes.now)) }
        ensures kept { KeepsAll self.old self.new }
        ensures output { OnOk result (main_bytes self.new ≡ main_bytes self.old ++ bytes.now) }
        ensures main_err { OnErr result (main_bytes self.new ≡ main_bytes self.old) }
        ensures mark { frame_start (frame self.old) ≤ length (main_bytes self.old) }
        ensures stands { IfOk result (λ p. Stands p (length (main_bytes self.old)) (length (main_bytes self.new))) }
    {
        let from = self.output.len();
        tri!(self.output.add(bytes));
        Ok(Piece::whole_at(from, self.output.len()))
    }

    /// Returns a plain piece of no bytes, at the start of the output.
    #[inline(always)]
    pub fn empty(&self) -> Piece
        ensures shape { Lives self.now result (plain_shape []) }
        ensures stands { Stands result 0 0 }
        ensures age { (f : Frame) → IsOlder result f }
    {
        Piece::whole_at(0, 0)
    }

    /// Appends a copy of the piece's text to the output, and returns a piece of it with the same shape. After
    /// `AllocError` nothing has changed. The method is offered to other callers: only `probes` calls it here.
    pub fn copy(&mut self, piece: Piece) -> Result<Piece, AllocError>
        requires living { IsLiving self.old piece }
        ensures shape { IfOk result (λ p. Lives self.new p (shape self.old piece)) }
        ensures kept { KeepsAll self.old self.new }
        ensures output { OnOk result (main_bytes self.new ≡ main_bytes self.old ++ text (shape self.old piece)) }
        ensures main_err { OnErr result (main_bytes self.new ≡ main_bytes self.old) }
        ensures mark { frame_start (frame self.old) ≤ length (main_bytes self.old) }
        ensures stands { IfOk result (λ p. Stands p (length (main_bytes self.old)) (length (main_bytes self.new))) }
    {
        let mut copied = piece;
        tri!(self.copy_to_end(&mut copied));
        Ok(copied)
    }

    /// Appends a copy of the piece's text to the output, and moves the piece there. The other pieces stay as they are.
    /// After `AllocError` nothing has changed.
    #[inline(never)]
    pub fn copy_to_end(&mut self, piece: &mut Piece) -> Result<(), AllocError>
        requires living { IsLiving self.old piece.old }
        ensures shape { OnOk result (Lives self.new piece.new (shape self.old piece.old)) }
        ensures kept { KeepsAll self.old self.new }
        ensures output { OnOk result (main_bytes self.new ≡ main_bytes self.old ++ text (shape self.old piece.old)) }
        ensures main_err { OnErr result (main_bytes self.new ≡ main_bytes self.old) }
        ensures mark { frame_start (frame self.old) ≤ length (main_bytes self.old) }
        ensures stands { OnOk result (Stands piece.new (length (main_bytes self.old)) (length (main_bytes self.new))) }
        ensures same { OnErr result (piece.new ≡ piece.old) }
    {
        let from = self.output.len();
        tri!(add_text(&mut self.output, &self.kept.spill, *piece));
        piece.from_byte = from;
        piece.to_byte = self.output.len();
        piece.spilled = false;
        Ok(())
    }

    /// Appends the bytes to the piece's text. Invalidates the other pieces made since the innermost mark. If the piece
    /// ends the output, and begins at the innermost mark or later, it stays in place. Otherwise its text is copied to
    /// the end of the output first. After `AllocError` nothing has changed.
    #[inline(always)]
    pub fn append(&mut self, piece: Piece, bytes: &[u8]) -> Result<Piece, AllocError>
        requires living { IsLiving self.old piece }
        ensures shape { IfOk result (λ p. Lives self.new p (appended bytes.now (shape self.old piece))) }
        ensures edit { OnOk result (IsEdit self.old self.new) }
        ensures err { OnErr result (KeepsAll self.old self.new) }
        ensures edit_of { IfOk result (λ p. IsEditOf self.old self.new piece p (length bytes.now)) }
        ensures main_err { OnErr result (main_bytes self.new ≡ main_bytes self.old) }
    {
        let len = self.output.len();
        let from = tri!(ensure_at_end(&mut self.output, &self.kept.spill, self.marked_len, piece));
        let added = self.output.add(bytes);
        tri!(truncated_on_err(&mut self.output, len, added));
        let (at, n) = (piece.text_len(), bytes.len());
        Ok(piece.with_bytes(Place::End, at, n, from, self.output.len()))
    }

    /// Appends two texts to the piece, and makes it plain. The second text is its base name, and both flags are off.
    /// The piece must end the output, and begin at the innermost mark or later; it stays in place. Invalidates the
    /// other pieces made since that mark. After `AllocError` nothing has changed.
    #[inline(always)]
    pub fn append_name(
        &mut self,
        piece: &mut Piece,
        between: &[u8],
        name: &[u8],
    ) -> Result<(), AllocError>
        requires living { IsLiving self.old piece.old }
        requires last { IsLast self.old piece.old }
        ensures shape { OnOk result (Lives self.new piece.new (named between.now name.now (shape self.old piece.old))) }
        ensures edit { OnOk result (IsEdit self.old self.new) }
        ensures err { OnErr result (KeepsAll self.old self.new) }
        ensures piece_err { OnErr result (piece.new ≡ piece.old) }
        ensures edit_of { OnOk result (IsEditOf self.old self.new piece.old piece.new
            (length between.now + length name.now)) }
        ensures main_err { OnErr result (main_bytes self.new ≡ main_bytes self.old) }
    {
        tri!(self.output.add_pair(between, name));
        // The fields are set one by one. A piece that is written as a whole would go through memory.
        piece.to_byte = self.output.len();
        piece.own_end = piece.to_byte - piece.from_byte;
        piece.own_start = piece.own_end - name.len();
        piece.kind = None;
        piece.grouped = false;
        piece.templ = false;
        piece.ctor = false;
        Ok(())
    }

    /// Appends the bytes and then the piece's own base name to the piece's text. What `append` says of other pieces,
    /// of copying and of `AllocError` holds here too.
    #[inline(always)]
    pub fn append_own(&mut self, piece: Piece, between: &[u8]) -> Result<Piece, AllocError>
        requires living { IsLiving self.old piece }
        ensures shape { IfOk result (λ p. Lives self.new p
            (appended (between.now ++ text (own_shape (shape self.old piece))) (shape self.old piece))) }
        ensures edit { OnOk result (IsEdit self.old self.new) }
        ensures err { OnErr result (KeepsAll self.old self.new) }
        ensures edit_of { IfOk result (λ p. IsEditOf self.old self.new piece p
            (length between.now + text_len (own_shape (shape self.old piece)))) }
        ensures main_err { OnErr result (main_bytes self.new ≡ main_bytes self.old) }
    {
        let from = tri!(self.extend_by(piece, between, self.own(piece)));
        let to = self.output.len();
        let n = between.len() + (piece.own_end - piece.own_start);
        Ok(piece.with_bytes(Place::End, piece.text_len(), n, from, to))
    }

    /// Inserts the bytes at a place of the piece's text. `Close` needs a group, and `Suffix` a declarator without one.
    /// If the base name begins at the place or later, it moves on; if the place is inside the base name, the base name
    /// grows. What `append` says of other pieces, of copying and of `AllocError` holds here too.
    #[inline(always)]
    pub fn insert(&mut self, piece: Piece, place: Place, bytes: &[u8]) -> Result<Piece, AllocError>
        requires living { IsLiving self.old piece }
        requires fits { CanInsert place (shape self.old piece).form }
        ensures shape { IfOk result (λ p. Lives self.new p (inserted place bytes.now (shape self.old piece))) }
        ensures edit { OnOk result (IsEdit self.old self.new) }
        ensures err { OnErr result (KeepsAll self.old self.new) }
        ensures edit_of { IfOk result (λ p. IsEditOf self.old self.new piece p (length bytes.now)) }
        ensures main_err { OnErr result (main_bytes self.new ≡ main_bytes self.old) }
    {
        if let Place::End = place {
            return self.append(piece, bytes);
        }
        let at = piece.place(place);
        let from = tri!(self.open_gap_in(piece, at, bytes.len()));
        self.output.put(from + at, bytes);
        Ok(piece.with_bytes(place, at, bytes.len(), from, self.output.len()))
    }

    /// Returns the text that opens a group after `before`: a space and `(`, or only `(` if `before` is empty or ends
    /// in a space, `(` or `*`.
    pub fn group_opening(before: &[u8]) -> &'static [u8]
        ensures value { result.now ≡ gap_after before.now ++ codes "(" }
    {
        match before.last() {
            Some(byte) if !matches!(*byte, b' ' | b'(' | b'*') => b" (",
            _ => b"(",
        }
    }

    /// Puts a new group of the bytes into a declarator, in front of its `after`. A space is in front of the group,
    /// unless the text before it is empty or ends in a space, `(` or `*`. What `append` says of other pieces, of
    /// copying and of `AllocError` holds here too.
    pub fn open_group(&mut self, piece: Piece, bytes: &[u8]) -> Result<Piece, AllocError>
        requires living { IsLiving self.old piece }
        requires declared { IsDeclared (shape self.old piece).form }
        ensures shape { IfOk result (λ p. Lives self.new p (opened_group bytes.now (shape self.old piece))) }
        ensures edit { OnOk result (IsEdit self.old self.new) }
        ensures err { OnErr result (KeepsAll self.old self.new) }
        ensures edit_of { IfOk result (λ p. IsEditOf self.old self.new piece p
            (text_len (opened_group bytes.now (shape self.old piece)) - text_len (shape self.old piece))) }
        ensures main_err { OnErr result (main_bytes self.new ≡ main_bytes self.old) }
    {
        let at = piece.place(Place::Suffix);
        let front = Buffer::group_opening(&self.bytes(piece)[..at]);
        let n = front.len() + bytes.len() + 1;
        let from = tri!(self.open_gap_in(piece, at, n));
        let middle = self.output.put(from + at, front);
        let end = self.output.put(middle, bytes);
        self.output.put(end, b")");
        let moved = piece.with_bytes(Place::Suffix, at, n, from, self.output.len());
        Ok(Piece {
            group_start: moved.after_start - (bytes.len() + 2),
            grouped: true,
            ..moved
        })
    }

    /// Cuts the last n bytes off a plain piece. The base name loses those of its bytes that were cut. The output stays
    /// as it is, with those bytes. What `append` says of other pieces holds here too. The body allocates nothing and
    /// always returns `Ok`; the `Result` has the form of the other changes.
    #[inline(always)]
    pub fn cut(&mut self, piece: Piece, n: usize) -> Result<Piece, AllocError>
        requires living { IsLiving self.old piece }
        requires plain { IsPlain (shape self.old piece).form }
        requires long { n ≤ text_len (shape self.old piece) }
        ensures shape { IfOk result (λ p. Lives self.new p (shortened n (shape self.old piece))) }
        ensures edit { OnOk result (IsEdit self.old self.new) }
        ensures err { OnErr result (KeepsAll self.old self.new) }
        ensures front { KeepsFront self.old self.new }
        ensures output { OnOk result (main_bytes self.new ≡ main_bytes self.old) }
        ensures stands { IfOk result (λ p. StandsShortened n piece p) }
        ensures main_err { OnErr result (main_bytes self.new ≡ main_bytes self.old) }
    {
        let left = piece.text_len() - n;
        let mut shorter = piece;
        shorter.to_byte = piece.to_byte - n;
        shorter.own_start = piece.own_start.min(left);
        shorter.own_end = piece.own_end.min(left);
        shorter.kind = None;
        Ok(shorter)
    }

    /// Makes a plain piece of the text of the first piece, the bytes, and the text of the second. Its base name is the
    /// whole text, and both flags are off. In the four cases below, a text is called last if it ends the output and
    /// begins at the innermost mark or later.
    ///
    /// If the second text is last, and the first begins at the innermost mark or later and ends where the second
    /// begins, the bytes are inserted between the two. If the second text is last, and the first is before it or in
    /// the spill, the first text and the bytes are inserted in front of the second. If the first text is last, the
    /// bytes and the second text are appended. Otherwise both texts are copied to the end. What `append` says of other
    /// pieces and of `AllocError` holds here too.
    #[inline(always)]
    pub fn join(&mut self, first: Piece, bytes: &[u8], second: Piece) -> Result<Piece, AllocError>
        requires first_living { IsLiving self.old first }
        requires second_living { IsLiving self.old second }
        ensures shape { IfOk result (λ p. Lives self.new p
            (joined (shape self.old first) bytes.now (shape self.old second))) }
        ensures edit { OnOk result (IsEdit self.old self.new) }
        ensures err { OnErr result (KeepsAll self.old self.new) }
        ensures join_of { IfOk result (λ p. IsJoinOf self.old self.new first second p (length bytes.now)) }
        ensures main_err { OnErr result (main_bytes self.new ≡ main_bytes self.old) }
    {
        if second.is_tail(self.marked_len, self.output.len()) {
            if first.is_tail(self.marked_len, second.from_byte) {
                tri!(self.insert_at(second.from_byte, bytes));
                return Ok(Piece::whole_at(first.from_byte, self.output.len()));
            }
            if first.spilled || first.to_byte <= second.from_byte {
                tri!(self.insert_piece(second.from_byte, first, bytes));
                return Ok(Piece::whole_at(second.from_byte, self.output.len()));
            }
        }
        let from = tri!(self.extend_by(first, bytes, second));
        Ok(Piece::whole_at(from, self.output.len()))
    }

    /// Extends the piece up to the end of the output. The piece must be in the output, at the innermost mark or later;
    /// the method doesn't test that. The texts and the lists stay as they are. As after each call that changes a text,
    /// of the pieces that are no older than the innermost mark only the result may be used further.
    #[inline(always)]
    pub fn up_to_end(&mut self, piece: Piece) -> Piece
        requires living { IsLiving self.old piece }
        requires inner { IsInner self.old piece }
        ensures same { self.new ≡ self.old }
        ensures shape { Lives self.new result (appended (text_after self.old piece) (shape self.old piece)) }
        ensures last { IsLast self.new result }
        ensures stands { (from to : ℕ) → Stands piece from to → Stands result from (length (main_bytes self.new)) }
    {
        let to = self.output.len();
        let n = to - piece.to_byte;
        piece.with_bytes(Place::End, piece.text_len(), n, piece.from_byte, to)
    }

    /// Returns the output.
    #[inline(always)]
    pub fn main_bytes(&self) -> &[u8]
        ensures value { result.now ≡ main_bytes self.now }
        ensures mark { frame_start (frame self.now) ≤ length (main_bytes self.now) }
    {
        self.output.as_slice()
    }

    /// Returns the text of the piece.
    #[inline(always)]
    pub fn bytes(&self, piece: Piece) -> &[u8]
        requires living { IsLiving self.now piece }
        ensures value { result.now ≡ text (shape self.now piece) }
        ensures stands { (from to : ℕ) → Stands piece from to → result.now ≡ slice_range (main_bytes self.now) from to }
        ensures range { (from to : ℕ) → Stands piece from to → (from ≤ to) × (to ≤ length (main_bytes self.now)) }
        ensures older { (f : Frame) (from to : ℕ) → IsOlder piece f → Stands piece from to → to ≤ frame_start f }
    {
        if piece.spilled {
            self.kept.spill.part(piece.from_byte, piece.to_byte)
        } else {
            self.output.part(piece.from_byte, piece.to_byte)
        }
    }

    /// Returns the length of the piece's text in bytes, which is less than 2^63.
    #[inline(always)]
    pub fn len(&self, piece: Piece) -> usize
        requires living { IsLiving self.now piece }
        ensures value { result ≡ text_len (shape self.now piece) }
        ensures fits { result < 2 ^ 63 }
    {
        self.bytes(piece).len()
    }

    /// Returns what the piece declares, or `None` if it is plain.
    #[inline(always)]
    pub fn kind(&self, piece: Piece) -> Option<Kind>
        requires living { IsLiving self.now piece }
        ensures value { result ≡ kind_of (shape self.now piece).form }
    {
        piece.kind
    }

    /// Returns whether the piece is declared with a group.
    #[inline(always)]
    pub fn has_group(&self, piece: Piece) -> bool
        requires living { IsLiving self.now piece }
        ensures value { result ≡ is_some (group_of (shape self.now piece).form) }
    {
        matches!(piece.kind, Some(_) if piece.grouped)
    }

    /// Returns the byte of the piece's text at which `after` begins, or `None` if the piece is plain.
    #[inline(always)]
    pub fn after_at(&self, piece: Piece) -> Option<usize>
        requires living { IsLiving self.now piece }
        ensures value { result ≡ after_of (shape self.now piece).form }
    {
        match piece.kind {
            None => None,
            Some(_) => Some(piece.after_start),
        }
    }

    /// Returns the range of the base name in the piece's text, in bytes.
    #[inline(always)]
    pub fn own_range(&self, piece: Piece) -> (usize, usize)
        requires living { IsLiving self.now piece }
        ensures own { result ≡ (shape self.now piece).own }
        ensures ordered { result.0 ≤ result.1 }
        ensures within { result.1 ≤ text_len (shape self.now piece) }
    {
        (piece.own_start, piece.own_end)
    }

    /// Returns whether the piece ends in template arguments.
    #[inline(always)]
    pub fn templ(&self, piece: Piece) -> bool
        ensures value { result ≡ (shape self.now piece).templ }
    {
        piece.templ
    }

    /// Returns whether the piece names a constructor, a destructor or a conversion.
    #[inline(always)]
    pub fn ctor(&self, piece: Piece) -> bool
        ensures value { result ≡ (shape self.now piece).ctor }
    {
        piece.ctor
    }

    /// Returns the piece with these flags. The result is as old as the piece.
    #[inline(always)]
    pub fn with_flags(&self, piece: Piece, templ: bool, ctor: bool) -> Piece
        requires living { IsLiving self.now piece }
        ensures shape { Lives self.now result (flagged templ ctor (shape self.now piece)) }
        ensures age { IsAsOld piece result }
        ensures stands { StandsAs piece result }
    {
        let mut flagged = piece;
        flagged.templ = templ;
        flagged.ctor = ctor;
        flagged
    }

    /// Returns the piece with these bytes of its text as its base name. The piece must not be a function. The result
    /// is as old as the piece.
    #[inline(always)]
    pub fn own_at(&self, piece: Piece, from: usize, to: usize) -> Piece
        requires living { IsLiving self.now piece }
        requires ordered { from ≤ to }
        requires within { to ≤ text_len (shape self.now piece) }
        requires kind { IsNotFunction (shape self.now piece).form }
        ensures shape { Lives self.now result (with_own from to (shape self.now piece)) }
        ensures age { IsAsOld piece result }
        ensures stands { StandsAs piece result }
    {
        let mut named = piece;
        named.own_start = from;
        named.own_end = to;
        named
    }

    /// Returns the piece with its whole text as its base name. The result is as old as the piece.
    #[inline(always)]
    pub fn whole(&self, piece: Piece) -> Piece
        requires living { IsLiving self.now piece }
        ensures shape { Lives self.now result (whole_shape (shape self.now piece)) }
        ensures age { IsAsOld piece result }
        ensures stands { StandsAs piece result }
    {
        let mut whole = piece;
        whole.own_start = 0;
        whole.own_end = piece.text_len();
        whole
    }

    /// Returns the piece's text as a plain piece, with the same base name and flags. The result is as old as the
    /// piece.
    #[inline(always)]
    pub fn plain(&self, piece: Piece) -> Piece
        requires living { IsLiving self.now piece }
        ensures shape { Lives self.now result (flattened (shape self.now piece)) }
        ensures age { IsAsOld piece result }
        ensures stands { StandsAs piece result }
    {
        let mut plain = piece;
        plain.group_start = 0;
        plain.after_start = 0;
        plain.kind = None;
        plain.grouped = false;
        plain
    }

    /// Returns a plain piece of the piece's base name, with both flags off. The result is as old as the piece.
    #[inline(always)]
    pub fn own(&self, piece: Piece) -> Piece
        requires living { IsLiving self.now piece }
        ensures shape { Lives self.now result (own_shape (shape self.now piece)) }
        ensures age { IsAsOld piece result }
    {
        let from = piece.from_byte + piece.own_start;
        let to = piece.from_byte + piece.own_end;
        Piece {
            spilled: piece.spilled,
            ..Piece::whole_at(from, to)
        }
    }

    /// Returns a plain piece as a declarator of this kind, with no group. Its `after` begins at the byte `at` of its
    /// text. The flags stay, and so does the base name unless the kind is a function. The result is as old as the
    /// piece.
    #[inline(always)]
    pub fn declare(&self, piece: Piece, kind: Kind, at: usize) -> Piece
        requires living { IsLiving self.now piece }
        requires plain { IsPlain (shape self.now piece).form }
        requires within { at ≤ text_len (shape self.now piece) }
        ensures shape { Lives self.now result (declared_at kind at (shape self.now piece)) }
        ensures age { IsAsOld piece result }
        ensures stands { StandsAs piece result }
    {
        piece.declared(kind, None, at)
    }

    /// Returns a plain piece as a declarator with a group, as `declare` does without one. The group's `(` is the byte
    /// `from` of the text, where `before` ends. Its `)` is right before the byte `at`. The result is as old as the
    /// piece.
    #[inline(always)]
    pub fn declare_group(&self, piece: Piece, kind: Kind, from: usize, at: usize) -> Piece
        requires living { IsLiving self.now piece }
        requires plain { IsPlain (shape self.now piece).form }
        requires opens { slice_index (text (shape self.now piece)) from ≡ 40 }
        requires closes { slice_index (text (shape self.now piece)) (at - 1) ≡ 41 }
        requires ordered { from + 1 < at }
        requires within { at ≤ text_len (shape self.now piece) }
        ensures shape { Lives self.now result (declared_group kind from at (shape self.now piece)) }
        ensures age { IsAsOld piece result }
        ensures stands { StandsAs piece result }
    {
        piece.declared(kind, Some(from), at)
    }
}
