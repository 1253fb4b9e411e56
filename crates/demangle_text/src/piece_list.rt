//! A list of pieces that grows: the front of a vector that is as long as what is reserved.
ghost use Rattle.std.specs.Prelude.{◌≡◌, ℕ, ◌+◌, ◌-◌, ◌^◌, ◌<◌, ◌≤◌, List, [], ◌∷◌, ◌++◌, length, take, slice_get};
ghost use Rattle.std.specs.Prelude.{OnOk, OnErr, All, map, slice_set, slice_index_or};
ghost use Rattle.std.specs.List.{AllWithin, HoldsAt};
ghost use Rattle.demangle_text.specs.Pieces.{EndsBy, IsApart, AreReached, carried, pieces_of, reaches_of};

use crate::pieces::Piece;
use std::alloc::{AllocError, Global};
use std::marker::Model;

// The number of pieces for which the first allocation has capacity.
const FIRST_CAPACITY: usize = 16;

// A piece and its `reach`: an upper bound on the end offsets of this and all earlier pieces that are in the output.
// Pieces in the spill don't count.
#[derive(Clone, Copy)]
pub(crate) struct Entry {
    piece: Piece,
    reach: usize,
}

#[derive(Drop)]
pub(crate) struct PieceList {
    entries: Vec<Entry>,
    count: usize,
}

// A block of the output that is moved, from the byte `from` up to `end`. What ends by the byte `low` stays.
#[derive(Clone, Copy)]
pub(crate) struct Block {
    pub(crate) low: usize,
    pub(crate) from: usize,
    pub(crate) end: usize,
}

impl Model for PieceList {
    ghost use Rattle.std.specs.Prelude.{List, take};
    ghost use Rattle.demangle_text.specs.declared.pieces.Piece.{Piece};

    ghost Value = { List Piece };

    ghost use Rattle.demangle_text.specs.Pieces.{AreReached, pieces_of, reaches_of};

    ghost view = { λ r. take r.count (pieces_of r.entries.items) };

    ghost invariant = { λ r. AreReached (pieces_of r.entries.items) (reaches_of r.entries.items) r.count };
}

impl PieceList {
    pub(crate) fn new(alloc: Global) -> Self
        ensures empty { result ≡ [] }
    {
        PieceList {
            entries: Vec::new(alloc),
            count: 0,
        }
    }

    #[inline(always)]
    pub(crate) fn len(&self) -> usize
        ensures value { result ≡ length self.now }
        ensures fits { result + 1 < 2 ^ 64 }
    {
        self.count
    }

    // Returns an upper bound on the end offsets of those of the first n pieces that are in the output.
    #[inline(always)]
    fn reach(&self, n: usize) -> usize
        requires within { n ≤ length self.now }
        ensures ends { AllWithin (EndsBy result) self.now 0 n }
        ensures none { n ≡ 0 → result ≡ 0 }
    {
        if n == 0 { 0 } else { self.entries[n - 1].reach }
    }

    // Returns how many of the first pieces stay where they are if all after the byte `low` of the output is moved.
    #[inline(always)]
    pub(crate) fn count_ending_by(&self, low: usize) -> usize
        ensures within { result ≤ length self.now }
        ensures ends { AllWithin (EndsBy low) self.now 0 result }
    {
        let mut n = self.count;
        while low < self.reach(n) {
            n -= 1;
        }
        n
    }

    // Keeps the first n pieces.
    #[inline(always)]
    pub(crate) fn truncate(&mut self, n: usize)
        requires within { n ≤ length self.old }
        ensures value { self.new ≡ take n self.old }
    {
        self.count = n;
    }

    #[inline(always)]
    pub(crate) fn piece_at(&self, i: usize) -> Piece
        requires within { i < length self.now }
        ensures value { result ≡ slice_index_or self.now i result }
    {
        self.entries[i].piece
    }

    #[inline(always)]
    pub(crate) fn get(&self, i: usize) -> Option<Piece>
        ensures value { result ≡ slice_get self.now i }
    {
        if i < self.count {
            Some(self.entries[i].piece)
        } else {
            None
        }
    }

    // Replaces the piece with the index `i`. The new piece must not end after the old one. A piece in the spill ends
    // after none.
    pub(crate) fn set(&mut self, i: usize, piece: Piece)
        requires within { i < length self.old }
        requires ends { (end : ℕ) → HoldsAt (EndsBy end) self.old i → EndsBy end piece }
        ensures value { self.new ≡ slice_set self.old i piece }
    {
        self.entries[i].piece = piece;
    }

    // Appends a piece. All pieces must end by the byte `end` of the output.
    #[inline(always)]
    pub(crate) fn push(&mut self, piece: &Piece, end: usize) -> Result<(), AllocError>
        requires ends { All (EndsBy end) self.old }
        requires last { EndsBy end piece.now }
        ensures ok { OnOk result (self.new ≡ self.old ++ piece.now ∷ []) }
        ensures err { OnErr result (self.new ≡ self.old) }
    {
        let at = self.count;
        if at == self.entries.len() {
            tri!(grow(&mut self.entries));
        }
        self.entries[at] = Entry {
            piece: *piece,
            reach: end,
        };
        self.count = at + 1;
        Ok(())
    }

    // Moves the pieces that lie in a block along, when the block is moved to `dest`.
    #[inline(always)]
    pub(crate) fn shift(&mut self, block: Block, dest: usize)
        requires ordered { All (λ p. p.from_byte ≤ p.to_byte) self.old }
        requires block { block.from ≤ block.end }
        requires apart { All (IsApart block.low block.from block.end) self.old }
        requires fits { dest + (block.end - block.from) < 2 ^ 64 }
        ensures value { self.new ≡ map (carried block.low block.from dest) self.old }
    {
        let first = self.count_ending_by(block.low);
        let mut reach = self.reach(first);
        for i in first..self.count {
            let mut piece = self.entries[i].piece;
            if !piece.spilled {
                if block.low < piece.to_byte {
                    piece.from_byte = dest + (piece.from_byte - block.from);
                    piece.to_byte = dest + (piece.to_byte - block.from);
                }
                reach = reach.max(piece.to_byte);
            }
            self.entries[i] = Entry { piece, reach };
        }
    }
}

// Grows the list, and fills it up with pieces of no bytes.
#[cold]
#[inline(never)]
fn grow(entries: &mut Vec<Entry>) -> Result<(), AllocError>
    ensures pieces { take (length entries.old.items) (pieces_of entries.new.items) ≡ pieces_of entries.old.items }
    ensures reaches { take (length entries.old.items) (reaches_of entries.new.items) ≡ reaches_of entries.old.items }
    ensures within { length entries.old.items ≤ length entries.new.items }
    ensures capacity { OnOk result (length entries.old.items < length entries.new.items) }
{
    let twice = entries.len().saturating_mul(2);
    let none = Entry {
        piece: Piece::whole_at(0, 0),
        reach: 0,
    };
    entries.resize(twice.max(FIRST_CAPACITY), none)
}
