//! The substitution table, which is the list of saved shapes, and the list of scopes.
ghost use Rattle.std.specs.Prelude.{◌≡◌, ◌+◌, ◌-◌, ◌^◌, ◌<◌, ◌≤◌, [], ◌∷◌, ◌++◌, length, take, OnOk, OnErr};
ghost use Rattle.std.specs.Prelude.{IfSome, option_map, slice_get};

use crate::buffer::Buffer;
use crate::pieces::Piece;
use std::alloc::AllocError;

#[tactic(auto, using(crate::proofs::States::states), unfolding(crate::proofs::States::internals))]
impl Buffer {
    ghost use Rattle.demangle_text.specs.State.{IsLiving, shape, saved, scopes, KeepsAll, SameFrame, last_args};
    ghost use Rattle.demangle_text.specs.State.{with_arg, main_bytes};

    /// Appends the shape of the piece to the substitution table. After `AllocError` nothing has changed.
    #[inline(always)]
    pub fn save(&mut self, piece: Piece) -> Result<(), AllocError>
        requires living { IsLiving self.old piece }
        ensures saved { OnOk result (saved self.new ≡ saved self.old ++ shape self.old piece ∷ []) }
        ensures scopes { scopes self.new ≡ scopes self.old }
        ensures kept { SameFrame self.old self.new }
        ensures output { main_bytes self.new ≡ main_bytes self.old }
        ensures err { OnErr result (KeepsAll self.old self.new) }
    {
        self.save_ref(&piece)
    }

    /// Appends a piece to the substitution table as `save` does, and takes it by reference.
    #[inline(always)]
    pub fn save_ref(&mut self, piece: &Piece) -> Result<(), AllocError>
        requires living { IsLiving self.old piece.now }
        ensures saved { OnOk result (saved self.new ≡ saved self.old ++ shape self.old piece.now ∷ []) }
        ensures scopes { scopes self.new ≡ scopes self.old }
        ensures kept { SameFrame self.old self.new }
        ensures output { main_bytes self.new ≡ main_bytes self.old }
        ensures err { OnErr result (KeepsAll self.old self.new) }
    {
        tri!(self.kept.saved.push(piece, self.output.len()));
        Ok(())
    }

    /// Removes the last entry of the substitution table. The method is offered to other callers: only `probes` calls
    /// it here.
    #[inline(always)]
    pub fn unsave(&mut self)
        requires some { 0 < length (saved self.old) }
        ensures saved { saved self.new ≡ take (length (saved self.old) - 1) (saved self.old) }
        ensures scopes { scopes self.new ≡ scopes self.old }
        ensures kept { SameFrame self.old self.new }
        ensures output { main_bytes self.new ≡ main_bytes self.old }
    {
        let last = self.saved_len() - 1;
        self.kept.saved.truncate(last);
    }

    /// Returns a piece of the entry of the substitution table with the index `i`, from 0 on, or `None` past the last
    /// one.
    #[inline(always)]
    pub fn saved(&self, i: usize) -> Option<Piece>
        ensures shape { option_map (shape self.now) result ≡ slice_get (saved self.now) i }
        ensures living { IfSome result (IsLiving self.now) }
    {
        self.kept.saved.get(i)
    }

    /// Returns the length of the substitution table.
    #[inline(always)]
    pub fn saved_len(&self) -> usize
        ensures value { result ≡ length (saved self.now) }
        ensures fits { result + 1 < 2 ^ 64 }
    {
        self.kept.saved.len()
    }

    /// Opens a scope without arguments, which becomes the last one. After `AllocError` nothing has changed.
    pub fn open_scope(&mut self) -> Result<(), AllocError>
        ensures scopes { OnOk result (scopes self.new ≡ scopes self.old ++ [] ∷ []) }
        ensures saved { saved self.new ≡ saved self.old }
        ensures kept { SameFrame self.old self.new }
        ensures output { main_bytes self.new ≡ main_bytes self.old }
        ensures err { OnErr result (KeepsAll self.old self.new) }
    {
        let start = self.kept.args.len();
        self.starts.push(start)?;
        Ok(())
    }

    /// Appends the shape of the piece to the arguments of the last scope. After `AllocError` nothing has changed.
    #[inline(always)]
    pub fn push_arg(&mut self, piece: Piece) -> Result<(), AllocError>
        requires living { IsLiving self.old piece }
        requires open { 0 < length (scopes self.old) }
        ensures scopes { OnOk result (scopes self.new ≡ with_arg (shape self.old piece) (scopes self.old)) }
        ensures saved { saved self.new ≡ saved self.old }
        ensures kept { SameFrame self.old self.new }
        ensures output { main_bytes self.new ≡ main_bytes self.old }
        ensures err { OnErr result (KeepsAll self.old self.new) }
    {
        tri!(self.kept.args.push(&piece, self.output.len()));
        Ok(())
    }

    /// Returns a piece of the argument of the last scope with the index `i`, from 0 on. Returns `None` past the last
    /// argument, and if no scope is open.
    #[inline(always)]
    pub fn arg(&self, i: usize) -> Option<Piece>
        ensures shape { option_map (shape self.now) result ≡ slice_get (last_args (scopes self.now)) i }
        ensures living { IfSome result (IsLiving self.now) }
    {
        let start = *self.starts.last()?;
        let args = &self.kept.args;
        if i < args.len() - start {
            args.get(start + i)
        } else {
            None
        }
    }

    /// Returns how many scopes are open.
    #[inline(always)]
    pub fn scopes(&self) -> usize
        ensures value { result ≡ length (scopes self.now) }
    {
        self.starts.len()
    }

    /// Drops all scopes past the first n, with their arguments.
    pub fn keep_scopes(&mut self, n: usize)
        requires within { n ≤ length (scopes self.old) }
        ensures scopes { scopes self.new ≡ take n (scopes self.old) }
        ensures saved { saved self.new ≡ saved self.old }
        ensures kept { SameFrame self.old self.new }
        ensures output { main_bytes self.new ≡ main_bytes self.old }
    {
        if n < self.scopes() {
            let start = self.starts[n];
            self.kept.args.truncate(start);
            self.starts.truncate(n);
        }
    }
}
