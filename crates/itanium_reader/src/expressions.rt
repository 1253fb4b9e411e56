//! Literals, external names and expressions (Itanium C++ ABI 5.1, "Expressions").
ghost use Rattle.std.specs.Prelude.{◌≡◌, ◌<◌, OnOk, IsOkUnless};
ghost use Rattle.demangle_text.specs.State.{IsLiving, Lives, shape, IsRun, SameFrame};
ghost use Rattle.demangle_edit.specs.Expressions.{operand_shape};
ghost use Rattle.itanium_grammar.specs.Tree.{binary_shape};
ghost use Rattle.itanium_reader.specs.Parser as spec;
ghost use Rattle.itanium_reader.specs.Outcome.{state, Gives, TakesSome, SavedBounds};
ghost use Rattle.itanium_reader.specs.declared.stop.Stop.TheVariants.{Memory};

use crate::reader::Reader;
use crate::stop::{ReadResult, Stop};
use demangle_edit::subexpr;
use demangle_text::Piece;

impl<'a> Reader<'a> {
    /// Reads the `E` after `found`. Returns `Stop::Unreadable` if another byte is next.
    pub fn read_end(&mut self) -> ReadResult
        requires living { IsLiving self.old.buffer.value self.old.found }
        ensures reads { Gives result self.new
            (spec.before_e (Some (shape self.old.buffer.value self.old.found, state self.old))) }
        ensures kept { OnOk result (SameFrame self.old.buffer.value self.new.buffer.value) }
        ensures bounds { TakesSome 0 result (state self.old) (state self.new) }
        ensures saved { SavedBounds 1 result (state self.old) (state self.new) }
    {
        match self.rest {
            [b'E', rest @ ..] => {
                self.rest = rest;
                Ok(())
            }
            _ => Err(Stop::Unreadable),
        }
    }

    /// Puts `found` in parentheses if `paren` is true.
    #[inline(never)]
    pub fn print_operand(&mut self, paren: bool) -> ReadResult
        requires living { IsLiving self.old.buffer.value self.old.found }
        ensures shape { OnOk result (Lives self.new.buffer.value self.new.found
            (operand_shape paren (shape self.old.buffer.value self.old.found))) }
        ensures state { OnOk result (state self.new ≡ state self.old) }
        ensures run { OnOk result (IsRun self.old.buffer.value self.new.buffer.value) }
        ensures memory { IsOkUnless result Memory }
    {
        self.found = or_memory!(subexpr(&mut self.buffer, self.found, paren));
        Ok(())
    }

    /// Joins the left operand, the operator's text and the right operand, which is `found`.
    pub fn print_binary(&mut self, left: Piece, text: &str) -> ReadResult
        requires left { IsLiving self.old.buffer.value left }
        requires living { IsLiving self.old.buffer.value self.old.found }
        ensures shape { OnOk result (Lives self.new.buffer.value self.new.found
            (binary_shape (shape self.old.buffer.value left) text.now (shape self.old.buffer.value self.old.found))) }
        ensures state { OnOk result (state self.new ≡ state self.old) }
        ensures run { OnOk result (IsRun self.old.buffer.value self.new.buffer.value) }
        ensures memory { IsOkUnless result Memory }
    {
        self.found = or_memory!(self.buffer.join(left, text.as_bytes(), self.found));
        Ok(())
    }
}
