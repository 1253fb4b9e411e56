//! Special names (Itanium C++ ABI 5.1.4, "Other Special Functions and Entities").
ghost use Rattle.std.specs.Prelude.{◌≡◌, ◌<◌, ◌++◌, OnOk, IfOk, codes, decimal, length, IsOkUnless};
ghost use Rattle.demangle_text.specs.Shape.{text, appended, plain_shape};
ghost use Rattle.demangle_text.specs.State.{IsLiving, Lives, shape, IsEdit, IsRun};
ghost use Rattle.demangle_text.specs.Calls.{IsInner, IsLast, text_after};
ghost use Rattle.itanium_grammar.specs.Tree.{offset_sign, offset_text, worded_shape};
ghost use Rattle.itanium_reader.specs.Parser as spec;
ghost use Rattle.itanium_reader.specs.Outcome.{state, Gives, TakesSome, SavedBounds};
ghost use Rattle.itanium_reader.specs.declared.stop.Stop.TheVariants.{Memory};

use crate::reader::Reader;
use crate::stop::{ReadResult, Stop};
use demangle_edit::append_number;
use demangle_text::{Buffer, Piece};
use itanium_syntax::numerals::{Radix, index_of};
use itanium_syntax::offsets::{CallOffset, Signed, ThunkOffsets, thunk_offsets};
use std::alloc::AllocError;

/// Appends the bytes to the words, and then the number with its sign.
fn append_signed(
    buf: &mut Buffer,
    words: Piece,
    bytes: &[u8],
    number: Signed,
) -> Result<Piece, AllocError>
    requires words { IsLiving buf.old words }
    ensures shape { IfOk result (λ p. Lives buf.new p
        (appended (bytes.now ++ (offset_sign number ++ decimal number.magnitude)) (shape buf.old words))) }
    ensures edit { OnOk result (IsEdit buf.old buf.new) }
{
    let opened = tri!(buf.append(words, bytes));
    let sign = if number.negative { "-" } else { "" };
    let signed = tri!(buf.append(opened, sign.as_bytes()));
    append_number(buf, signed, number.magnitude)
}

/// Appends the printing of a `<call-offset>` to the words, and then `, `.
fn append_offset(buf: &mut Buffer, words: Piece, offset: CallOffset) -> Result<Piece, AllocError>
    requires words { IsLiving buf.old words }
    ensures shape { IfOk result (λ p. Lives buf.new p
        (appended (offset_text offset ++ codes ", ") (shape buf.old words))) }
    ensures edit { OnOk result (IsEdit buf.old buf.new) }
    ensures last { IfOk result (IsLast buf.new) }
{
    match offset {
        CallOffset::Plain(number) => {
            let begun = tri!(append_signed(buf, words, b"{offset(", number));
            buf.append(begun, b")}, ")
        }
        CallOffset::Virtual(first, second) => {
            let begun = tri!(append_signed(buf, words, b"{virtual offset(", first));
            let both = tri!(append_signed(buf, begun, b", ", second));
            buf.append(both, b")}, ")
        }
    }
}

/// Pushes the words that a thunk with these offsets has in front of its encoding.
fn push_thunk_words(buf: &mut Buffer, offsets: ThunkOffsets) -> Result<Piece, AllocError>
    ensures shape { IfOk result (λ p. Lives buf.new p (plain_shape (spec.thunk_words offsets))) }
    ensures edit { OnOk result (IsEdit buf.old buf.new) }
    ensures last { IfOk result (IsLast buf.new) }
{
    let begun = tri!(buf.push(b"{virtual override thunk("));
    let words = match offsets {
        ThunkOffsets::Single(offset) => append_offset(buf, begun, offset),
        ThunkOffsets::Covariant(first, second) => {
            let one = tri!(append_offset(buf, begun, first));
            append_offset(buf, one, second)
        }
    };
    Ok(buf.whole(tri!(words)))
}

impl<'a> Reader<'a> {
    /// Makes one piece of the words, the text of `found`, and the bytes of `close`. The text of `found` must follow
    /// the words in the output and end it.
    #[inline(always)]
    pub fn join_words(&mut self, words: Piece, close: &[u8]) -> ReadResult
        requires words { IsLiving self.old.buffer.value words }
        requires plain { shape self.old.buffer.value words ≡ plain_shape (text (shape self.old.buffer.value words)) }
        requires inner { IsInner self.old.buffer.value words }
        requires after { text_after self.old.buffer.value words ≡ text (shape self.old.buffer.value self.old.found) }
        ensures shape { OnOk result (Lives self.new.buffer.value self.new.found (worded_shape
            (text (shape self.old.buffer.value words)) (shape self.old.buffer.value self.old.found) close.now)) }
        ensures state { OnOk result (state self.new ≡ state self.old) }
        ensures run { OnOk result (IsRun self.old.buffer.value self.new.buffer.value) }
        ensures memory { IsOkUnless result Memory }
    {
        let worded = self.buffer.up_to_end(words);
        let closed = or_memory!(self.buffer.append(worded, close));
        self.found = self.buffer.whole(closed);
        Ok(())
    }

    /// Reads `T <call-offset>` or `T c <call-offset> <call-offset>`, and pushes the text that a thunk with these
    /// offsets has in front of its encoding.
    #[tactic(auto, unfolding(crate::specs::Parser::thunk_front))]
    #[cold]
    pub fn open_thunk(&mut self) -> ReadResult
        requires some { 0 < length self.old.rest.now }
        ensures reads { Gives result self.new (spec.thunk_front (state self.old)) }
        ensures plain { OnOk result (shape self.new.buffer.value self.new.found
            ≡ plain_shape (text (shape self.new.buffer.value self.new.found))) }
        ensures last { OnOk result (IsLast self.new.buffer.value self.new.found) }
        ensures run { OnOk result (IsRun self.old.buffer.value self.new.buffer.value) }
        ensures bounds { TakesSome 0 result (state self.old) (state self.new) }
        ensures saved { SavedBounds 1 result (state self.old) (state self.new) }
    {
        self.skip(1);
        let Some((offsets, rest)) = thunk_offsets(self.rest) else {
            return Err(Stop::Unreadable);
        };
        self.rest = rest;
        self.found = or_memory!(push_thunk_words(&mut self.buffer, offsets));
        Ok(())
    }

    /// Reads the `[<seq-id>] _` of a reference temporary whose name is `found`.
    pub fn end_temporary(&mut self) -> ReadResult
        requires living { IsLiving self.old.buffer.value self.old.found }
        ensures reads { Gives result self.new
            (spec.temporary_end (shape self.old.buffer.value self.old.found) (state self.old)) }
        ensures run { OnOk result (IsRun self.old.buffer.value self.new.buffer.value) }
        ensures bounds { TakesSome 0 result (state self.old) (state self.new) }
        ensures saved { SavedBounds 1 result (state self.old) (state self.new) }
    {
        let Some((number, rest)) = index_of(Radix::Base36, self.rest) else {
            return Err(Stop::Unreadable);
        };
        self.rest = rest;
        let mark = self.buffer.open();
        let begun = or_memory!(self.buffer.push(b"reference temporary #"));
        let numbered = or_memory!(append_number(&mut self.buffer, begun, number as u64));
        let whole = or_memory!(self.buffer.join(numbered, b" for ", self.found));
        self.found = or_memory!(self.buffer.close(mark, whole));
        Ok(())
    }
}
