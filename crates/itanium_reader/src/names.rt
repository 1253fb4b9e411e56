//! Names (Itanium C++ ABI 5.1.2).
ghost use Rattle.std.specs.Prelude.{◌≡◌, Some, OnOk, IsOkUnless, codes};
ghost use Rattle.demangle_text.specs.Shape.{plain_shape};
ghost use Rattle.demangle_text.specs.State.{IsLiving, shape, Lives, IsRun};
ghost use Rattle.demangle_text.specs.Calls.{IsLast};
ghost use Rattle.demangle_edit.specs.Names.{qualified_ctor, with_name_qualifiers};
ghost use Rattle.itanium_grammar.specs.Tree.{conversion_shape};
ghost use Rattle.itanium_reader.specs.Parser as spec;
ghost use Rattle.itanium_reader.specs.Outcome.{state, Gives, TakesSome, MayTakeNone, SavedBounds};
ghost use Rattle.itanium_reader.specs.declared.stop.Stop.TheVariants.{Memory};

use crate::reader::Reader;
use crate::stop::{ReadResult, Stop};
use demangle_edit::{Quals, append_number, apply_name_qualifiers, close_lambda, qualify_ctor, tag};
use demangle_text::{Piece, Place};
use itanium_syntax::names::{TagCase, source_text, tag_case};
use itanium_syntax::numerals::ordinal;
use itanium_syntax::operators::operator_here;
use itanium_syntax::scalar::source_name;

impl<'a> Reader<'a> {
    /// Reads a `<source-name>` and its ABI tags, and appends `::` and the name to the parent in `found`. If the parent
    /// is a candidate for the substitution table that isn't saved yet, it is saved first.
    #[inline(always)]
    pub fn read_source_segment(&mut self, candidate: bool) -> ReadResult
        requires living { IsLiving self.old.buffer.value self.old.found }
        requires last { IsLast self.old.buffer.value self.old.found }
        ensures reads { Gives result self.new (spec.parse_source_in (Some (shape self.old.buffer.value self.old.found))
            (spec.save_if candidate (shape self.old.buffer.value self.old.found) (state self.old))) }
        ensures run { OnOk result (IsRun self.old.buffer.value self.new.buffer.value) }
        ensures last { OnOk result (IsLast self.new.buffer.value self.new.found) }
        ensures bounds { TakesSome 0 result (state self.old) (state self.new) }
        ensures saved { SavedBounds 1 result
            (spec.save_if candidate (shape self.old.buffer.value self.old.found) (state self.old)) (state self.new) }
    {
        let bytes = self.rest;
        let Some((from, to)) = source_name(bytes, 0) else {
            // The parent counts in the table's peak also if no name follows.
            tri!(self.save_if(candidate));
            return Err(Stop::Unreadable);
        };
        tri!(self.save_if(candidate));
        let text = source_text(&bytes[from..to]);
        or_memory!(self.buffer.append_name(&mut self.found, b"::", text));
        self.rest = &bytes[to..];
        self.read_tags()
    }

    /// Skips the two bytes of the abbreviation `St`, and prints `std`.
    pub fn read_std(&mut self) -> ReadResult
        ensures shape { OnOk result (Lives self.new.buffer.value self.new.found (plain_shape (codes "std"))) }
        ensures state { OnOk result (state self.new ≡ spec.skip 2 (state self.old)) }
        ensures run { OnOk result (IsRun self.old.buffer.value self.new.buffer.value) }
        ensures last { OnOk result (IsLast self.new.buffer.value self.new.found) }
        ensures memory { IsOkUnless result Memory }
    {
        self.skip(2);
        self.found = or_memory!(self.buffer.push(b"std"));
        Ok(())
    }

    /// Skips the two bytes of a `<ctor-dtor-name>` and replaces the class in `found` by its constructor, or by its
    /// destructor if `destructor` is true. ABI tags aren't read.
    pub fn read_ctor_dtor(&mut self, destructor: bool) -> ReadResult
        requires living { IsLiving self.old.buffer.value self.old.found }
        ensures shape { OnOk result (Lives self.new.buffer.value self.new.found
            (qualified_ctor (shape self.old.buffer.value self.old.found) destructor)) }
        ensures state { OnOk result (state self.new ≡ spec.skip 2 (state self.old)) }
        ensures run { OnOk result (IsRun self.old.buffer.value self.new.buffer.value) }
        ensures last { OnOk result (IsLast self.new.buffer.value self.new.found) }
        ensures memory { IsOkUnless result Memory }
    {
        self.skip(2);
        self.found = or_memory!(qualify_ctor(&mut self.buffer, self.found, destructor));
        Ok(())
    }

    /// Reads `<abi-tags> ::= (B <source-name>)*` and appends them to the name in `found`. Most names have none.
    #[tactic(auto, using(crate::proofs::Rules::tagged_names))]
    #[inline(always)]
    pub fn read_tags(&mut self) -> ReadResult
        requires living { IsLiving self.old.buffer.value self.old.found }
        ensures reads { Gives result self.new
            (spec.parse_tags (shape self.old.buffer.value self.old.found) (state self.old)) }
        ensures run { OnOk result (IsRun self.old.buffer.value self.new.buffer.value) }
        ensures last { IsLast self.old.buffer.value self.old.found
            → OnOk result (IsLast self.new.buffer.value self.new.found) }
        ensures bounds { MayTakeNone 1 result (state self.old) (state self.new) }
        ensures saved { SavedBounds 0 result (state self.old) (state self.new) }
    {
        match tag_case(self.rest) {
            TagCase::NoTag => Ok(()),
            TagCase::NextTag => self.read_some_tags(),
        }
    }

    /// Reads the tags for `read_tags`, if there is at least one.
    #[tactic(auto, using(crate::proofs::Rules::tags))]
    #[cold]
    fn read_some_tags(&mut self) -> ReadResult
        requires living { IsLiving self.old.buffer.value self.old.found }
        ensures reads { Gives result self.new
            (spec.parse_tags (shape self.old.buffer.value self.old.found) (state self.old)) }
        ensures run { OnOk result (IsRun self.old.buffer.value self.new.buffer.value) }
        ensures last { IsLast self.old.buffer.value self.old.found
            → OnOk result (IsLast self.new.buffer.value self.new.found) }
        ensures bounds { MayTakeNone 1 result (state self.old) (state self.new) }
        ensures saved { SavedBounds 0 result (state self.old) (state self.new) }
    {
        while let TagCase::NextTag = tag_case(self.rest) {
            self.skip(1);
            let Some((from, to)) = source_name(self.rest, 0) else {
                return Err(Stop::Unreadable);
            };
            let text = source_text(&self.rest[from..to]);
            self.found = or_memory!(tag(&mut self.buffer, self.found, text));
            self.rest = &self.rest[to..];
        }
        Ok(())
    }

    /// Reads `<unnamed-type-name> ::= Ut [<nonnegative number>] _`, after its `Ut`.
    #[inline(never)]
    pub fn read_unnamed_type(&mut self) -> ReadResult
        ensures reads { Gives result self.new (spec.parse_unnamed_type (state self.old)) }
        ensures run { OnOk result (IsRun self.old.buffer.value self.new.buffer.value) }
        ensures last { OnOk result (IsLast self.new.buffer.value self.new.found) }
        ensures bounds { TakesSome 0 result (state self.old) (state self.new) }
        ensures saved { SavedBounds 1 result (state self.old) (state self.new) }
    {
        let Some((number, rest)) = ordinal(self.rest) else {
            return Err(Stop::Unreadable);
        };
        self.rest = rest;
        let opened = or_memory!(self.buffer.push(b"{unnamed type#"));
        let numbered = or_memory!(append_number(&mut self.buffer, opened, number));
        let closed = or_memory!(self.buffer.append(numbered, b"}"));
        self.found = self.buffer.whole(closed);
        Ok(())
    }

    /// Reads `<operator-name> ::= li <source-name>`, after its `li`.
    #[inline(never)]
    pub fn read_literal_operator_name(&mut self) -> ReadResult
        ensures reads { Gives result self.new (spec.parse_literal_operator (state self.old)) }
        ensures run { OnOk result (IsRun self.old.buffer.value self.new.buffer.value) }
        ensures last { OnOk result (IsLast self.new.buffer.value self.new.found) }
        ensures bounds { TakesSome 0 result (state self.old) (state self.new) }
        ensures saved { SavedBounds 2 result (state self.old) (state self.new) }
    {
        let Some((from, to)) = source_name(self.rest, 0) else {
            return Err(Stop::Unreadable);
        };
        let text = source_text(&self.rest[from..to]);
        let opened = or_memory!(self.buffer.push(b"operator\"\" "));
        let named = or_memory!(self.buffer.append(opened, text));
        self.found = self.buffer.whole(named);
        self.rest = &self.rest[to..];
        Ok(())
    }

    /// Reads an `<operator-name>` that is a code of two letters.
    #[inline(never)]
    pub fn read_operator_name(&mut self) -> ReadResult
        ensures reads { Gives result self.new (spec.parse_operator (state self.old)) }
        ensures run { OnOk result (IsRun self.old.buffer.value self.new.buffer.value) }
        ensures last { OnOk result (IsLast self.new.buffer.value self.new.found) }
        ensures bounds { TakesSome 0 result (state self.old) (state self.new) }
        ensures saved { SavedBounds 2 result (state self.old) (state self.new) }
    {
        let Some(text) = operator_here(self.rest) else {
            return Err(Stop::Unreadable);
        };
        let opened = or_memory!(self.buffer.push(b"operator"));
        let named = or_memory!(self.buffer.append(opened, text.as_bytes()));
        self.found = self.buffer.whole(named);
        self.skip(2);
        Ok(())
    }

    /// Reads the end of a lambda's parameters, `E [<nonnegative number>] _`.
    #[inline(never)]
    pub fn end_lambda(&mut self, list: Piece) -> ReadResult
        requires living { IsLiving self.old.buffer.value list }
        ensures reads { Gives result self.new (spec.lambda_end (shape self.old.buffer.value list) (state self.old)) }
        ensures run { OnOk result (IsRun self.old.buffer.value self.new.buffer.value) }
        ensures last { OnOk result (IsLast self.new.buffer.value self.new.found) }
        ensures bounds { TakesSome 0 result (state self.old) (state self.new) }
        ensures saved { SavedBounds 1 result (state self.old) (state self.new) }
    {
        self.skip(1);
        let Some((number, rest)) = ordinal(self.rest) else {
            return Err(Stop::Unreadable);
        };
        self.rest = rest;
        self.found = or_memory!(close_lambda(&mut self.buffer, list, number));
        Ok(())
    }

    /// Appends the own qualifiers to the name in `found`: a reference always, words only if `shown` is true. If any
    /// qualifier is set, `found` becomes a plain piece. The method isn't inlined, to keep the stack frame of names
    /// small.
    #[inline(never)]
    pub fn print_quals(&mut self, quals: Quals, shown: bool) -> ReadResult
        requires living { IsLiving self.old.buffer.value self.old.found }
        ensures shape { OnOk result (Lives self.new.buffer.value self.new.found
            (with_name_qualifiers (shape self.old.buffer.value self.old.found) quals shown)) }
        ensures state { OnOk result (state self.new ≡ state self.old) }
        ensures run { OnOk result (IsRun self.old.buffer.value self.new.buffer.value) }
        ensures memory { IsOkUnless result Memory }
    {
        if !quals.is_set() {
            return Ok(());
        }
        if !shown && quals.reference.is_none() {
            // Words that aren't printed still make the name a plain piece.
            self.found = self.buffer.plain(self.found);
            return Ok(());
        }
        self.found = or_memory!(apply_name_qualifiers(&mut self.buffer, self.found, quals, shown));
        Ok(())
    }

    /// Replaces the type in `found` by the name of the conversion operator to it: `operator`, a space and the type.
    #[inline(never)]
    pub fn make_conversion_name(&mut self) -> ReadResult
        requires living { IsLiving self.old.buffer.value self.old.found }
        ensures shape { OnOk result (Lives self.new.buffer.value self.new.found
            (conversion_shape (shape self.old.buffer.value self.old.found))) }
        ensures state { OnOk result (state self.new ≡ state self.old) }
        ensures run { OnOk result (IsRun self.old.buffer.value self.new.buffer.value) }
        ensures last { OnOk result (IsLast self.new.buffer.value self.new.found) }
        ensures memory { IsOkUnless result Memory }
    {
        let plain = self.buffer.plain(self.found);
        let named = or_memory!(self.buffer.insert(plain, Place::Start, b"operator "));
        let whole = self.buffer.whole(named);
        self.found = self.buffer.with_flags(whole, false, true);
        Ok(())
    }
}
