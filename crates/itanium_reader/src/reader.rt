//! The state that the readers share: the bytes that are left, the buffer with the substitution table, and the last
//! piece.
ghost use Rattle.std.specs.Prelude.{◌≡◌, ◌<◌, ◌≤◌, ◌+◌, ◌^◌, ◌++◌, IfOk, OnOk, length, take, max, true, IsOkUnless};
ghost use Rattle.demangle_text.specs.Shape.{plain_shape, text};
ghost use Rattle.demangle_text.specs.State.{Closes, Stands, frame_start, inside};
ghost use Rattle.demangle_text.specs.State.{IsLiving, Lives, shape, IsRun, SameFrame, saved, scopes, main_bytes, frame};
ghost use Rattle.demangle_text.specs.Calls.{IsLast};
ghost use Rattle.demangle_edit.specs.Built.{separated, separator};
ghost use Rattle.itanium_syntax.specs.Names.{past_internal};
ghost use Rattle.itanium_syntax.specs.Types.{builtin_text, past_builtin};
ghost use Rattle.itanium_grammar.specs.Answer.{max_text};
ghost use Rattle.itanium_reader.specs.Parser as spec;
ghost use Rattle.itanium_reader.specs.Outcome.{state, Enters, Gives, ChecksWidth, CountFits, TakesSome, SavedBounds};
ghost use Rattle.itanium_reader.specs.declared.stop.Stop.TheVariants.{Memory};

use crate::stop::{ReadResult, Stop};
use demangle_edit::Quals;
use demangle_text::{Buffer, Mark, Piece};
use itanium_syntax::abbreviations::{abbreviation_of, abbreviation_own_len, abbreviation_text};
use itanium_syntax::context::Context;
use itanium_syntax::names::{SubstitutionCase, source_text, substitution_case};
use itanium_syntax::numerals::{Radix, index_of};
use itanium_syntax::scalar::source_name;
use itanium_syntax::types::{builtin_text, past_builtin};
use std::alloc::AllocError;

/// The most bytes that a counted production of a symbol may print, also if its text is dropped later. The counted
/// productions are names, types, argument lists, packs, thunks and expressions.
pub const MAX_TEXT: usize = 1_048_576;

/// Returns `MAX_TEXT`, in bytes. It is a function, because proofs get the value from a clause.
#[inline(always)]
#[tactic(auto, using(crate::proofs::Texts::max_text_is))]
pub fn text_limit() -> usize
    ensures value { result ≡ max_text }
    ensures fits { result < 2 ^ 63 }
{
    MAX_TEXT
}

/// Reads mangled bytes. Most productions have a function over a `Reader`, or a method. The function returns `Ok` if the
/// production was read; then `found` is mostly the piece of its printing. It returns `Stop::Unreadable` if the bytes
/// aren't read as the production within the limits on nesting and text, and `Stop::Memory` if an allocation fails.
#[derive(Drop)]
pub struct Reader<'a> {
    /// The bytes that aren't read yet.
    pub rest: &'a [u8],
    /// The output and the spill, the substitution table and the scopes.
    pub buffer: Box<Buffer>,
    /// The printing of what was read last. The comments of the methods call this piece `found`.
    pub found: Piece,
    /// The own qualifiers of the last name that was read, or `None`. Each further name overwrites them. `read_name`
    /// prints them, unless it reads a bare name; then its caller does.
    pub quals: Option<Quals>,
    /// The number of counted productions that were entered.
    pub entered: usize,
    /// The peak length of the table at the `E` of a nested name, its last segment counted. The grammar saves that
    /// segment and removes it again at the `E`; this code only records the length. The method `most_saved` returns the
    /// maximum of this field and the length of the table.
    pub recorded_peak: usize,
}

impl<'a> Reader<'a> {
    /// Skips n bytes, or all if fewer are left.
    #[tactic(auto, using(std::proofs::lemmas::List::drop_min))]
    #[inline(always)]
    pub fn skip(&mut self, n: usize)
        ensures state { state self.new ≡ spec.skip n (state self.old) }
        ensures found { self.new.found ≡ self.old.found }
        ensures buffer { self.new.buffer.value ≡ self.old.buffer.value }
    {
        self.rest = &self.rest[n.min(self.rest.len())..];
    }

    /// Skips the `M` of a data member's initializer, if it is next.
    pub fn skip_initializer(&mut self)
        ensures state { state self.new ≡ spec.past_initializer (state self.old) }
        ensures within { length self.new.rest.now ≤ length self.old.rest.now }
        ensures saved { saved self.new.buffer.value ≡ saved self.old.buffer.value }
        ensures found { self.new.found ≡ self.old.found }
        ensures buffer { self.new.buffer.value ≡ self.old.buffer.value }
    {
        // Mostly no `M` is next. Then this method writes nothing.
        if let [b'M', rest @ ..] = self.rest {
            self.rest = rest;
        }
    }

    /// Skips the `L` of an internal name, if it is next and a digit follows it.
    #[inline(always)]
    pub fn skip_internal(&mut self)
        ensures state { state self.new ≡ spec.with_rest (past_internal self.old.rest.now) (state self.old) }
        ensures within { length self.new.rest.now ≤ length self.old.rest.now }
        ensures saved { saved self.new.buffer.value ≡ saved self.old.buffer.value }
        ensures found { self.new.found ≡ self.old.found }
        ensures buffer { self.new.buffer.value ≡ self.old.buffer.value }
    {
        if let [b'L', b'0'..=b'9', ..] = self.rest {
            self.rest = &self.rest[1..];
        }
    }

    /// Appends `found` to the substitution table. Neither `found` nor the output changes.
    #[inline(always)]
    pub fn save_found(&mut self) -> ReadResult
        requires living { IsLiving self.old.buffer.value self.old.found }
        ensures shape { OnOk result (Lives self.new.buffer.value self.new.found
            (shape self.old.buffer.value self.old.found)) }
        ensures state { OnOk result (state self.new ≡ spec.save
            (shape self.old.buffer.value self.old.found) (state self.old)) }
        ensures longer { OnOk result (length (saved self.new.buffer.value) ≡ length (saved self.old.buffer.value) + 1) }
        ensures most { OnOk result ((state self.new).most_saved
            ≡ max (state self.old).most_saved (length (saved self.old.buffer.value) + 1)) }
        ensures output { main_bytes self.new.buffer.value ≡ main_bytes self.old.buffer.value }
        ensures found { self.new.found ≡ self.old.found }
        ensures kept { OnOk result (SameFrame self.old.buffer.value self.new.buffer.value) }
        ensures memory { IsOkUnless result Memory }
    {
        or_memory!(self.buffer.save_ref(&self.found));
        Ok(())
    }

    /// Brings `found` to the end of the output, so that the rest of a name can be appended right after it.
    #[inline(always)]
    pub fn copy_found_to_end(&mut self) -> ReadResult
        requires living { IsLiving self.old.buffer.value self.old.found }
        ensures shape { OnOk result (Lives self.new.buffer.value self.new.found
            (shape self.old.buffer.value self.old.found)) }
        ensures last { OnOk result (IsLast self.new.buffer.value self.new.found) }
        ensures state { OnOk result (state self.new ≡ state self.old) }
        ensures kept { OnOk result (SameFrame self.old.buffer.value self.new.buffer.value) }
        ensures memory { IsOkUnless result Memory }
    {
        or_memory!(self.buffer.copy_to_end(&mut self.found));
        Ok(())
    }

    /// Closes the innermost mark. Afterwards the output since that mark is the text of `found`.
    #[inline(always)]
    pub fn close_found(&mut self, mark: Mark) -> ReadResult
        requires innermost { frame self.old.buffer.value ≡ inside mark }
        requires living { IsLiving self.old.buffer.value self.old.found }
        ensures shape { OnOk result (Lives self.new.buffer.value self.new.found
            (shape self.old.buffer.value self.old.found)) }
        ensures state { OnOk result (state self.new ≡ state self.old) }
        ensures quals { OnOk result (self.new.quals ≡ self.old.quals) }
        ensures entered { self.new.entered ≡ self.old.entered }
        ensures closed { OnOk result (Closes self.old.buffer.value self.new.buffer.value mark) }
        ensures output { OnOk result (main_bytes self.new.buffer.value ≡ take (frame_start (inside mark))
            (main_bytes self.old.buffer.value) ++ text (shape self.old.buffer.value self.old.found)) }
        ensures stands { OnOk result (Stands self.new.found (frame_start (inside mark))
            (length (main_bytes self.new.buffer.value))) }
        ensures memory { IsOkUnless result Memory }
    {
        or_memory!(self.buffer.close_in_place(mark, &mut self.found));
        Ok(())
    }

    /// Appends `found` to the substitution table if it is a candidate for it that isn't saved yet.
    #[inline(always)]
    pub fn save_if(&mut self, candidate: bool) -> ReadResult
        requires living { IsLiving self.old.buffer.value self.old.found }
        ensures shape { OnOk result (Lives self.new.buffer.value self.new.found
            (shape self.old.buffer.value self.old.found)) }
        ensures state { OnOk result (state self.new ≡ spec.save_if candidate
            (shape self.old.buffer.value self.old.found) (state self.old)) }
        ensures found { OnOk result (self.new.found ≡ self.old.found) }
        ensures output { main_bytes self.new.buffer.value ≡ main_bytes self.old.buffer.value }
        ensures kept { OnOk result (SameFrame self.old.buffer.value self.new.buffer.value) }
        ensures memory { IsOkUnless result Memory }
    {
        if candidate {
            tri!(self.save_found());
        }
        Ok(())
    }

    /// Skips the `E` of a `<nested-name>`. The grammar saves the last segment and removes it at the `E`. This code
    /// never saves that segment, and only records in `recorded_peak` how long the table would have been.
    #[inline(always)]
    pub fn end_nested_name(&mut self, candidate: bool)
        requires living { IsLiving self.old.buffer.value self.old.found }
        ensures state { state self.new ≡ spec.taken_back candidate (spec.skip 1 (spec.save_if candidate
            (shape self.old.buffer.value self.old.found) (state self.old))) }
        ensures found { self.new.found ≡ self.old.found }
        ensures buffer { self.new.buffer.value ≡ self.old.buffer.value }
    {
        self.skip(1);
        if candidate {
            self.recorded_peak = self.recorded_peak.max(self.buffer.saved_len() + 1);
        }
    }

    /// Returns whether the piece is longer than `MAX_TEXT` bytes.
    #[inline(always)]
    pub fn is_too_wide(&self, piece: Piece) -> bool
        requires living { IsLiving self.now.buffer.value piece }
        ensures value { result ≡ spec.is_too_wide (shape self.now.buffer.value piece) }
    {
        self.buffer.len(piece) > text_limit()
    }

    /// Returns `Stop::Unreadable` if `found` is longer than `MAX_TEXT` bytes.
    #[inline(always)]
    pub fn check_width(&self) -> ReadResult
        requires living { IsLiving self.now.buffer.value self.now.found }
        ensures fits { ChecksWidth result (shape self.now.buffer.value self.now.found) }
    {
        if self.is_too_wide(self.found) {
            return Err(Stop::Unreadable);
        }
        Ok(())
    }

    /// Enters a counted production. At most `depth` counted productions may nest, this one included. Returns how many
    /// may nest inside it, or `Stop::Unreadable` if `depth` is 0.
    #[inline(always)]
    pub fn enter(&mut self, depth: usize) -> Result<usize, Stop>
        requires count_fits { CountFits 1 (state self.old) }
        ensures enters { Enters result depth (state self.old) (state self.new) }
        ensures found { self.new.found ≡ self.old.found }
        ensures buffer { self.new.buffer.value ≡ self.old.buffer.value }
    {
        if depth == 0 {
            return Err(Stop::Unreadable);
        }
        self.entered += 1;
        Ok(depth - 1)
    }

    /// Returns the most entries that the grammar's substitution table had at one moment. The grammar's table also gets
    /// the last segment of a nested name.
    #[inline(always)]
    pub fn most_saved(&self) -> usize
        ensures value { result ≡ (state self.now).most_saved }
    {
        self.recorded_peak.max(self.buffer.saved_len())
    }

    /// Reads `<source-name> ::= <positive length number> <identifier>`.
    #[inline(always)]
    pub fn read_source_name(&mut self) -> ReadResult
        ensures reads { Gives result self.new (spec.parse_source (state self.old)) }
        ensures kept { OnOk result (SameFrame self.old.buffer.value self.new.buffer.value) }
        ensures last { OnOk result (IsLast self.new.buffer.value self.new.found) }
        ensures bounds { TakesSome 0 result (state self.old) (state self.new) }
        ensures saved { SavedBounds 2 result (state self.old) (state self.new) }
    {
        let bytes = self.rest;
        let Some((from, to)) = source_name(bytes, 0) else {
            return Err(Stop::Unreadable);
        };
        let text = source_text(&bytes[from..to]);
        self.found = or_memory!(self.buffer.push(text));
        self.rest = &bytes[to..];
        Ok(())
    }

    /// Reads `<substitution> ::= S [<seq-id>] _ | Sa | Sb | Ss | Si | So | Sd`.
    #[tactic(auto, using(crate::proofs::Rules::substitutions))]
    #[inline(always)]
    pub fn read_substitution(&mut self) -> ReadResult
        ensures reads { Gives result self.new (spec.parse_substitution (state self.old)) }
        ensures kept { OnOk result (SameFrame self.old.buffer.value self.new.buffer.value) }
        ensures bounds { TakesSome 0 result (state self.old) (state self.new) }
        ensures saved { SavedBounds 2 result (state self.old) (state self.new) }
    {
        self.skip(1);
        match substitution_case(self.rest) {
            SubstitutionCase::AbbreviationSubstitution => {
                let Some(abbreviation) = abbreviation_of(self.rest) else {
                    return Err(Stop::Unreadable);
                };
                self.skip(1);
                let piece = or_memory!(self.buffer.push(abbreviation_text(abbreviation)));
                // The base name begins after `std::`, which has 5 bytes.
                let end = 5 + abbreviation_own_len(abbreviation);
                self.found = self.buffer.own_at(piece, 5, end);
                Ok(())
            }
            SubstitutionCase::ComponentSubstitution => {
                let Some((index, rest)) = index_of(Radix::Base36, self.rest) else {
                    return Err(Stop::Unreadable);
                };
                let Some(component) = self.buffer.saved(index) else {
                    return Err(Stop::Unreadable);
                };
                self.found = component;
                self.rest = rest;
                Ok(())
            }
        }
    }

    /// Reads `<template-param> ::= T [<number>] _`. Afterwards `found` is the argument of that index in the last
    /// scope, or `auto` in a lambda's signature. Returns `Stop::Unreadable` if there is no such argument.
    #[tactic(auto, using(crate::proofs::Rules::parameters))]
    pub fn read_template_param(&mut self, context: Context) -> ReadResult
        ensures reads { Gives result self.new (spec.parse_template_param context (state self.old)) }
        ensures kept { OnOk result (SameFrame self.old.buffer.value self.new.buffer.value) }
        ensures bounds { TakesSome 0 result (state self.old) (state self.new) }
        ensures saved { SavedBounds 2 result (state self.old) (state self.new) }
    {
        self.skip(1);
        let Some((index, rest)) = index_of(Radix::Decimal, self.rest) else {
            return Err(Stop::Unreadable);
        };
        self.rest = rest;
        if context.lambda {
            self.found = or_memory!(self.buffer.push(b"auto"));
            return Ok(());
        }
        let Some(argument) = self.buffer.arg(index) else {
            return Err(Stop::Unreadable);
        };
        self.found = argument;
        Ok(())
    }

    /// Reads the `<builtin-type>` that is next.
    pub fn read_builtin_type(&mut self) -> ReadResult
        ensures shape { OnOk result
            (Lives self.new.buffer.value self.new.found (plain_shape (builtin_text self.old.rest.now))) }
        ensures state { OnOk result (state self.new
            ≡ spec.with_rest (past_builtin self.old.rest.now) (state self.old)) }
        ensures kept { OnOk result (SameFrame self.old.buffer.value self.new.buffer.value) }
        ensures memory { IsOkUnless result Memory }
    {
        self.found = or_memory!(self.buffer.push(builtin_text(self.rest)));
        self.rest = past_builtin(self.rest);
        Ok(())
    }

    /// Appends `, ` to the list in front of its next text, and nothing if that is the `first`. If the list ends the
    /// output, and began at the innermost mark or later, it stays in place.
    #[inline(always)]
    pub fn separate_list(&mut self, list: Piece, first: bool) -> Result<Piece, AllocError>
        requires living { IsLiving self.old.buffer.value list }
        ensures shape { IfOk result (λ p. Lives self.new.buffer.value p
            (separated first (shape self.old.buffer.value list))) }
        ensures last { IsLast self.old.buffer.value list → IfOk result (IsLast self.new.buffer.value) }
        ensures state { OnOk result (state self.new ≡ state self.old) }
        ensures run { OnOk result (IsRun self.old.buffer.value self.new.buffer.value) }
    {
        let plain = self.buffer.plain(list);
        if first {
            return Ok(plain);
        }
        self.buffer.append(plain, b", ")
    }

    /// Appends `, ` to the output in front of a list's next text, and nothing if that is the `first`.
    #[inline(always)]
    pub fn separate(&mut self, first: bool) -> ReadResult
        ensures output { OnOk result (main_bytes self.new.buffer.value
            ≡ main_bytes self.old.buffer.value ++ separator first) }
        ensures state { OnOk result (state self.new ≡ state self.old) }
        ensures kept { OnOk result (SameFrame self.old.buffer.value self.new.buffer.value) }
        ensures memory { IsOkUnless result Memory }
    {
        if !first {
            or_memory!(self.buffer.push(b", "));
        }
        Ok(())
    }

    /// Opens a scope for a list of template arguments if `opens` is true, and does nothing otherwise.
    pub fn open_scope_if(&mut self, opens: bool) -> ReadResult
        ensures state { OnOk result (state self.new ≡ spec.open_scope_if opens (state self.old)) }
        ensures more { OnOk result (length (scopes self.old.buffer.value) ≤ length (scopes self.new.buffer.value)) }
        ensures opened { OnOk result (opens ≡ true → 0 < length (scopes self.new.buffer.value)) }
        ensures found { OnOk result (self.new.found ≡ self.old.found) }
        ensures kept { OnOk result (SameFrame self.old.buffer.value self.new.buffer.value) }
        ensures memory { IsOkUnless result Memory }
    {
        if opens {
            or_memory!(self.buffer.open_scope());
        }
        Ok(())
    }

    /// Ends an argument of a list: drops the scopes past the first n, which the argument in `found` opened. If `opens`
    /// is true, the list has a scope, and the argument is appended to it.
    #[inline(always)]
    pub fn end_argument(&mut self, opens: bool, n: usize) -> ReadResult
        requires living { IsLiving self.old.buffer.value self.old.found }
        requires scopes { n ≤ length (scopes self.old.buffer.value) }
        requires opened { opens ≡ true → 0 < n }
        ensures state { OnOk result (state self.new ≡ spec.end_argument opens n
            (shape self.old.buffer.value self.old.found) (state self.old)) }
        ensures scopes_left { OnOk result (length (scopes self.new.buffer.value) ≡ n) }
        ensures output { OnOk result (main_bytes self.new.buffer.value ≡ main_bytes self.old.buffer.value) }
        ensures found { OnOk result (self.new.found ≡ self.old.found) }
        ensures kept { OnOk result (SameFrame self.old.buffer.value self.new.buffer.value) }
        ensures memory { IsOkUnless result Memory }
    {
        self.buffer.keep_scopes(n);
        if opens {
            or_memory!(self.buffer.push_arg(self.found));
        }
        Ok(())
    }
}
