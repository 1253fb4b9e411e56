//! Names (Itanium C++ ABI 5.1.2).
#![tactic(auto, using(itanium_reader::proofs::Rules::buffers))]

ghost use Rattle.std.specs.Prelude.{◌≡◌, None, Some, IfOk, OnOk, true, false};
ghost use Rattle.demangle_text.specs.State.{IsLiving, shape, IsRun};
ghost use Rattle.demangle_text.specs.Calls.{IsLast};
ghost use Rattle.itanium_syntax.specs.Names.{ordinary_case, first_segment_case, unscoped_case, first_segment_is_candidate};
ghost use Rattle.itanium_syntax.specs.Context.{inside_lambda};
ghost use Rattle.itanium_grammar.specs.Cases.{OrdinaryName};
ghost use Rattle.itanium_reader.specs.Parser as spec;
ghost use Rattle.itanium_reader.specs.Outcome.{state, Gives, GivesBareName, GivesName, GivesCandidate, CountFits, TakesSome};
ghost use Rattle.itanium_reader.specs.Outcome.{SavedBounds};

use crate::args::read_template_args;
use crate::encodings::read_local_name;
use crate::types::{read_params, read_type};
use demangle_edit::{append_leaf, open_parent};
use itanium_reader::{ReadResult, Reader, Stop};
use itanium_syntax::args::{AttachedCase, attached_case};
use itanium_syntax::context::Context;
use itanium_syntax::names::{
    FirstSegmentCase, NameCase, OrdinaryCase, SegmentCase, UnqualifiedCase, UnscopedCase,
    begins_source, first_segment_case, name_case, name_quals, ordinary_case, segment_case,
    unqualified_case, unscoped_case,
};

/// Reads `<closure-type-name> ::= Ul <lambda-sig> E [<nonnegative number>] _`, after its `Ul`. The production is rare.
/// The function isn't inlined, to keep the stack frame of other names small.
#[tactic(auto, using(itanium_reader::proofs::Rules::parents))]
#[cycle(reader)]
#[inline(never)]
pub(crate) fn read_closure_type_name(
    reader: &mut Reader,
    depth: usize,
    context: Context,
) -> ReadResult
    requires count_fits { CountFits 2 (state reader.old) }
    ensures reads { Gives result reader.new (spec.parse_lambda (spec.parse_type depth context) (state reader.old)) }
    ensures run { OnOk result (IsRun reader.old.buffer.value reader.new.buffer.value) }
    ensures last { OnOk result (IsLast reader.new.buffer.value reader.new.found) }
    ensures bounds { TakesSome 2 result (state reader.old) (state reader.new) }
    ensures saved { SavedBounds 1 result (state reader.old) (state reader.new) }
{
    let list = or_memory!(reader.buffer.push(b"{lambda("));
    tri!(read_params(reader, depth, context, false, list));
    reader.end_lambda(reader.found)
}

/// Reads an `<unqualified-name>` that needs no parent, which is any but a `<ctor-dtor-name>`. ABI tags aren't read.
#[tactic(auto, using(itanium_reader::proofs::Rules::ordinary_names))]
#[cycle(reader)]
pub(crate) fn read_ordinary_name(reader: &mut Reader, depth: usize, context: Context) -> ReadResult
    requires count_fits { CountFits 0 (state reader.old) }
    ensures reads { Gives result reader.new (spec.ordinary_as (ordinary_case reader.old.rest.now)
        (spec.parse_type depth context) (spec.parse_type depth (inside_lambda context)) (state reader.old)) }
    ensures run { OnOk result (IsRun reader.old.buffer.value reader.new.buffer.value) }
    ensures last { OnOk result (IsLast reader.new.buffer.value reader.new.found) }
    ensures bounds { TakesSome 0 result (state reader.old) (state reader.new) }
    ensures saved { SavedBounds 1 result (state reader.old) (state reader.new) }
{
    match ordinary_case(reader.rest) {
        // A `<source-name>` never comes here: it is read before this function is called.
        OrdinaryCase::SourceName => reader.read_source_name(),
        OrdinaryCase::UnnamedTypeName => {
            reader.skip(2);
            reader.read_unnamed_type()
        }
        OrdinaryCase::LambdaName => {
            reader.skip(2);
            read_closure_type_name(reader, depth, context.inside_lambda())
        }
        OrdinaryCase::ConversionName => {
            reader.skip(2);
            tri!(read_type(reader, depth, context));
            reader.make_conversion_name()
        }
        OrdinaryCase::LiteralOperatorName => {
            reader.skip(2);
            reader.read_literal_operator_name()
        }
        OrdinaryCase::OperatorName => reader.read_operator_name(),
        OrdinaryCase::UnreadableName => Err(Stop::Unreadable),
    }
}

/// Reads an `<unqualified-name>` that has no parent, with its ABI tags.
#[tactic(auto, using(itanium_reader::proofs::Rules::outer_names))]
#[cycle(reader)]
#[inline(always)]
pub(crate) fn read_unqualified_name(
    reader: &mut Reader,
    depth: usize,
    context: Context,
) -> ReadResult
    requires count_fits { CountFits 0 (state reader.old) }
    ensures reads { Gives result reader.new (spec.unqualified_name depth context None (state reader.old)) }
    ensures run { OnOk result (IsRun reader.old.buffer.value reader.new.buffer.value) }
    ensures last { OnOk result (IsLast reader.new.buffer.value reader.new.found) }
    ensures bounds { TakesSome 0 result (state reader.old) (state reader.new) }
    ensures saved { SavedBounds 1 result (state reader.old) (state reader.new) }
{
    reader.skip_internal();
    let read = if begins_source(reader.rest) {
        reader.read_source_name()
    } else {
        read_ordinary_name(reader, depth, context)
    };
    tri!(read);
    reader.read_tags()
}

/// Reads an `<unqualified-name>`, with its ABI tags, whose parent is `found`. Afterwards `found` is the qualified
/// name.
#[tactic(auto, using(itanium_reader::proofs::Rules::unqualified_names))]
#[cycle(reader)]
pub(crate) fn read_segment(reader: &mut Reader, depth: usize, context: Context) -> ReadResult
    requires count_fits { CountFits 0 (state reader.old) }
    requires living { IsLiving reader.old.buffer.value reader.old.found }
    requires last { IsLast reader.old.buffer.value reader.old.found }
    ensures reads { Gives result reader.new (spec.unqualified_name depth context
        (Some (shape reader.old.buffer.value reader.old.found)) (state reader.old)) }
    ensures run { OnOk result (IsRun reader.old.buffer.value reader.new.buffer.value) }
    ensures last { OnOk result (IsLast reader.new.buffer.value reader.new.found) }
    ensures bounds { TakesSome 0 result (state reader.old) (state reader.new) }
    ensures saved { SavedBounds 1 result (state reader.old) (state reader.new) }
{
    reader.skip_internal();
    if begins_source(reader.rest) {
        return reader.read_source_segment(false);
    }
    let read = match unqualified_case(true, reader.rest) {
        UnqualifiedCase::ConstructorName => reader.read_ctor_dtor(false),
        UnqualifiedCase::DestructorName => reader.read_ctor_dtor(true),
        UnqualifiedCase::OrdinaryName => read_ordinary_segment(reader, depth, context),
    };
    tri!(read);
    reader.read_tags()
}

/// Reads an `<unqualified-name>` that is no `<ctor-dtor-name>`, without its ABI tags, and qualifies it by the parent
/// in `found`. The parent's text and `::` are printed before the name is read, so the name's text need not move.
#[tactic(auto, using(itanium_reader::proofs::Rules::parents))]
#[cycle(reader)]
pub(crate) fn read_ordinary_segment(
    reader: &mut Reader,
    depth: usize,
    context: Context,
) -> ReadResult
    requires count_fits { CountFits 0 (state reader.old) }
    requires living { IsLiving reader.old.buffer.value reader.old.found }
    ensures reads { Gives result reader.new
        (spec.untagged_as OrdinaryName (spec.parse_type depth context) (spec.parse_type depth (inside_lambda context))
        (Some (shape reader.old.buffer.value reader.old.found)) (state reader.old)) }
    ensures run { OnOk result (IsRun reader.old.buffer.value reader.new.buffer.value) }
    ensures last { OnOk result (IsLast reader.new.buffer.value reader.new.found) }
    ensures bounds { TakesSome 0 result (state reader.old) (state reader.new) }
    ensures saved { SavedBounds 1 result (state reader.old) (state reader.new) }
{
    let opened = or_memory!(open_parent(&mut reader.buffer, reader.found));
    let mark = reader.buffer.open();
    tri!(read_ordinary_name(reader, depth, context));
    tri!(reader.close_found(mark));
    reader.found = or_memory!(append_leaf(&mut reader.buffer, opened, reader.found));
    Ok(())
}

/// Reads the first segment of a `<nested-name>`. Returns `true` if the segment isn't saved yet and becomes a component
/// when another segment follows. Returns `false` for `St` and a `<substitution>`, which never become a new component.
#[tactic(auto, using(itanium_reader::proofs::Rules::first_segments))]
#[cycle(reader)]
#[inline(always)]
pub(crate) fn read_first_segment(
    reader: &mut Reader,
    depth: usize,
    context: Context,
) -> Result<bool, Stop>
    requires count_fits { CountFits 2 (state reader.old) }
    ensures reads { GivesCandidate result reader.new (spec.first_as (first_segment_case reader.old.rest.now)
        (spec.unqualified_name depth context) context (state reader.old)) }
    ensures candidate { IfOk result (λ candidate. candidate
        ≡ first_segment_is_candidate (first_segment_case reader.old.rest.now)) }
    ensures run { OnOk result (IsRun reader.old.buffer.value reader.new.buffer.value) }
    ensures last { OnOk result (IsLast reader.new.buffer.value reader.new.found) }
    ensures bounds { TakesSome 0 result (state reader.old) (state reader.new) }
    ensures saved { SavedBounds 1 result (state reader.old) (state reader.new) }
{
    if begins_source(reader.rest) {
        tri!(reader.read_source_name());
        tri!(reader.read_tags());
        return Ok(true);
    }
    match first_segment_case(reader.rest) {
        FirstSegmentCase::TemplateParamFirst => {
            tri!(reader.read_template_param(context));
            tri!(reader.copy_found_to_end());
            Ok(true)
        }
        FirstSegmentCase::StdFirst => {
            tri!(reader.read_std());
            Ok(false)
        }
        FirstSegmentCase::SubstitutionFirst => {
            tri!(reader.read_substitution());
            tri!(reader.copy_found_to_end());
            Ok(false)
        }
        FirstSegmentCase::NameFirst => {
            tri!(read_unqualified_name(reader, depth, context));
            Ok(true)
        }
    }
}

/// Reads `<nested-name> ::= N [<CV-qualifiers>] [<ref-qualifier>] <prefix> E | N H <prefix> E`, after its `N`. Here
/// `<prefix>` has all segments. Names inside them overwrite `reader.quals`, so this name's own qualifiers are stored
/// there after the segments are read.
#[tactic(auto, using(itanium_reader::proofs::Rules::nested_names))]
#[cycle(reader)]
#[inline(always)]
pub(crate) fn read_nested_name(reader: &mut Reader, depth: usize, context: Context) -> ReadResult
    requires count_fits { CountFits 2 (state reader.old) }
    ensures reads { GivesBareName result reader.new (spec.parse_nested
        (spec.unqualified_name depth context) (spec.parse_args depth context true) context (state reader.old)) }
    ensures run { OnOk result (IsRun reader.old.buffer.value reader.new.buffer.value) }
    ensures bounds { TakesSome 1 result (state reader.old) (state reader.new) }
    ensures saved { SavedBounds 1 result (state reader.old) (state reader.new) }
{
    match name_quals(reader.rest) {
        // Most names have no qualifiers. This arm keeps none on the stack while the prefix is read.
        None => {
            tri!(read_segments(reader, depth, context));
            reader.quals = None;
        }
        Some((quals, rest)) => {
            reader.rest = rest;
            tri!(read_segments(reader, depth, context));
            reader.quals = Some(quals);
        }
    }
    Ok(())
}

/// Reads all segments of a `<nested-name>`, and its `E`. Before each further segment, what was read so far is saved as
/// a component, unless it is a single `St` or `<substitution>`. `candidate` says whether it is to be saved then. The
/// whole isn't saved: in the ABI the last segment is outside of the `<prefix>`. The grammar says the same in another
/// way: it saves after each segment, and removes the last component at the `E`. In `N1A1B1CE` both save `A` and
/// `A::B`, and the grammar also saves `A::B::C` and removes it again. Most segments are `<source-name>`s, so the loop
/// tests that case first.
#[tactic(auto, using(itanium_reader::proofs::Rules::segments))]
#[cycle(reader)]
#[inline(always)]
pub(crate) fn read_segments(reader: &mut Reader, depth: usize, context: Context) -> ReadResult
    requires count_fits { CountFits 2 (state reader.old) }
    ensures reads { Gives result reader.new (spec.parse_all_segments
        (spec.unqualified_name depth context) (spec.parse_args depth context true) context (state reader.old)) }
    ensures run { OnOk result (IsRun reader.old.buffer.value reader.new.buffer.value) }
    ensures bounds { TakesSome 1 result (state reader.old) (state reader.new) }
    ensures saved { SavedBounds 1 result (state reader.old) (state reader.new) }
{
    // Whether `found` isn't in the table yet, and is saved if another segment follows.
    let mut candidate = tri!(read_first_segment(reader, depth, context));
    loop {
        if begins_source(reader.rest) {
            tri!(reader.read_source_segment(candidate));
            tri!(reader.check_width());
            candidate = true;
            continue;
        }
        reader.skip_initializer();
        match segment_case(reader.rest) {
            SegmentCase::EndOfSegments => {
                reader.end_nested_name(candidate);
                return Ok(());
            }
            SegmentCase::ArgsSegment => {
                tri!(reader.save_if(candidate));
                tri!(read_template_args(reader, depth, context, true));
            }
            SegmentCase::NameSegment => {
                tri!(reader.save_if(candidate));
                tri!(read_segment(reader, depth, context));
            }
        }
        tri!(reader.check_width());
        candidate = true;
    }
}

/// Reads `<unscoped-name> ::= [St] <unqualified-name>`, or an `<unscoped-template-name>` with its `<template-args>`.
/// An `I` after the name selects the second. A `<substitution>` must have `<template-args>` after it; otherwise the
/// function returns `Stop::Unreadable`.
#[tactic(auto, using(itanium_reader::proofs::Rules::segments))]
#[cycle(reader)]
pub(crate) fn read_unscoped_name(reader: &mut Reader, depth: usize, context: Context) -> ReadResult
    requires count_fits { CountFits 0 (state reader.old) }
    ensures reads { Gives result reader.new (spec.unscoped_as (unscoped_case reader.old.rest.now)
        (spec.unqualified_name depth context) (spec.parse_args depth context true) (state reader.old)) }
    ensures run { OnOk result (IsRun reader.old.buffer.value reader.new.buffer.value) }
    ensures bounds { TakesSome 0 result (state reader.old) (state reader.new) }
    ensures saved { SavedBounds 1 result (state reader.old) (state reader.new) }
{
    let read = match unscoped_case(reader.rest) {
        UnscopedCase::StdName => {
            tri!(reader.read_std());
            read_segment(reader, depth, context)
        }
        UnscopedCase::SubstitutionName => {
            tri!(reader.read_substitution());
            return match attached_case(reader.rest) {
                AttachedCase::NoneAttached => Err(Stop::Unreadable),
                AttachedCase::ArgsAttached => read_template_args(reader, depth, context, true),
            };
        }
        UnscopedCase::PlainName => read_unqualified_name(reader, depth, context),
    };
    tri!(read);
    match attached_case(reader.rest) {
        AttachedCase::NoneAttached => Ok(()),
        AttachedCase::ArgsAttached => {
            tri!(reader.save_found());
            read_template_args(reader, depth, context, true)
        }
    }
}

/// Reads `<name> ::= <nested-name> | <local-name> | <unscoped-name> | <unscoped-template-name> <template-args>`. At
/// most `depth` counted productions may nest, this one included.
///
/// If `bare` is true, the name's own qualifiers are left in `reader.quals` for the caller. Otherwise they are printed
/// after the name: a reference always, a word such as ` const` only if `context.words_shown` is set or the name is
/// local.
#[tactic(auto, using(crate::proofs::OwnQualifiers::names))]
#[cycle(reader)]
#[inline(always)]
pub fn read_name(reader: &mut Reader, depth: usize, context: Context, bare: bool) -> ReadResult
    requires count_fits { CountFits 1 (state reader.old) }
    ensures reads { GivesName bare result reader.new depth context (state reader.old) }
    ensures fits { OnOk result (spec.is_too_wide (shape reader.new.buffer.value reader.new.found) ≡ false) }
    ensures run { OnOk result (IsRun reader.old.buffer.value reader.new.buffer.value) }
    ensures refused { depth ≡ 0 → reader.new.entered ≡ reader.old.entered }
    ensures bounds { TakesSome 1 result (state reader.old) (state reader.new) }
    ensures saved { SavedBounds 1 result (state reader.old) (state reader.new) }
{
    let depth = tri!(reader.enter(depth));
    let shown = match name_case(reader.rest) {
        NameCase::NestedName => {
            reader.skip(1);
            tri!(read_nested_name(reader, depth, context));
            context.words_shown
        }
        NameCase::LocalName => {
            reader.skip(1);
            tri!(read_local_name(reader, depth, context));
            true
        }
        NameCase::UnscopedName => {
            tri!(read_unscoped_name(reader, depth, context));
            reader.quals = None;
            context.words_shown
        }
    };
    tri!(reader.check_width());
    if bare {
        return Ok(());
    }
    if let Some(quals) = reader.quals {
        tri!(reader.print_quals(quals, shown));
        tri!(reader.check_width());
    }
    Ok(())
}
