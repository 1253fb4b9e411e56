//! Types (Itanium C++ ABI 5.1.5). Five readers aren't inlined, to keep the stack frame of other types small.
#![tactic(auto, using(itanium_reader::proofs::Rules::buffers))]

ghost use Rattle.std.specs.Prelude.{◌≡◌, ◌<◌, OnOk, length, false};
ghost use Rattle.demangle_text.specs.State.{IsLiving, shape, IsRun};
ghost use Rattle.itanium_syntax.specs.Args.{attached_case};
ghost use Rattle.itanium_syntax.specs.Types.{params_case, past_cv};
ghost use Rattle.itanium_reader.specs.Parser as spec;
ghost use Rattle.itanium_reader.specs.Outcome.{state, Gives, CountFits, TakesSome, MayTakeNone, SavedBounds};

use crate::args::read_template_args;
use crate::frames::{Framed, read_framed, read_worded};
use crate::names::read_name;
use demangle_edit::{
    Pointer, Quals, append_piece, close_function, expand, open_function, wrap_array, wrap_cv,
};
use demangle_text::Piece;
use itanium_reader::{ReadResult, Reader, Stop};
use itanium_syntax::args::{AttachedCase, attached_case};
use itanium_syntax::context::Context;
use itanium_syntax::numerals::optional_number;
use itanium_syntax::types::{
    CvCase, FunctionCase, ParamsCase, TypeCase, TypeListCase, cv_case, cv_quals, elaborated_text,
    function_case, params_case, ref_qualifier, type_case, type_list_case,
};

/// Reads `<template-args>` if they follow the type in `found`, and saves the type with its arguments as a component.
/// If no `I` follows, nothing changes.
#[tactic(auto, using(itanium_reader::proofs::Rules::fronts))]
#[cycle(reader)]
pub(crate) fn read_type_attached(reader: &mut Reader, depth: usize, context: Context) -> ReadResult
    requires count_fits { CountFits 1 (state reader.old) }
    requires living { IsLiving reader.old.buffer.value reader.old.found }
    ensures reads { Gives result reader.new (spec.type_attached_as (attached_case reader.old.rest.now)
        (spec.parse_args depth context false) (shape reader.old.buffer.value reader.old.found) (state reader.old)) }
    ensures run { OnOk result (IsRun reader.old.buffer.value reader.new.buffer.value) }
    ensures bounds { MayTakeNone 1 result (state reader.old) (state reader.new) }
    ensures saved { SavedBounds 0 result (state reader.old) (state reader.new) }
{
    match attached_case(reader.rest) {
        AttachedCase::NoneAttached => Ok(()),
        AttachedCase::ArgsAttached => {
            tri!(read_template_args(reader, depth, context, false));
            reader.save_found()
        }
    }
}

/// Reads `<type>`. At most `depth` counted productions may nest, this one included.
#[tactic(auto, using(itanium_reader::proofs::Rules::types))]
#[cycle(reader)]
pub(crate) fn read_type(reader: &mut Reader, depth: usize, context: Context) -> ReadResult
    requires count_fits { CountFits 2 (state reader.old) }
    ensures reads { Gives result reader.new (spec.parse_type depth context (state reader.old)) }
    ensures run { OnOk result (IsRun reader.old.buffer.value reader.new.buffer.value) }
    ensures refused { depth ≡ 0 → reader.new.entered ≡ reader.old.entered }
    ensures bounds { TakesSome 2 result (state reader.old) (state reader.new) }
    ensures saved { SavedBounds 0 result (state reader.old) (state reader.new) }
{
    let depth = tri!(reader.enter(depth));
    let context = context.inside_type();
    let read = match type_case(reader.rest) {
        TypeCase::NameType => {
            // `read_name` has checked the length of the name.
            tri!(read_name(reader, depth, context, false));
            return reader.save_found();
        }
        TypeCase::BuiltinType => reader.read_builtin_type(),
        TypeCase::SubstitutionType => {
            tri!(reader.read_substitution());
            read_type_attached(reader, depth, context)
        }
        TypeCase::TemplateParamType => {
            tri!(reader.read_template_param(context));
            tri!(reader.save_found());
            read_type_attached(reader, depth, context)
        }
        TypeCase::PointerType(kind) => read_pointer(reader, depth, context, kind),
        TypeCase::CvType => read_cv(reader, depth, context),
        TypeCase::FunctionType => read_function_type(reader, depth, context, Quals::none()),
        TypeCase::ArrayType => read_array_type(reader, depth, context),
        TypeCase::PointerToMemberType => read_pointer_to_member_type(reader, depth, context),
        TypeCase::ExpansionType => read_expansion(reader, depth, context),
        TypeCase::ElaboratedType => read_elaborated(reader, depth, context),
        TypeCase::VendorType => reader.read_vendor_type(),
        TypeCase::UnreadableType => Err(Stop::Unreadable),
    };
    tri!(read);
    reader.check_width()
}

/// Reads `Dp <type>`. The `...` is printed unless `context.dots_hidden` is set.
#[cycle(reader)]
#[inline(never)]
pub(crate) fn read_expansion(reader: &mut Reader, depth: usize, context: Context) -> ReadResult
    requires count_fits { CountFits 1 (state reader.old) }
    requires some { 0 < length reader.old.rest.now }
    ensures reads { Gives result reader.new
        (spec.parse_expansion (spec.parse_type depth context) context.dots_hidden (state reader.old)) }
    ensures run { OnOk result (IsRun reader.old.buffer.value reader.new.buffer.value) }
    ensures bounds { TakesSome 0 result (state reader.old) (state reader.new) }
    ensures saved { SavedBounds 0 result (state reader.old) (state reader.new) }
{
    reader.skip(2);
    tri!(read_type(reader, depth, context));
    if !context.dots_hidden {
        reader.found = or_memory!(expand(&mut reader.buffer, reader.found));
    }
    reader.save_found()
}

/// Reads `<array-type> ::= A [<number>] _ <type>`. Returns `Stop::Unreadable` also for an array of functions.
#[cycle(reader)]
#[inline(never)]
pub(crate) fn read_array_type(reader: &mut Reader, depth: usize, context: Context) -> ReadResult
    requires count_fits { CountFits 1 (state reader.old) }
    requires some { 0 < length reader.old.rest.now }
    ensures reads { Gives result reader.new (spec.parse_array (spec.parse_type depth context) (state reader.old)) }
    ensures run { OnOk result (IsRun reader.old.buffer.value reader.new.buffer.value) }
    ensures bounds { TakesSome 0 result (state reader.old) (state reader.new) }
    ensures saved { SavedBounds 0 result (state reader.old) (state reader.new) }
{
    reader.skip(1);
    let Some((dimension, rest)) = optional_number(reader.rest) else {
        return Err(Stop::Unreadable);
    };
    reader.rest = rest;
    tri!(read_type(reader, depth, context));
    let Some(array) = or_memory!(wrap_array(&mut reader.buffer, reader.found, dimension)) else {
        return Err(Stop::Unreadable);
    };
    reader.found = array;
    reader.save_found()
}

/// Reads `P <type>`, `R <type>` or `O <type>`, and saves the pointer or reference as a component.
#[cycle(reader)]
pub(crate) fn read_pointer(
    reader: &mut Reader,
    depth: usize,
    context: Context,
    kind: Pointer,
) -> ReadResult
    requires count_fits { CountFits 1 (state reader.old) }
    requires some { 0 < length reader.old.rest.now }
    ensures reads { Gives result reader.new (spec.parse_pointer
        (spec.parse_type depth context) kind (state reader.old)) }
    ensures run { OnOk result (IsRun reader.old.buffer.value reader.new.buffer.value) }
    ensures bounds { TakesSome 0 result (state reader.old) (state reader.new) }
    ensures saved { SavedBounds 0 result (state reader.old) (state reader.new) }
{
    reader.skip(1);
    tri!(read_type(reader, depth, context));
    reader.make_pointer(kind)
}

/// Reads `<class-enum-type> ::= Ts <name> | Tu <name> | Te <name>`, and saves it as a component.
#[cycle(reader)]
#[inline(never)]
pub(crate) fn read_elaborated(reader: &mut Reader, depth: usize, context: Context) -> ReadResult
    requires count_fits { CountFits 1 (state reader.old) }
    requires some { 0 < length reader.old.rest.now }
    ensures reads { Gives result reader.new (spec.parse_elaborated (spec.parse_name depth context) (state reader.old)) }
    ensures run { OnOk result (IsRun reader.old.buffer.value reader.new.buffer.value) }
    ensures bounds { TakesSome 1 result (state reader.old) (state reader.new) }
    ensures saved { SavedBounds 0 result (state reader.old) (state reader.new) }
{
    let word = elaborated_text(reader.rest);
    reader.skip(2);
    tri!(read_worded(reader, depth, context, word, Framed::FramedName, b""));
    reader.save_found()
}

/// Reads `<pointer-to-member-type> ::= M <type> <type>`: first the class, then the member's type in its own frame.
#[cycle(reader)]
pub(crate) fn read_pointer_to_member_type(
    reader: &mut Reader,
    depth: usize,
    context: Context,
) -> ReadResult
    requires count_fits { CountFits 1 (state reader.old) }
    requires some { 0 < length reader.old.rest.now }
    ensures reads { Gives result reader.new (spec.parse_member (spec.parse_type depth context) (state reader.old)) }
    ensures run { OnOk result (IsRun reader.old.buffer.value reader.new.buffer.value) }
    ensures bounds { TakesSome 0 result (state reader.old) (state reader.new) }
    ensures saved { SavedBounds 0 result (state reader.old) (state reader.new) }
{
    reader.skip(1);
    tri!(read_type(reader, depth, context));
    let class = reader.found;
    tri!(read_framed(reader, depth, context, Framed::FramedType));
    reader.make_member_pointer(class)
}

/// Reads `<qualified-type> ::= <CV-qualifiers> <type>`, and saves it as a component. The qualifiers of a function type
/// become part of that type.
#[cycle(reader)]
#[inline(never)]
pub(crate) fn read_cv(reader: &mut Reader, depth: usize, context: Context) -> ReadResult
    requires count_fits { CountFits 1 (state reader.old) }
    requires some { length (past_cv reader.old.rest.now) < length reader.old.rest.now }
    ensures reads { Gives result reader.new
        (spec.saved_by (spec.parse_cv (spec.parse_type depth context)) (state reader.old)) }
    ensures run { OnOk result (IsRun reader.old.buffer.value reader.new.buffer.value) }
    ensures bounds { TakesSome 0 result (state reader.old) (state reader.new) }
    ensures saved { SavedBounds 0 result (state reader.old) (state reader.new) }
{
    let (quals, rest) = cv_quals(reader.rest);
    reader.rest = rest;
    match cv_case(reader.rest) {
        CvCase::CvFunction => read_function_type(reader, depth, context, quals),
        CvCase::CvOther => {
            tri!(read_type(reader, depth, context));
            reader.found = or_memory!(wrap_cv(&mut reader.buffer, reader.found, quals));
            reader.save_found()
        }
    }
}

/// Reads `<function-type> ::= F <return type> <parameter types> [<ref-qualifier>] E`, and saves it as a component.
/// `quals` are the qualifiers that stood in front of the `F`. Returns `Stop::Unreadable` for a function type with `Y`
/// (extern "C").
#[cycle(reader)]
#[inline(never)]
pub(crate) fn read_function_type(
    reader: &mut Reader,
    depth: usize,
    context: Context,
    quals: Quals,
) -> ReadResult
    requires count_fits { CountFits 1 (state reader.old) }
    requires some { 0 < length reader.old.rest.now }
    ensures reads { Gives result reader.new
        (spec.saved_by (spec.parse_function (spec.parse_type depth context) quals) (state reader.old)) }
    ensures run { OnOk result (IsRun reader.old.buffer.value reader.new.buffer.value) }
    ensures bounds { TakesSome 0 result (state reader.old) (state reader.new) }
    ensures saved { SavedBounds 0 result (state reader.old) (state reader.new) }
{
    match function_case(reader.rest) {
        FunctionCase::ExternFunction => Err(Stop::Unreadable),
        FunctionCase::PlainFunction => {
            reader.skip(1);
            tri!(read_type(reader, depth, context));
            let front = reader.buffer.len(reader.found);
            let Some(list) = or_memory!(open_function(&mut reader.buffer, reader.found)) else {
                return Err(Stop::Unreadable);
            };
            tri!(read_params(reader, depth, context, true, list));
            let (reference, rest) = ref_qualifier(reader.rest);
            let all = Quals { reference, ..quals };
            reader.found = or_memory!(close_function(&mut reader.buffer, reader.found, front, all));
            reader.rest = rest;
            reader.skip(1);
            reader.save_found()
        }
    }
}

/// Reads parameter types and appends each to `list`, with `, ` between them. Stops in front of an `E`. If
/// `in_function_type` is true, they are those of a `<function-type>`, and it also stops in front of an `R` or `O` that
/// an `E` follows. A single `v` in front of the `E` means that there are no parameters.
#[tactic(auto, using(itanium_reader::proofs::Rules::typed_lists))]
#[cycle(reader)]
pub(crate) fn read_params(
    reader: &mut Reader,
    depth: usize,
    context: Context,
    in_function_type: bool,
    list: Piece,
) -> ReadResult
    requires count_fits { CountFits 2 (state reader.old) }
    requires living { IsLiving reader.old.buffer.value list }
    ensures reads { Gives result reader.new (spec.params_as (params_case reader.old.rest.now) in_function_type
        (spec.parse_type depth context) (shape reader.old.buffer.value list) (state reader.old)) }
    ensures run { OnOk result (IsRun reader.old.buffer.value reader.new.buffer.value) }
    ensures bounds { MayTakeNone 2 result (state reader.old) (state reader.new) }
    ensures saved { SavedBounds 0 result (state reader.old) (state reader.new) }
{
    if let ParamsCase::NoParams = params_case(reader.rest) {
        reader.skip(1);
        reader.found = list;
        return Ok(());
    }
    let mut list = list;
    let mut first = true;
    loop {
        match type_list_case(in_function_type, reader.rest) {
            TypeListCase::EndOfTypes => {
                reader.found = list;
                return Ok(());
            }
            TypeListCase::NextType => {
                list = or_memory!(reader.separate_list(list, first));
                tri!(read_framed(reader, depth, context, Framed::FramedType));
                list = or_memory!(append_piece(&mut reader.buffer, list, b"", reader.found));
                if reader.is_too_wide(list) {
                    return Err(Stop::Unreadable);
                }
                first = false;
            }
        }
    }
}
