//! Template arguments (Itanium C++ ABI 5.1.5).
#![tactic(auto, using(itanium_reader::proofs::Rules::buffers))]

ghost use Rattle.std.specs.Prelude.{◌≡◌, ◌<◌, ◌++◌, OnOk, length};
ghost use Rattle.demangle_text.specs.State.{IsLiving, shape, IsRun, SameFrame, main_bytes};
ghost use Rattle.demangle_text.specs.Shape.{text};
ghost use Rattle.demangle_text.specs.Calls.{IsLast};
ghost use Rattle.itanium_reader.specs.Parser as spec;
ghost use Rattle.itanium_reader.specs.Outcome.{state, Gives, CountFits, TakesSome, SavedBounds};

use crate::expressions::{read_expr_primary, read_expression};
use crate::types::read_type;
use demangle_edit::{append_piece, close_arguments, open_arguments};
use itanium_reader::{ReadResult, Reader, Stop, text_limit};
use itanium_syntax::args::{ArgumentCase, ArgumentListCase, argument_case, argument_list_case};
use itanium_syntax::context::Context;

/// Reads `<template-args> ::= I <template-arg>* E` and appends them to the name or type in `found`. `of_name` is true
/// for a name. At most `depth` counted productions may nest, this one included.
#[tactic(auto, using(itanium_reader::proofs::Rules::argument_lists))]
#[cycle(reader)]
pub(crate) fn read_template_args(
    reader: &mut Reader,
    depth: usize,
    context: Context,
    of_name: bool,
) -> ReadResult
    requires count_fits { CountFits 1 (state reader.old) }
    requires some { 0 < length reader.old.rest.now }
    requires living { IsLiving reader.old.buffer.value reader.old.found }
    ensures reads { Gives result reader.new (spec.attached_by
        (spec.parse_args depth context of_name) (shape reader.old.buffer.value reader.old.found) (state reader.old)) }
    ensures run { OnOk result (IsRun reader.old.buffer.value reader.new.buffer.value) }
    ensures last { OnOk result (IsLast reader.new.buffer.value reader.new.found) }
    ensures refused { depth ≡ 0 → reader.new.entered ≡ reader.old.entered }
    ensures bounds { TakesSome 1 result (state reader.old) (state reader.new) }
    ensures saved { SavedBounds 2 result (state reader.old) (state reader.new) }
{
    let depth = tri!(reader.enter(depth));
    reader.skip(1);
    // The arguments of a name outside of a type become a scope, to which later template parameters refer.
    let opens = context.opens_scope(of_name);
    tri!(reader.open_scope_if(opens));
    let scopes = reader.buffer.scopes();
    // `list` stays the name and `<`. The arguments are printed after it, and `close_arguments` makes them part of it.
    let list = or_memory!(open_arguments(&mut reader.buffer, reader.found));
    // The text limit applies to the list from its `<` on, without the name in front.
    let front = reader.buffer.len(list) - 1;
    let widest = front + text_limit();
    let mut first = true;
    loop {
        match argument_list_case(reader.rest) {
            ArgumentListCase::EndOfArguments => {
                reader.skip(1);
                reader.found = or_memory!(close_arguments(&mut reader.buffer, list));
                if reader.buffer.len(reader.found) > widest {
                    return Err(Stop::Unreadable);
                }
                return Ok(());
            }
            ArgumentListCase::NextArgument => {
                tri!(reader.separate(first));
                tri!(read_template_arg(reader, depth, context));
                tri!(reader.end_argument(opens, scopes));
                // Tested after each argument, so that the list can't grow far beyond the limit before its `E`.
                let whole = reader.buffer.up_to_end(list);
                if reader.buffer.len(whole) > widest {
                    return Err(Stop::Unreadable);
                }
                first = false;
            }
        }
    }
}

/// Reads `<template-arg> ::= J <template-arg>* E`. At most `depth` counted productions may nest, this one included.
/// Scopes that one argument opens stay for the next.
#[tactic(auto, using(itanium_reader::proofs::Rules::packs))]
#[cycle(reader)]
#[inline(never)]
pub(crate) fn read_argument_pack(reader: &mut Reader, depth: usize, context: Context) -> ReadResult
    requires count_fits { CountFits 1 (state reader.old) }
    requires some { 0 < length reader.old.rest.now }
    ensures reads { Gives result reader.new (spec.parse_pack depth context (state reader.old)) }
    ensures run { OnOk result (IsRun reader.old.buffer.value reader.new.buffer.value) }
    ensures refused { depth ≡ 0 → reader.new.entered ≡ reader.old.entered }
    ensures bounds { TakesSome 1 result (state reader.old) (state reader.new) }
    ensures saved { SavedBounds 1 result (state reader.old) (state reader.new) }
{
    let depth = tri!(reader.enter(depth));
    reader.skip(1);
    let inside = context.hiding_dots();
    let mut list = or_memory!(reader.buffer.push(b""));
    let mut first = true;
    loop {
        match argument_list_case(reader.rest) {
            ArgumentListCase::EndOfArguments => {
                reader.skip(1);
                reader.found = reader.buffer.whole(list);
                return reader.check_width();
            }
            ArgumentListCase::NextArgument => {
                list = or_memory!(reader.separate_list(list, first));
                tri!(read_template_arg(reader, depth, inside));
                list = or_memory!(append_piece(&mut reader.buffer, list, b"", reader.found));
                if reader.is_too_wide(list) {
                    return Err(Stop::Unreadable);
                }
                first = false;
            }
        }
    }
}

/// Reads `<template-arg> ::= <type> | X <expression> E | <expr-primary> | J <template-arg>* E` in its own frame.
/// Pieces that lived before keep their shapes. The output afterwards is the old one followed by the argument's text.
#[tactic(auto, using(itanium_reader::proofs::Rules::arguments))]
#[cycle(reader)]
#[inline(always)]
pub(crate) fn read_template_arg(reader: &mut Reader, depth: usize, context: Context) -> ReadResult
    requires count_fits { CountFits 2 (state reader.old) }
    ensures reads { Gives result reader.new (spec.parse_argument depth context (state reader.old)) }
    ensures kept { OnOk result (SameFrame reader.old.buffer.value reader.new.buffer.value) }
    ensures output { OnOk result (main_bytes reader.new.buffer.value
        ≡ main_bytes reader.old.buffer.value ++ text (shape reader.new.buffer.value reader.new.found)) }
    ensures bounds { TakesSome 2 result (state reader.old) (state reader.new) }
    ensures saved { SavedBounds 0 result (state reader.old) (state reader.new) }
{
    let mark = reader.buffer.open();
    let read = match argument_case(reader.rest) {
        ArgumentCase::PackArgument => read_argument_pack(reader, depth, context),
        ArgumentCase::ExpressionArgument => {
            reader.skip(1);
            tri!(read_expression(reader, depth, context));
            reader.read_end()
        }
        ArgumentCase::PrimaryArgument => read_expr_primary(reader, depth, context),
        ArgumentCase::ConstraintArgument => Err(Stop::Unreadable),
        ArgumentCase::TypeArgument => read_type(reader, depth, context),
    };
    tri!(read);
    reader.close_found(mark)
}
