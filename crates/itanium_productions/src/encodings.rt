//! Encodings and local names (Itanium C++ ABI 5.1, "General Structure" and "Scope Encoding").
#![tactic(auto, using(itanium_reader::proofs::Rules::buffers))]

ghost use Rattle.std.specs.Prelude.{◌≡◌, OnOk};
ghost use Rattle.std.specs.Option.{unwrap_or};
ghost use Rattle.demangle_quals.specs.Quals.{no_quals};
ghost use Rattle.demangle_text.specs.State.{IsLiving, shape, IsRun, SameFrame, main_bytes};
ghost use Rattle.itanium_syntax.specs.Context.{inside_encoding, showing_words};
ghost use Rattle.itanium_syntax.specs.Encodings.{return_case, entity_case};
ghost use Rattle.itanium_grammar.specs.Cases.{AtE};
ghost use Rattle.itanium_reader.specs.Parser as spec;
ghost use Rattle.itanium_reader.specs.Outcome.{state, Gives, GivesBareName, Leaves, CountFits, TakesSome, MayTakeNone, SavedBounds};

use crate::names::read_name;
use crate::specials::read_special_name;
use crate::types::{read_params, read_type};
use demangle_edit::{
    Quals, append_leaf, apply_name_qualifiers, close_params, open_default_arg, open_params,
    open_parent,
};
use demangle_text::Piece;
use itanium_reader::{ReadResult, Reader, Stop};
use itanium_syntax::context::Context;
use itanium_syntax::encodings::{
    EncodingCase, EncodingEnd, EncodingParamsCase, EntityCase, ReturnCase, encoding_case,
    encoding_params_case, entity_case, return_case,
};
use itanium_syntax::numerals::ordinal;

/// Reads the return type of an `<encoding>`, if there is one, and removes its text from the output. The components
/// that it saved and the scopes that it opened stay. `templ` and `ctor` are the flags of the name in front of it.
/// If a return type was read, `found` is an empty text afterwards. Otherwise `found` stays the name.
#[cycle(reader)]
pub(crate) fn read_return(
    reader: &mut Reader,
    depth: usize,
    context: Context,
    templ: bool,
    ctor: bool,
) -> ReadResult
    requires count_fits { CountFits 2 (state reader.old) }
    ensures reads { Leaves result reader.new (spec.return_as (return_case templ ctor reader.old.rest.now)
        (spec.parse_type depth context) (state reader.old)) }
    ensures kept { OnOk result (SameFrame reader.old.buffer.value reader.new.buffer.value) }
    ensures output { OnOk result (main_bytes reader.new.buffer.value ≡ main_bytes reader.old.buffer.value) }
    ensures bounds { MayTakeNone 2 result (state reader.old) (state reader.new) }
    ensures saved { SavedBounds 0 result (state reader.old) (state reader.new) }
{
    match return_case(templ, ctor, reader.rest) {
        ReturnCase::NoReturnType => Ok(()),
        ReturnCase::SomeReturnType => {
            let mark = reader.buffer.open();
            tri!(read_type(reader, depth, context));
            reader.found = or_memory!(reader.buffer.push(b""));
            reader.close_found(mark)
        }
    }
}

/// Reads the return type and the parameters of an `<encoding>`, and appends the parameters to `name`. `reader.quals`
/// holds the name's own qualifiers, which are printed last. If the encoding ends after its name, only the qualifiers
/// are printed.
#[cycle(reader)]
pub(crate) fn end_encoding(
    reader: &mut Reader,
    depth: usize,
    context: Context,
    name: Piece,
) -> ReadResult
    requires count_fits { CountFits 2 (state reader.old) }
    requires living { IsLiving reader.old.buffer.value name }
    ensures reads { Gives result reader.new (spec.encoding_end (spec.parse_type depth context)
        (shape reader.old.buffer.value name, unwrap_or reader.old.quals no_quals) (state reader.old)) }
    ensures run { OnOk result (IsRun reader.old.buffer.value reader.new.buffer.value) }
    ensures bounds { MayTakeNone 2 result (state reader.old) (state reader.new) }
    ensures saved { SavedBounds 0 result (state reader.old) (state reader.new) }
{
    let quals = reader.quals.unwrap_or(Quals::none());
    let templ = reader.buffer.templ(name);
    let ctor = reader.buffer.ctor(name);
    tri!(read_return(reader, depth, context, templ, ctor));
    let ended = match encoding_params_case(reader.rest) {
        EncodingParamsCase::NoEncodingParams => {
            apply_name_qualifiers(&mut reader.buffer, name, quals, true)
        }
        EncodingParamsCase::SomeEncodingParams => {
            let list = or_memory!(open_params(&mut reader.buffer, name));
            tri!(read_params(reader, depth, context, false, list));
            close_params(&mut reader.buffer, reader.found, quals)
        }
    };
    reader.found = or_memory!(ended);
    Ok(())
}

/// Reads `<encoding> ::= <special-name> | <name> [<return type>] [<parameter types>]`. If `end` is `AfterName`, reads
/// no more than the special name or the name.
#[tactic(auto, using(itanium_reader::proofs::Rules::encodings))]
#[cycle(reader)]
pub(crate) fn read_encoding(
    reader: &mut Reader,
    depth: usize,
    context: Context,
    end: EncodingEnd,
) -> ReadResult
    requires count_fits { CountFits 1 (state reader.old) }
    ensures reads { Gives result reader.new (spec.parse_encoding depth end context (state reader.old)) }
    ensures run { OnOk result (IsRun reader.old.buffer.value reader.new.buffer.value) }
    ensures bounds { TakesSome 1 result (state reader.old) (state reader.new) }
    ensures saved { SavedBounds 1 result (state reader.old) (state reader.new) }
{
    match encoding_case(end, reader.rest) {
        EncodingCase::SpecialEncoding => read_special_name(reader, depth, context),
        EncodingCase::NameEncoding => read_name(reader, depth, context, false),
        EncodingCase::FullEncoding => {
            tri!(read_name(reader, depth, context, true));
            end_encoding(reader, depth, context, reader.found)
        }
    }
}

/// Reads what follows the `<encoding>` of a `<local-name>`: `E s`, `E d [<number>] _ <name>` or `E <name>`. Leaves the
/// entity's own qualifiers in `reader.quals`; a string literal has none.
#[tactic(auto, using(itanium_reader::proofs::Rules::entities))]
#[cycle(reader)]
#[inline(never)]
pub(crate) fn read_entity(
    reader: &mut Reader,
    depth: usize,
    context: Context,
    encoding: Piece,
) -> ReadResult
    requires count_fits { CountFits 0 (state reader.old) }
    requires living { IsLiving reader.old.buffer.value encoding }
    ensures reads { GivesBareName result reader.new (spec.entity_as (entity_case reader.old.rest.now)
        (spec.parse_bare_name depth context) (shape reader.old.buffer.value encoding) (state reader.old)) }
    ensures run { OnOk result (IsRun reader.old.buffer.value reader.new.buffer.value) }
    ensures bounds { TakesSome 0 result (state reader.old) (state reader.new) }
    ensures saved { SavedBounds 1 result (state reader.old) (state reader.new) }
{
    let begun = match entity_case(reader.rest) {
        EntityCase::StringLiteralEntity => {
            reader.skip(2);
            reader.found = or_memory!(reader.buffer.append(encoding, b"::string literal"));
            reader.quals = None;
            return Ok(());
        }
        EntityCase::DefaultArgumentEntity => {
            reader.skip(2);
            let Some((number, rest)) = ordinal(reader.rest) else {
                return Err(Stop::Unreadable);
            };
            reader.rest = rest;
            open_default_arg(&mut reader.buffer, encoding, number)
        }
        EntityCase::NameEntity => {
            reader.skip(1);
            open_parent(&mut reader.buffer, encoding)
        }
        EntityCase::UnreadableEntity => return Err(Stop::Unreadable),
    };
    let opened = or_memory!(begun);
    let mark = reader.buffer.open();
    tri!(read_name(reader, depth, context, true));
    tri!(reader.close_found(mark));
    reader.found = or_memory!(append_leaf(&mut reader.buffer, opened, reader.found));
    Ok(())
}

/// Reads `<local-name> ::= Z <encoding> E <name> | Z <encoding> E s | Z <encoding> E d [<number>] _ <name>`, after its
/// `Z`. Leaves the entity's own qualifiers in `reader.quals`.
#[tactic(auto, using(itanium_reader::proofs::Rules::local_names))]
#[cycle(reader)]
pub(crate) fn read_local_name(reader: &mut Reader, depth: usize, context: Context) -> ReadResult
    requires count_fits { CountFits 2 (state reader.old) }
    ensures reads { GivesBareName result reader.new (spec.parse_local (spec.parse_encoding depth AtE
        (inside_encoding context)) (spec.parse_bare_name depth (showing_words context)) (state reader.old)) }
    ensures run { OnOk result (IsRun reader.old.buffer.value reader.new.buffer.value) }
    ensures bounds { TakesSome 1 result (state reader.old) (state reader.new) }
    ensures saved { SavedBounds 1 result (state reader.old) (state reader.new) }
{
    tri!(read_encoding(reader, depth, context.inside_encoding(), EncodingEnd::AtE));
    read_entity(reader, depth, context.showing_words(), reader.found)
}
