//! Literals, external names and expressions (Itanium C++ ABI 5.1, "Expressions").
#![tactic(auto, using(itanium_reader::proofs::Rules::buffers))]

ghost use Rattle.std.specs.Prelude.{◌≡◌, ◌<◌, IfOk, OnOk, length};
ghost use Rattle.demangle_text.specs.State.{shape, IsEdit, IsLiving, IsRun, Lives};
ghost use Rattle.demangle_text.specs.Shape.{text};
ghost use Rattle.itanium_grammar.specs.Tree.{greater_shape};
ghost use Rattle.itanium_reader.specs.Parser as spec;
ghost use Rattle.itanium_reader.specs.Outcome.{state, Gives, CountFits, TakesSome, SavedBounds};

use crate::encodings::read_encoding;
use crate::frames::{Framed, read_framed, read_worded};
use demangle_edit::{Glue, address, glue, write_opened_literal};
use demangle_text::{Buffer, Piece, Place};
use itanium_reader::{ReadResult, Reader, Stop};
use itanium_syntax::context::Context;
use itanium_syntax::encodings::EncodingEnd;
use itanium_syntax::expressions::{
    ExpressionCase, PrimaryCase, expression_case, expression_text, is_external, literal_value,
    primary_case,
};
use std::alloc::AllocError;

/// Reads `<expr-primary> ::= L <type> <value> E | L _Z <encoding> E`.
#[tactic(auto, using(itanium_reader::proofs::Rules::primaries))]
#[cycle(reader)]
pub(crate) fn read_expr_primary(reader: &mut Reader, depth: usize, context: Context) -> ReadResult
    requires count_fits { CountFits 0 (state reader.old) }
    requires some { 0 < length reader.old.rest.now }
    ensures reads { Gives result reader.new (spec.parse_primary depth context (state reader.old)) }
    ensures run { OnOk result (IsRun reader.old.buffer.value reader.new.buffer.value) }
    ensures bounds { TakesSome 0 result (state reader.old) (state reader.new) }
    ensures saved { SavedBounds 1 result (state reader.old) (state reader.new) }
{
    match primary_case(reader.rest) {
        PrimaryCase::ExternalName => {
            reader.skip(3);
            tri!(read_encoding(reader, depth, context.inside_encoding(), EncodingEnd::AtE));
            reader.read_end()
        }
        PrimaryCase::ValueLiteral => {
            reader.skip(1);
            // Most literals print their type in parentheses. The `(` is printed before the type is read, so the type
            // need not move.
            let paren = or_memory!(reader.buffer.push(b"("));
            tri!(read_framed(reader, depth, context, Framed::FramedType));
            let Some((value, rest)) = literal_value(reader.rest) else {
                return Err(Stop::Unreadable);
            };
            reader.rest = rest;
            let literal = or_memory!(write_opened_literal(
                &mut reader.buffer,
                paren,
                reader.found,
                value
            ));
            let Some(literal) = literal else {
                return Err(Stop::Unreadable);
            };
            reader.found = literal;
            Ok(())
        }
        PrimaryCase::UnreadablePrimary => Err(Stop::Unreadable),
    }
}

/// Reads `pp_ <expression>` or `mm_ <expression>`, a prefix increment or decrement.
#[cycle(reader)]
pub(crate) fn read_pre(reader: &mut Reader, depth: usize, context: Context) -> ReadResult
    requires count_fits { CountFits 0 (state reader.old) }
    requires some { 0 < length reader.old.rest.now }
    ensures reads { Gives result reader.new (spec.parse_pre (spec.parse_expression depth context) (state reader.old)) }
    ensures run { OnOk result (IsRun reader.old.buffer.value reader.new.buffer.value) }
    ensures bounds { TakesSome 0 result (state reader.old) (state reader.new) }
    ensures saved { SavedBounds 1 result (state reader.old) (state reader.new) }
{
    let operator = expression_text(reader.rest).as_bytes();
    reader.skip(3);
    read_worded(
        reader,
        depth,
        context,
        operator,
        Framed::FramedExpression,
        b"",
    )
}

/// Reads `ad <expression>` for an external name, and prints `&` in front of it.
#[cycle(reader)]
pub(crate) fn read_address(reader: &mut Reader, depth: usize, context: Context) -> ReadResult
    requires count_fits { CountFits 0 (state reader.old) }
    requires some { 0 < length reader.old.rest.now }
    ensures reads { Gives result reader.new
        (spec.parse_address (spec.parse_expression depth context) (state reader.old)) }
    ensures run { OnOk result (IsRun reader.old.buffer.value reader.new.buffer.value) }
    ensures bounds { TakesSome 0 result (state reader.old) (state reader.new) }
    ensures saved { SavedBounds 1 result (state reader.old) (state reader.new) }
{
    reader.skip(2);
    tri!(read_expression(reader, depth, context));
    reader.found = or_memory!(address(&mut reader.buffer, reader.found));
    Ok(())
}

/// Reads the two letters of a unary operator and its operand. The operator is printed in front.
#[cycle(reader)]
pub(crate) fn read_unary(reader: &mut Reader, depth: usize, context: Context) -> ReadResult
    requires count_fits { CountFits 0 (state reader.old) }
    requires some { 0 < length reader.old.rest.now }
    ensures reads { Gives result reader.new
        (spec.parse_unary (spec.parse_expression depth context) (state reader.old)) }
    ensures run { OnOk result (IsRun reader.old.buffer.value reader.new.buffer.value) }
    ensures bounds { TakesSome 0 result (state reader.old) (state reader.new) }
    ensures saved { SavedBounds 1 result (state reader.old) (state reader.new) }
{
    let operator = expression_text(reader.rest).as_bytes();
    reader.skip(2);
    read_worded(reader, depth, context, operator, Framed::FramedOperand, b"")
}

/// Reads `pp <expression>` or `mm <expression>`, a postfix increment or decrement.
#[cycle(reader)]
pub(crate) fn read_post(reader: &mut Reader, depth: usize, context: Context) -> ReadResult
    requires count_fits { CountFits 0 (state reader.old) }
    requires some { 0 < length reader.old.rest.now }
    ensures reads { Gives result reader.new
        (spec.parse_post (spec.parse_expression depth context) (state reader.old)) }
    ensures run { OnOk result (IsRun reader.old.buffer.value reader.new.buffer.value) }
    ensures bounds { TakesSome 0 result (state reader.old) (state reader.new) }
    ensures saved { SavedBounds 1 result (state reader.old) (state reader.new) }
{
    let text = expression_text(reader.rest);
    reader.skip(2);
    tri!(read_operand(reader, depth, context));
    let parts = [Glue::Piece(reader.found), Glue::Text(text.as_bytes())];
    reader.found = or_memory!(glue(&mut reader.buffer, &parts));
    Ok(())
}

/// Reads the two letters of a binary operator and its two operands. The operator is printed between them.
#[cycle(reader)]
pub(crate) fn read_binary(reader: &mut Reader, depth: usize, context: Context) -> ReadResult
    requires count_fits { CountFits 0 (state reader.old) }
    requires some { 0 < length reader.old.rest.now }
    ensures reads { Gives result reader.new
        (spec.parse_binary (spec.parse_expression depth context) (state reader.old)) }
    ensures run { OnOk result (IsRun reader.old.buffer.value reader.new.buffer.value) }
    ensures bounds { TakesSome 0 result (state reader.old) (state reader.new) }
    ensures saved { SavedBounds 1 result (state reader.old) (state reader.new) }
{
    let text = expression_text(reader.rest);
    reader.skip(2);
    tri!(read_operand(reader, depth, context));
    let left = reader.found;
    tri!(read_framed(reader, depth, context, Framed::FramedOperand));
    reader.print_binary(left, text)
}

/// Puts each of two expressions in parentheses, a `>` between them, and the whole in parentheses.
fn join_greater(buf: &mut Buffer, left: Piece, right: Piece) -> Result<Piece, AllocError>
    requires left { IsLiving buf.old left }
    requires right { IsLiving buf.old right }
    ensures shape { IfOk result (λ p. Lives buf.new p (greater_shape (shape buf.old left) (shape buf.old right))) }
    ensures edit { OnOk result (IsEdit buf.old buf.new) }
{
    let both = tri!(buf.join(left, b")>(", right));
    let opened = tri!(buf.insert(both, Place::Start, b"(("));
    let closed = tri!(buf.append(opened, b"))"));
    Ok(buf.whole(closed))
}

/// Reads `gt <expression> <expression>`. Each of the two is printed in parentheses, and so is the whole.
#[cycle(reader)]
pub(crate) fn read_greater(reader: &mut Reader, depth: usize, context: Context) -> ReadResult
    requires count_fits { CountFits 0 (state reader.old) }
    requires some { 0 < length reader.old.rest.now }
    ensures reads { Gives result reader.new
        (spec.parse_greater (spec.parse_expression depth context) (state reader.old)) }
    ensures run { OnOk result (IsRun reader.old.buffer.value reader.new.buffer.value) }
    ensures bounds { TakesSome 0 result (state reader.old) (state reader.new) }
    ensures saved { SavedBounds 1 result (state reader.old) (state reader.new) }
{
    reader.skip(2);
    tri!(read_expression(reader, depth, context));
    let left = reader.found;
    tri!(read_framed(reader, depth, context, Framed::FramedExpression));
    reader.found = or_memory!(join_greater(&mut reader.buffer, left, reader.found));
    Ok(())
}

/// Reads `qu <expression> <expression> <expression>`, a conditional expression. Prints `?` and ` : ` between them.
#[cycle(reader)]
pub(crate) fn read_conditional(reader: &mut Reader, depth: usize, context: Context) -> ReadResult
    requires count_fits { CountFits 0 (state reader.old) }
    requires some { 0 < length reader.old.rest.now }
    ensures reads { Gives result reader.new
        (spec.parse_conditional (spec.parse_expression depth context) (state reader.old)) }
    ensures run { OnOk result (IsRun reader.old.buffer.value reader.new.buffer.value) }
    ensures bounds { TakesSome 0 result (state reader.old) (state reader.new) }
    ensures saved { SavedBounds 1 result (state reader.old) (state reader.new) }
{
    reader.skip(2);
    tri!(read_operand(reader, depth, context));
    let condition = reader.found;
    tri!(read_framed(reader, depth, context, Framed::FramedOperand));
    tri!(reader.print_binary(condition, "?"));
    let begun = reader.found;
    tri!(read_framed(reader, depth, context, Framed::FramedOperand));
    reader.print_binary(begun, " : ")
}

/// Reads `<expression>`. At most `depth` counted productions may nest, this one included.
#[tactic(auto, using(itanium_reader::proofs::Rules::expressions))]
#[cycle(reader)]
pub(crate) fn read_expression(reader: &mut Reader, depth: usize, context: Context) -> ReadResult
    requires count_fits { CountFits 1 (state reader.old) }
    ensures reads { Gives result reader.new (spec.parse_expression depth context (state reader.old)) }
    ensures run { OnOk result (IsRun reader.old.buffer.value reader.new.buffer.value) }
    ensures refused { depth ≡ 0 → reader.new.entered ≡ reader.old.entered }
    ensures bounds { TakesSome 1 result (state reader.old) (state reader.new) }
    ensures saved { SavedBounds 1 result (state reader.old) (state reader.new) }
{
    let depth = tri!(reader.enter(depth));
    let read = match expression_case(reader.rest) {
        ExpressionCase::PreExpression => read_pre(reader, depth, context),
        ExpressionCase::AddressExpression => read_address(reader, depth, context),
        ExpressionCase::UnaryExpression => read_unary(reader, depth, context),
        ExpressionCase::PostExpression => read_post(reader, depth, context),
        ExpressionCase::BinaryExpression => read_binary(reader, depth, context),
        ExpressionCase::GreaterExpression => read_greater(reader, depth, context),
        ExpressionCase::ConditionalExpression => read_conditional(reader, depth, context),
        ExpressionCase::TemplateParamExpression => reader.read_template_param(context),
        ExpressionCase::PrimaryExpression => read_expr_primary(reader, depth, context),
        ExpressionCase::UnreadableExpression => Err(Stop::Unreadable),
    };
    tri!(read);
    reader.check_width()
}

/// Reads an operand, which is an `<expression>`. The operand is printed in parentheses unless it is an external name.
#[cycle(reader)]
pub(crate) fn read_operand(reader: &mut Reader, depth: usize, context: Context) -> ReadResult
    requires count_fits { CountFits 1 (state reader.old) }
    ensures reads { Gives result reader.new
        (spec.operand_by (spec.parse_expression depth context) (state reader.old)) }
    ensures run { OnOk result (IsRun reader.old.buffer.value reader.new.buffer.value) }
    ensures bounds { TakesSome 1 result (state reader.old) (state reader.new) }
    ensures saved { SavedBounds 1 result (state reader.old) (state reader.new) }
{
    let paren = !is_external(reader.rest);
    tri!(read_expression(reader, depth, context));
    reader.print_operand(paren)
}
