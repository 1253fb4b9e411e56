//! Template arguments (Itanium C++ ABI 5.1.5.4, 5.1.6).
#![tactic(auto, using(crate::proofs::Rules::productions), unfolding(cxx_tree::specs::Grows::Makes, cxx_tree::specs::Stored::tree_of, cxx_tree::specs::Stored::plain_tree, cxx_tree::specs::Stored::IsBelow, cxx_tree::specs::Stored::IsPlainBelow, cxx_tree::specs::Stored::stands, crate::specs::Outcome::list_trees, cxx_grammar::specs::Args::arg_as, cxx_grammar::specs::Args::literal_as, cxx_grammar::specs::Requirements::parse_constrained_arg))]

ghost use Rattle.std.specs.Prelude.{◌≡◌, ℕ, ◌<◌, ◌≤◌, length, OnOk, Some};
ghost use Rattle.cxx_tree.specs.Phrases as phrases;
ghost use Rattle.cxx_tree.specs.Texts.{number_printed};
ghost use Rattle.cxx_tree.specs.Stored.{forest, size, stands};
ghost use Rattle.cxx_tree.specs.Kept.{IsNode};
ghost use Rattle.cxx_grammar.specs.Parses as parses;
ghost use Rattle.cxx_grammar.specs.Leaves as leaves;
ghost use Rattle.cxx_grammar.specs.Args as spec;
ghost use Rattle.cxx_grammar.specs.Requirements as args;
ghost use Rattle.cxx_grammar.specs.Symbol.{productions};
ghost use Rattle.cxx_reader.specs.Outcome.{state, Keeps, Moves, Gives, GivesList};

use crate::cases::{arg_case, begins, literal_case};
use crate::declarations::read_declaration;
use crate::expressions::read_expression;
use crate::reader::Reader;
use crate::rows::{read_list, read_row};
use crate::specials::{encoding_row, expression_arg_row};
use crate::types::read_type;
use crate::unnamed::read_lambda;
use cxx_grammar::cases::{ArgCase, LiteralCase};
use cxx_grammar::rows::Item;
use cxx_tree::{List, Node, Plain, Stop};

/// Reads `<template-args> ::= I <template-arg>* [Q <expression>] E`.
#[cycle(reader)]
#[inline(always)]
pub fn read_args(reader: &mut Reader, depth: usize) -> Result<List, Stop>
    ensures reads { GivesList result reader.new (spec.parse_args (productions depth) (state reader.old)) }
    ensures moves { OnOk result (Moves reader.old reader.new) }
{
    if !begins(reader.rest, b'I') {
        return Err(Stop::Unreadable);
    }
    read_list(reader, depth, 1, Item::ConstrainedArg)
}

/// Reads `<template-arg> [Q <expression>]`.
#[cycle(reader)]
#[inline(always)]
pub fn read_constrained_arg(reader: &mut Reader, depth: usize) -> Result<u32, Stop>
    ensures reads { Gives result reader.new (args.parse_constrained_arg (productions depth) (state reader.old)) }
    ensures moves { OnOk result (Moves reader.old reader.new) }
{
    let arg = tri!(read_arg(reader, depth));
    if begins(reader.rest, b'Q') {
        return read_args_constraint(reader, depth, arg);
    }
    Ok(arg)
}

// Reads `Q <expression>` behind the last argument, up to an `E`. It isn't printed.
#[cycle(reader)]
#[inline(never)]
fn read_args_constraint(reader: &mut Reader, depth: usize, arg: u32) -> Result<u32, Stop>
    requires arg { IsNode reader.old.arena arg }
    ensures reads { Gives result reader.new (args.parse_args_constraint (productions depth)
        (stands reader.old.arena arg) (state reader.old)) }
    ensures keeps { OnOk result (Keeps reader.old reader.new) }
{
    reader.skip(1);
    tri!(read_expression(reader, depth));
    if !begins(reader.rest, b'E') {
        return Err(Stop::Unreadable);
    }
    Ok(arg)
}

/// Reads `<template-arg>`. At most `depth` counted productions may nest, this one included.
#[cycle(reader)]
#[inline(always)]
pub fn read_arg(reader: &mut Reader, depth: usize) -> Result<u32, Stop>
    ensures reads { Gives result reader.new ((productions depth).arg (state reader.old)) }
    ensures moves { OnOk result (Moves reader.old reader.new) }
{
    if depth == 0 {
        return Err(Stop::Unreadable);
    }
    let depth = depth - 1;
    match arg_case(reader.rest) {
        ArgCase::Expression => read_row(reader, depth, expression_arg_row()),
        ArgCase::Declared => read_declared_arg(reader, depth),
        ArgCase::Pack => read_pack(reader, depth),
        ArgCase::Encoding => read_row(reader, depth, encoding_row()),
        ArgCase::Literal => read_literal(reader, depth),
        ArgCase::Type => read_type(reader, depth, false),
    }
}

// Reads `<template-param-decl> <template-arg>`. The declaration isn't printed.
#[cycle(reader)]
#[inline(never)]
fn read_declared_arg(reader: &mut Reader, depth: usize) -> Result<u32, Stop>
    ensures reads { Gives result reader.new (spec.parse_declared_arg (productions depth) (state reader.old)) }
    ensures moves { OnOk result (Moves reader.old reader.new) }
{
    tri!(read_declaration(reader, depth, 0));
    read_arg(reader, depth)
}

// Reads `J <template-arg>* E`.
#[cycle(reader)]
fn read_pack(reader: &mut Reader, depth: usize) -> Result<u32, Stop>
    ensures reads { Gives result reader.new (spec.parse_pack (productions depth) (state reader.old)) }
    ensures moves { OnOk result (Moves reader.old reader.new) }
{
    let args = tri!(read_list(reader, depth, 1, Item::Arg));
    reader.make(Node::Plain(Plain::Several(args)))
}

/// Reads `<expr-primary>`.
#[cycle(reader)]
#[inline(never)]
pub fn read_literal(reader: &mut Reader, depth: usize) -> Result<u32, Stop>
    ensures reads { Gives result reader.new (spec.parse_literal (productions depth) (state reader.old)) }
    ensures moves { OnOk result (Moves reader.old reader.new) }
{
    reader.skip(1);
    match literal_case(reader.rest) {
        LiteralCase::Bool => reader.read_bool(),
        LiteralCase::Null => reader.read_null(),
        LiteralCase::Integer => reader.read_integer(),
        LiteralCase::Float(format) => reader.read_float(format),
        LiteralCase::Encoding => read_row(reader, depth, encoding_row()),
        LiteralCase::String => read_string(reader, depth),
        LiteralCase::Lambda => read_lambda_literal(reader, depth),
        LiteralCase::Unread => Err(Stop::Unreadable),
        LiteralCase::Typed => read_typed(reader, depth),
    }
}

// Reads `<type> <number> E`.
#[cycle(reader)]
fn read_typed(reader: &mut Reader, depth: usize) -> Result<u32, Stop>
    ensures reads { Gives result reader.new (spec.parse_typed (productions depth) (state reader.old)) }
    ensures moves { OnOk result (Moves reader.old reader.new) }
{
    let t = tri!(read_type(reader, depth, false));
    let number = tri!(reader.read_number_end());
    reader.make_typed_literal(t, number)
}

// Reads `<string type> E`.
#[cycle(reader)]
fn read_string(reader: &mut Reader, depth: usize) -> Result<u32, Stop>
    ensures reads { Gives result reader.new (spec.parse_string (productions depth) (state reader.old)) }
    ensures moves { OnOk result (Moves reader.old reader.new) }
{
    let t = tri!(read_type(reader, depth, false));
    tri!(reader.expect(b'E'));
    reader.make_string_literal(t)
}

// Reads `<closure type> E`.
#[cycle(reader)]
fn read_lambda_literal(reader: &mut Reader, depth: usize) -> Result<u32, Stop>
    ensures reads { Gives result reader.new (spec.parse_lambda_literal (productions depth) (state reader.old)) }
    ensures moves { OnOk result (Moves reader.old reader.new) }
{
    let lambda = tri!(read_lambda(reader, depth));
    tri!(reader.expect(b'E'));
    Ok(lambda)
}

impl<'a> Reader<'a> {
    // Makes a string literal of a type.
    fn make_string_literal(&mut self, t: u32) -> Result<u32, Stop>
        requires t { IsNode self.old.arena t }
        ensures reads { Gives result self.new (parses.make (phrases.string_literal (stands self.old.arena t))
            (state self.old)) }
        ensures keeps { OnOk result (Keeps self.old self.new) }
        ensures rest { OnOk result (self.new.rest.now ≡ self.old.rest.now) }
    {
        self.arena.make_string_literal(t)
    }

    // Makes a literal of a type with a number.
    fn make_typed_literal(&mut self, t: u32, number: &[u8]) -> Result<u32, Stop>
        requires t { IsNode self.old.arena t }
        ensures reads { Gives result self.new (parses.make (phrases.typed_literal (stands self.old.arena t)
            (number_printed number.now)) (state self.old)) }
        ensures keeps { OnOk result (Keeps self.old self.new) }
        ensures rest { OnOk result (self.new.rest.now ≡ self.old.rest.now) }
    {
        self.arena.make_typed_literal(t, number)
    }
}
