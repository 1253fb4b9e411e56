//! Types (Itanium C++ ABI 5.1.5).
//!
//! The readers of the cases of a type aren't inlined, so that `read_type` only passes on its arguments.
//!
//! A type is bare where it ends the operator of a conversion: there a template parameter or a substitution at its end
//! takes no arguments, since those that follow are the operator's.
#![tactic(auto, using(crate::proofs::Rules::productions), unfolding(cxx_tree::specs::Stored::tree_of, cxx_tree::specs::Stored::plain_tree, cxx_tree::specs::Stored::IsBelow, cxx_tree::specs::Stored::IsPlainBelow, cxx_tree::specs::Stored::stands, crate::specs::Outcome::list_trees, crate::specs::Outcome::named_at, cxx_grammar::specs::Types::type_as, cxx_grammar::specs::Types::parse_qualified_type, cxx_grammar::specs::Types::parse_type_args))]

ghost use Rattle.std.specs.Prelude.{◌≡◌, ℕ, ◌<◌, ◌≤◌, length, OnOk};
ghost use Rattle.cxx_tree.specs.Tree.{expansion, pointer};
ghost use Rattle.cxx_tree.specs.Stored.{forest, size, stands};
ghost use Rattle.cxx_tree.specs.Kept.{IsNode};
ghost use Rattle.cxx_grammar.specs.Parses.{saved};
ghost use Rattle.cxx_grammar.specs.Productions.{name_tree};
ghost use Rattle.cxx_grammar.specs.Rows.{type_row_of, parse_row_of};
ghost use Rattle.cxx_grammar.specs.Types as spec;
ghost use Rattle.cxx_grammar.specs.Symbol.{productions};
ghost use Rattle.cxx_reader.specs.Outcome.{state, Keeps, Moves, Gives};

use crate::bases::is_module;
use crate::cases::{begins, type_case};
use crate::compounds::{
    read_array_type, read_function_type, read_member_pointer, read_vector_type,
};
use crate::names::read_in_module;
use crate::reader::Reader;
use crate::rows::{read_list, read_name_tree, read_row};
use crate::specials::type_row;
use crate::vendors::{read_vendor_qualified, read_vendor_type};
use cxx_grammar::cases::TypeCase;
use cxx_grammar::rows::Item;
use cxx_tree::{Node, Plain, Stop};

/// Reads `<type>`. At most `depth` counted productions may nest, this one included.
#[cycle(reader)]
pub fn read_type(reader: &mut Reader, depth: usize, is_bare: bool) -> Result<u32, Stop>
    ensures reads { Gives result reader.new ((productions depth).type is_bare (state reader.old)) }
    ensures moves { OnOk result (Moves reader.old reader.new) }
{
    if depth == 0 {
        return Err(Stop::Unreadable);
    }
    let depth = depth - 1;
    match type_case(reader.rest) {
        TypeCase::Function => read_function_type(reader, depth),
        TypeCase::Qualified => read_saved_type(reader, depth, is_bare),
        TypeCase::Vendor => read_vendor_type(reader, depth),
        TypeCase::Vector => read_vector_type(reader, depth, is_bare),
        TypeCase::Expansion => read_expansion(reader, depth, is_bare),
        TypeCase::Float => reader.read_float_type(),
        TypeCase::Row => read_type_row(reader, depth),
        TypeCase::Builtin => reader.read_builtin(),
        TypeCase::Array => read_array_type(reader, depth, is_bare),
        TypeCase::SavedRow => read_saved_row(reader, depth),
        TypeCase::Param => read_param_type(reader, depth, is_bare),
        TypeCase::Pointer => read_pointer(reader, depth, is_bare),
        TypeCase::Reference(is_lvalue) => read_reference(reader, depth, is_bare, is_lvalue),
        TypeCase::Suffixed(is_complex) => read_suffixed(reader, depth, is_bare, is_complex),
        TypeCase::MemberPointer => read_member_pointer(reader, depth, is_bare),
        TypeCase::Substitution => read_substituted_type(reader, depth, is_bare),
        TypeCase::Class => read_class(reader, depth),
    }
}

// Reads a `<qualified-type>`, and saves it.
#[cycle(reader)]
#[inline(never)]
fn read_saved_type(reader: &mut Reader, depth: usize, is_bare: bool) -> Result<u32, Stop>
    ensures reads { Gives result reader.new (saved ((productions depth).qualified_type is_bare) (state reader.old)) }
    ensures moves { OnOk result (Moves reader.old reader.new) }
{
    let t = tri!(read_qualified_type(reader, depth, is_bare));
    tri!(reader.arena.save(t));
    Ok(t)
}

/// Reads `<qualified-type>`. At most `depth` counted productions may nest, this one included.
#[cycle(reader)]
pub fn read_qualified_type(reader: &mut Reader, depth: usize, is_bare: bool) -> Result<u32, Stop>
    ensures reads { Gives result reader.new ((productions depth).qualified_type is_bare (state reader.old)) }
    ensures moves { OnOk result (Moves reader.old reader.new) }
{
    if depth == 0 {
        return Err(Stop::Unreadable);
    }
    let depth = depth - 1;
    if begins(reader.rest, b'U') {
        return read_vendor_qualified(reader, depth, is_bare);
    }
    read_cv_qualified(reader, depth, is_bare)
}

// Reads `<CV-qualifiers> <type>`.
#[cycle(reader)]
fn read_cv_qualified(reader: &mut Reader, depth: usize, is_bare: bool) -> Result<u32, Stop>
    ensures reads { Gives result reader.new (spec.parse_cv_qualified (productions depth) is_bare (state reader.old)) }
    ensures moves { OnOk result (Moves reader.old reader.new) }
{
    let cv = reader.read_cv();
    let t = tri!(read_type(reader, depth, is_bare));
    if !cv.is_const && !cv.is_volatile && !cv.is_restrict {
        return Ok(t);
    }
    reader.make(Node::Qualified(t, cv))
}

// Reads `Dp <type>`.
#[cycle(reader)]
#[inline(never)]
fn read_expansion(reader: &mut Reader, depth: usize, is_bare: bool) -> Result<u32, Stop>
    ensures reads { Gives result reader.new (saved (spec.parse_around 2 expansion ((productions depth).type is_bare))
        (state reader.old)) }
    ensures moves { OnOk result (Moves reader.old reader.new) }
{
    reader.skip(2);
    let t = tri!(read_type(reader, depth, is_bare));
    reader.make_saved(Node::Plain(Plain::Expansion(t)))
}

// Reads `P <type>`.
#[cycle(reader)]
#[inline(never)]
fn read_pointer(reader: &mut Reader, depth: usize, is_bare: bool) -> Result<u32, Stop>
    ensures reads { Gives result reader.new (saved (spec.parse_around 1 pointer ((productions depth).type is_bare))
        (state reader.old)) }
    ensures moves { OnOk result (Moves reader.old reader.new) }
{
    reader.skip(1);
    let t = tri!(read_type(reader, depth, is_bare));
    reader.make_saved(Node::Pointer(t))
}

// Reads `R <type>` or `O <type>`.
#[cycle(reader)]
#[inline(never)]
fn read_reference(
    reader: &mut Reader,
    depth: usize,
    is_bare: bool,
    is_lvalue: bool,
) -> Result<u32, Stop>
    ensures reads { Gives result reader.new (saved (spec.parse_around 1 (spec.reference_to is_lvalue)
        ((productions depth).type is_bare)) (state reader.old)) }
    ensures moves { OnOk result (Moves reader.old reader.new) }
{
    reader.skip(1);
    let t = tri!(read_type(reader, depth, is_bare));
    reader.make_saved(Node::Reference(t, is_lvalue))
}

// Reads `C <type>` or `G <type>`.
#[cycle(reader)]
#[inline(never)]
fn read_suffixed(
    reader: &mut Reader,
    depth: usize,
    is_bare: bool,
    is_complex: bool,
) -> Result<u32, Stop>
    ensures reads { Gives result reader.new (saved (spec.parse_around 1 (spec.suffixed_by is_complex)
        ((productions depth).type is_bare)) (state reader.old)) }
    ensures moves { OnOk result (Moves reader.old reader.new) }
{
    reader.skip(1);
    let inner = tri!(read_type(reader, depth, is_bare));
    let t = tri!(reader.make_suffixed(inner, is_complex));
    tri!(reader.arena.save(t));
    Ok(t)
}

// Reads a row.
#[cycle(reader)]
fn read_type_row(reader: &mut Reader, depth: usize) -> Result<u32, Stop>
    ensures reads { Gives result reader.new (parse_row_of type_row_of (productions depth) (state reader.old)) }
    ensures moves { OnOk result (Moves reader.old reader.new) }
{
    let Some(row) = type_row(reader.rest) else {
        return Err(Stop::Unreadable);
    };
    read_row(reader, depth, row)
}

// Reads a row, and saves its tree.
#[cycle(reader)]
#[inline(never)]
fn read_saved_row(reader: &mut Reader, depth: usize) -> Result<u32, Stop>
    ensures reads { Gives result reader.new (saved (parse_row_of type_row_of (productions depth)) (state reader.old)) }
    ensures moves { OnOk result (Moves reader.old reader.new) }
{
    let t = tri!(read_type_row(reader, depth));
    tri!(reader.arena.save(t));
    Ok(t)
}

// Reads `<template-param> [<template-args>]`.
#[cycle(reader)]
#[inline(never)]
fn read_param_type(reader: &mut Reader, depth: usize, is_bare: bool) -> Result<u32, Stop>
    ensures reads { Gives result reader.new (spec.parse_param_type (productions depth) is_bare (state reader.old)) }
    ensures moves { OnOk result (Moves reader.old reader.new) }
{
    let t = tri!(reader.read_template_param());
    tri!(reader.arena.save(t));
    read_type_args(reader, depth, is_bare, t)
}

// Reads `<substitution> [<template-args>]`, or a name in a module that is the substitution.
#[cycle(reader)]
#[inline(never)]
fn read_substituted_type(reader: &mut Reader, depth: usize, is_bare: bool) -> Result<u32, Stop>
    ensures reads { Gives result reader.new (spec.parse_substituted_type (productions depth) is_bare
        (state reader.old)) }
    ensures moves { OnOk result (Moves reader.old reader.new) }
{
    let t = tri!(reader.read_substitution());
    if is_module(&reader.arena, t) {
        return read_module_type(reader, depth, t);
    }
    read_type_args(reader, depth, is_bare, t)
}

// Reads a name in a module that is a substitution, and saves it.
#[cycle(reader)]
fn read_module_type(reader: &mut Reader, depth: usize, owner: u32) -> Result<u32, Stop>
    requires owner { IsNode reader.old.arena owner }
    ensures reads { Gives result reader.new (saved (spec.parse_module_type (productions depth)
        (stands reader.old.arena owner)) (state reader.old)) }
    ensures moves { OnOk result (Moves reader.old reader.new) }
{
    let name = tri!(read_in_module(reader, depth, None, owner));
    tri!(reader.arena.save(name.node));
    Ok(name.node)
}

// Reads the arguments of a type that isn't bare, if there are any.
#[cycle(reader)]
fn read_type_args(reader: &mut Reader, depth: usize, is_bare: bool, t: u32) -> Result<u32, Stop>
    requires t { IsNode reader.old.arena t }
    ensures reads { Gives result reader.new (spec.parse_type_args (productions depth) is_bare
        (stands reader.old.arena t) (state reader.old)) }
    ensures keeps { OnOk result (Keeps reader.old reader.new) }
{
    if is_bare || !begins(reader.rest, b'I') {
        return Ok(t);
    }
    let args = tri!(read_list(reader, depth, 1, Item::ConstrainedArg));
    reader.make_saved(Node::Plain(Plain::WithArgs(t, args)))
}

// Reads `<class-enum-type> ::= <name>`, and saves it.
#[cycle(reader)]
#[inline(never)]
fn read_class(reader: &mut Reader, depth: usize) -> Result<u32, Stop>
    ensures reads { Gives result reader.new (saved (name_tree (productions depth)) (state reader.old)) }
    ensures moves { OnOk result (Moves reader.old reader.new) }
{
    let name = tri!(read_name_tree(reader, depth));
    tri!(reader.arena.save(name));
    Ok(name)
}
