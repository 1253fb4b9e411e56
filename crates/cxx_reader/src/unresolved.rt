//! Names that aren't resolved (Itanium C++ ABI 5.1.6.2).
#![tactic(auto, using(crate::proofs::Rules::productions), unfolding(cxx_tree::specs::Grows::Makes, cxx_tree::specs::Stored::tree_of, cxx_tree::specs::Stored::plain_tree, cxx_tree::specs::Stored::IsBelow, cxx_tree::specs::Stored::IsPlainBelow, cxx_tree::specs::Stored::stands, crate::specs::Outcome::list_trees, cxx_grammar::specs::Unresolved::unresolved_type_as, cxx_grammar::specs::Unresolved::parse_args_if_any, cxx_grammar::specs::Unresolved::operator_as, cxx_grammar::specs::Unresolved::base_name_as, cxx_grammar::specs::Unresolved::unresolved_as, cxx_grammar::specs::Unresolved::global_as))]

ghost use Rattle.std.specs.Prelude.{◌≡◌, ℕ, ◌<◌, ◌≤◌, length, OnOk, Some};
ghost use Rattle.cxx_tree.specs.Phrases.{dtor_name};
ghost use Rattle.cxx_tree.specs.Stored.{stands};
ghost use Rattle.cxx_tree.specs.Kept.{IsNode};
ghost use Rattle.cxx_grammar.specs.Parses.{make, saved};
ghost use Rattle.cxx_grammar.specs.Leaves.{parse_template_param};
ghost use Rattle.cxx_grammar.specs.Rows.{parse_row, decltype_row as decltype};
ghost use Rattle.cxx_grammar.specs.Unresolved as spec;
ghost use Rattle.cxx_grammar.specs.Symbol.{productions};
ghost use Rattle.cxx_reader.specs.Outcome.{state, Keeps, Moves, Gives};

use crate::args::read_args;
use crate::cases::{
    base_case, base_name_case, begins, begins_digit, unresolved_case, unresolved_type_case,
};
use crate::names::read_base;
use crate::reader::Reader;
use crate::rows::read_row;
use crate::specials::decltype_row;
use crate::types::read_type;
use cxx_grammar::cases::{BaseCase, BaseNameCase, UnresolvedCase, UnresolvedTypeCase};
use cxx_tree::{Node, NodeText, Plain, Prec, Stop};

/// Reads `<unresolved-name>` without a `gs`.
#[cycle(reader)]
#[inline(never)]
pub fn read_unresolved_name(reader: &mut Reader, depth: usize) -> Result<u32, Stop>
    ensures reads { Gives result reader.new (spec.parse_unresolved_name (productions depth) (state reader.old)) }
    ensures moves { OnOk result (Moves reader.old reader.new) }
{
    match unresolved_case(reader.rest) {
        UnresolvedCase::Base => read_base_name(reader, depth),
        UnresolvedCase::Simple => read_simple_scopes(reader, depth, false),
        UnresolvedCase::Type => read_in_type(reader, depth),
        UnresolvedCase::Nested => read_in_nested(reader, depth),
        UnresolvedCase::Unresolved => read_in_unresolved(reader, depth),
    }
}

/// Reads `gs <unresolved-name>`.
#[cycle(reader)]
#[inline(never)]
pub fn read_global_name(reader: &mut Reader, depth: usize) -> Result<u32, Stop>
    ensures reads { Gives result reader.new (spec.parse_global_name (productions depth) (state reader.old)) }
    ensures moves { OnOk result (Moves reader.old reader.new) }
{
    reader.skip(2);
    match unresolved_case(reader.rest) {
        UnresolvedCase::Base => read_global_base(reader, depth),
        UnresolvedCase::Simple => read_simple_scopes(reader, depth, true),
        _ => Err(Stop::Unreadable),
    }
}

// Reads `<base-unresolved-name>` behind `gs`.
#[cycle(reader)]
fn read_global_base(reader: &mut Reader, depth: usize) -> Result<u32, Stop>
    ensures reads { Gives result reader.new (spec.parse_global_base (productions depth) (state reader.old)) }
    ensures moves { OnOk result (Moves reader.old reader.new) }
{
    let name = tri!(read_base_name(reader, depth));
    reader.make_global(name)
}

// Reads `sr <simple-id>+ E <base-unresolved-name>`.
#[cycle(reader)]
fn read_simple_scopes(reader: &mut Reader, depth: usize, is_global: bool) -> Result<u32, Stop>
    ensures reads { Gives result reader.new (spec.parse_simple_scopes (productions depth) is_global
        (state reader.old)) }
    ensures moves { OnOk result (Moves reader.old reader.new) }
{
    reader.skip(2);
    let id = tri!(read_simple_id(reader, depth));
    let scope = tri!(reader.make_global_if(is_global, id));
    read_scopes(reader, depth, scope)
}

// Reads `<simple-id>* E <base-unresolved-name>`, in a scope.
#[cycle(reader)]
fn read_scopes(reader: &mut Reader, depth: usize, outer: u32) -> Result<u32, Stop>
    requires outer { IsNode reader.old.arena outer }
    ensures reads { Gives result reader.new (spec.parse_scopes (productions depth) (stands reader.old.arena outer)
        (state reader.old)) }
    ensures moves { OnOk result (Moves reader.old reader.new) }
{
    let scope = tri!(read_scope_list(reader, depth, outer));
    read_base_in(reader, depth, scope)
}

// Reads `<simple-id>* E`, in a scope.
#[cycle(reader)]
fn read_scope_list(reader: &mut Reader, depth: usize, outer: u32) -> Result<u32, Stop>
    requires outer { IsNode reader.old.arena outer }
    ensures reads { Gives result reader.new (spec.parse_scope_list (productions depth)
        (stands reader.old.arena outer) (state reader.old)) }
    ensures moves { OnOk result (Moves reader.old reader.new) }
{
    let mut scope = outer;
    while !begins(reader.rest, b'E') {
        scope = tri!(read_next_scope(reader, depth, scope));
    }
    reader.skip(1);
    Ok(scope)
}

// Reads `<simple-id>`, in a scope.
#[cycle(reader)]
fn read_next_scope(reader: &mut Reader, depth: usize, scope: u32) -> Result<u32, Stop>
    requires scope { IsNode reader.old.arena scope }
    ensures reads { Gives result reader.new (spec.parse_next_scope (productions depth)
        (stands reader.old.arena scope) (state reader.old)) }
    ensures moves { OnOk result (Moves reader.old reader.new) }
{
    let id = tri!(read_simple_id(reader, depth));
    reader.make(Node::Plain(Plain::Scoped(false, scope, id)))
}

// Reads `<base-unresolved-name>`, in a scope.
#[cycle(reader)]
fn read_base_in(reader: &mut Reader, depth: usize, scope: u32) -> Result<u32, Stop>
    requires scope { IsNode reader.old.arena scope }
    ensures reads { Gives result reader.new (spec.parse_base_in (productions depth) (stands reader.old.arena scope)
        (state reader.old)) }
    ensures moves { OnOk result (Moves reader.old reader.new) }
{
    let name = tri!(read_base_name(reader, depth));
    reader.make(Node::Plain(Plain::Scoped(false, scope, name)))
}

// Reads `sr <type> <base-unresolved-name>`.
#[cycle(reader)]
fn read_in_type(reader: &mut Reader, depth: usize) -> Result<u32, Stop>
    ensures reads { Gives result reader.new (spec.parse_in_type (productions depth) (state reader.old)) }
    ensures moves { OnOk result (Moves reader.old reader.new) }
{
    reader.skip(2);
    let scope = tri!(read_type(reader, depth, false));
    read_base_in(reader, depth, scope)
}

// Reads `srN <unresolved-type> [<template-args>] <simple-id>* E <base-unresolved-name>`.
#[cycle(reader)]
fn read_in_nested(reader: &mut Reader, depth: usize) -> Result<u32, Stop>
    ensures reads { Gives result reader.new (spec.parse_in_nested (productions depth) (state reader.old)) }
    ensures moves { OnOk result (Moves reader.old reader.new) }
{
    reader.skip(3);
    let scope = tri!(read_scope_type(reader, depth));
    read_scopes(reader, depth, scope)
}

// Reads `sr <unresolved-type> [<template-args>] <base-unresolved-name>`.
#[cycle(reader)]
fn read_in_unresolved(reader: &mut Reader, depth: usize) -> Result<u32, Stop>
    ensures reads { Gives result reader.new (spec.parse_in_unresolved (productions depth) (state reader.old)) }
    ensures moves { OnOk result (Moves reader.old reader.new) }
{
    reader.skip(2);
    let scope = tri!(read_scope_type(reader, depth));
    read_base_in(reader, depth, scope)
}

// Reads `<unresolved-type> [<template-args>]`.
#[cycle(reader)]
fn read_scope_type(reader: &mut Reader, depth: usize) -> Result<u32, Stop>
    ensures reads { Gives result reader.new (spec.parse_scope_type (productions depth) (state reader.old)) }
    ensures moves { OnOk result (Moves reader.old reader.new) }
{
    let t = tri!(read_unresolved_type(reader, depth));
    read_args_if_any(reader, depth, t)
}

// Reads `<unresolved-type> ::= <template-param> | <decltype> | <substitution>`.
#[cycle(reader)]
fn read_unresolved_type(reader: &mut Reader, depth: usize) -> Result<u32, Stop>
    ensures reads { Gives result reader.new (spec.parse_unresolved_type (productions depth) (state reader.old)) }
    ensures moves { OnOk result (Moves reader.old reader.new) }
{
    match unresolved_type_case(reader.rest) {
        UnresolvedTypeCase::Param => reader.read_saved_param(),
        UnresolvedTypeCase::Decltype => read_saved_decltype(reader, depth),
        UnresolvedTypeCase::Substitution => reader.read_substitution(),
        UnresolvedTypeCase::Unread => Err(Stop::Unreadable),
    }
}

// Reads `<decltype>`, and saves it.
#[cycle(reader)]
fn read_saved_decltype(reader: &mut Reader, depth: usize) -> Result<u32, Stop>
    requires rest { 0 < length reader.old.rest.now }
    ensures reads { Gives result reader.new (saved (parse_row (productions depth) decltype) (state reader.old)) }
    ensures moves { OnOk result (Moves reader.old reader.new) }
{
    let t = tri!(read_row(reader, depth, decltype_row()));
    tri!(reader.arena.save(t));
    Ok(t)
}

// Reads the arguments of a name, if there are any.
#[cycle(reader)]
fn read_args_if_any(reader: &mut Reader, depth: usize, name: u32) -> Result<u32, Stop>
    requires name { IsNode reader.old.arena name }
    ensures reads { Gives result reader.new (spec.parse_args_if_any (productions depth)
        (stands reader.old.arena name) (state reader.old)) }
    ensures keeps { OnOk result (Keeps reader.old reader.new) }
{
    if !begins(reader.rest, b'I') {
        return Ok(name);
    }
    let args = tri!(read_args(reader, depth));
    reader.make(Node::Plain(Plain::WithArgs(name, args)))
}

// Reads `<simple-id> ::= <source-name> [<template-args>]`.
#[cycle(reader)]
fn read_simple_id(reader: &mut Reader, depth: usize) -> Result<u32, Stop>
    ensures reads { Gives result reader.new (spec.parse_simple_id (productions depth) (state reader.old)) }
    ensures moves { OnOk result (Moves reader.old reader.new) }
{
    let name = tri!(reader.read_source_name());
    read_args_if_any(reader, depth, name)
}

// Reads `<base-unresolved-name> ::= <simple-id> | dn <destructor-name> | [on] <operator-name> [<template-args>]`.
#[cycle(reader)]
fn read_base_name(reader: &mut Reader, depth: usize) -> Result<u32, Stop>
    ensures reads { Gives result reader.new (spec.parse_base_name (productions depth) (state reader.old)) }
    ensures moves { OnOk result (Moves reader.old reader.new) }
{
    match base_name_case(reader.rest) {
        BaseNameCase::Simple => read_simple_id(reader, depth),
        BaseNameCase::Destructor => read_destructor_name(reader, depth),
        BaseNameCase::Operator => read_operator_id(reader, depth),
    }
}

// Reads `dn <destructor-name>`.
#[cycle(reader)]
fn read_destructor_name(reader: &mut Reader, depth: usize) -> Result<u32, Stop>
    ensures reads { Gives result reader.new (spec.parse_destructor_name (productions depth) (state reader.old)) }
    ensures moves { OnOk result (Moves reader.old reader.new) }
{
    reader.skip(2);
    let t = tri!(read_destroyed(reader, depth));
    reader.make_dtor_name(t)
}

// Reads `<destructor-name> ::= <simple-id> | <unresolved-type>`.
#[cycle(reader)]
fn read_destroyed(reader: &mut Reader, depth: usize) -> Result<u32, Stop>
    ensures reads { Gives result reader.new (spec.parse_destroyed (productions depth) (state reader.old)) }
    ensures moves { OnOk result (Moves reader.old reader.new) }
{
    if begins_digit(reader.rest) {
        return read_simple_id(reader, depth);
    }
    read_unresolved_type(reader, depth)
}

// Reads `[on] <operator-name> [<template-args>]`.
#[cycle(reader)]
fn read_operator_id(reader: &mut Reader, depth: usize) -> Result<u32, Stop>
    ensures reads { Gives result reader.new (spec.parse_operator_id (productions depth) (state reader.old)) }
    ensures moves { OnOk result (Moves reader.old reader.new) }
{
    reader.skip_on();
    let name = tri!(read_operator_name(reader, depth));
    read_args_if_any(reader, depth, name)
}

// Reads `<operator-name>`.
#[cycle(reader)]
fn read_operator_name(reader: &mut Reader, depth: usize) -> Result<u32, Stop>
    ensures reads { Gives result reader.new (spec.parse_operator_name (productions depth) (state reader.old)) }
    ensures moves { OnOk result (Moves reader.old reader.new) }
{
    let case = base_case(reader.rest);
    if !is_operator_name(case) {
        return Err(Stop::Unreadable);
    }
    read_base(reader, depth, case)
}

// Whether an unqualified name is an `<operator-name>`.
fn is_operator_name(case: BaseCase) -> bool
    ensures value { result ≡ spec.is_operator_name case }
{
    match case {
        BaseCase::Conversion | BaseCase::Literal | BaseCase::Vendor | BaseCase::Operator => true,
        _ => false,
    }
}

impl<'a> Reader<'a> {
    // Skips `on`, if it is next.
    #[tactic(auto, unfolding(cxx_grammar::specs::Parses::past_word_if, cxx_grammar::specs::Unresolved::skip_on))]
    fn skip_on(&mut self)
        ensures reads { spec.skip_on (state self.old) ≡ Some (tt, state self.new) }
        ensures arena { self.new.arena ≡ self.old.arena }
        ensures within { length self.new.rest.now ≤ length self.old.rest.now }
    {
        if let [b'o', b'n', ..] = self.rest {
            self.skip(2);
        }
    }

    // Reads `<template-param>`, and saves it.
    fn read_saved_param(&mut self) -> Result<u32, Stop>
        ensures reads { Gives result self.new (saved parse_template_param (state self.old)) }
        ensures moves { OnOk result (Moves self.old self.new) }
    {
        let t = tri!(self.read_template_param());
        tri!(self.arena.save(t));
        Ok(t)
    }

    // Puts `::` in front of a name.
    fn make_global(&mut self, name: u32) -> Result<u32, Stop>
        requires name { IsNode self.old.arena name }
        ensures reads { Gives result self.new (spec.make_global (stands self.old.arena name) (state self.old)) }
        ensures keeps { OnOk result (Keeps self.old self.new) }
        ensures rest { OnOk result (self.new.rest.now ≡ self.old.rest.now) }
    {
        self.arena.make_prefixed(
            NodeText::Fixed(b"::"),
            NodeText::Fixed(b"::"),
            name,
            Prec::Primary,
        )
    }

    // The same, if the name is global.
    fn make_global_if(&mut self, is_global: bool, name: u32) -> Result<u32, Stop>
        requires name { IsNode self.old.arena name }
        ensures reads { Gives result self.new (spec.make_global_if is_global (stands self.old.arena name)
            (state self.old)) }
        ensures keeps { OnOk result (Keeps self.old self.new) }
        ensures rest { OnOk result (self.new.rest.now ≡ self.old.rest.now) }
    {
        if is_global {
            return self.make_global(name);
        }
        Ok(name)
    }

    // Makes the name of a destructor.
    fn make_dtor_name(&mut self, t: u32) -> Result<u32, Stop>
        requires t { IsNode self.old.arena t }
        ensures reads { Gives result self.new (make (dtor_name (stands self.old.arena t)) (state self.old)) }
        ensures keeps { OnOk result (Keeps self.old self.new) }
        ensures rest { OnOk result (self.new.rest.now ≡ self.old.rest.now) }
    {
        self.arena.make_dtor_name(t)
    }
}
