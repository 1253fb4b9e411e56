//! Types and qualifiers of vendors (Itanium C++ ABI 5.1.5).
#![tactic(auto, using(crate::proofs::Rules::productions), unfolding(cxx_tree::specs::Grows::Makes, cxx_tree::specs::Stored::tree_of, cxx_tree::specs::Stored::plain_tree, cxx_tree::specs::Stored::IsBelow, cxx_tree::specs::Stored::IsPlainBelow, cxx_tree::specs::Stored::stands, crate::specs::Outcome::list_trees))]

ghost use Rattle.std.specs.Prelude.{◌≡◌, ℕ, ◌<◌, ◌≤◌, length, OnOk, IfSome, option_map};
ghost use Rattle.cxx_tree.specs.Kept.{IsNode};
ghost use Rattle.cxx_tree.specs.Phrases.{vendor_qualified};
ghost use Rattle.cxx_tree.specs.Stored.{size, stands, IsListBelow};
ghost use Rattle.cxx_tree.specs.Tree.{objc_protocol};
ghost use Rattle.cxx_grammar.specs.Parses.{make, saved};
ghost use Rattle.cxx_grammar.specs.Types as spec;
ghost use Rattle.cxx_grammar.specs.Symbol.{productions};
ghost use Rattle.cxx_reader.specs.Outcome.{state, list_trees, Keeps, Moves, Gives, GivesOptionList};

use crate::args::read_args;
use crate::cases::begins;
use crate::reader::Reader;
use crate::types::{read_qualified_type, read_type};
use abi_scalars::texts::identifier;
use cxx_tree::{List, Node, Plain, Prec, Stop};

/// Reads `u <source-name> [I <type> E]`, and saves it.
#[cycle(reader)]
#[inline(never)]
pub fn read_vendor_type(reader: &mut Reader, depth: usize) -> Result<u32, Stop>
    ensures reads { Gives result reader.new (saved (spec.parse_vendor_type (productions depth)) (state reader.old)) }
    ensures moves { OnOk result (Moves reader.old reader.new) }
{
    reader.skip(1);
    let name = tri!(reader.read_identifier());
    let t = tri!(read_vendor_inside(reader, depth, name));
    tri!(reader.arena.save(t));
    Ok(t)
}

// Reads `[I <type> E]` behind the name of a type.
#[cycle(reader)]
fn read_vendor_inside(reader: &mut Reader, depth: usize, name: &[u8]) -> Result<u32, Stop>
    ensures reads { Gives result reader.new (spec.parse_vendor_inside (productions depth) name.now
        (state reader.old)) }
    ensures keeps { OnOk result (Keeps reader.old reader.new) }
{
    if !begins(reader.rest, b'I') {
        return reader.arena.make_name(name);
    }
    reader.skip(1);
    let t = tri!(read_type(reader, depth, false));
    tri!(reader.expect(b'E'));
    let word = tri!(reader.text(name));
    reader.arena.make_enclosing(word, word, t, Prec::Primary)
}

/// Reads `U <source-name> [<template-args>] <qualified-type>`.
#[cycle(reader)]
#[inline(never)]
pub fn read_vendor_qualified(reader: &mut Reader, depth: usize, is_bare: bool) -> Result<u32, Stop>
    ensures reads { Gives result reader.new (spec.parse_vendor_qualified (productions depth) is_bare
        (state reader.old)) }
    ensures moves { OnOk result (Moves reader.old reader.new) }
{
    reader.skip(1);
    let qualifier = tri!(reader.read_identifier());
    match protocol_of(qualifier) {
        Some(inside) => read_objc_qualified(reader, depth, is_bare, inside),
        None => read_other_qualified(reader, depth, is_bare, qualifier),
    }
}

// Reads `[<template-args>] <qualified-type>`, behind a qualifier.
#[cycle(reader)]
fn read_other_qualified(
    reader: &mut Reader,
    depth: usize,
    is_bare: bool,
    qualifier: &[u8],
) -> Result<u32, Stop>
    ensures reads { Gives result reader.new (spec.parse_other_qualified (productions depth) is_bare qualifier.now
        (state reader.old)) }
    ensures keeps { OnOk result (Keeps reader.old reader.new) }
{
    let args = tri!(read_vendor_args(reader, depth));
    let t = tri!(read_qualified_type(reader, depth, is_bare));
    reader.make_vendor_qualified(t, qualifier, args)
}

// Reads `[<template-args>]`.
#[cycle(reader)]
fn read_vendor_args(reader: &mut Reader, depth: usize) -> Result<Option<List>, Stop>
    ensures reads { GivesOptionList result reader.new (spec.parse_vendor_args (productions depth)
        (state reader.old)) }
    ensures keeps { OnOk result (Keeps reader.old reader.new) }
{
    if !begins(reader.rest, b'I') {
        return Ok(None);
    }
    let args = tri!(read_args(reader, depth));
    Ok(Some(args))
}

// Reads `<qualified-type>` behind the qualifier of an Objective-C protocol, which is the identifier inside of it.
#[cycle(reader)]
fn read_objc_qualified(
    reader: &mut Reader,
    depth: usize,
    is_bare: bool,
    inside: &[u8],
) -> Result<u32, Stop>
    ensures reads { Gives result reader.new (spec.parse_objc_qualified (productions depth) is_bare inside.now
        (state reader.old)) }
    ensures keeps { OnOk result (Keeps reader.old reader.new) }
{
    let Some((protocol, _)) = identifier(inside) else {
        return Err(Stop::Unreadable);
    };
    let t = tri!(read_qualified_type(reader, depth, is_bare));
    reader.make_objc(t, protocol)
}

// What follows `objcproto` in a qualifier, if it begins with it and has more.
fn protocol_of(qualifier: &[u8]) -> Option<&[u8]>
    ensures value { option_map (λ inside. inside.now) result ≡ spec.protocol_of qualifier.now }
{
    match qualifier {
        [
            b'o',
            b'b',
            b'j',
            b'c',
            b'p',
            b'r',
            b'o',
            b't',
            b'o',
            inside @ ..,
        ] => if inside.is_empty() {
            None
        } else {
            Some(inside)
        },
        _ => None,
    }
}

impl<'a> Reader<'a> {
    // Makes a type with a vendor's qualifier.
    fn make_vendor_qualified(
        &mut self,
        t: u32,
        qualifier: &[u8],
        args: Option<List>,
    ) -> Result<u32, Stop>
        requires t { IsNode self.old.arena t }
        requires args { IfSome args (IsListBelow self.old.arena.held (size self.old.arena)) }
        ensures reads { Gives result self.new (make (vendor_qualified (stands self.old.arena t) qualifier.now
            (option_map (list_trees self.old.arena) args)) (state self.old)) }
        ensures keeps { OnOk result (Keeps self.old self.new) }
        ensures rest { OnOk result (self.new.rest.now ≡ self.old.rest.now) }
    {
        let qualifier = tri!(self.text(qualifier));
        self.arena.make_vendor_qualified(t, qualifier, args)
    }

    // Makes a type with an Objective-C protocol.
    fn make_objc(&mut self, t: u32, protocol: &[u8]) -> Result<u32, Stop>
        requires t { IsNode self.old.arena t }
        ensures reads { Gives result self.new (make (objc_protocol (stands self.old.arena t) protocol.now)
            (state self.old)) }
        ensures keeps { OnOk result (Keeps self.old self.new) }
        ensures rest { OnOk result (self.new.rest.now ≡ self.old.rest.now) }
    {
        let protocol = tri!(self.text(protocol));
        self.make(Node::Plain(Plain::ObjcProtocol(t, protocol)))
    }
}
