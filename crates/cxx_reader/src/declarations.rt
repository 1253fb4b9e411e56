//! Declarations of template parameters (Itanium C++ ABI 5.1.7).
#![tactic(auto, using(crate::proofs::Rules::productions), unfolding(cxx_tree::specs::Grows::Makes, cxx_tree::specs::Stored::tree_of, cxx_tree::specs::Stored::declaration_tree, cxx_tree::specs::Stored::IsBelow, cxx_tree::specs::Stored::IsDeclarationBelow, cxx_tree::specs::Stored::stands, crate::specs::Outcome::list_trees, cxx_grammar::specs::Declarations::declaration_as, cxx_grammar::specs::Declarations::invent_type, cxx_grammar::specs::Declarations::invent_value, cxx_grammar::specs::Declarations::invent_template))]

ghost use Rattle.std.specs.Prelude.{◌≡◌, ℕ, ◌<◌, ◌≤◌, ◌++◌, length, drop, decimal, option_map, IfSome, OnOk};
ghost use Rattle.std.specs.List.{AllByRecursion};
ghost use Rattle.cxx_tree.specs.Kept.{IsNode};
ghost use Rattle.cxx_tree.specs.Phrases.{template_param_of};
ghost use Rattle.cxx_tree.specs.Stored.{forest, size, stands, IsListBelow};
ghost use Rattle.cxx_tree.specs.Tree.{type_param};
ghost use Rattle.cxx_grammar.specs.Declarations as spec;
ghost use Rattle.cxx_grammar.specs.Parses.{make};
ghost use Rattle.cxx_grammar.specs.Symbol.{productions};
ghost use Rattle.cxx_reader.specs.Outcome.{state, list_trees, trees_behind, Copies, Keeps, KeepsFront, Moves, Gives, GivesDeclared, GivesFrom, GivesList, IsDeclared, declared_at};

use crate::cases::{begins, begins_declaration, declaration_case};
use crate::constraints::read_constraint;
use crate::reader::Reader;
use crate::rows::read_name_tree;
use crate::types::read_type;
use crate::unnamed::MAX_LEVEL;
use cxx_grammar::cases::DeclarationCase;
use cxx_tree::bind::Others;
use cxx_tree::{Declaration, List, MOST_DIGITS, Node, NodeText, Stop, number_bytes};

/// The declarations of a template, and their constraint.
#[derive(Clone, Copy)]
pub struct Declared {
    pub declarations: List,
    pub constraint: Option<u32>,
}

/// Reads `<template-param-decl>*`.
#[cycle(reader)]
pub fn read_declarations(reader: &mut Reader, depth: usize) -> Result<List, Stop>
    ensures reads { GivesList result reader.new (spec.parse_declarations (productions depth) (state reader.old)) }
    ensures keeps { OnOk result (Keeps reader.old reader.new) }
{
    let from = reader.arena.pending_len();
    tri!(collect_declarations(reader, depth, from));
    reader.arena.list_from(from)
}

// Reads `<template-param-decl>*`, and collects the nodes. Those that were collected from `from` on are declarations of
// the same list.
#[cycle(reader)]
fn collect_declarations(reader: &mut Reader, depth: usize, from: usize) -> Result<(), Stop>
    requires within { from ≤ length reader.old.arena.pending }
    requires nodes { AllByRecursion (IsNode reader.old.arena) (drop from reader.old.arena.pending) }
    ensures reads { GivesFrom result from reader.new (spec.declarations_after (productions depth)
        (trees_behind from reader.old.arena) (state reader.old)) }
    ensures keeps { OnOk result (KeepsFront from reader.old reader.new) }
{
    while begins_declaration(reader.rest) {
        tri!(collect_numbered(reader, depth, from));
    }
    Ok(())
}

// Reads a declaration of a list, whose number says how many are in front of it, and collects it.
#[cycle(reader)]
fn collect_numbered(reader: &mut Reader, depth: usize, from: usize) -> Result<(), Stop>
    requires within { from ≤ length reader.old.arena.pending }
    requires nodes { AllByRecursion (IsNode reader.old.arena) (drop from reader.old.arena.pending) }
    ensures reads { GivesFrom result from reader.new (spec.parse_numbered (productions depth)
        (trees_behind from reader.old.arena) (state reader.old)) }
    ensures keeps { OnOk result (KeepsFront from reader.old reader.new) }
    ensures takes { OnOk result (length reader.new.rest.now < length reader.old.rest.now) }
{
    let number = reader.declared_count(from);
    let i = tri!(read_declaration(reader, depth, number));
    reader.arena.add(i)
}

/// Reads `<template-param-decl>`, with its number. At most `depth` counted productions may nest, this one included.
#[cycle(reader)]
pub fn read_declaration(reader: &mut Reader, depth: usize, number: usize) -> Result<u32, Stop>
    ensures reads { Gives result reader.new ((productions depth).declaration number (state reader.old)) }
    ensures moves { OnOk result (Moves reader.old reader.new) }
{
    if depth == 0 {
        return Err(Stop::Unreadable);
    }
    let depth = depth - 1;
    match declaration_case(reader.rest) {
        DeclarationCase::Type => reader.read_type_param(number),
        DeclarationCase::Constrained => read_constrained_param(reader, depth, number),
        DeclarationCase::Value => read_value_param(reader, depth, number),
        DeclarationCase::Template => read_template(reader, depth, number),
        DeclarationCase::Pack => read_pack_param(reader, depth, number),
        DeclarationCase::Unread => Err(Stop::Unreadable),
    }
}

// Reads `Tk <name>`.
#[cycle(reader)]
fn read_constrained_param(reader: &mut Reader, depth: usize, number: usize) -> Result<u32, Stop>
    ensures reads { Gives result reader.new (spec.parse_constrained_param (productions depth) number
        (state reader.old)) }
    ensures moves { OnOk result (Moves reader.old reader.new) }
{
    reader.skip(2);
    let concept = tri!(read_name_tree(reader, depth));
    reader.make_type_param(concept, number)
}

// Reads `Tn <type>`.
#[cycle(reader)]
fn read_value_param(reader: &mut Reader, depth: usize, number: usize) -> Result<u32, Stop>
    ensures reads { Gives result reader.new (spec.parse_value_param (productions depth) number (state reader.old)) }
    ensures moves { OnOk result (Moves reader.old reader.new) }
{
    reader.skip(2);
    let name = tri!(reader.invent_value(number));
    let t = tri!(read_type(reader, depth, false));
    reader.make(Node::Declaration(Declaration::NonTypeParam(name, t)))
}

// Reads `Tt <template-param-decl>* [Q <constraint-expression>] E`.
#[cycle(reader)]
fn read_template(reader: &mut Reader, depth: usize, number: usize) -> Result<u32, Stop>
    ensures reads { Gives result reader.new (spec.parse_template_declaration (productions depth) number
        (state reader.old)) }
    ensures moves { OnOk result (Moves reader.old reader.new) }
{
    reader.skip(2);
    let name = tri!(reader.invent_template(number));
    let level = reader.level;
    let inside = tri!(read_declared_at(reader, depth, level));
    reader.make_template(level, name, inside)
}

// Reads the declarations of a template and their constraint at a level.
#[cycle(reader)]
fn read_declared_at(reader: &mut Reader, depth: usize, level: u64) -> Result<Declared, Stop>
    requires level { level ≡ reader.old.level }
    ensures reads { GivesDeclared result reader.new (spec.parse_declared_at (productions depth) level
        (state reader.old)) }
    ensures moves { OnOk result (Moves reader.old reader.new) }
{
    if level >= MAX_LEVEL {
        return Err(Stop::Unreadable);
    }
    reader.level = level + 1;
    let inside = tri!(read_declared(reader, depth));
    reader.level = level;
    Ok(inside)
}

// Reads `<template-param-decl>* [Q <constraint-expression>] E`, where a constraint has a declaration in front of it.
#[cycle(reader)]
fn read_declared(reader: &mut Reader, depth: usize) -> Result<Declared, Stop>
    ensures reads { GivesDeclared result reader.new (spec.parse_declared (productions depth) (state reader.old)) }
    ensures moves { OnOk result (Moves reader.old reader.new) }
{
    if begins(reader.rest, b'Q') {
        return Err(Stop::Unreadable);
    }
    read_some_declared(reader, depth)
}

// Reads `<template-param-decl>* [Q <constraint-expression>] E`.
#[cycle(reader)]
fn read_some_declared(reader: &mut Reader, depth: usize) -> Result<Declared, Stop>
    ensures reads { GivesDeclared result reader.new (spec.parse_some_declared (productions depth)
        (state reader.old)) }
    ensures moves { OnOk result (Moves reader.old reader.new) }
{
    let declarations = tri!(read_declarations(reader, depth));
    let constraint = tri!(read_constraint(reader, depth));
    tri!(reader.expect(b'E'));
    Ok(Declared {
        declarations,
        constraint,
    })
}

// Reads `Tp <template-param-decl>`.
#[cycle(reader)]
fn read_pack_param(reader: &mut Reader, depth: usize, number: usize) -> Result<u32, Stop>
    ensures reads { Gives result reader.new (spec.parse_pack_declaration (productions depth) number
        (state reader.old)) }
    ensures moves { OnOk result (Moves reader.old reader.new) }
{
    reader.skip(2);
    let inner = tri!(read_declaration(reader, depth, number));
    reader.make(Node::Declaration(Declaration::PackParam(inner)))
}

impl<'a> Reader<'a> {
    // Returns how many declarations are collected, from an index on.
    #[tactic(auto, using(crate::proofs::Binders::count_behind))]
    fn declared_count(&self, from: usize) -> usize
        requires within { from ≤ length self.now.arena.pending }
        ensures value { result ≡ length (trees_behind from self.now.arena) }
    {
        self.arena.pending_len() - from
    }

    // Reads `Ty`.
    fn read_type_param(&mut self, number: usize) -> Result<u32, Stop>
        requires some { 0 < length self.old.rest.now }
        ensures reads { Gives result self.new (spec.parse_type_param number (state self.old)) }
        ensures moves { OnOk result (Moves self.old self.new) }
    {
        self.skip(2);
        let name = tri!(self.invent_type(number));
        self.make(Node::Declaration(Declaration::Typename(name)))
    }

    // Makes the declaration of a type, behind a concept.
    fn make_type_param(&mut self, front: u32, number: usize) -> Result<u32, Stop>
        requires front { IsNode self.old.arena front }
        ensures reads { Gives result self.new (spec.make_type_param (stands self.old.arena front) number
            (state self.old)) }
        ensures keeps { OnOk result (Keeps self.old self.new) }
        ensures rest { OnOk result (self.new.rest.now ≡ self.old.rest.now) }
    {
        let name = tri!(self.invent_type(number));
        self.make(Node::Declaration(Declaration::TypeParam(front, name)))
    }

    // Invents the name of a type.
    fn invent_type(&mut self, number: usize) -> Result<u32, Stop>
        ensures reads { Gives result self.new (spec.invent_type number (state self.old)) }
        ensures keeps { OnOk result (Keeps self.old self.new) }
        ensures rest { OnOk result (self.new.rest.now ≡ self.old.rest.now) }
    {
        let count = self.invented.types;
        let Some(next) = count.checked_add(1) else {
            return Err(Stop::Memory);
        };
        self.invented.types = next;
        self.make_invented(b"$T", count, number)
    }

    // Invents the name of a value.
    fn invent_value(&mut self, number: usize) -> Result<u32, Stop>
        ensures reads { Gives result self.new (spec.invent_value number (state self.old)) }
        ensures keeps { OnOk result (Keeps self.old self.new) }
        ensures rest { OnOk result (self.new.rest.now ≡ self.old.rest.now) }
    {
        let count = self.invented.values;
        let Some(next) = count.checked_add(1) else {
            return Err(Stop::Memory);
        };
        self.invented.values = next;
        self.make_invented(b"$N", count, number)
    }

    // Invents the name of a template.
    fn invent_template(&mut self, number: usize) -> Result<u32, Stop>
        ensures reads { Gives result self.new (spec.invent_template number (state self.old)) }
        ensures keeps { OnOk result (Keeps self.old self.new) }
        ensures rest { OnOk result (self.new.rest.now ≡ self.old.rest.now) }
    {
        let count = self.invented.templates;
        let Some(next) = count.checked_add(1) else {
            return Err(Stop::Memory);
        };
        self.invented.templates = next;
        self.make_invented(b"$TT", count, number)
    }

    // Makes an invented name.
    fn make_invented(&mut self, word: &[u8], count: u64, number: usize) -> Result<u32, Stop>
        ensures reads { Gives result self.new (make (spec.invented_name word.now count number) (state self.old)) }
        ensures keeps { OnOk result (Keeps self.old self.new) }
        ensures rest { OnOk result (self.new.rest.now ≡ self.old.rest.now) }
    {
        let llvm = tri!(self.invented_text(word, count));
        let gnu = tri!(self.numbered_text(word, number as u128));
        self.arena.make_lambda_param(llvm, gnu)
    }

    // Makes the text of an invented name. The count says how many of its kind were invented before it.
    fn invented_text(&mut self, word: &[u8], count: u64) -> Result<NodeText, Stop>
        ensures text { Copies result self.new.arena (spec.invented_text word.now count) }
        ensures keeps { Keeps self.old self.new }
        ensures state { state self.new ≡ state self.old }
        ensures rest { self.new.rest.now ≡ self.old.rest.now }
    {
        if count == 0 {
            return self.text(word);
        }
        self.numbered_text(word, (count - 1) as u128)
    }

    // Makes the text of a word and a number.
    fn numbered_text(&mut self, word: &[u8], number: u128) -> Result<NodeText, Stop>
        ensures text { Copies result self.new.arena (word.now ++ decimal number) }
        ensures keeps { Keeps self.old self.new }
        ensures state { state self.new ≡ state self.old }
        ensures rest { self.new.rest.now ≡ self.old.rest.now }
    {
        let mut spare = [0; MOST_DIGITS];
        self.joined(b"", word, number_bytes(&mut spare, number))
    }

    // Makes the declaration of a template, and binds the template parameters of its level.
    fn make_template(&mut self, level: u64, name: u32, inside: Declared) -> Result<u32, Stop>
        requires name { IsNode self.old.arena name }
        requires inside { IsDeclared self.old.arena inside }
        ensures reads { Gives result self.new (spec.make_template level (stands self.old.arena name)
            (declared_at self.old.arena inside) (state self.old)) }
        ensures keeps { OnOk result (Keeps self.old self.new) }
        ensures rest { OnOk result (self.new.rest.now ≡ self.old.rest.now) }
    {
        let t = tri!(self.make_template_param(name, inside.declarations, inside.constraint));
        self.bind_declared(level, Others::Keep, inside.declarations, t)
    }

    // Makes the declaration of a template.
    fn make_template_param(
        &mut self,
        name: u32,
        declarations: List,
        constraint: Option<u32>,
    ) -> Result<u32, Stop>
        requires name { IsNode self.old.arena name }
        requires declarations { IsListBelow self.old.arena.held (size self.old.arena) declarations }
        requires constraint { IfSome constraint (IsNode self.old.arena) }
        ensures reads { Gives result self.new (make (template_param_of (stands self.old.arena name)
            (list_trees self.old.arena declarations) (option_map (stands self.old.arena) constraint))
            (state self.old)) }
        ensures keeps { OnOk result (Keeps self.old self.new) }
        ensures rest { OnOk result (self.new.rest.now ≡ self.old.rest.now) }
    {
        self.arena
            .make_template_param(name, declarations, constraint)
    }
}
