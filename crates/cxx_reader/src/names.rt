//! Names (Itanium C++ ABI 5.1.2).
#![tactic(auto, using(crate::proofs::Rules::productions), unfolding(cxx_tree::specs::Grows::Makes, cxx_tree::specs::Stored::tree_of, cxx_tree::specs::Stored::plain_tree, cxx_tree::specs::Stored::IsBelow, cxx_tree::specs::Stored::IsPlainBelow, cxx_tree::specs::Stored::stands, crate::specs::Outcome::named_at, crate::specs::Outcome::place_at, crate::specs::Outcome::part_at, crate::specs::Outcome::list_trees, cxx_grammar::specs::Names::name_as, cxx_grammar::specs::Names::first_as, cxx_grammar::specs::Names::part_as, cxx_grammar::specs::Names::base_as, cxx_grammar::specs::Names::parse_class_of, cxx_grammar::specs::Names::parse_info, cxx_grammar::specs::Names::parse_front, cxx_grammar::specs::Names::parse_unqualified_name, cxx_grammar::specs::Names::parse_named_args, cxx_grammar::specs::Names::parse_in_place, cxx_grammar::specs::Names::parse_component, cxx_grammar::specs::Names::parse_next))]

ghost use Rattle.std.specs.Prelude.{◌≡◌, ℕ, ◌<◌, ◌≤◌, length, true, false, Option, Some, None, OnOk, IfSome, option_map};
ghost use Rattle.abi_scalars.specs.Texts.{begins_source};
ghost use Rattle.cxx_tree.specs.Stored.{stands, forest, size, tree_of, IsBelow, IsText, text_at};
ghost use Rattle.cxx_tree.specs.Kept.{IsNode};
ghost use Rattle.cxx_grammar.specs.Parses as parses;
ghost use Rattle.cxx_grammar.specs.Leaves as leaves;
ghost use Rattle.cxx_grammar.specs.Bases.{expand};
ghost use Rattle.cxx_grammar.specs.Cases.{case_of_base, case_of_component};
ghost use Rattle.cxx_grammar.specs.declared.cases.BaseCase.TheVariants as base;
ghost use Rattle.cxx_grammar.specs.Names as spec;
ghost use Rattle.cxx_grammar.specs.State as grammar;
ghost use Rattle.cxx_grammar.specs.Symbol.{productions};
ghost use Rattle.cxx_reader.specs.Outcome as outcome;
ghost use Rattle.cxx_reader.specs.Outcome.{state, Keeps, Moves, Gives, GivesNamed, GivesPart, GivesPlace, IsInfo, IsNamed, IsPlace, IsPart, info_at, named_at, place_at, part_at};
ghost use Rattle.cxx_reader.specs.Sources.{parse_source_at};

use crate::args::read_args;
use crate::bases::{base_name, is_module, is_param_class, is_with_args, short_std};
use crate::cases::{base_case, begins, component_case, first_case, name_case};
use crate::locals::read_local_name;
use crate::reader::{Info, LearnedName, Reader};
use crate::rows::read_row;
use crate::specials::{bindings_row, decltype_row};
use crate::types::read_type;
use crate::unnamed::read_closure;
use abi_scalars::texts::begins_source;
use cxx_grammar::cases::{BaseCase, ComponentCase, FirstCase, NameCase};
use cxx_tree::{Cv, Node, NodeText, Plain, Prec, RefQual, Stop};

/// Where an `<unqualified-name>` stands.
#[derive(Clone, Copy)]
pub struct Place {
    pub scope: Option<u32>,
    /// Its module.
    pub owner: Option<u32>,
    /// It is a friend that its scope declares.
    pub is_friend: bool,
    /// It is a component of a `<nested-name>`.
    pub is_nested: bool,
    /// What is learned of the name by what stands in front of it.
    pub info: Info,
}

/// A name without its module, its tags and its scope, and the place that it has.
#[derive(Clone, Copy)]
pub struct Part {
    pub node: u32,
    pub place: Place,
}

/// What is learned of a name before its components are read: its qualifiers.
fn info_of(cv: Cv, ref_qual: RefQual) -> Info
    ensures value { result ≡ outcome.info_of cv ref_qual }
{
    Info {
        ends_with_args: false,
        no_return: false,
        cv,
        ref_qual,
        explicit_object: false,
        inherited: None,
    }
}

/// What is learned of a name without qualifiers.
#[inline(always)]
fn unqualified() -> Info
    ensures value { result ≡ outcome.no_info }
{
    info_of(
        Cv {
            is_const: false,
            is_volatile: false,
            is_restrict: false,
        },
        RefQual::None,
    )
}

/// A name of which nothing is learned.
#[inline(always)]
pub fn plain(node: u32) -> LearnedName
    ensures value { result ≡ record { node = node; info = outcome.no_info } }
{
    LearnedName {
        node,
        info: unqualified(),
    }
}

// The place of a name outside of a `<nested-name>`.
#[inline(always)]
fn unscoped(scope: Option<u32>, owner: Option<u32>) -> Place
    ensures value { result ≡ record {
      scope = scope;
      owner = owner;
      is_friend = false;
      is_nested = false;
      info = outcome.no_info;
    } }
{
    Place {
        scope,
        owner,
        is_friend: false,
        is_nested: false,
        info: unqualified(),
    }
}

// The place of a component of a `<nested-name>`.
#[inline(always)]
fn nested(scope: Option<u32>, owner: Option<u32>, info: Info) -> Place
    ensures value { result ≡ record {
      scope = scope;
      owner = owner;
      is_friend = false;
      is_nested = true;
      info = record info { ends_with_args = false };
    } }
{
    Place {
        scope,
        owner,
        is_friend: false,
        is_nested: true,
        info: Info {
            ends_with_args: false,
            ..info
        },
    }
}

/// Reads `<name>`. At most `depth` counted productions may nest, this one included.
#[cycle(reader)]
pub fn read_name(reader: &mut Reader, depth: usize) -> Result<LearnedName, Stop>
    ensures reads { GivesNamed result reader.new ((productions depth).name (state reader.old)) }
    ensures moves { OnOk result (Moves reader.old reader.new) }
{
    if depth == 0 {
        return Err(Stop::Unreadable);
    }
    let depth = depth - 1;
    match name_case(reader.rest) {
        NameCase::Nested => read_nested_name(reader, depth),
        NameCase::Local => read_local_name(reader, depth),
        NameCase::Std => read_std_name(reader, depth),
        NameCase::Substitution => read_substituted(reader, depth),
        NameCase::Unqualified => read_unscoped(reader, depth),
    }
}

// Reads `St [<module substitution>] <unqualified-name> [<template-args>]`.
#[cycle(reader)]
fn read_std_name(reader: &mut Reader, depth: usize) -> Result<LearnedName, Stop>
    ensures reads { GivesNamed result reader.new (spec.parse_std_name (productions depth) (state reader.old)) }
    ensures moves { OnOk result (Moves reader.old reader.new) }
{
    reader.skip(2);
    let scope = tri!(reader.make_std());
    if begins(reader.rest, b'S') {
        return read_std_module(reader, depth, scope);
    }
    read_in_place(reader, depth, unscoped(Some(scope), None))
}

// Reads `<module substitution> <unqualified-name> [<template-args>]` in std.
#[cycle(reader)]
fn read_std_module(reader: &mut Reader, depth: usize, std: u32) -> Result<LearnedName, Stop>
    requires std { IsNode reader.old.arena std }
    ensures reads { GivesNamed result reader.new (spec.parse_std_module (productions depth)
        (stands reader.old.arena std) (state reader.old)) }
    ensures moves { OnOk result (Moves reader.old reader.new) }
{
    let owner = tri!(reader.read_module_substitution());
    read_in_module(reader, depth, Some(std), owner)
}

/// Reads `<unqualified-name> [<template-args>]` in a module that is a substitution.
#[cycle(reader)]
#[inline(never)]
pub fn read_in_module(
    reader: &mut Reader,
    depth: usize,
    scope: Option<u32>,
    owner: u32,
) -> Result<LearnedName, Stop>
    requires scope { IfSome scope (IsNode reader.old.arena) }
    requires owner { IsNode reader.old.arena owner }
    ensures reads { GivesNamed result reader.new (spec.parse_in_module (productions depth)
        (option_map (stands reader.old.arena) scope) (stands reader.old.arena owner) (state reader.old)) }
    ensures moves { OnOk result (Moves reader.old reader.new) }
{
    read_in_place(reader, depth, unscoped(scope, Some(owner)))
}

// Reads `<unqualified-name> [<template-args>]` without a scope.
#[cycle(reader)]
fn read_unscoped(reader: &mut Reader, depth: usize) -> Result<LearnedName, Stop>
    ensures reads { GivesNamed result reader.new (spec.parse_in_place (productions depth) (spec.unscoped None None)
        (state reader.old)) }
    ensures moves { OnOk result (Moves reader.old reader.new) }
{
    read_in_place(reader, depth, unscoped(None, None))
}

// Reads `<substitution> <template-args>`, or a name in a module that is the substitution.
#[cycle(reader)]
fn read_substituted(reader: &mut Reader, depth: usize) -> Result<LearnedName, Stop>
    ensures reads { GivesNamed result reader.new (spec.parse_substituted (productions depth) (state reader.old)) }
    ensures moves { OnOk result (Moves reader.old reader.new) }
{
    let node = tri!(reader.read_substitution());
    if is_module(&reader.arena, node) {
        return read_in_module(reader, depth, None, node);
    }
    read_named_args(reader, depth, plain(node))
}

// Reads `<unqualified-name> [<template-args>]`. With arguments the name is saved before they are read.
#[cycle(reader)]
#[inline(always)]
fn read_in_place(reader: &mut Reader, depth: usize, place: Place) -> Result<LearnedName, Stop>
    requires place { IsPlace reader.old.arena place }
    ensures reads { GivesNamed result reader.new (spec.parse_in_place (productions depth)
        (place_at reader.old.arena place) (state reader.old)) }
    ensures moves { OnOk result (Moves reader.old reader.new) }
{
    let name = tri!(read_unqualified_name(reader, depth, place));
    if !begins(reader.rest, b'I') {
        return Ok(name);
    }
    tri!(reader.arena.save(name.node));
    read_named_args(reader, depth, name)
}

// Reads the arguments of a name.
#[cycle(reader)]
fn read_named_args(
    reader: &mut Reader,
    depth: usize,
    name: LearnedName,
) -> Result<LearnedName, Stop>
    requires named { IsNamed reader.old.arena name }
    ensures reads { GivesNamed result reader.new (spec.parse_named_args (productions depth)
        (named_at reader.old.arena name) (state reader.old)) }
    ensures moves { OnOk result (Moves reader.old reader.new) }
{
    let args = tri!(read_args(reader, depth));
    let node = tri!(reader.make(Node::Plain(Plain::WithArgs(name.node, args))));
    let info = Info {
        ends_with_args: true,
        ..name.info
    };
    Ok(LearnedName { node, info })
}

// Reads `<unqualified-name> ::= [<module-name>] [F] [L] <name> [<abi-tags>]`, where the name is an operator's, a
// constructor's or a destructor's, a source name, an unnamed type's or that of a structured binding.
#[cycle(reader)]
#[inline(always)]
fn read_unqualified_name(
    reader: &mut Reader,
    depth: usize,
    place: Place,
) -> Result<LearnedName, Stop>
    requires place { IsPlace reader.old.arena place }
    ensures reads { GivesNamed result reader.new (spec.parse_unqualified_name (productions depth)
        (place_at reader.old.arena place) (state reader.old)) }
    ensures moves { OnOk result (Moves reader.old reader.new) }
{
    match place.owner {
        Some(_) => read_other_name(reader, depth, place),
        None => read_unowned_name(reader, depth, place),
    }
}

// Reads an `<unqualified-name>` behind no module that is a substitution. A source name, as most are, is read without
// the other cases.
#[cycle(reader)]
#[inline(always)]
fn read_unowned_name(reader: &mut Reader, depth: usize, place: Place) -> Result<LearnedName, Stop>
    requires place { IsPlace reader.old.arena place }
    requires unowned { place.owner ≡ None }
    ensures reads { GivesNamed result reader.new (spec.parse_unqualified_name (productions depth)
        (place_at reader.old.arena place) (state reader.old)) }
    ensures moves { OnOk result (Moves reader.old reader.new) }
{
    if begins_source(reader.rest) {
        return reader.read_source_at(place);
    }
    read_other_name(reader, depth, place)
}

// Reads an `<unqualified-name>` of any case.
#[cycle(reader)]
#[inline(never)]
fn read_other_name(reader: &mut Reader, depth: usize, place: Place) -> Result<LearnedName, Stop>
    requires place { IsPlace reader.old.arena place }
    ensures reads { GivesNamed result reader.new (spec.parse_unqualified_name (productions depth)
        (place_at reader.old.arena place) (state reader.old)) }
    ensures moves { OnOk result (Moves reader.old reader.new) }
{
    let place = tri!(reader.read_front(place));
    let part = tri!(read_part(reader, depth, place));
    reader.read_part_end(part)
}

// Reads an `<unqualified-name>` after its module, its `F` and its `L`.
#[cycle(reader)]
fn read_part(reader: &mut Reader, depth: usize, place: Place) -> Result<Part, Stop>
    requires place { IsPlace reader.old.arena place }
    ensures reads { GivesPart result reader.new (spec.part_as (productions depth) (place_at reader.old.arena place)
        (case_of_component reader.old.rest.now) (state reader.old)) }
    ensures moves { OnOk result (Moves reader.old reader.new) }
{
    match component_case(reader.rest) {
        ComponentCase::Ctor => reader.read_ctor(place, false),
        ComponentCase::InheritedCtor => read_inherited_ctor(reader, depth, place),
        ComponentCase::Dtor => reader.read_ctor(place, true),
        ComponentCase::Unqualified => read_base_part(reader, depth, place),
    }
}

// Reads a name that is no constructor.
#[cycle(reader)]
fn read_base_part(reader: &mut Reader, depth: usize, place: Place) -> Result<Part, Stop>
    requires place { IsPlace reader.old.arena place }
    ensures reads { GivesPart result reader.new (spec.base_part (productions depth) (place_at reader.old.arena place)
        (case_of_base reader.old.rest.now) (state reader.old)) }
    ensures moves { OnOk result (Moves reader.old reader.new) }
{
    let case = base_case(reader.rest);
    let node = tri!(read_base(reader, depth, case));
    let info = Info {
        no_return: place.info.no_return || is_conversion(case),
        ..place.info
    };
    Ok(Part {
        node,
        place: Place { info, ..place },
    })
}

// Whether a name is that of a conversion operator.
fn is_conversion(case: BaseCase) -> bool
    ensures value { result ≡ spec.is_conversion case }
{
    match case {
        BaseCase::Conversion => true,
        _ => false,
    }
}

/// Reads a name without a scope and without tags.
#[cycle(reader)]
pub fn read_base(reader: &mut Reader, depth: usize, case: BaseCase) -> Result<u32, Stop>
    requires some { case ≡ base.Bindings → 0 < length reader.old.rest.now }
    ensures reads { Gives result reader.new (spec.base_as (productions depth) case (state reader.old)) }
    ensures moves { OnOk result (Moves reader.old reader.new) }
{
    match case {
        BaseCase::Source => reader.read_source_name(),
        BaseCase::Bindings => read_row(reader, depth, bindings_row()),
        BaseCase::Unnamed => reader.read_unnamed(),
        BaseCase::Block => reader.read_block(),
        BaseCase::Closure => read_closure(reader, depth),
        BaseCase::Conversion => read_conversion(reader, depth),
        BaseCase::Literal => reader.read_prefixed(2, b"operator\"\" "),
        BaseCase::Vendor => reader.read_prefixed(2, b"operator "),
        BaseCase::Operator => reader.read_operator(),
    }
}

// Reads `cv <type>`.
#[cycle(reader)]
fn read_conversion(reader: &mut Reader, depth: usize) -> Result<u32, Stop>
    ensures reads { Gives result reader.new (spec.parse_conversion (productions depth) (state reader.old)) }
    ensures moves { OnOk result (Moves reader.old reader.new) }
{
    reader.skip(2);
    let t = tri!(read_type(reader, depth, true));
    reader.arena.make_prefixed(
        NodeText::Fixed(b"operator "),
        NodeText::Fixed(b"operator "),
        t,
        Prec::Primary,
    )
}

// Reads `CI1 <name>` or `CI2 <name>`.
#[cycle(reader)]
fn read_inherited_ctor(reader: &mut Reader, depth: usize, place: Place) -> Result<Part, Stop>
    requires place { IsPlace reader.old.arena place }
    ensures reads { GivesPart result reader.new (spec.parse_inherited_ctor (productions depth)
        (place_at reader.old.arena place) (state reader.old)) }
    ensures moves { OnOk result (Moves reader.old reader.new) }
{
    reader.skip(3);
    let class = tri!(reader.class_of(place));
    let from = tri!(read_name(reader, depth));
    let info = Info {
        inherited: Some(from.node),
        ..place.info
    };
    reader.make_ctor(class, false, Place { info, ..place })
}

// Reads `<nested-name> ::= N [<CV-qualifiers>] [<ref-qualifier>] <component>+ E` or `N H <component>+ E`.
#[cycle(reader)]
#[inline(always)]
fn read_nested_name(reader: &mut Reader, depth: usize) -> Result<LearnedName, Stop>
    ensures reads { GivesNamed result reader.new (spec.parse_nested_name (productions depth) (state reader.old)) }
    ensures moves { OnOk result (Moves reader.old reader.new) }
{
    reader.skip(1);
    let info = reader.read_info();
    let name = tri!(read_first(reader, depth, info));
    read_components(reader, depth, name)
}

// Reads the first component, after the qualifiers. If it is `St` or a substitution, the component in this scope or in
// this module is read too.
#[cycle(reader)]
#[inline(always)]
fn read_first(reader: &mut Reader, depth: usize, info: Info) -> Result<LearnedName, Stop>
    requires info { IsInfo reader.old.arena info }
    requires no_args { info.ends_with_args ≡ false }
    ensures reads { GivesNamed result reader.new (spec.parse_first (productions depth)
        (info_at reader.old.arena info) (state reader.old)) }
    ensures moves { OnOk result (Moves reader.old reader.new) }
{
    match first_case(reader.rest) {
        FirstCase::Std => read_first_std(reader, depth, info),
        FirstCase::Substitution => read_first_substitution(reader, depth, info),
        FirstCase::Param => reader.read_first_param(info),
        FirstCase::Decltype => read_first_decltype(reader, depth, info),
        FirstCase::Unqualified => read_unqualified_name(reader, depth, nested(None, None, info)),
    }
}

#[cycle(reader)]
#[inline(always)]
fn read_first_std(reader: &mut Reader, depth: usize, info: Info) -> Result<LearnedName, Stop>
    requires info { IsInfo reader.old.arena info }
    ensures reads { GivesNamed result reader.new (spec.first_std (productions depth)
        (info_at reader.old.arena info) (state reader.old)) }
    ensures moves { OnOk result (Moves reader.old reader.new) }
{
    reader.skip(2);
    let node = tri!(reader.make_std());
    read_component(reader, depth, LearnedName { node, info })
}

#[cycle(reader)]
#[inline(never)]
fn read_first_decltype(reader: &mut Reader, depth: usize, info: Info) -> Result<LearnedName, Stop>
    requires info { IsInfo reader.old.arena info }
    requires rest { 0 < length reader.old.rest.now }
    ensures reads { GivesNamed result reader.new (spec.first_decltype (productions depth)
        (info_at reader.old.arena info) (state reader.old)) }
    ensures moves { OnOk result (Moves reader.old reader.new) }
{
    let node = tri!(read_row(reader, depth, decltype_row()));
    Ok(LearnedName { node, info })
}

#[cycle(reader)]
#[inline(always)]
fn read_first_substitution(
    reader: &mut Reader,
    depth: usize,
    info: Info,
) -> Result<LearnedName, Stop>
    requires info { IsInfo reader.old.arena info }
    requires no_args { info.ends_with_args ≡ false }
    ensures reads { GivesNamed result reader.new (spec.first_substitution (productions depth)
        (info_at reader.old.arena info) (state reader.old)) }
    ensures moves { OnOk result (Moves reader.old reader.new) }
{
    let node = tri!(reader.read_substitution());
    if is_module(&reader.arena, node) {
        return read_unqualified_name(reader, depth, nested(None, Some(node), info));
    }
    read_component(reader, depth, LearnedName { node, info })
}

// Reads what follows the first component: other components, up to the `E`.
#[cycle(reader)]
#[inline(always)]
fn read_components(
    reader: &mut Reader,
    depth: usize,
    name: LearnedName,
) -> Result<LearnedName, Stop>
    requires named { IsNamed reader.old.arena name }
    ensures reads { GivesNamed result reader.new (spec.parse_components (productions depth)
        (named_at reader.old.arena name) (state reader.old)) }
    ensures moves { OnOk result (Moves reader.old reader.new) }
{
    // The mark of the initializer of a data member, which prints nothing.
    reader.skip_letter(b'M');
    let mut last = name;
    while !begins(reader.rest, b'E') {
        last = tri!(read_next(reader, depth, last));
    }
    reader.skip(1);
    Ok(last)
}

// Saves a component, and reads the next one with its `M`.
#[cycle(reader)]
#[inline(always)]
fn read_next(reader: &mut Reader, depth: usize, scope: LearnedName) -> Result<LearnedName, Stop>
    requires named { IsNamed reader.old.arena scope }
    ensures reads { GivesNamed result reader.new (spec.parse_next (productions depth)
        (named_at reader.old.arena scope) (state reader.old)) }
    ensures moves { OnOk result (Moves reader.old reader.new) }
{
    tri!(reader.arena.save(scope.node));
    let name = tri!(read_component(reader, depth, scope));
    reader.skip_letter(b'M');
    Ok(name)
}

// Reads a component after others.
#[cycle(reader)]
#[inline(always)]
fn read_component(
    reader: &mut Reader,
    depth: usize,
    scope: LearnedName,
) -> Result<LearnedName, Stop>
    requires named { IsNamed reader.old.arena scope }
    ensures reads { GivesNamed result reader.new (spec.parse_component (productions depth)
        (named_at reader.old.arena scope) (state reader.old)) }
    ensures moves { OnOk result (Moves reader.old reader.new) }
{
    if begins(reader.rest, b'I') {
        return read_more_args(reader, depth, scope);
    }
    if begins(reader.rest, b'S') {
        return read_module_component(reader, depth, scope);
    }
    read_unqualified_name(reader, depth, nested(Some(scope.node), None, scope.info))
}

// Reads `<module substitution> <unqualified-name>` in a scope.
#[cycle(reader)]
#[inline(never)]
fn read_module_component(
    reader: &mut Reader,
    depth: usize,
    scope: LearnedName,
) -> Result<LearnedName, Stop>
    requires named { IsNamed reader.old.arena scope }
    ensures reads { GivesNamed result reader.new (spec.parse_module_component (productions depth)
        (named_at reader.old.arena scope) (state reader.old)) }
    ensures moves { OnOk result (Moves reader.old reader.new) }
{
    let owner = tri!(reader.read_module_substitution());
    read_unqualified_name(
        reader,
        depth,
        nested(Some(scope.node), Some(owner), scope.info),
    )
}

// Reads the arguments of a name that has none yet.
#[cycle(reader)]
fn read_more_args(
    reader: &mut Reader,
    depth: usize,
    scope: LearnedName,
) -> Result<LearnedName, Stop>
    requires named { IsNamed reader.old.arena scope }
    ensures reads { GivesNamed result reader.new (spec.parse_more_args (productions depth)
        (named_at reader.old.arena scope) (state reader.old)) }
    ensures moves { OnOk result (Moves reader.old reader.new) }
{
    if is_with_args(&reader.arena, scope.node) {
        return Err(Stop::Unreadable);
    }
    read_named_args(reader, depth, scope)
}

impl<'a> Reader<'a> {
    // Reads an `<unqualified-name>` that is a source name.
    #[inline(always)]
    fn read_source_at(&mut self, place: Place) -> Result<LearnedName, Stop>
        requires place { IsPlace self.old.arena place }
        ensures reads { GivesNamed result self.new (parse_source_at (place_at self.old.arena place)
            (state self.old)) }
        ensures moves { OnOk result (Moves self.old self.new) }
    {
        let node = tri!(self.read_source_in(place.scope));
        Ok(LearnedName {
            node,
            info: place.info,
        })
    }

    // Reads a constructor or a destructor: `C1`, `C2`, .., `D0`, `D1`, ..
    fn read_ctor(&mut self, place: Place, is_destructor: bool) -> Result<Part, Stop>
        requires some { 0 < length self.old.rest.now }
        requires place { IsPlace self.old.arena place }
        ensures reads { GivesPart result self.new (spec.parse_ctor (place_at self.old.arena place) is_destructor
            (state self.old)) }
        ensures moves { OnOk result (Moves self.old self.new) }
    {
        self.skip(2);
        let class = tri!(self.class_of(place));
        self.make_ctor(class, is_destructor, place)
    }

    // The class of a constructor: an abbreviation of std is written out.
    fn class_of(&mut self, place: Place) -> Result<u32, Stop>
        requires place { IsPlace self.old.arena place }
        ensures reads { Gives result self.new (spec.parse_class_of (place_at self.old.arena place) (state self.old)) }
        ensures keeps { OnOk result (Keeps self.old self.new) }
        ensures rest { OnOk result (self.new.rest.now ≡ self.old.rest.now) }
    {
        let Some(class) = place.scope else {
            return Err(Stop::Unreadable);
        };
        if !place.is_nested || place.owner.is_some() || is_param_class(&self.arena, class) {
            return Err(Stop::Unreadable);
        }
        self.expanded(class)
    }

    // Writes an abbreviation of std out.
    fn expanded(&mut self, i: u32) -> Result<u32, Stop>
        requires node { IsNode self.old.arena i }
        ensures reads { Gives result self.new (Some (expand (stands self.old.arena i), state self.old)) }
        ensures keeps { OnOk result (Keeps self.old self.new) }
        ensures rest { OnOk result (self.new.rest.now ≡ self.old.rest.now) }
    {
        match short_std(&self.arena, i) {
            Some(std) => self.make(Node::Plain(Plain::StdName(std, true))),
            None => Ok(i),
        }
    }

    // Makes a constructor or a destructor of a class.
    fn make_ctor(&mut self, class: u32, is_destructor: bool, place: Place) -> Result<Part, Stop>
        requires class { IsNode self.old.arena class }
        requires place { IsPlace self.old.arena place }
        ensures reads { GivesPart result self.new (spec.make_ctor (stands self.old.arena class) is_destructor
            (place_at self.old.arena place) (state self.old)) }
        ensures keeps { OnOk result (Keeps self.old self.new) }
        ensures rest { OnOk result (self.new.rest.now ≡ self.old.rest.now) }
    {
        let text = base_name(&self.arena, class);
        let node = tri!(self.arena.make_ctor_dtor(text, is_destructor));
        let info = Info {
            no_return: true,
            ..place.info
        };
        Ok(Part {
            node,
            place: Place {
                scope: Some(class),
                info,
                ..place
            },
        })
    }

    // Reads `[<module-name>] [F] [L]`.
    fn read_front(&mut self, place: Place) -> Result<Place, Stop>
        requires place { IsPlace self.old.arena place }
        ensures reads { GivesPlace result self.new (spec.parse_front (place_at self.old.arena place)
            (state self.old)) }
        ensures keeps { OnOk result (Keeps self.old self.new) }
    {
        let owner = tri!(self.read_subnames(place.owner));
        let is_friend = self.skip_friend(place.scope);
        // The mark of internal linkage, which prints nothing.
        self.skip_letter(b'L');
        Ok(Place {
            owner,
            is_friend,
            ..place
        })
    }

    // Skips `F`, if it is next and there is a scope. Returns whether it was.
    fn skip_friend(&mut self, scope: Option<u32>) -> bool
        requires scope { IfSome scope (IsNode self.old.arena) }
        ensures reads { spec.parse_friend (option_map (stands self.old.arena) scope) (state self.old)
            ≡ Some (result, state self.new) }
        ensures arena { self.new.arena ≡ self.old.arena }
        ensures within { length self.new.rest.now ≤ length self.old.rest.now }
    {
        match scope {
            Some(_) => self.skip_letter(b'F'),
            None => false,
        }
    }

    // Puts a name in its module, reads its tags, and puts it in its scope.
    fn read_part_end(&mut self, part: Part) -> Result<LearnedName, Stop>
        requires part { IsPart self.old.arena part }
        ensures reads { GivesNamed result self.new (spec.parse_part_end (part_at self.old.arena part)
            (state self.old)) }
        ensures keeps { OnOk result (Keeps self.old self.new) }
    {
        let owned = tri!(self.put_in_module(part.place.owner, part.node));
        let tagged = tri!(self.read_abi_tags(owned));
        let node = tri!(self.put_in(part.place.is_friend, part.place.scope, tagged));
        Ok(LearnedName {
            node,
            info: part.place.info,
        })
    }

    // Reads a template parameter as the first component.
    #[inline(always)]
    fn read_first_param(&mut self, info: Info) -> Result<LearnedName, Stop>
        requires info { IsInfo self.old.arena info }
        ensures reads { GivesNamed result self.new (spec.first_param (info_at self.old.arena info) (state self.old)) }
        ensures moves { OnOk result (Moves self.old self.new) }
    {
        let node = tri!(self.read_template_param());
        Ok(LearnedName { node, info })
    }

    // Reads `[<CV-qualifiers>] [<ref-qualifier>]`. Returns what is learned of a name by them.
    #[inline(always)]
    fn read_info(&mut self) -> Info
        ensures reads { spec.parse_info (state self.old) ≡ Some (info_at self.new.arena result, state self.new) }
        ensures inherited { result.inherited ≡ None }
        ensures no_args { result.ends_with_args ≡ false }
        ensures arena { self.new.arena ≡ self.old.arena }
        ensures within { length self.new.rest.now ≤ length self.old.rest.now }
    {
        if self.skip_letter(b'H') {
            return Info {
                explicit_object: true,
                ..unqualified()
            };
        }
        let cv = self.read_cv();
        let ref_qual = self.read_ref_qual();
        info_of(cv, ref_qual)
    }

    // Makes the name `std`.
    fn make_std(&mut self) -> Result<u32, Stop>
        ensures reads { Gives result self.new (leaves.make_word "std" (state self.old)) }
        ensures keeps { OnOk result (Keeps self.old self.new) }
        ensures rest { OnOk result (self.new.rest.now ≡ self.old.rest.now) }
    {
        self.arena.make_fixed(b"std")
    }
}
