//! The state of the readers, and what is read by itself.
#![tactic(auto, using(crate::proofs::Kept::readers), unfolding(cxx_tree::specs::Stored::stands, cxx_tree::specs::Grows::Makes, cxx_grammar::specs::Parses::past_word_if, cxx_grammar::specs::Leaves::parse_substitution, cxx_grammar::specs::Leaves::parse_template_param, cxx_grammar::specs::Leaves::parse_param_level, cxx_grammar::specs::Leaves::parse_cv, cxx_grammar::specs::Leaves::parse_ref, cxx_grammar::specs::Leaves::parse_builtin, cxx_grammar::specs::Names::base_as, cxx_tree::specs::Stored::tree_of, cxx_tree::specs::Stored::plain_tree, cxx_tree::specs::Stored::IsBelow, cxx_tree::specs::Stored::IsPlainBelow))]

ghost use Rattle.std.specs.Prelude.{◌≡◌, ℕ, ◌-◌, ◌<◌, ◌≤◌, [], ◌∷◌, length, true, false, Some, IfSome, OnOk, option_map};
ghost use Rattle.cxx_tree.specs.Stored.{forest, size, tree_of, IsBelow, stands};
ghost use Rattle.cxx_tree.specs.Kept.{IsNode};
ghost use Rattle.cxx_tree.specs.Tree.{std_name};
ghost use Rattle.cxx_grammar.specs.Parses as spec;
ghost use Rattle.cxx_grammar.specs.Leaves as leaves;
ghost use Rattle.cxx_grammar.specs.Names as names;
ghost use Rattle.cxx_grammar.specs.Words as words;
ghost use Rattle.cxx_reader.specs.Sources as sources;
ghost use Rattle.cxx_reader.specs.Outcome.{state, Keeps, Moves, Gives, GivesCount, GivesText, Copies};

use crate::cases::{begins, begins_digit};
use crate::words::{builtin_of, d_builtin_of, operator_of};
use abi_scalars::numerals::{Radix, index_of};
use abi_scalars::texts::{identifier, source_text};
use cxx_tree::{Arena, Cv, Node, NodeText, Plain, Prec, RefQual, Std, Stop};
use std::alloc::Global;

/// The bytes that aren't read yet, and what was read.
#[derive(Drop)]
pub struct Reader<'a> {
    pub rest: &'a [u8],
    pub arena: Arena,
    /// How many nodes were replaced.
    pub replaced: usize,
    pub invented: Invented,
    /// How many binders of template parameters are around this place.
    pub level: u64,
    pub alloc: Global,
}

/// How many names were invented for declared template parameters.
#[derive(Clone, Copy)]
pub struct Invented {
    pub types: u64,
    pub values: u64,
    pub templates: u64,
}

/// What an encoding learns of its name.
#[derive(Clone, Copy)]
pub struct Info {
    /// The name ends with template arguments.
    pub ends_with_args: bool,
    /// A component was a constructor, a destructor or a conversion operator.
    pub no_return: bool,
    pub cv: Cv,
    pub ref_qual: RefQual,
    /// `H` stood after `N`: the first parameter is the object.
    pub explicit_object: bool,
    /// The name after `CI`.
    pub inherited: Option<u32>,
}

/// A name, and what is learned of it.
#[derive(Clone, Copy)]
pub struct LearnedName {
    pub node: u32,
    pub info: Info,
}

impl<'a> Reader<'a> {
    /// Skips n bytes, or all if fewer are left.
    #[tactic(auto, using(std::proofs::lemmas::List::drop_min))]
    #[inline(always)]
    pub fn skip(&mut self, n: usize)
        ensures state { state self.new ≡ spec.skip n (state self.old) }
        ensures arena { self.new.arena ≡ self.old.arena }
        ensures replaced { self.new.replaced ≡ self.old.replaced }
        ensures takes { length self.new.rest.now ≡ length self.old.rest.now - n }
    {
        self.rest = &self.rest[n.min(self.rest.len())..];
    }

    /// Skips a letter, if it is next. Returns whether it was.
    #[inline(always)]
    pub fn skip_letter(&mut self, letter: u8) -> bool
        ensures reads { spec.past_word_if (letter ∷ []) (state self.old) ≡ Some (result, state self.new) }
        ensures arena { self.new.arena ≡ self.old.arena }
        ensures replaced { self.new.replaced ≡ self.old.replaced }
        ensures within { length self.new.rest.now ≤ length self.old.rest.now }
        ensures takes { result ≡ true → length self.new.rest.now < length self.old.rest.now }
    {
        if begins(self.rest, letter) {
            self.skip(1);
            return true;
        }
        false
    }

    /// Reads `<CV-qualifiers> ::= [r] [V] [K]`.
    pub fn read_cv(&mut self) -> Cv
        ensures reads { leaves.parse_cv (state self.old) ≡ Some (result, state self.new) }
        ensures arena { self.new.arena ≡ self.old.arena }
        ensures replaced { self.new.replaced ≡ self.old.replaced }
        ensures within { length self.new.rest.now ≤ length self.old.rest.now }
    {
        let is_restrict = self.skip_letter(b'r');
        let is_volatile = self.skip_letter(b'V');
        let is_const = self.skip_letter(b'K');
        Cv {
            is_const,
            is_volatile,
            is_restrict,
        }
    }

    /// Reads `[<ref-qualifier>] ::= R | O`.
    pub fn read_ref_qual(&mut self) -> RefQual
        ensures reads { leaves.parse_ref (state self.old) ≡ Some (result, state self.new) }
        ensures arena { self.new.arena ≡ self.old.arena }
        ensures replaced { self.new.replaced ≡ self.old.replaced }
        ensures within { length self.new.rest.now ≤ length self.old.rest.now }
    {
        if self.skip_letter(b'O') {
            return RefQual::Rvalue;
        }
        if self.skip_letter(b'R') {
            return RefQual::Lvalue;
        }
        RefQual::None
    }

    /// Makes a node.
    #[inline(always)]
    pub fn make(&mut self, node: Node) -> Result<u32, Stop>
        requires below { IsBelow self.old.arena.held (size self.old.arena) node }
        ensures reads { Gives result self.new (spec.make (tree_of self.old.arena.held (forest
            self.old.arena) node) (state self.old)) }
        ensures keeps { OnOk result (Keeps self.old self.new) }
        ensures rest { OnOk result (self.new.rest.now ≡ self.old.rest.now) }
    {
        self.arena.push(node)
    }

    /// Makes a node, and saves it.
    #[inline(always)]
    pub fn make_saved(&mut self, node: Node) -> Result<u32, Stop>
        requires below { IsBelow self.old.arena.held (size self.old.arena) node }
        ensures reads { Gives result self.new (spec.make_saved (tree_of self.old.arena.held (forest
            self.old.arena) node) (state self.old)) }
        ensures keeps { OnOk result (Keeps self.old self.new) }
        ensures rest { OnOk result (self.new.rest.now ≡ self.old.rest.now) }
    {
        let i = tri!(self.arena.push(node));
        tri!(self.arena.save(i));
        Ok(i)
    }

    /// Reads `<source-name> ::= <positive length number> <identifier>`.
    #[inline(always)]
    pub fn read_source_name(&mut self) -> Result<u32, Stop>
        ensures reads { Gives result self.new (leaves.parse_source_name (state self.old)) }
        ensures moves { OnOk result (Moves self.old self.new) }
    {
        let Some((name, rest)) = identifier(self.rest) else {
            return Err(Stop::Unreadable);
        };
        self.rest = rest;
        self.arena.make_name(source_text(name))
    }

    /// Reads a `<source-name>` with its tags, in a scope if there is one. Without tags it is one node then.
    #[inline(always)]
    pub fn read_source_in(&mut self, scope: Option<u32>) -> Result<u32, Stop>
        requires scope { IfSome scope (IsNode self.old.arena) }
        ensures reads { Gives result self.new (sources.source_in (option_map (stands self.old.arena) scope)
            (state self.old)) }
        ensures moves { OnOk result (Moves self.old self.new) }
    {
        let Some((name, rest)) = identifier(self.rest) else {
            return Err(Stop::Unreadable);
        };
        self.rest = rest;
        if begins(rest, b'B') {
            return self.make_tagged_in(scope, name);
        }
        match scope {
            Some(scope) => self.arena.make_name_in(scope, source_text(name)),
            None => self.arena.make_name(source_text(name)),
        }
    }

    // Makes a name, reads its tags, and puts it in a scope if there is one.
    #[inline(never)]
    fn make_tagged_in(&mut self, scope: Option<u32>, name: &[u8]) -> Result<u32, Stop>
        requires scope { IfSome scope (IsNode self.old.arena) }
        ensures reads { Gives result self.new (sources.tagged_in (option_map (stands self.old.arena) scope) name.now
            (state self.old)) }
        ensures keeps { OnOk result (Keeps self.old self.new) }
    {
        let node = tri!(self.arena.make_name(source_text(name)));
        let tagged = tri!(self.read_abi_tags(node));
        self.put_in(false, scope, tagged)
    }

    /// Puts a name in a scope if there is one, which may declare it as a friend.
    pub fn put_in(&mut self, is_friend: bool, scope: Option<u32>, name: u32) -> Result<u32, Stop>
        requires scope { IfSome scope (IsNode self.old.arena) }
        requires name { IsNode self.old.arena name }
        ensures reads { Gives result self.new (names.make_in_scope is_friend
            (option_map (stands self.old.arena) scope) (stands self.old.arena name) (state self.old)) }
        ensures keeps { OnOk result (Keeps self.old self.new) }
        ensures rest { OnOk result (self.new.rest.now ≡ self.old.rest.now) }
    {
        match scope {
            Some(scope) => self.make(Node::Plain(Plain::Scoped(is_friend, scope, name))),
            None => Ok(name),
        }
    }

    /// Reads `<abi-tags> ::= (B <source-name>)*`, behind a name.
    #[inline(always)]
    pub fn read_abi_tags(&mut self, name: u32) -> Result<u32, Stop>
        requires name { IsNode self.old.arena name }
        ensures reads { Gives result self.new (leaves.parse_abi_tags (stands self.old.arena name) (state self.old)) }
        ensures keeps { OnOk result (Keeps self.old self.new) }
    {
        let mut tagged = name;
        while begins(self.rest, b'B') {
            tagged = tri!(self.read_abi_tag(tagged));
        }
        Ok(tagged)
    }

    // Reads `B <source-name>`, behind a name.
    #[inline(never)]
    fn read_abi_tag(&mut self, name: u32) -> Result<u32, Stop>
        requires name { IsNode self.old.arena name }
        ensures reads { Gives result self.new (leaves.parse_abi_tag (stands self.old.arena name) (state self.old)) }
        ensures moves { OnOk result (Moves self.old self.new) }
    {
        self.skip(1);
        let tag = tri!(self.read_identifier());
        let tag = tri!(self.text(tag));
        self.make(Node::Plain(Plain::AbiTag(name, tag)))
    }

    /// Reads `<source-name>` as an identifier.
    pub fn read_identifier(&mut self) -> Result<&'a [u8], Stop>
        ensures reads { GivesText result self.new (leaves.parse_identifier (state self.old)) }
        ensures arena { self.new.arena ≡ self.old.arena }
        ensures takes { OnOk result (length self.new.rest.now < length self.old.rest.now) }
    {
        let Some((name, rest)) = identifier(self.rest) else {
            return Err(Stop::Unreadable);
        };
        self.rest = rest;
        Ok(name)
    }

    /// Copies a text.
    pub fn text(&mut self, bytes: &[u8]) -> Result<NodeText, Stop>
        ensures text { Copies result self.new.arena bytes.now }
        ensures keeps { Keeps self.old self.new }
        ensures state { state self.new ≡ state self.old }
        ensures rest { self.new.rest.now ≡ self.old.rest.now }
    {
        match self.arena.text(bytes) {
            Ok(text) => Ok(text),
            Err(_) => Err(Stop::Memory),
        }
    }

    /// Reads a `<source-name>` after n bytes, and puts a word in front of it.
    pub fn read_prefixed(&mut self, n: usize, word: &'static [u8]) -> Result<u32, Stop>
        ensures reads { Gives result self.new (leaves.parse_prefixed n word.now (state self.old)) }
        ensures moves { OnOk result (Moves self.old self.new) }
    {
        self.skip(n);
        let name = tri!(self.read_source_name());
        self.arena.make_prefixed(
            NodeText::Fixed(word),
            NodeText::Fixed(word),
            name,
            Prec::Primary,
        )
    }

    /// Reads `<operator-name>` that is a code of two letters.
    pub fn read_operator(&mut self) -> Result<u32, Stop>
        ensures reads { Gives result self.new (leaves.parse_operator (state self.old)) }
        ensures moves { OnOk result (Moves self.old self.new) }
    {
        self.read_word(2, operator_of(self.rest))
    }

    // Reads a code of n letters, for which there is a word or none.
    #[inline(always)]
    fn read_word(&mut self, n: usize, word: Option<&'static [u8]>) -> Result<u32, Stop>
        requires n { 0 < n }
        requires some { IfSome word (λ _. 0 < length self.old.rest.now) }
        ensures reads { Gives result self.new (leaves.make_code n (option_map (λ w. w.now) word.entry) (state self.old)) }
        ensures moves { OnOk result (Moves self.old self.new) }
    {
        let Some(word) = word else {
            return Err(Stop::Unreadable);
        };
        self.skip(n);
        self.arena.make_fixed(word)
    }

    /// Reads `<substitution> ::= S [<seq-id>] _ | Sa | Sb | Ss | Si | So | Sd`, the latter with `<abi-tags>`.
    pub fn read_substitution(&mut self) -> Result<u32, Stop>
        ensures reads { Gives result self.new (leaves.parse_substitution (state self.old)) }
        ensures moves { OnOk result (Moves self.old self.new) }
    {
        self.skip(1);
        match std_of(self.rest) {
            Some(std) => self.read_std(std),
            None => self.read_saved(),
        }
    }

    // Makes an abbreviation of std with its tags, and skips its letter. With tags it is saved.
    #[inline(never)]
    fn read_std(&mut self, std: Std) -> Result<u32, Stop>
        requires some { 0 < length self.old.rest.now }
        ensures reads { Gives result self.new (leaves.parse_abbreviation std (state self.old)) }
        ensures moves { OnOk result (Moves self.old self.new) }
    {
        self.skip(1);
        let name = tri!(self.make(Node::Plain(Plain::StdName(std, false))));
        if !begins(self.rest, b'B') {
            return Ok(name);
        }
        let tagged = tri!(self.read_abi_tags(name));
        tri!(self.arena.save(tagged));
        Ok(tagged)
    }

    /// Reads `[<seq-id>] _`.
    fn read_saved(&mut self) -> Result<u32, Stop>
        ensures reads { Gives result self.new (leaves.parse_saved (state self.old)) }
        ensures moves { OnOk result (Moves self.old self.new) }
    {
        let Some((index, rest)) = index_of(Radix::Base36, self.rest) else {
            return Err(Stop::Unreadable);
        };
        self.rest = rest;
        match self.arena.saved(index) {
            Some(i) => Ok(i),
            None => Err(Stop::Unreadable),
        }
    }

    /// Reads `<template-param> ::= T [L <number> _] [<number>] _`.
    pub fn read_template_param(&mut self) -> Result<u32, Stop>
        ensures reads { Gives result self.new (leaves.parse_template_param (state self.old)) }
        ensures moves { OnOk result (Moves self.old self.new) }
    {
        self.skip(1);
        let level = tri!(self.read_param_level());
        let Some((index, rest)) = index_of(Radix::Decimal, self.rest) else {
            return Err(Stop::Unreadable);
        };
        self.rest = rest;
        self.make(Node::Plain(Plain::Param(level, index as u64)))
    }

    // Reads `[L <number> _]`, the level of a template parameter.
    #[inline(always)]
    fn read_param_level(&mut self) -> Result<u64, Stop>
        ensures reads { GivesCount result self.new (leaves.parse_param_level (state self.old)) }
        ensures arena { self.new.arena ≡ self.old.arena }
        ensures within { length self.new.rest.now ≤ length self.old.rest.now }
    {
        if begins(self.rest, b'L') {
            return self.read_outer_level();
        }
        Ok(0)
    }

    // Reads `L <number> _`.
    #[inline(never)]
    fn read_outer_level(&mut self) -> Result<u64, Stop>
        ensures reads { GivesCount result self.new (leaves.parse_outer_level (state self.old)) }
        ensures arena { self.new.arena ≡ self.old.arena }
        ensures within { length self.new.rest.now ≤ length self.old.rest.now }
    {
        self.skip(1);
        if !begins_digit(self.rest) {
            return Err(Stop::Unreadable);
        }
        let Some((level, rest)) = index_of(Radix::Decimal, self.rest) else {
            return Err(Stop::Unreadable);
        };
        self.rest = rest;
        Ok(level as u64)
    }

    /// Reads `<builtin-type>`.
    #[inline(never)]
    pub fn read_builtin(&mut self) -> Result<u32, Stop>
        ensures reads { Gives result self.new (leaves.parse_builtin (state self.old)) }
        ensures moves { OnOk result (Moves self.old self.new) }
    {
        if self.skip_letter(b'D') {
            return self.read_d_builtin();
        }
        self.read_word(1, builtin_of(self.rest))
    }

    // Reads `<builtin-type>` after its `D`.
    fn read_d_builtin(&mut self) -> Result<u32, Stop>
        ensures reads { Gives result self.new (leaves.parse_d_builtin (state self.old)) }
        ensures moves { OnOk result (Moves self.old self.new) }
    {
        if self.skip_letter(b'n') {
            return self
                .arena
                .make_leaf(true, b"std::nullptr_t", b"decltype(nullptr)");
        }
        self.read_word(1, d_builtin_of(self.rest))
    }
}

/// Returns the abbreviation of std that the letter after `S` stands for.
#[tactic(auto, unfolding(cxx_grammar::specs::Words::std_of))]
fn std_of(bytes: &[u8]) -> Option<Std>
    ensures value { result ≡ words.std_of bytes.now }
    ensures some { IfSome result (λ _. 0 < length bytes.now) }
{
    match bytes {
        [b'a', ..] => Some(Std::Allocator),
        [b'b', ..] => Some(Std::BasicString),
        [b's', ..] => Some(Std::String),
        [b'i', ..] => Some(Std::Istream),
        [b'o', ..] => Some(Std::Ostream),
        [b'd', ..] => Some(Std::Iostream),
        _ => None,
    }
}
