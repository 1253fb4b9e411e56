//! Local names (Itanium C++ ABI 5.1.8).
#![tactic(auto, using(crate::proofs::Rules::productions), unfolding(cxx_tree::specs::Grows::Makes, cxx_tree::specs::Stored::tree_of, cxx_tree::specs::Stored::plain_tree, cxx_tree::specs::Stored::IsBelow, cxx_tree::specs::Stored::IsPlainBelow, cxx_tree::specs::Stored::stands, crate::specs::Outcome::named_at, cxx_grammar::specs::Locals::local_as, cxx_grammar::specs::Locals::past_digits, cxx_grammar::specs::Locals::past_discriminator))]

ghost use Rattle.std.specs.Prelude.{◌≡◌, ℕ, ◌<◌, ◌≤◌, length, drop, OnOk, Some};
ghost use Rattle.abi_scalars.specs.Texts.{sign_len};
ghost use Rattle.cxx_tree.specs.Kept.{IsNode};
ghost use Rattle.cxx_tree.specs.Stored.{stands};
ghost use Rattle.cxx_grammar.specs.Cases.{case_of_local};
ghost use Rattle.cxx_grammar.specs.Locals as spec;
ghost use Rattle.cxx_grammar.specs.Symbol.{productions};
ghost use Rattle.cxx_reader.specs.Outcome.{state, Keeps, Moves, Gives, GivesNamed, IsNamed, named_at};

use crate::cases::local_case;
use crate::encodings::read_encoding;
use crate::names::{plain, read_name};
use crate::reader::{LearnedName, Reader};
use abi_scalars::texts::optional_number_text;
use cxx_grammar::cases::LocalCase;
use cxx_tree::{Node, Plain, Stop};

/// Reads `<local-name> ::= Z <encoding> E <entity name> [<discriminator>]`, and the same of a string literal and of an
/// entity in a default argument.
#[cycle(reader)]
#[inline(never)]
pub fn read_local_name(reader: &mut Reader, depth: usize) -> Result<LearnedName, Stop>
    ensures reads { GivesNamed result reader.new (spec.parse_local_name (productions depth) (state reader.old)) }
    ensures moves { OnOk result (Moves reader.old reader.new) }
{
    reader.skip(1);
    let scope = tri!(read_encoding(reader, depth));
    tri!(reader.expect(b'E'));
    read_local(reader, depth, scope)
}

// Reads what of a local name follows its scope.
#[cycle(reader)]
fn read_local(reader: &mut Reader, depth: usize, scope: u32) -> Result<LearnedName, Stop>
    requires scope { IsNode reader.old.arena scope }
    ensures reads { GivesNamed result reader.new (spec.local_as (productions depth) (stands reader.old.arena scope)
        (case_of_local reader.old.rest.now) (state reader.old)) }
    ensures keeps { OnOk result (Keeps reader.old reader.new) }
{
    match local_case(reader.rest) {
        LocalCase::String => reader.read_local_string(scope),
        LocalCase::DefaultArg => read_default_arg(reader, depth, scope),
        LocalCase::Entity => read_entity(reader, depth, scope),
    }
}

// Reads `<name> [<discriminator>]`.
#[cycle(reader)]
fn read_entity(reader: &mut Reader, depth: usize, scope: u32) -> Result<LearnedName, Stop>
    requires scope { IsNode reader.old.arena scope }
    ensures reads { GivesNamed result reader.new (spec.parse_entity (productions depth)
        (stands reader.old.arena scope) (state reader.old)) }
    ensures keeps { OnOk result (Keeps reader.old reader.new) }
{
    let name = tri!(read_entity_in(reader, depth, scope));
    reader.skip_discriminator();
    Ok(name)
}

// Reads `d [<number>] _ <name>`.
#[cycle(reader)]
fn read_default_arg(reader: &mut Reader, depth: usize, scope: u32) -> Result<LearnedName, Stop>
    requires scope { IsNode reader.old.arena scope }
    ensures reads { GivesNamed result reader.new (spec.parse_default_arg (productions depth)
        (stands reader.old.arena scope) (state reader.old)) }
    ensures keeps { OnOk result (Keeps reader.old reader.new) }
{
    reader.skip(1);
    let arg = tri!(reader.read_default_scope(scope));
    read_entity_in(reader, depth, arg)
}

// Reads the name of an entity in a scope. What is around the scope binds none of its template parameters.
#[cycle(reader)]
fn read_entity_in(reader: &mut Reader, depth: usize, scope: u32) -> Result<LearnedName, Stop>
    requires scope { IsNode reader.old.arena scope }
    ensures reads { GivesNamed result reader.new (spec.parse_entity_in (productions depth)
        (stands reader.old.arena scope) (state reader.old)) }
    ensures keeps { OnOk result (Keeps reader.old reader.new) }
{
    let outer = reader.level;
    reader.level = 0;
    let name = tri!(read_name(reader, depth));
    reader.level = outer;
    reader.make_entity(scope, name)
}

impl<'a> Reader<'a> {
    // Puts an entity in its scope.
    fn make_entity(&mut self, scope: u32, name: LearnedName) -> Result<LearnedName, Stop>
        requires scope { IsNode self.old.arena scope }
        requires named { IsNamed self.old.arena name }
        ensures reads { GivesNamed result self.new (spec.make_entity (stands self.old.arena scope)
            (named_at self.old.arena name) (state self.old)) }
        ensures keeps { OnOk result (Keeps self.old self.new) }
    {
        let node = tri!(self.make(Node::Plain(Plain::Scoped(false, scope, name.node))));
        Ok(LearnedName {
            node,
            info: name.info,
        })
    }

    // Reads `s [<discriminator>]`.
    fn read_local_string(&mut self, scope: u32) -> Result<LearnedName, Stop>
        requires scope { IsNode self.old.arena scope }
        ensures reads { GivesNamed result self.new (spec.parse_local_string (stands self.old.arena scope)
            (state self.old)) }
        ensures keeps { OnOk result (Keeps self.old self.new) }
    {
        self.skip(1);
        self.skip_discriminator();
        let word = tri!(self.arena.make_fixed(b"string literal"));
        let node = tri!(self.make(Node::Plain(Plain::Scoped(false, scope, word))));
        Ok(plain(node))
    }

    // Reads `[<number>] _`, and makes the scope of a default argument.
    fn read_default_scope(&mut self, scope: u32) -> Result<u32, Stop>
        requires scope { IsNode self.old.arena scope }
        ensures reads { Gives result self.new (spec.parse_default_scope (stands self.old.arena scope)
            (state self.old)) }
        ensures keeps { OnOk result (Keeps self.old self.new) }
    {
        let Some((number, rest)) = optional_number_text(self.rest) else {
            return Err(Stop::Unreadable);
        };
        self.rest = rest;
        tri!(self.expect(b'_'));
        let count = tri!(self.make_count(number, without_sign(number)));
        self.arena
            .make_default_arg(scope, count.text, count.ordinal)
    }

    // Skips `[<discriminator>]`.
    fn skip_discriminator(&mut self)
        ensures reads { spec.parse_discriminator (state self.old) ≡ Some (tt, state self.new) }
        ensures arena { self.new.arena ≡ self.old.arena }
        ensures within { length self.new.rest.now ≤ length self.old.rest.now }
    {
        self.rest = past_discriminator(self.rest);
    }
}

// A number without its sign.
fn without_sign(number: &[u8]) -> &[u8]
    ensures value { result.now ≡ drop (sign_len number.now) number.now }
{
    match number {
        [b'n', digits @ ..] => digits,
        _ => number,
    }
}

// The most digits of a discriminator.
const MAX_DIGITS: usize = 10;

// What follows `[<discriminator>] ::= _ <digit> | __ <digit>* _ | <digit>+`, the last at the end of a symbol only.
fn past_discriminator(bytes: &[u8]) -> &[u8]
    ensures value { result.now ≡ spec.past_discriminator bytes.now }
    ensures within { length result.now ≤ length bytes.now }
{
    match bytes {
        [b'_', b'_', inside @ ..] => match past_digits(MAX_DIGITS, inside) {
            [b'_', rest @ ..] => rest,
            _ => bytes,
        },
        [b'_', b'0'..=b'9', rest @ ..] => rest,
        [b'0'..=b'9', ..] => match past_digits(MAX_DIGITS, bytes) {
            [] => &[],
            _ => bytes,
        },
        _ => bytes,
    }
}

// What follows at most n digits.
fn past_digits(n: usize, bytes: &[u8]) -> &[u8]
    ensures value { result.now ≡ spec.past_digits n bytes.now }
    ensures within { length result.now ≤ length bytes.now }
{
    if n == 0 {
        return bytes;
    }
    match bytes {
        [b'0'..=b'9', rest @ ..] => past_digits(n - 1, rest),
        _ => bytes,
    }
}
