//! What is asked of a tree without printing it. Where a tree is a pack, its element is asked.
#![tactic(auto, using(crate::proofs::Packs::packs), unfolding(cxx_tree::specs::Stored::tree_of, cxx_tree::specs::Stored::plain_tree, cxx_tree::specs::Stored::declaration_tree, cxx_tree::specs::Stored::IsBelow, cxx_tree::specs::Stored::IsPlainBelow, cxx_tree::specs::Stored::IsDeclarationBelow, crate::specs::Print::print, crate::specs::Asked::ends_of_part, cxx_tree::specs::Measure::measure))]

ghost use Rattle.std.specs.Prelude.{◌≡◌, ℕ, ◌<◌, ◌≤◌, Bool, true, false, Option, Some, None, MatchOption, IfSome};
ghost use Rattle.std.specs.List.{AllByRecursion};
ghost use Rattle.cxx_tree.specs.Tree.{pack};
ghost use Rattle.cxx_tree.specs.Stored.{forest, size, tree_of, tree_at, trees_at, trees_in, plain_tree, parts_in, parts_of, IsBelow, IsListBelow, IsPlainBelow, IsPartsBelow, IsPartBelow};
ghost use Rattle.cxx_printer.specs.Print as spec;
ghost use Rattle.cxx_printer.specs.Words.{ending, ending_of_byte, within};
ghost use Rattle.cxx_tree.specs.Measure.{measure};
ghost use Rattle.cxx_printer.specs.Asked.{OneSided, Refers, ends_of_part, height, highest, item};

use crate::env::Env;
use crate::operands::{is_named_address, is_simple, protocol_of};
use crate::words::{Form, std_text};
use cxx_tree::{Arena, List, Listing, Manner, Node, Part, Parts, Phrase, Plain};

/// Returns a node. Its children stand in the arena, and their trees are lower than its own.
#[inline(always)]
pub fn node_at(arena: &Arena, i: u32) -> &Node
    requires within { i < size arena.now }
    ensures tree { tree_at (forest arena.now) i ≡ tree_of arena.now.held (forest arena.now) result.now }
    ensures height { height (tree_at (forest arena.now) i) ≡ height (tree_of arena.now.held (forest arena.now)
        result.now) }
    ensures within { IsBelow arena.now.held (size arena.now) result.now }
{
    arena.node(i)
}

/// Returns the element of a pack that is printed, if there is one.
pub fn element(arena: &Arena, env: Env, list: List) -> Option<u32>
    requires below { IsListBelow arena.now.held (size arena.now) list }
    ensures value { MatchOption result
        (spec.print (pack (trees_in arena.now.held (forest arena.now) list)) env ≡ spec.nothing)
        (λ t. spec.print (pack (trees_in arena.now.held (forest arena.now) list)) env
        ≡ spec.element_of (spec.print (tree_at (forest arena.now) t) env)) }
    ensures within { IfSome result (λ t. t < size arena.now) }
    ensures lower { IfSome result (λ t. height (tree_at (forest arena.now) t)
        ≤ highest (trees_in arena.now.held (forest arena.now) list)) }
{
    let items = arena.items(list);
    let k = env.pack as usize;
    if k >= items.len() {
        return None;
    }
    Some(items[k])
}

/// Returns the form of a type.
pub fn form_of(arena: &Arena, env: Env, i: u32) -> Form
    requires within { i < size arena.now }
    ensures value { result ≡ (spec.print (tree_at (forest arena.now) i) env).text.form }
{
    match *node_at(arena, i) {
        Node::Plain(_)
        | Node::Declaration(_)
        | Node::Pointer(_)
        | Node::Reference(_, _)
        | Node::MemberPointer(_, _) => Form::Plain,
        Node::Array(_, _) => Form::Arrayed,
        Node::Function(_) | Node::Encoding(_) => Form::Callable,
        Node::Qualified(t, _) => form_of(arena, env, t),
        Node::Pack(items) => match element(arena, env, items) {
            None => Form::Plain,
            Some(t) => form_of(arena, env, t),
        },
    }
}

/// Returns whether a tree has one side alone, whatever it is printed in. Where it says no there may be one alone too.
pub fn is_one_sided(arena: &Arena, i: u32) -> bool
    requires within { i < size arena.now }
    ensures value { result ≡ true → OneSided (tree_at (forest arena.now) i) }
{
    match *arena.node(i) {
        Node::Plain(_) => true,
        Node::Qualified(t, _) => is_one_sided(arena, t),
        Node::Pointer(t) => is_one_sided(arena, t),
        Node::Reference(t, _) => is_one_sided(arena, t),
        _ => false,
    }
}

/// Returns whether a node has one side.
#[inline(always)]
pub fn is_plain(arena: &Arena, i: u32) -> bool
    requires within { i < size arena.now }
    ensures value { result ≡ true → OneSided (tree_at (forest arena.now) i) }
{
    match *arena.node(i) {
        Node::Plain(_) => true,
        _ => false,
    }
}

/// Returns whether a tree has a right side.
pub fn has_right(arena: &Arena, env: Env, i: u32) -> bool
    requires within { i < size arena.now }
    ensures value { result ≡ (spec.print (tree_at (forest arena.now) i) env).has_right }
{
    match *node_at(arena, i) {
        Node::Plain(_) => false,
        Node::Declaration(_) | Node::Array(_, _) | Node::Function(_) | Node::Encoding(_) => true,
        Node::Qualified(t, _) | Node::Pointer(t) | Node::Reference(t, _) => has_right(
            arena, env, t,
        ),
        Node::MemberPointer(_, member) => has_right(arena, env, member),
        Node::Pack(items) => match element(arena, env, items) {
            None => false,
            Some(t) => has_right(arena, env, t),
        },
    }
}

/// Returns whether a tree is a pointer.
pub fn is_starred(arena: &Arena, env: Env, i: u32) -> bool
    requires within { i < size arena.now }
    ensures value { result ≡ (spec.print (tree_at (forest arena.now) i) env).star }
{
    match *node_at(arena, i) {
        Node::Plain(_) => false,
        Node::Pointer(_) | Node::MemberPointer(_, _) => true,
        Node::Pack(items) => match element(arena, env, items) {
            None => false,
            Some(t) => is_starred(arena, env, t),
        },
        _ => false,
    }
}

/// Returns whether the left side of a tree ends with a bracket that joins one after it.
pub fn is_closed(arena: &Arena, env: Env, i: u32) -> bool
    requires within { i < size arena.now }
    ensures value { result ≡ (spec.print (tree_at (forest arena.now) i) env).closed }
{
    match *node_at(arena, i) {
        Node::Plain(Plain::Phrase(phrase, _)) => env.is_llvm() && phrase.is_closed,
        Node::Plain(Plain::AbiTag(_, _)) => env.is_llvm(),
        Node::Plain(Plain::Scoped(_, _, name)) => is_closed(arena, env, name),
        Node::Plain(Plain::Data(name)) => is_closed(arena, env, name),
        Node::Array(t, _) => is_closed(arena, env, t),
        Node::Pack(items) => match element(arena, env, items) {
            None => false,
            Some(t) => is_closed(arena, env, t),
        },
        _ => false,
    }
}

/// What a reference refers to in the end, if it isn't past the end of a pack, and the reference that all on the way
/// make.
#[derive(Clone, Copy)]
pub struct Referent {
    pub is_lvalue: bool,
    pub base: Option<u32>,
}

/// Returns what a reference to a node refers to.
pub fn referent_of(arena: &Arena, env: Env, is_lvalue: bool, i: u32) -> Referent
    requires within { i < size arena.now }
    ensures kind { result.is_lvalue ≡ spec.collapsed is_lvalue (spec.print (tree_at (forest arena.now) i) env).kind }
    ensures base { Refers result.base (spec.print (tree_at (forest arena.now) i) env).base
        (λ j. spec.print (tree_at (forest arena.now) j) env) }
    ensures within { IfSome result.base (λ j. j < size arena.now) }
    ensures lower { IfSome result.base (λ j. height (tree_at (forest arena.now) j)
        ≤ height (tree_at (forest arena.now) i)) }
{
    match *node_at(arena, i) {
        Node::Reference(t, inner) => referent_of(arena, env, is_lvalue || inner, t),
        Node::Pack(items) => match element(arena, env, items) {
            None => Referent {
                is_lvalue,
                base: None,
            },
            Some(t) => referent_of(arena, env, is_lvalue, t),
        },
        Node::Plain(_) => itself(is_lvalue, i),
        _ => itself(is_lvalue, i),
    }
}

// What is no reference.
fn itself(is_lvalue: bool, i: u32) -> Referent
    ensures kind { result.is_lvalue ≡ spec.collapsed is_lvalue None }
    ensures base { result.base ≡ Some i }
{
    Referent {
        is_lvalue,
        base: Some(i),
    }
}

/// How a text ends, where a `<` or a `>` follows.
#[derive(Clone, Copy, PartialEq)]
pub enum Ending {
    Less,
    Greater,
    Other,
}

fn ending_of_text(bytes: &[u8]) -> Ending
    ensures value { result ≡ ending bytes.now }
{
    let n = bytes.len();
    if n == 0 {
        return Ending::Other;
    }
    ending_of_byte(bytes[n - 1])
}

fn ending_of_byte(byte: u8) -> Ending
    ensures value { result ≡ ending_of_byte byte }
{
    match byte {
        b'<' => Ending::Less,
        b'>' => Ending::Greater,
        _ => Ending::Other,
    }
}

/// Returns how the text of a tree ends in GNU's style.
#[cycle(endings)]
pub fn ending_of(arena: &Arena, env: Env, i: u32) -> Ending
    requires within { i < size arena.now }
    ensures value { result ≡ (spec.print (tree_at (forest arena.now) i) env).ends }
{
    match *node_at(arena, i) {
        Node::Plain(ref plain) => ending_of_plain(arena, env, plain),
        Node::Pointer(t) if protocol_of(arena, t).is_some() => Ending::Greater,
        Node::Pack(items) => match element(arena, env, items) {
            None => Ending::Other,
            Some(t) => ending_of(arena, env, t),
        },
        _ => Ending::Other,
    }
}

#[cycle(endings)]
fn ending_of_plain(arena: &Arena, env: Env, plain: &Plain) -> Ending
    requires below { IsPlainBelow arena.now.held (size arena.now) plain.now }
    ensures value { result ≡ (spec.print (plain_tree arena.now.held (forest arena.now) plain.now) env).ends }
{
    match *plain {
        Plain::Name(text) => ending_of_text(arena.bytes(text)),
        Plain::Leaf(_, _, _) => Ending::Other,
        Plain::StdName(std, is_expanded) => ending_of_text(std_text(env.style, std, is_expanded)),
        Plain::Phrase(phrase, parts) => ending_of_phrase(arena, env, phrase, parts),
        Plain::Scoped(_, _, name) => ending_of(arena, env, name),
        Plain::ScopedName(_, name) => ending_of_text(arena.bytes(name)),
        Plain::WithArgs(_, _) => Ending::Greater,
        Plain::AbiTag(_, _) => Ending::Other,
        Plain::InModule(_, owner) => ending_of(arena, env, owner),
        Plain::Data(name) => ending_of(arena, env, name),
        Plain::ObjcProtocol(_, _) => Ending::Greater,
        Plain::Several(items) => ending_of_list(arena, env, arena.items(items)),
        Plain::Expansion(t) => ending_of_expansion(arena, env, t),
        Plain::Param(_, _) => Ending::Other,
    }
}

#[cycle(endings)]
fn ending_of_phrase(arena: &Arena, env: Env, phrase: Phrase, parts: Parts) -> Ending
    requires below { IsPartsBelow arena.now.held (size arena.now) parts }
    ensures value { result ≡ (spec.phrased phrase env (spec.print_parts (parts_in arena.now.held (forest arena.now)
        parts)
        (within env phrase.guard))).ends }
{
    if !phrase.is_open {
        return Ending::Other;
    }
    let list = arena.parts_of(parts);
    let n = list.len();
    if n == 0 {
        return Ending::Other;
    }
    ending_of_part(arena, env.within(phrase.guard), list[n - 1])
}

#[cycle(endings)]
fn ending_of_part(arena: &Arena, env: Env, part: Part) -> Ending
    requires below { IsPartBelow arena.now.held (size arena.now) part }
    ensures value { result ≡ ends_of_part arena.now.held (forest arena.now) env part }
{
    match part {
        Part::Text(_, gnu) => ending_of_text(arena.bytes(gnu)),
        Part::Tree(manner, t) => ending_of_tree(arena, env, manner, t),
        Part::Trees(listing, _) => match listing {
            Listing::Angles => Ending::Greater,
            _ => Ending::Other,
        },
    }
}

#[cycle(endings)]
fn ending_of_tree(arena: &Arena, env: Env, manner: Manner, t: u32) -> Ending
    requires within { t < size arena.now }
    ensures value { result ≡ spec.part_ends manner env (item (tree_at (forest arena.now) t)) }
{
    match manner {
        Manner::Whole(context) => ending_of(arena, env.in_context(context), t),
        Manner::Operand(_, _) | Manner::Argument => ending_of_operand(arena, env, t),
        Manner::Address(_) => ending_of_address(arena, env, t),
        _ => Ending::Other,
    }
}

#[cycle(endings)]
fn ending_of_address(arena: &Arena, env: Env, t: u32) -> Ending
    requires within { t < size arena.now }
    ensures value { result ≡ spec.address_ends env (item (tree_at (forest arena.now) t)) }
{
    match *node_at(arena, t) {
        Node::Encoding(ref encoding)
            if is_named_address(arena, encoding.name, encoding.cv, encoding.ref_qual) => {
            ending_of(arena, env, encoding.name)
        }
        _ => ending_of_operand(arena, env, t),
    }
}

#[cycle(endings)]
fn ending_of_operand(arena: &Arena, env: Env, t: u32) -> Ending
    requires within { t < size arena.now }
    ensures value { result ≡ spec.operand_ends env (item (tree_at (forest arena.now) t)) }
{
    if is_simple(arena, t) {
        return ending_of(arena, env, t);
    }
    Ending::Other
}

/// Returns how a list ends in GNU's style.
#[cycle(endings)]
pub fn ending_of_list(arena: &Arena, env: Env, items: &[u32]) -> Ending
    requires below { AllByRecursion (λ t. t < size arena.now) items.now }
    ensures value { result ≡ spec.last_ends env (spec.items_of (trees_at (forest arena.now) items.now)) }
{
    let n = items.len();
    if n == 0 {
        return Ending::Other;
    }
    ending_of(arena, env, items[n - 1])
}

#[cycle(endings)]
fn ending_of_expansion(arena: &Arena, env: Env, t: u32) -> Ending
    requires within { t < size arena.now }
    ensures value { result ≡ spec.expansion_ends env (measure (tree_at (forest arena.now) t)).elements
        (item (tree_at (forest arena.now) t)) }
{
    match arena.elements(t) {
        None | Some(0) => Ending::Other,
        Some(n) => ending_of(arena, env.at(n - 1), t),
    }
}
