//! What is asked of the head of a tree, whatever it is printed in.
#![tactic(auto, unfolding(cxx_tree::specs::Stored::tree_of, cxx_tree::specs::Stored::plain_tree, cxx_tree::specs::Stored::declaration_tree, cxx_tree::specs::Stored::IsBelow, cxx_tree::specs::Stored::IsPlainBelow, crate::specs::Heads::prec_of, crate::specs::Heads::rank, crate::specs::Heads::is_simple, crate::specs::Heads::has_args, crate::specs::Heads::is_designator, crate::specs::Heads::is_scoped, crate::specs::Heads::count_of, crate::specs::Heads::count_item, crate::specs::Heads::count_items, crate::specs::Heads::is_objc_object, crate::specs::Heads::protocol_of))]

ghost use Rattle.std.specs.Prelude.{◌≡◌, ℕ, ◌<◌, ◌≤◌, Bool, Option, Some, None, MatchOption, false, true};
ghost use Rattle.cxx_tree.specs.Stored.{forest, size, tree_at, trees_in, IsListBelow};
ghost use Rattle.cxx_printer.specs.Heads as spec;

use cxx_tree::{Arena, Cv, List, Node, Plain, Prec, RefQual, Role};

/// Returns the precedence of a tree.
pub fn prec_of(arena: &Arena, i: u32) -> Prec
    requires within { i < size arena.now }
    ensures value { result ≡ spec.prec_of (tree_at (forest arena.now) i) }
{
    match *arena.node(i) {
        Node::Plain(Plain::Phrase(phrase, _)) => phrase.prec,
        _ => Prec::Primary,
    }
}

/// Returns whether an operand of a precedence needs no parentheses in LLVM's style. It may be as loose if `loose`
/// holds.
pub fn is_tight(inner: Prec, outer: Prec, loose: bool) -> bool
    ensures value { result ≡ spec.is_tight inner outer loose }
{
    let inner = rank(inner);
    let outer = rank(outer);
    if inner == outer { loose } else { inner < outer }
}

fn rank(prec: Prec) -> u8
    ensures value { result ≡ spec.rank prec }
{
    match prec {
        Prec::Primary => 0,
        Prec::Postfix => 1,
        Prec::Unary => 2,
        Prec::Cast => 3,
        Prec::PtrMem => 4,
        Prec::Multiplicative => 5,
        Prec::Additive => 6,
        Prec::Shift => 7,
        Prec::Spaceship => 8,
        Prec::Relational => 9,
        Prec::Equality => 10,
        Prec::And => 11,
        Prec::Xor => 12,
        Prec::Ior => 13,
        Prec::AndIf => 14,
        Prec::OrIf => 15,
        Prec::Conditional => 16,
        Prec::Assign => 17,
        Prec::Comma => 18,
    }
}

/// Returns whether a tree is an operand without parentheses in GNU's style.
pub fn is_simple(arena: &Arena, i: u32) -> bool
    requires within { i < size arena.now }
    ensures value { result ≡ spec.is_simple (tree_at (forest arena.now) i) }
{
    match *arena.node(i) {
        Node::Plain(Plain::Name(_)) | Node::Plain(Plain::ScopedName(_, _)) => true,
        Node::Plain(Plain::Leaf(is_simple, _, _)) => is_simple,
        Node::Plain(Plain::Phrase(phrase, _)) => matches!(phrase.role, Role::Simple),
        Node::Plain(Plain::Scoped(is_friend, _, name)) => {
            !is_friend && !matches!(*arena.node(name), Node::Plain(Plain::WithArgs(_, _)))
        }
        Node::Plain(Plain::Data(name)) => is_simple(arena, name),
        _ => false,
    }
}

/// Returns whether a tree is a designator of an initializer.
pub fn is_designator(arena: &Arena, i: u32) -> bool
    requires within { i < size arena.now }
    ensures value { result ≡ spec.is_designator (tree_at (forest arena.now) i) }
{
    match *arena.node(i) {
        Node::Plain(Plain::Phrase(phrase, _)) => matches!(phrase.role, Role::Designator),
        _ => false,
    }
}

/// Returns whether the address of a function with this name and these qualifiers is written without parameters in GNU's
/// style.
pub fn is_named_address(arena: &Arena, i: u32, cv: Cv, ref_qual: RefQual) -> bool
    requires within { i < size arena.now }
    ensures value { result ≡ spec.is_named_address (tree_at (forest arena.now) i) cv ref_qual }
{
    let is_qualified = cv.is_const || cv.is_volatile || cv.is_restrict;
    !is_qualified && matches!(ref_qual, RefQual::None) && is_scoped(arena, i) && is_simple(arena, i)
}

// Whether a node is a name in a scope, and not a friend's.
fn is_scoped(arena: &Arena, i: u32) -> bool
    requires within { i < size arena.now }
    ensures value { result ≡ spec.is_scoped (tree_at (forest arena.now) i) }
{
    match *arena.node(i) {
        Node::Plain(Plain::Scoped(is_friend, _, _)) => !is_friend,
        Node::Plain(Plain::ScopedName(_, _)) => true,
        _ => false,
    }
}

/// Returns the number of elements of what `sizeof...` counts, if it is known.
pub fn count_of(arena: &Arena, i: u32) -> Option<u64>
    requires within { i < size arena.now }
    ensures value { result ≡ spec.count_of (tree_at (forest arena.now) i) }
{
    match *arena.node(i) {
        Node::Plain(Plain::Expansion(t)) => match arena.elements(t) {
            None => None,
            Some(n) => Some(n as u64),
        },
        Node::Plain(Plain::Several(items)) => Some(count_of_list(arena, items)),
        _ => None,
    }
}

fn count_of_list(arena: &Arena, items: List) -> u64
    requires below { IsListBelow arena.now.held (size arena.now) items }
    ensures value { result ≡ spec.count_items (trees_in arena.now.held (forest arena.now) items) }
{
    let mut sum = 0;
    for t in arena.items(items) {
        sum += match *arena.node(*t) {
            Node::Plain(Plain::Expansion(t)) => arena.elements(t).unwrap_or(0) as u64,
            _ => 1,
        };
    }
    sum
}

/// Returns the protocol of a type, if a pointer to the type is an `id`.
pub fn protocol_of(arena: &Arena, i: u32) -> Option<&[u8]>
    requires within { i < size arena.now }
    ensures value { MatchOption result (spec.protocol_of (tree_at (forest arena.now) i) ≡ None)
        (λ w. spec.protocol_of (tree_at (forest arena.now) i) ≡ Some w.now) }
{
    match *arena.node(i) {
        Node::Plain(Plain::ObjcProtocol(name, protocol)) => match *arena.node(name) {
            Node::Plain(Plain::Name(name)) if arena.bytes(name) == b"objc_object".as_slice() => {
                Some(arena.bytes(protocol))
            }
            _ => None,
        },
        _ => None,
    }
}
