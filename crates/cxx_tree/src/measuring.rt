//! The counts of nodes.
#![tactic(auto, using(crate::proofs::Measured::measured), unfolding(crate::specs::Stored::tree_of, crate::specs::Stored::plain_tree, crate::specs::Stored::declaration_tree, crate::specs::Stored::IsBelow, crate::specs::Stored::IsPlainBelow, crate::specs::Stored::IsDeclarationBelow, crate::specs::Measure::measure, crate::specs::Counts::part_and))]

ghost use Rattle.std.specs.Prelude.{◌≡◌, ℕ, ◌+◌, ◌<◌, ◌≤◌, length, false, max, Bool, IfSome};
ghost use Rattle.std.specs.List.{AllByRecursion};
ghost use Rattle.cxx_tree.specs.Measure as spec;
ghost use Rattle.cxx_tree.specs.Tree.{named, scoped};
ghost use Rattle.cxx_tree.specs.Counts.{Row, Tallied, AreExact, part_and};
ghost use Rattle.cxx_tree.specs.Stored.{forest, size, tree_of, plain_tree, declaration_tree, tree_at, option_at, trees_in, parts_in, text_at, IsBelow, IsPlainBelow, IsDeclarationBelow, IsListBelow, IsPartsBelow, IsPartBelow, IsOptionBelow, IsText};

use crate::arena::Arena;
use crate::counts::{MAX_WORK, Measure, around, at_most, join, nothing, packed, param, repeated};
use crate::kinds::Manner;
use crate::node::{Declaration, List, Node, NodeText, Part, Parts, Plain};

// The counts of the nodes of a list.
fn of_list(arena: &Arena, list: List) -> Measure
    requires below { IsListBelow arena.now.held (size arena.now) list }
    ensures counts { Row result (spec.measure_each (trees_in arena.now.held (forest arena.now) list)) }
{
    let items = arena.items(list);
    let mut sum = nothing();
    let mut k = items.len();
    while k > 0 {
        k -= 1;
        sum = join(arena.measure(items[k]), sum);
    }
    sum
}

// The counts of no node, or of one, and of what stands after it.
#[inline(always)]
fn option_and(arena: &Arena, node: Option<u32>, after: Measure) -> Measure
    requires below { IsOptionBelow (size arena.now) node }
    ensures counts { (m : spec.Measure) → Row after m → Row result
        (spec.join (spec.measure_each (option_at (forest arena.now) node)) m) }
{
    match node {
        None => after,
        Some(i) => join(arena.measure(i), after),
    }
}

// The counts of a tree that is a part of a phrase.
#[inline(always)]
fn of_tree(arena: &Arena, manner: Manner, i: u32) -> Measure
    requires below { i < size arena.now }
    ensures counts { Row result (spec.part_measure manner (spec.measure (tree_at (forest arena.now) i))) }
{
    let measure = arena.measure(i);
    match manner {
        Manner::Folded => repeated(measure),
        _ => measure,
    }
}

// The counts of two rows, of which the second comes first if the flag says so.
#[inline(always)]
fn join_as(reversed: bool, a: Measure, b: Measure) -> Measure
    ensures counts { (m n : spec.Measure) → Row a m → Row b n → Row result (spec.join_as reversed m n) }
{
    if reversed { join(b, a) } else { join(a, b) }
}

// The counts of a part and of those after it.
#[inline(always)]
fn with_part(arena: &Arena, reversed: bool, part: Part, rest: Measure) -> Measure
    requires below { IsPartBelow arena.now.held (size arena.now) part }
    ensures counts { (m : spec.Measure) → Row rest m → Row result
        (part_and arena.now.held (forest arena.now) reversed part m) }
{
    match part {
        Part::Text(_, _) => rest,
        Part::Tree(manner, i) => join_as(reversed, of_tree(arena, manner, i), rest),
        Part::Trees(_, list) => join_as(reversed, of_list(arena, list), rest),
    }
}

// The counts of the parts of a phrase.
fn of_parts(arena: &Arena, reversed: bool, parts: Parts) -> Measure
    requires below { IsPartsBelow arena.now.held (size arena.now) parts }
    ensures counts { Row result (spec.measure_parts reversed (parts_in arena.now.held (forest arena.now) parts)) }
{
    let list = arena.parts_of(parts);
    let mut sum = nothing();
    let mut k = list.len();
    while k > 0 {
        k -= 1;
        sum = with_part(arena, reversed, list[k], sum);
    }
    sum
}

// The counts of what stands before the parts of a phrase, and of these.
#[inline(always)]
fn and_parts(arena: &Arena, before: Measure, parts: Parts) -> Measure
    requires below { IsPartsBelow arena.now.held (size arena.now) parts }
    ensures counts { (m : spec.Measure) → Row before m → Row result
        (spec.join m (spec.measure_parts false (parts_in arena.now.held (forest arena.now) parts))) }
{
    if parts.range.from == parts.range.to {
        return before;
    }
    join(before, of_parts(arena, false, parts))
}

/// Returns the number of bytes of a text.
#[inline(always)]
pub fn text_len(arena: &Arena, text: NodeText) -> usize
    requires within { IsText arena.now.held text }
    ensures value { result ≡ length (text_at arena.now.held text) }
    ensures small { result < 9223372036854775808 }
{
    match text {
        NodeText::Fixed(bytes) => bytes.len(),
        NodeText::Stored(range) => (range.to - range.from) as usize,
    }
}

// The counts of two nodes, one after the other. Each is within the limits, so that no sum of their works is above
// `MOST`.
#[tactic(auto, unfolding(crate::specs::Counts::Row, crate::specs::Counts::AreExact))]
#[inline(always)]
fn pair(arena: &Arena, i: u32, j: u32) -> Measure
    requires first { i < size arena.now }
    requires second { j < size arena.now }
    ensures counts { Row result (spec.join (spec.measure (tree_at (forest arena.now) i))
        (spec.measure (tree_at (forest arena.now) j))) }
{
    let a = arena.measure(i);
    let b = arena.measure(j);
    Measure {
        height: if a.height > b.height {
            a.height
        } else {
            b.height
        },
        elements: match a.elements {
            Some(n) => Some(n),
            None => b.elements,
        },
        each: a.each + b.each,
        packs: a.packs + b.packs,
        params: at_most(a.params as u64 + b.params as u64),
    }
}

/// Returns the counts of a name of so many bytes, or `None` if it isn't within the limits.
#[tactic(auto, unfolding(crate::specs::Counts::Row, crate::specs::Counts::AreExact, crate::specs::Counts::Tallied))]
#[inline(always)]
pub fn of_name(len: usize) -> Option<Measure>
    ensures counts { Tallied result (spec.around (1 + len) spec.nothing) }
    ensures small { IfSome result (λ _. len < 1048576) }
{
    if len >= MAX_WORK as usize {
        return None;
    }
    Some(Measure {
        height: 1,
        each: len as u32 + 1,
        ..nothing()
    })
}

// The counts of a text as a name in a scope, or `None` if it isn't within the limits.
#[tactic(auto, using(crate::proofs::InScope::in_scope), unfolding(crate::specs::Measure::measure))]
#[inline(always)]
fn in_scope(arena: &Arena, scope: u32, name: NodeText) -> Option<Measure>
    requires scope { scope < size arena.now }
    requires name { IsText arena.now.held name }
    ensures counts { Tallied result (spec.measure (scoped false (tree_at (forest arena.now) scope)
        (named (text_at arena.now.held name)))) }
{
    let len = text_len(arena, name);
    if len >= MAX_WORK as usize {
        return None;
    }
    around(1, with_name(arena.measure(scope), len))
}

// The counts of a scope, and of a name of so many bytes after it.
#[tactic(auto, unfolding(crate::specs::Counts::Row, crate::specs::Counts::AreExact))]
#[inline(always)]
fn with_name(scope: Measure, len: usize) -> Measure
    requires small { len < 1048576 }
    requires few { scope.each ≤ 1048576 }
    ensures counts { (m : spec.Measure) → Row scope m → AreExact m
        → Row result (spec.join m (spec.around (1 + len) spec.nothing)) }
{
    Measure {
        height: scope.height.max(1),
        each: scope.each + len as u32 + 1,
        ..scope
    }
}

// The counts of a node whose text has one side, or `None` if it isn't within the limits.
#[inline(always)]
fn of_plain(arena: &Arena, plain: Plain) -> Option<Measure>
    requires below { IsPlainBelow arena.now.held (size arena.now) plain }
    ensures counts { Tallied result (spec.measure (plain_tree arena.now.held (forest arena.now) plain)) }
{
    match plain {
        Plain::Name(text) => of_name(text_len(arena, text)),
        Plain::Leaf(_, a, b) => {
            let long = text_len(arena, a).max(text_len(arena, b));
            around(1 + long, nothing())
        }
        Plain::StdName(_, _) => around(1, nothing()),
        Plain::Phrase(phrase, parts) => around(
            phrase.own,
            of_parts(arena, phrase.is_reversed, parts),
        ),
        Plain::Scoped(_, scope, name) => around(1, pair(arena, scope, name)),
        Plain::ScopedName(scope, name) => in_scope(arena, scope, name),
        Plain::WithArgs(name, args) => with_list(arena, name, args),
        Plain::AbiTag(name, tag) => around(1 + text_len(arena, tag), arena.measure(name)),
        Plain::InModule(name, owner) => around(1, pair(arena, name, owner)),
        Plain::Data(name) => around(1, arena.measure(name)),
        Plain::ObjcProtocol(t, protocol) => around(1 + text_len(arena, protocol), arena.measure(t)),
        Plain::Several(items) => around(1, of_list(arena, items)),
        Plain::Expansion(t) => around(1, repeated(arena.measure(t))),
        Plain::Param(_, _) => param(),
    }
}

// The counts of the word `typename` as a name.
#[tactic(auto, unfolding(crate::specs::Counts::Row, crate::specs::Counts::AreExact))]
#[inline(always)]
fn typename() -> Measure
    ensures counts { Row result (spec.around 9 spec.nothing) }
{
    Measure {
        height: 1,
        each: 9,
        ..nothing()
    }
}

// The counts of `typename`, and of a name after it.
#[inline(always)]
fn after_typename(name: Measure) -> Measure
    ensures counts { (m : spec.Measure) → Row name m → Row result (spec.join (spec.around 9 spec.nothing) m) }
{
    join(typename(), name)
}

// The counts of a declaration, or `None` if it isn't within the limits.
#[inline(always)]
fn of_declaration(arena: &Arena, declaration: Declaration) -> Option<Measure>
    requires below { IsDeclarationBelow arena.now.held (size arena.now) declaration }
    ensures counts { Tallied result (spec.measure (declaration_tree arena.now.held (forest arena.now) declaration)) }
{
    match declaration {
        Declaration::Typename(name) => around(1, after_typename(arena.measure(name))),
        Declaration::TypeParam(constraint, name) => around(1, pair(arena, constraint, name)),
        Declaration::NonTypeParam(name, t) => around(1, pair(arena, name, t)),
        Declaration::TemplateParam(name, declarations, rest) => {
            let after = join(of_list(arena, declarations), of_parts(arena, false, rest));
            around(1, join(arena.measure(name), after))
        }
        Declaration::PackParam(d) => around(1, arena.measure(d)),
    }
}

/// Returns the counts of a node, whose children stand in the arena, or `None` if it isn't within the limits. The
/// frequent nodes are counted here, without a call.
#[inline(always)]
pub fn of_node(arena: &Arena, node: Node) -> Option<Measure>
    requires below { IsBelow arena.now.held (size arena.now) node }
    ensures counts { Tallied result (spec.measure (tree_of arena.now.held (forest arena.now) node)) }
{
    match node {
        Node::Plain(Plain::Name(text)) => of_name(text_len(arena, text)),
        Node::Plain(Plain::StdName(_, _)) => around(1, nothing()),
        Node::Plain(Plain::Scoped(_, scope, name)) => around(1, pair(arena, scope, name)),
        Node::Plain(Plain::ScopedName(scope, name)) => in_scope(arena, scope, name),
        Node::Plain(Plain::WithArgs(name, args)) => with_list(arena, name, args),
        Node::Plain(Plain::Param(_, _)) => param(),
        Node::Qualified(t, _) | Node::Pointer(t) | Node::Reference(t, _) => around(
            1,
            arena.measure(t),
        ),
        _ => of_any(arena, node),
    }
}

// The counts of a name with arguments, or `None` if it isn't within the limits.
#[inline(always)]
fn with_list(arena: &Arena, name: u32, args: List) -> Option<Measure>
    requires name { name < size arena.now }
    requires args { IsListBelow arena.now.held (size arena.now) args }
    ensures counts { Tallied result (spec.around 1 (spec.join (spec.measure (tree_at (forest arena.now) name))
        (spec.measure_each (trees_in arena.now.held (forest arena.now) args)))) }
{
    around(1, join(arena.measure(name), of_list(arena, args)))
}

// The counts of a node, or `None` if it isn't within the limits.
#[inline(always)]
fn of_any(arena: &Arena, node: Node) -> Option<Measure>
    requires below { IsBelow arena.now.held (size arena.now) node }
    ensures counts { Tallied result (spec.measure (tree_of arena.now.held (forest arena.now) node)) }
{
    match node {
        Node::Plain(plain) => of_plain(arena, plain),
        Node::Declaration(declaration) => of_declaration(arena, declaration),
        Node::Qualified(t, _) | Node::Pointer(t) | Node::Reference(t, _) => around(
            1,
            arena.measure(t),
        ),
        Node::MemberPointer(class, member) => around(1, pair(arena, member, class)),
        Node::Array(element, dimension) => around(
            1,
            join(arena.measure(element), of_parts(arena, false, dimension)),
        ),
        Node::Function(function) => {
            let params = of_list(arena, function.params);
            let after = and_parts(arena, params, function.exception);
            around(1, join(arena.measure(function.ret), after))
        }
        Node::Encoding(encoding) => {
            let params = of_list(arena, encoding.params);
            let after = and_parts(arena, params, encoding.clauses);
            let named = join(arena.measure(encoding.name), after);
            around(1, option_and(arena, encoding.ret, named))
        }
        Node::Pack(items) => pack_of(arena, items),
    }
}

// The counts of a pack, or `None` if it isn't within the limits.
#[inline(always)]
fn pack_of(arena: &Arena, items: List) -> Option<Measure>
    requires below { IsListBelow arena.now.held (size arena.now) items }
    ensures counts { Tallied result (spec.packed (spec.count (trees_in arena.now.held (forest arena.now) items))
        (spec.measure_each (trees_in arena.now.held (forest arena.now) items))) }
{
    packed(items.range.to - items.range.from, of_list(arena, items))
}
