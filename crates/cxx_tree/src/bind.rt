//! Replaces template parameters when their binder is complete.
#![tactic(auto, using(crate::proofs::Replaced::binding), unfolding(crate::specs::Stored::tree_of, crate::specs::Stored::plain_tree, crate::specs::Stored::declaration_tree, crate::specs::Stored::IsBelow, crate::specs::Stored::IsPlainBelow, crate::specs::Stored::IsDeclarationBelow, crate::specs::Measure::measure, crate::specs::Bind::bind, crate::specs::Bind::as_pack))]

ghost use Rattle.std.specs.Prelude.{◌≡◌, ◌+◌, ◌-◌, ◌<◌, ◌≤◌, ◌&&◌, true, false, IfOk, IfSome, IsErrOf, MatchOption};
ghost use Rattle.cxx_tree.specs.Measure.{measure};
ghost use Rattle.cxx_tree.specs.Grows.{Grows, Makes};
ghost use Rattle.cxx_tree.specs.Bind as spec;
ghost use Rattle.cxx_tree.specs.Tree.{named, param, pack};
ghost use Rattle.cxx_tree.specs.Bind.{AreNamed, binding_at, bound_at, IsInner};
ghost use Rattle.cxx_tree.specs.declared.arena.Stop.TheVariants as Stop;
ghost use Rattle.cxx_tree.specs.declared.node.Node.TheVariants as Node;
ghost use Rattle.cxx_tree.specs.declared.node.Plain.TheVariants as Plain;
ghost use Rattle.cxx_tree.specs.Stored.{forest, size, tree_of, plain_tree, declaration_tree, tree_at, trees_in, IsListBelow, IsBelow, IsPlainBelow, IsDeclarationBelow};

use crate::arena::{Arena, Stop};
use crate::children::bind_node;
use crate::digits::push_number;
use crate::node::{List, Node, NodeText, Plain};
use std::alloc::{AllocError, Global};

/// What becomes of a template parameter that has no name.
#[derive(Clone, Copy, PartialEq)]
pub enum Others {
    /// It stays.
    Keep,
    /// From the binder's level on, it is a parameter of a lambda that has no declaration.
    Auto,
    /// It is printed as it is mangled.
    Written,
}

/// What becomes of template parameters.
#[derive(Clone, Copy)]
pub struct Binding {
    /// The binder's level.
    pub level: u64,
    /// Where the nodes begin, of those that are collected, that the parameters of that level become, from the first on.
    pub from: usize,
    /// What the other parameters become.
    pub others: Others,
}

// A parameter as it is mangled, without its last underscore.
fn written(alloc: Global, level: u64, index: u64) -> Result<Vec<u8>, AllocError>
    ensures value { IfOk result (λ v. v.items ≡ spec.written level index) }
{
    let mut bytes = Vec::new(alloc);
    bytes.extend_from_slice(b"T")?;
    if level > 0 {
        bytes.extend_from_slice(b"L")?;
        push_number(&mut bytes, (level - 1) as u128)?;
        bytes.extend_from_slice(b"_")?;
    }
    if index > 0 {
        push_number(&mut bytes, (index - 1) as u128)?;
    }
    Ok(bytes)
}

// Makes the name of a parameter as it is mangled.
fn written_node(arena: &mut Arena, alloc: Global, level: u64, index: u64) -> Result<u32, Stop>
    ensures makes { Makes result arena.old arena.new (named (spec.written level index)) }
    ensures few { size arena.new ≤ size arena.old + 1 }
{
    let bytes = written(alloc, level, index)?;
    let text = arena.text(&bytes)?;
    arena.push(Node::Plain(Plain::Name(text)))
}

// Makes a parameter of a lambda that has no declaration.
fn auto_node(arena: &mut Arena, alloc: Global, index: u64) -> Result<u32, Stop>
    ensures makes { Makes result arena.old arena.new (spec.auto_param index) }
    ensures few { size arena.new ≤ size arena.old + 1 }
{
    let mut bytes = Vec::new(alloc);
    bytes.extend_from_slice(b"auto:")?;
    push_number(&mut bytes, index as u128 + 1)?;
    let text = arena.text(&bytes)?;
    arena.push(Node::Plain(Plain::Leaf(false, NodeText::Fixed(b"auto"), text)))
}

// Makes what becomes of the template parameter that is node `i`, if it has no name.
fn without_name(
    arena: &mut Arena,
    alloc: Global,
    binding: &Binding,
    i: u32,
    level: u64,
    index: u64,
) -> Result<u32, Stop>
    requires within { i < size arena.old }
    requires param { tree_at (forest arena.old) i ≡ param level index }
    ensures makes { Makes result arena.old arena.new (spec.other binding.now.others binding.now.level level index) }
    ensures few { size arena.new ≤ size arena.old + 1 }
{
    match binding.others {
        Others::Keep => Ok(i),
        Others::Auto => {
            if level < binding.level {
                return Ok(i);
            }
            auto_node(arena, alloc, index)
        }
        Others::Written => written_node(arena, alloc, level, index),
    }
}

// The items of a list. Returns nothing for another node.
fn items_of(arena: &Arena, i: u32) -> Option<List>
    requires within { i < size arena.now }
    ensures items { MatchOption result (spec.as_pack (tree_at (forest arena.now) i) ≡ tree_at (forest arena.now) i)
        (λ l. spec.as_pack (tree_at (forest arena.now) i) ≡ pack (trees_in arena.now.held (forest arena.now) l)) }
    ensures below { IfSome result (λ l. IsListBelow arena.now.held (size arena.now) l) }
    ensures fits { (measure (tree_at (forest arena.now) i)).fits ≡ true }
{
    match *arena.node(i) {
        Node::Plain(Plain::Several(items)) => Some(items),
        _ => None,
    }
}

// Makes what a template parameter stands for: of a list of arguments, a pack.
fn as_pack(arena: &mut Arena, i: u32) -> Result<u32, Stop>
    requires within { i < size arena.old }
    ensures makes { Makes result arena.old arena.new (spec.as_pack (tree_at (forest arena.old) i)) }
    ensures few { size arena.new ≤ size arena.old + 1 }
{
    match items_of(arena, i) {
        Some(items) => arena.push(Node::Pack(items)),
        None => Ok(i),
    }
}

// Makes what becomes of the template parameter that is node `i`.
fn replaced(
    arena: &mut Arena,
    alloc: Global,
    binding: &Binding,
    i: u32,
    level: u64,
    index: u64,
) -> Result<u32, Stop>
    requires within { i < size arena.old }
    requires named { AreNamed arena.old binding.now }
    requires param { tree_at (forest arena.old) i ≡ param level index }
    ensures makes { Makes result arena.old arena.new (spec.bound (binding_at arena.old binding.now) level index) }
    ensures few { size arena.new ≤ size arena.old + 1 }
{
    let names = arena.pending(binding.from);
    if level == binding.level && index < names.len() as u64 {
        let name = names[index as usize];
        return as_pack(arena, name);
    }
    without_name(arena, alloc, binding, i, level, index)
}

// The level and the index of a template parameter. Returns nothing for another node.
fn param_of(node: Node) -> Option<(u64, u64)>
    ensures value { MatchOption result (IsInner node) (λ p. node ≡ Node.Plain (Plain.Param p.0 p.1)) }
{
    match node {
        Node::Plain(Plain::Param(level, index)) => Some((level, index)),
        _ => None,
    }
}

/// Makes the tree of a node with its template parameters replaced. A node without any stays.
#[cycle(binding)]
pub fn bind(arena: &mut Arena, alloc: Global, binding: &Binding, i: u32) -> Result<u32, Stop>
    requires within { i < size arena.old }
    requires named { AreNamed arena.old binding.now }
    ensures makes { Makes result arena.old arena.new (bound_at arena.old binding.now i) }
    ensures few { size arena.new ≤ size arena.old + (measure (tree_at (forest arena.old) i)).params }
    ensures grows { Grows arena.old arena.new }
    ensures below { IfOk result (λ t. t < size arena.new) }
    ensures bound { IfOk result (λ t. tree_at (forest arena.new) t ≡ bound_at arena.old binding.now i) }
    ensures limit { IsErrOf result Stop.Unreadable → (measure (bound_at arena.old binding.now i)).fits ≡ false }
{
    if arena.measure(i).params == 0 {
        return Ok(i);
    }
    let node = *arena.node(i);
    match param_of(node) {
        Some((level, index)) => replaced(arena, alloc, binding, i, level, index),
        None => {
            let node = tri!(bind_node(arena, alloc, binding, i, node));
            arena.push(node)
        }
    }
}
