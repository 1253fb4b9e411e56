//! Replaces the template parameters in the children of a node.
#![tactic(auto, using(crate::proofs::Replaced::binding), unfolding(crate::specs::Stored::tree_of, crate::specs::Stored::plain_tree, crate::specs::Stored::declaration_tree, crate::specs::Stored::IsBelow, crate::specs::Stored::IsPlainBelow, crate::specs::Stored::IsDeclarationBelow, crate::specs::Measure::measure, crate::specs::Bind::bind))]

ghost use Rattle.std.specs.Prelude.{◌≡◌, ◌+◌, ◌-◌, ◌<◌, ◌≤◌, ◌&&◌, false, IfOk, IsErrOf, Bool};
ghost use Rattle.cxx_tree.specs.Measure.{measure, measure_each, measure_parts};
ghost use Rattle.cxx_tree.specs.Grows.{Grows};
ghost use Rattle.cxx_tree.specs.Bind as spec;
ghost use Rattle.cxx_tree.specs.Tree.{named};
ghost use Rattle.cxx_tree.specs.Bind.{AreNamed, binding_at, bound_at, bound_list, bound_parts, bound_option, part_at, plain_at, declaration_at, node_at, IsInner, IsInnerPlain};
ghost use Rattle.cxx_tree.specs.declared.arena.Stop.TheVariants as Stop;
ghost use Rattle.cxx_tree.specs.declared.node.Node.TheVariants as Node;
ghost use Rattle.cxx_tree.specs.Stored.{forest, size, tree_of, plain_tree, declaration_tree, tree_at, option_at, trees_in, parts_in, IsBelow, IsPlainBelow, IsDeclarationBelow, IsListBelow, IsPartsBelow, IsPartBelow, IsOptionBelow};

use crate::arena::{Arena, Stop};
use crate::bind::{Binding, bind};
use crate::node::{Declaration, Encoding, Function, List, Node, Part, Parts, Plain};
use std::alloc::Global;

// The children of a node, bound: two.
#[cycle(binding)]
fn bind_pair(
    arena: &mut Arena,
    alloc: Global,
    binding: &Binding,
    i: u32,
    a: u32,
    b: u32,
) -> Result<(u32, u32), Stop>
    requires within { i ≤ size arena.old }
    requires named { AreNamed arena.old binding.now }
    requires below { (a < i) × (b < i) }
    ensures grows { Grows arena.old arena.new }
    ensures few { size arena.new ≤ size arena.old + ((measure (tree_at (forest arena.old) a)).params
        + (measure (tree_at (forest arena.old) b)).params) }
    ensures below { IfOk result (λ r. (r.0 < size arena.new) × (r.1 < size arena.new)) }
    ensures bound { IfOk result (λ r. (tree_at (forest arena.new) r.0 ≡ bound_at arena.old binding.now a)
        × (tree_at (forest arena.new) r.1 ≡ bound_at arena.old binding.now b)) }
    ensures limit { IsErrOf result Stop.Unreadable →
        (measure (bound_at arena.old binding.now a)).fits && (measure (bound_at arena.old binding.now b)).fits ≡ false }
{
    let first = tri!(bind(arena, alloc, binding, a));
    let second = tri!(bind(arena, alloc, binding, b));
    Ok((first, second))
}

// The nodes of a list, bound.
#[cycle(binding)]
fn bind_list(
    arena: &mut Arena,
    alloc: Global,
    binding: &Binding,
    i: u32,
    list: List,
) -> Result<List, Stop>
    requires within { i ≤ size arena.old }
    requires named { AreNamed arena.old binding.now }
    requires below { IsListBelow arena.old.held i list }
    ensures grows { Grows arena.old arena.new }
    ensures few { size arena.new
        ≤ size arena.old + (measure_each (trees_in arena.old.held (forest arena.old) list)).params }
    ensures below { IfOk result (IsListBelow arena.new.held (size arena.new)) }
    ensures bound { IfOk result (λ l.
        trees_in arena.new.held (forest arena.new) l ≡ bound_list arena.old binding.now list) }
    ensures limit { IsErrOf result Stop.Unreadable →
        (measure_each (bound_list arena.old binding.now list)).fits ≡ false }
{
    let old = Vec::from_slice(alloc, arena.items(list))?;
    let mut items = Vec::new(alloc);
    for t in &old {
        let item = tri!(bind(arena, alloc, binding, *t));
        match items.push(item) {
            Ok(()) => {}
            Err(_) => return Err(Stop::Memory),
        }
    }
    Ok(arena.list(&items)?)
}

// A part of a phrase, bound.
#[cycle(binding)]
fn bind_part(
    arena: &mut Arena,
    alloc: Global,
    binding: &Binding,
    i: u32,
    part: Part,
) -> Result<Part, Stop>
    requires within { i ≤ size arena.old }
    requires named { AreNamed arena.old binding.now }
    requires below { IsPartBelow arena.old.held i part }
    ensures grows { Grows arena.old arena.new }
    ensures few { (reversed : Bool) →
        size arena.new ≤ size arena.old + (measure_parts reversed (part_at arena.old part)).params }
    ensures below { IfOk result (IsPartBelow arena.new.held (size arena.new)) }
    ensures bound { IfOk result (λ p.
        part_at arena.new p ≡ spec.bind_parts (binding_at arena.old binding.now) (part_at arena.old part)) }
    ensures limit { IsErrOf result Stop.Unreadable → (reversed : Bool) → (measure_parts reversed
        (spec.bind_parts (binding_at arena.old binding.now) (part_at arena.old part))).fits ≡ false }
{
    match part {
        Part::Text(a, b) => Ok(Part::Text(a, b)),
        Part::Tree(manner, t) => {
            let t = tri!(bind(arena, alloc, binding, t));
            Ok(Part::Tree(manner, t))
        }
        Part::Trees(listing, list) => {
            let list = tri!(bind_list(arena, alloc, binding, i, list));
            Ok(Part::Trees(listing, list))
        }
    }
}

// The parts of a phrase, bound.
#[cycle(binding)]
fn bind_parts(
    arena: &mut Arena,
    alloc: Global,
    binding: &Binding,
    i: u32,
    parts: Parts,
) -> Result<Parts, Stop>
    requires within { i ≤ size arena.old }
    requires named { AreNamed arena.old binding.now }
    requires below { IsPartsBelow arena.old.held i parts }
    ensures grows { Grows arena.old arena.new }
    ensures few { (reversed : Bool) → size arena.new
        ≤ size arena.old + (measure_parts reversed (parts_in arena.old.held (forest arena.old) parts)).params }
    ensures below { IfOk result (IsPartsBelow arena.new.held (size arena.new)) }
    ensures bound { IfOk result (λ ps.
        parts_in arena.new.held (forest arena.new) ps ≡ bound_parts arena.old binding.now parts) }
    ensures limit { IsErrOf result Stop.Unreadable → (reversed : Bool) →
        (measure_parts reversed (bound_parts arena.old binding.now parts)).fits ≡ false }
{
    let old = Vec::from_slice(alloc, arena.parts_of(parts))?;
    let mut items = Vec::new(alloc);
    for part in &old {
        let item = tri!(bind_part(arena, alloc, binding, i, *part));
        match items.push(item) {
            Ok(()) => {}
            Err(_) => return Err(Stop::Memory),
        }
    }
    Ok(arena.make_parts(&items)?)
}

// A node and the nodes of a list, bound.
#[cycle(binding)]
fn bind_with_list(
    arena: &mut Arena,
    alloc: Global,
    binding: &Binding,
    i: u32,
    a: u32,
    list: List,
) -> Result<(u32, List), Stop>
    requires within { i ≤ size arena.old }
    requires named { AreNamed arena.old binding.now }
    requires below { (a < i) × IsListBelow arena.old.held i list }
    ensures grows { Grows arena.old arena.new }
    ensures few { size arena.new ≤ size arena.old + ((measure (tree_at (forest arena.old) a)).params
        + (measure_each (trees_in arena.old.held (forest arena.old) list)).params) }
    ensures below { IfOk result (λ r. (r.0 < size arena.new) × IsListBelow arena.new.held (size arena.new) r.1) }
    ensures bound { IfOk result (λ r. (tree_at (forest arena.new) r.0 ≡ bound_at arena.old binding.now a)
        × (trees_in arena.new.held (forest arena.new) r.1 ≡ bound_list arena.old binding.now list)) }
    ensures limit { IsErrOf result Stop.Unreadable →
        (measure (bound_at arena.old binding.now a)).fits
        && (measure_each (bound_list arena.old binding.now list)).fits ≡ false }
{
    let first = tri!(bind(arena, alloc, binding, a));
    let second = tri!(bind_list(arena, alloc, binding, i, list));
    Ok((first, second))
}

// A node and parts, bound.
#[cycle(binding)]
fn bind_with_parts(
    arena: &mut Arena,
    alloc: Global,
    binding: &Binding,
    i: u32,
    a: u32,
    parts: Parts,
) -> Result<(u32, Parts), Stop>
    requires within { i ≤ size arena.old }
    requires named { AreNamed arena.old binding.now }
    requires below { (a < i) × IsPartsBelow arena.old.held i parts }
    ensures grows { Grows arena.old arena.new }
    ensures few { size arena.new ≤ size arena.old + ((measure (tree_at (forest arena.old) a)).params
        + (measure_parts false (parts_in arena.old.held (forest arena.old) parts)).params) }
    ensures below { IfOk result (λ r. (r.0 < size arena.new) × IsPartsBelow arena.new.held (size arena.new) r.1) }
    ensures bound { IfOk result (λ r. (tree_at (forest arena.new) r.0 ≡ bound_at arena.old binding.now a)
        × (parts_in arena.new.held (forest arena.new) r.1 ≡ bound_parts arena.old binding.now parts)) }
    ensures limit { IsErrOf result Stop.Unreadable →
        (measure (bound_at arena.old binding.now a)).fits
        && (measure_parts false (bound_parts arena.old binding.now parts)).fits ≡ false }
{
    let first = tri!(bind(arena, alloc, binding, a));
    let second = tri!(bind_parts(arena, alloc, binding, i, parts));
    Ok((first, second))
}

// A node, the nodes of a list, and parts, bound.
#[cycle(binding)]
fn bind_three(
    arena: &mut Arena,
    alloc: Global,
    binding: &Binding,
    i: u32,
    a: u32,
    list: List,
    parts: Parts,
) -> Result<(u32, List, Parts), Stop>
    requires within { i ≤ size arena.old }
    requires named { AreNamed arena.old binding.now }
    requires below { (a < i) × IsListBelow arena.old.held i list × IsPartsBelow arena.old.held i parts }
    ensures grows { Grows arena.old arena.new }
    ensures few { size arena.new ≤ size arena.old + ((measure (tree_at (forest arena.old) a)).params
        + ((measure_each (trees_in arena.old.held (forest arena.old) list)).params
        + (measure_parts false (parts_in arena.old.held (forest arena.old) parts)).params)) }
    ensures below { IfOk result (λ r. (r.0 < size arena.new) × IsListBelow arena.new.held (size arena.new) r.1
        × IsPartsBelow arena.new.held (size arena.new) r.2) }
    ensures bound { IfOk result (λ r. (tree_at (forest arena.new) r.0 ≡ bound_at arena.old binding.now a)
        × (trees_in arena.new.held (forest arena.new) r.1 ≡ bound_list arena.old binding.now list)
        × (parts_in arena.new.held (forest arena.new) r.2 ≡ bound_parts arena.old binding.now parts)) }
    ensures limit { IsErrOf result Stop.Unreadable →
        (measure (bound_at arena.old binding.now a)).fits
        && ((measure_each (bound_list arena.old binding.now list)).fits
        && (measure_parts false (bound_parts arena.old binding.now parts)).fits) ≡ false }
{
    let (first, second) = tri!(bind_with_list(arena, alloc, binding, i, a, list));
    let third = tri!(bind_parts(arena, alloc, binding, i, parts));
    Ok((first, second, third))
}

// No node, or one, bound.
#[cycle(binding)]
fn bind_option(
    arena: &mut Arena,
    alloc: Global,
    binding: &Binding,
    i: u32,
    node: Option<u32>,
) -> Result<Option<u32>, Stop>
    requires within { i ≤ size arena.old }
    requires named { AreNamed arena.old binding.now }
    requires below { IsOptionBelow i node }
    ensures grows { Grows arena.old arena.new }
    ensures few { size arena.new
        ≤ size arena.old + (measure_each (option_at (forest arena.old) node)).params }
    ensures below { IfOk result (IsOptionBelow (size arena.new)) }
    ensures bound { IfOk result (λ o. option_at (forest arena.new) o ≡ bound_option arena.old binding.now node) }
    ensures limit { IsErrOf result Stop.Unreadable →
        (measure_each (bound_option arena.old binding.now node)).fits ≡ false }
{
    match node {
        None => Ok(None),
        Some(t) => {
            let t = tri!(bind(arena, alloc, binding, t));
            Ok(Some(t))
        }
    }
}

// No node or one, a node, the nodes of a list, and parts, bound.
#[cycle(binding)]
fn bind_four(
    arena: &mut Arena,
    alloc: Global,
    binding: &Binding,
    i: u32,
    node: Option<u32>,
    a: u32,
    list: List,
    parts: Parts,
) -> Result<(Option<u32>, u32, List, Parts), Stop>
    requires within { i ≤ size arena.old }
    requires named { AreNamed arena.old binding.now }
    requires below { IsOptionBelow i node × (a < i) × IsListBelow arena.old.held i list
        × IsPartsBelow arena.old.held i parts }
    ensures grows { Grows arena.old arena.new }
    ensures few { size arena.new ≤ size arena.old + ((measure_each (option_at (forest arena.old) node)).params
        + ((measure (tree_at (forest arena.old) a)).params
        + ((measure_each (trees_in arena.old.held (forest arena.old) list)).params
        + (measure_parts false (parts_in arena.old.held (forest arena.old) parts)).params))) }
    ensures below { IfOk result (λ r. IsOptionBelow (size arena.new) r.0 × (r.1 < size arena.new)
        × IsListBelow arena.new.held (size arena.new) r.2 × IsPartsBelow arena.new.held (size arena.new) r.3) }
    ensures bound { IfOk result (λ r. (option_at (forest arena.new) r.0 ≡ bound_option arena.old binding.now node)
        × (tree_at (forest arena.new) r.1 ≡ bound_at arena.old binding.now a)
        × (trees_in arena.new.held (forest arena.new) r.2 ≡ bound_list arena.old binding.now list)
        × (parts_in arena.new.held (forest arena.new) r.3 ≡ bound_parts arena.old binding.now parts)) }
    ensures limit { IsErrOf result Stop.Unreadable →
        (measure_each (bound_option arena.old binding.now node)).fits
        && ((measure (bound_at arena.old binding.now a)).fits
        && ((measure_each (bound_list arena.old binding.now list)).fits
        && (measure_parts false (bound_parts arena.old binding.now parts)).fits)) ≡ false }
{
    let first = tri!(bind_option(arena, alloc, binding, i, node));
    let (second, third, fourth) = tri!(bind_three(arena, alloc, binding, i, a, list, parts));
    Ok((first, second, third, fourth))
}

// A node whose text has one side, with its children bound.
#[cycle(binding)]
fn bind_plain(
    arena: &mut Arena,
    alloc: Global,
    binding: &Binding,
    i: u32,
    plain: Plain,
) -> Result<Plain, Stop>
    requires within { i ≤ size arena.old }
    requires named { AreNamed arena.old binding.now }
    requires below { IsPlainBelow arena.old.held i plain }
    requires inner { IsInnerPlain plain }
    ensures grows { Grows arena.old arena.new }
    ensures few { size arena.new ≤ size arena.old + ((measure (plain_at arena.old plain)).params - 1) }
    ensures below { IfOk result (IsPlainBelow arena.new.held (size arena.new)) }
    ensures bound { IfOk result (λ n.
        plain_at arena.new n ≡ spec.bind (binding_at arena.old binding.now) (plain_at arena.old plain)) }
    ensures limit { IsErrOf result Stop.Unreadable →
        (measure (spec.bind (binding_at arena.old binding.now) (plain_at arena.old plain))).fits ≡ false }
{
    match plain {
        Plain::Name(_) | Plain::Leaf(_, _, _) | Plain::StdName(_, _) | Plain::Param(_, _) => Ok(
            plain,
        ),
        Plain::Phrase(attributes, parts) => {
            let parts = tri!(bind_parts(arena, alloc, binding, i, parts));
            Ok(Plain::Phrase(attributes, parts))
        }
        Plain::Scoped(friend, scope, name) => {
            let (scope, name) = tri!(bind_pair(arena, alloc, binding, i, scope, name));
            Ok(Plain::Scoped(friend, scope, name))
        }
        Plain::ScopedName(scope, text) => {
            let scope = tri!(bind(arena, alloc, binding, scope));
            Ok(Plain::ScopedName(scope, text))
        }
        Plain::WithArgs(name, args) => {
            let (name, args) = tri!(bind_with_list(arena, alloc, binding, i, name, args));
            Ok(Plain::WithArgs(name, args))
        }
        Plain::AbiTag(name, tag) => {
            let name = tri!(bind(arena, alloc, binding, name));
            Ok(Plain::AbiTag(name, tag))
        }
        Plain::InModule(name, owner) => {
            let (name, owner) = tri!(bind_pair(arena, alloc, binding, i, name, owner));
            Ok(Plain::InModule(name, owner))
        }
        Plain::Data(name) => {
            let name = tri!(bind(arena, alloc, binding, name));
            Ok(Plain::Data(name))
        }
        Plain::ObjcProtocol(t, protocol) => {
            let t = tri!(bind(arena, alloc, binding, t));
            Ok(Plain::ObjcProtocol(t, protocol))
        }
        Plain::Several(items) => {
            let items = tri!(bind_list(arena, alloc, binding, i, items));
            Ok(Plain::Several(items))
        }
        Plain::Expansion(t) => {
            let t = tri!(bind(arena, alloc, binding, t));
            Ok(Plain::Expansion(t))
        }
    }
}

// A declaration, with its children bound.
#[cycle(binding)]
fn bind_declaration(
    arena: &mut Arena,
    alloc: Global,
    binding: &Binding,
    i: u32,
    declaration: Declaration,
) -> Result<Declaration, Stop>
    requires within { i ≤ size arena.old }
    requires named { AreNamed arena.old binding.now }
    requires below { IsDeclarationBelow arena.old.held i declaration }
    ensures grows { Grows arena.old arena.new }
    ensures few { size arena.new ≤ size arena.old + ((measure (declaration_at arena.old declaration)).params - 1) }
    ensures below { IfOk result (IsDeclarationBelow arena.new.held (size arena.new)) }
    ensures bound { IfOk result (λ n.
        declaration_at arena.new n
        ≡ spec.bind (binding_at arena.old binding.now) (declaration_at arena.old declaration)) }
    ensures limit { IsErrOf result Stop.Unreadable →
        (measure (spec.bind (binding_at arena.old binding.now) (declaration_at arena.old declaration))).fits ≡ false }
{
    match declaration {
        Declaration::Typename(name) => {
            let name = tri!(bind(arena, alloc, binding, name));
            Ok(Declaration::Typename(name))
        }
        Declaration::TypeParam(constraint, name) => {
            let (constraint, name) = tri!(bind_pair(arena, alloc, binding, i, constraint, name));
            Ok(Declaration::TypeParam(constraint, name))
        }
        Declaration::NonTypeParam(name, t) => {
            let (name, t) = tri!(bind_pair(arena, alloc, binding, i, name, t));
            Ok(Declaration::NonTypeParam(name, t))
        }
        Declaration::TemplateParam(name, declarations, rest) => {
            let (name, declarations, rest) = tri!(bind_three(
                arena,
                alloc,
                binding,
                i,
                name,
                declarations,
                rest
            ));
            Ok(Declaration::TemplateParam(name, declarations, rest))
        }
        Declaration::PackParam(d) => {
            let d = tri!(bind(arena, alloc, binding, d));
            Ok(Declaration::PackParam(d))
        }
    }
}

// The type of a function, with its children bound.
#[cycle(binding)]
fn bind_function(
    arena: &mut Arena,
    alloc: Global,
    binding: &Binding,
    i: u32,
    function: Function,
) -> Result<Function, Stop>
    requires within { i ≤ size arena.old }
    requires named { AreNamed arena.old binding.now }
    requires below { IsBelow arena.old.held i (Node.Function function) }
    ensures grows { Grows arena.old arena.new }
    ensures few { size arena.new
        ≤ size arena.old + ((measure (node_at arena.old (Node.Function function))).params - 1) }
    ensures below { IfOk result (λ n. IsBelow arena.new.held (size arena.new) (Node.Function n)) }
    ensures bound { IfOk result (λ n. node_at arena.new (Node.Function n)
        ≡ spec.bind (binding_at arena.old binding.now) (node_at arena.old (Node.Function function))) }
    ensures limit { IsErrOf result Stop.Unreadable →
        (measure (spec.bind (binding_at arena.old binding.now)
        (node_at arena.old (Node.Function function)))).fits ≡ false }
{
    let (ret, params, exception) = tri!(bind_three(
        arena,
        alloc,
        binding,
        i,
        function.ret,
        function.params,
        function.exception
    ));
    Ok(Function {
        ret,
        params,
        cv: function.cv,
        ref_qual: function.ref_qual,
        exception,
    })
}

// A function with its name, with its children bound.
#[cycle(binding)]
fn bind_encoding(
    arena: &mut Arena,
    alloc: Global,
    binding: &Binding,
    i: u32,
    encoding: Encoding,
) -> Result<Encoding, Stop>
    requires within { i ≤ size arena.old }
    requires named { AreNamed arena.old binding.now }
    requires below { IsBelow arena.old.held i (Node.Encoding encoding) }
    ensures grows { Grows arena.old arena.new }
    ensures few { size arena.new
        ≤ size arena.old + ((measure (node_at arena.old (Node.Encoding encoding))).params - 1) }
    ensures below { IfOk result (λ n. IsBelow arena.new.held (size arena.new) (Node.Encoding n)) }
    ensures bound { IfOk result (λ n. node_at arena.new (Node.Encoding n)
        ≡ spec.bind (binding_at arena.old binding.now) (node_at arena.old (Node.Encoding encoding))) }
    ensures limit { IsErrOf result Stop.Unreadable →
        (measure (spec.bind (binding_at arena.old binding.now)
        (node_at arena.old (Node.Encoding encoding)))).fits ≡ false }
{
    let (ret, name, params, rest) = tri!(bind_four(
        arena,
        alloc,
        binding,
        i,
        encoding.ret,
        encoding.name,
        encoding.params,
        encoding.clauses
    ));
    Ok(Encoding {
        ret,
        name,
        params,
        cv: encoding.cv,
        ref_qual: encoding.ref_qual,
        clauses: rest,
    })
}

// A node that isn't a template parameter, with its children bound.
#[cycle(binding)]
pub fn bind_node(
    arena: &mut Arena,
    alloc: Global,
    binding: &Binding,
    i: u32,
    node: Node,
) -> Result<Node, Stop>
    requires within { i ≤ size arena.old }
    requires named { AreNamed arena.old binding.now }
    requires below { IsBelow arena.old.held i node }
    requires inner { IsInner node }
    ensures grows { Grows arena.old arena.new }
    ensures few { size arena.new ≤ size arena.old + ((measure (node_at arena.old node)).params - 1) }
    ensures below { IfOk result (IsBelow arena.new.held (size arena.new)) }
    ensures bound { IfOk result (λ n.
        node_at arena.new n ≡ spec.bind (binding_at arena.old binding.now) (node_at arena.old node)) }
    ensures limit { IsErrOf result Stop.Unreadable →
        (measure (spec.bind (binding_at arena.old binding.now) (node_at arena.old node))).fits ≡ false }
{
    match node {
        Node::Plain(plain) => {
            let plain = tri!(bind_plain(arena, alloc, binding, i, plain));
            Ok(Node::Plain(plain))
        }
        Node::Declaration(declaration) => {
            let declaration = tri!(bind_declaration(arena, alloc, binding, i, declaration));
            Ok(Node::Declaration(declaration))
        }
        Node::Qualified(t, cv) => {
            let t = tri!(bind(arena, alloc, binding, t));
            Ok(Node::Qualified(t, cv))
        }
        Node::Pointer(t) => {
            let t = tri!(bind(arena, alloc, binding, t));
            Ok(Node::Pointer(t))
        }
        Node::Reference(t, lvalue) => {
            let t = tri!(bind(arena, alloc, binding, t));
            Ok(Node::Reference(t, lvalue))
        }
        Node::MemberPointer(class, member) => {
            let (member, class) = tri!(bind_pair(arena, alloc, binding, i, member, class));
            Ok(Node::MemberPointer(class, member))
        }
        Node::Array(element, dimension) => {
            let (element, dimension) = tri!(bind_with_parts(
                arena, alloc, binding, i, element, dimension
            ));
            Ok(Node::Array(element, dimension))
        }
        Node::Function(function) => {
            let function = tri!(bind_function(arena, alloc, binding, i, function));
            Ok(Node::Function(function))
        }
        Node::Encoding(encoding) => {
            let encoding = tri!(bind_encoding(arena, alloc, binding, i, encoding));
            Ok(Node::Encoding(encoding))
        }
        Node::Pack(items) => {
            let items = tri!(bind_list(arena, alloc, binding, i, items));
            Ok(Node::Pack(items))
        }
    }
}
