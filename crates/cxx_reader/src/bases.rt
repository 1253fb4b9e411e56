//! What a name is asked for: the name of its constructors, and its arguments.
#![tactic(auto, unfolding(cxx_tree::specs::Stored::tree_of, cxx_tree::specs::Stored::plain_tree, cxx_tree::specs::Stored::declaration_tree, cxx_tree::specs::Stored::IsBelow, cxx_tree::specs::Stored::IsPlainBelow, cxx_grammar::specs::Bases::base_name, cxx_grammar::specs::Bases::args_of, cxx_grammar::specs::Bases::is_with_args, cxx_grammar::specs::Bases::is_param, cxx_grammar::specs::Bases::is_module, cxx_grammar::specs::Bases::is_param_class, cxx_grammar::specs::Bases::expand))]

ghost use Rattle.std.specs.Prelude.{◌≡◌, ℕ, ◌<◌, option_map, true, IfSome, MatchOption};
ghost use Rattle.cxx_tree.specs.Tree.{std_name};
ghost use Rattle.cxx_tree.specs.Stored.{forest, size, tree_at, trees_in, text_at, IsText, IsListBelow};
ghost use Rattle.cxx_grammar.specs.Bases as spec;

use cxx_tree::{Arena, Declaration, List, Node, NodeText, Plain, Role, Std};

// An abbreviation of std without `std::` and arguments.
fn std_base(std: Std, is_expanded: bool) -> &'static [u8]
    ensures value { result.now ≡ spec.std_base std is_expanded }
{
    match std {
        Std::Allocator => b"allocator",
        Std::BasicString => b"basic_string",
        Std::String => if is_expanded {
            b"basic_string"
        } else {
            b"string"
        },
        Std::Istream => if is_expanded {
            b"basic_istream"
        } else {
            b"istream"
        },
        Std::Ostream => if is_expanded {
            b"basic_ostream"
        } else {
            b"ostream"
        },
        Std::Iostream => if is_expanded {
            b"basic_iostream"
        } else {
            b"iostream"
        },
    }
}

/// Returns the text that the constructors of a class are named by.
pub fn base_name(arena: &Arena, i: u32) -> NodeText
    requires within { i < size arena.now }
    ensures value { text_at arena.now.held result ≡ spec.base_name (tree_at (forest arena.now) i) }
    ensures text { IsText arena.now.held result }
{
    match *arena.node(i) {
        Node::Plain(Plain::Name(text)) => text,
        Node::Plain(Plain::Leaf(_, text, _)) => text,
        Node::Plain(Plain::StdName(std, is_expanded)) => NodeText::Fixed(std_base(
            std,
            is_expanded,
        )),
        Node::Plain(Plain::AbiTag(name, _)) => base_name(arena, name),
        Node::Plain(Plain::InModule(name, _)) => base_name(arena, name),
        Node::Plain(Plain::WithArgs(name, _)) => base_name(arena, name),
        Node::Plain(Plain::Scoped(_, _, name)) => base_name(arena, name),
        Node::Plain(Plain::ScopedName(_, text)) => text,
        _ => NodeText::Fixed(b""),
    }
}

/// Returns the arguments that the template parameters of an encoding with this name refer to, if there are any.
pub fn args_of(arena: &Arena, i: u32) -> Option<List>
    requires within { i < size arena.now }
    ensures value { option_map (trees_in arena.now.held (forest arena.now)) result
        ≡ spec.args_of (tree_at (forest arena.now) i) }
    ensures below { IfSome result (IsListBelow arena.now.held (size arena.now)) }
{
    match *arena.node(i) {
        Node::Plain(Plain::WithArgs(_, args)) => Some(args),
        Node::Plain(Plain::Scoped(_, scope, name)) => match args_of(arena, name) {
            Some(args) => Some(args),
            None => args_of(arena, scope),
        },
        Node::Plain(Plain::ScopedName(scope, _)) => args_of(arena, scope),
        Node::Plain(Plain::AbiTag(name, _)) => args_of(arena, name),
        Node::Plain(Plain::InModule(name, _)) => args_of(arena, name),
        _ => None,
    }
}

/// Returns whether a node is a name with template arguments.
pub fn is_with_args(arena: &Arena, i: u32) -> bool
    requires within { i < size arena.now }
    ensures value { result ≡ spec.is_with_args (tree_at (forest arena.now) i) }
{
    match *arena.node(i) {
        Node::Plain(Plain::WithArgs(_, _)) => true,
        _ => false,
    }
}

/// Returns whether a node is the name of a module.
pub fn is_module(arena: &Arena, i: u32) -> bool
    requires within { i < size arena.now }
    ensures value { result ≡ spec.is_module (tree_at (forest arena.now) i) }
{
    match *arena.node(i) {
        Node::Plain(Plain::Phrase(attributes, _)) => is_module_role(attributes.role),
        _ => false,
    }
}

// Returns whether a phrase is the name of a module.
fn is_module_role(role: Role) -> bool
    ensures value { result ≡ spec.is_module_role role }
{
    match role {
        Role::Module => true,
        _ => false,
    }
}

// Returns whether a node is a template parameter.
fn is_param(arena: &Arena, i: u32) -> bool
    requires within { i < size arena.now }
    ensures value { result ≡ spec.is_param (tree_at (forest arena.now) i) }
{
    match *arena.node(i) {
        Node::Plain(Plain::Param(_, _)) => true,
        _ => false,
    }
}

/// Returns whether a node is a template parameter, with arguments or without.
pub fn is_param_class(arena: &Arena, i: u32) -> bool
    requires within { i < size arena.now }
    ensures value { result ≡ spec.is_param_class (tree_at (forest arena.now) i) }
{
    match *arena.node(i) {
        Node::Plain(Plain::Param(_, _)) => true,
        Node::Plain(Plain::WithArgs(name, _)) => is_param(arena, name),
        _ => false,
    }
}

/// Returns the abbreviation of std that a node is and that isn't written out, if it is one.
pub fn short_std(arena: &Arena, i: u32) -> Option<Std>
    requires within { i < size arena.now }
    ensures value { MatchOption result
        (spec.expand (tree_at (forest arena.now) i) ≡ tree_at (forest arena.now) i)
        (λ std. spec.expand (tree_at (forest arena.now) i) ≡ std_name std true) }
{
    match *arena.node(i) {
        Node::Plain(Plain::StdName(std, false)) => Some(std),
        _ => None,
    }
}

/// Returns the name that a declaration of a template parameter invents.
#[tactic(auto, unfolding(cxx_tree::specs::Stored::tree_of, cxx_tree::specs::Stored::plain_tree, cxx_tree::specs::Stored::declaration_tree, cxx_tree::specs::Stored::IsBelow, cxx_tree::specs::Stored::IsDeclarationBelow, cxx_grammar::specs::Bases::declared_name))]
pub fn declared_name(arena: &Arena, i: u32) -> u32
    requires within { i < size arena.now }
    ensures value { tree_at (forest arena.now) result ≡ spec.declared_name (tree_at (forest arena.now) i) }
    ensures node { result < size arena.now }
{
    match *arena.node(i) {
        Node::Declaration(Declaration::Typename(name)) => name,
        Node::Declaration(Declaration::TypeParam(_, name)) => name,
        Node::Declaration(Declaration::NonTypeParam(name, _)) => name,
        Node::Declaration(Declaration::TemplateParam(name, _, _)) => name,
        Node::Declaration(Declaration::PackParam(declaration)) => declared_name(arena, declaration),
        _ => i,
    }
}
