//! What a symbol stands for. The parts of a symbol of a function or of data: the base of its name, the scopes around
//! it, the parameters and the return type. Any other symbol has none, and then nothing is appended.
#![tactic(auto, using(crate::proofs::Appended::prints), unfolding(cxx_tree::specs::Stored::tree_of, cxx_tree::specs::Stored::plain_tree, cxx_tree::specs::Stored::declaration_tree, cxx_tree::specs::Stored::IsBelow, cxx_tree::specs::Stored::IsPlainBelow, crate::specs::Parts::kind_of, crate::specs::Parts::has_qualifiers, crate::specs::Parts::is_some_cv, crate::specs::Parts::is_some_ref, crate::specs::Parts::named_of, crate::specs::Parts::split, crate::specs::Parts::colons, crate::specs::Parts::joined, crate::specs::Print::print, crate::specs::Parts::return_type_text, crate::specs::Parts::parameters_text, cxx_tree::specs::Measure::measure))]

ghost use Rattle.std.specs.Prelude.{◌≡◌, ◌<◌, ◌++◌, Some, None, MatchOption, IfSome};
ghost use Rattle.cxx_tree.specs.Stored.{forest, size, tree_at};
ghost use Rattle.cxx_printer.specs.Prints.{Prints};
ghost use Rattle.cxx_printer.specs.Words.{top};
ghost use Rattle.cxx_printer.specs.Print.{whole, scope_text};
ghost use Rattle.cxx_printer.specs.Print as printing;
ghost use Rattle.cxx_printer.specs.Parts as spec;

use crate::env::{Env, Style};
use crate::print::{print, print_parens, print_scope};
use crate::shapes::node_at;
use crate::writing::{write, write_text};
use cxx_tree::{Arena, Cv, Node, Plain, RefQual};
use growing_text::Text;
use std::alloc::AllocError;

/// What a symbol stands for.
#[derive(Clone, Copy, PartialEq)]
pub enum Kind {
    /// A function.
    Function,
    /// Data, or what else is a name alone.
    Data,
    /// What has a special name, such as a table, a thunk or a guard variable.
    Special,
}

/// Returns what a tree stands for.
pub fn kind_of(arena: &Arena, i: u32) -> Kind
    requires within { i < size arena.now }
    ensures value { result ≡ spec.kind_of (tree_at (forest arena.now) i) }
{
    match *node_at(arena, i) {
        Node::Encoding(_) => Kind::Function,
        Node::Plain(Plain::Data(_)) => Kind::Data,
        _ => Kind::Special,
    }
}

/// Returns whether a tree is that of a function with qualifiers.
pub fn has_qualifiers(arena: &Arena, i: u32) -> bool
    requires within { i < size arena.now }
    ensures value { result ≡ spec.has_qualifiers (tree_at (forest arena.now) i) }
{
    match *node_at(arena, i) {
        Node::Encoding(ref encoding) => is_some_cv(encoding.cv) || is_some_ref(encoding.ref_qual),
        _ => false,
    }
}

fn is_some_cv(cv: Cv) -> bool
    ensures value { result ≡ spec.is_some_cv cv }
{
    cv.is_const || cv.is_volatile || cv.is_restrict
}

fn is_some_ref(ref_qual: RefQual) -> bool
    ensures value { result ≡ spec.is_some_ref ref_qual }
{
    match ref_qual {
        RefQual::None => false,
        RefQual::Lvalue | RefQual::Rvalue => true,
    }
}

/// Appends the base of the name of a function or of data: what is left without scopes, arguments, ABI tags and module.
/// Of another tree it appends nothing.
pub fn print_base_name(
    arena: &Arena,
    i: u32,
    style: Style,
    out: &mut Text,
) -> Result<(), AllocError>
    requires within { i < size arena.now }
    ensures prints { Prints result out.old out.new (spec.base_name_text (top style) (tree_at (forest arena.now) i)) }
{
    match named_of(arena, i) {
        None => Ok(()),
        Some(name) => print_base(arena, Env::top(style), name, out),
    }
}

/// Appends the scopes around the base of the name of a function or of data, from the outermost one, with `::` between.
/// Of another tree it appends nothing.
pub fn print_context(arena: &Arena, i: u32, style: Style, out: &mut Text) -> Result<(), AllocError>
    requires within { i < size arena.now }
    ensures prints { Prints result out.old out.new (spec.context_text (top style) (tree_at (forest arena.now) i)) }
{
    match named_of(arena, i) {
        None => Ok(()),
        Some(name) => print_scopes(arena, Env::top(style), true, name, out),
    }
}

/// Appends the parameters of a function, in parentheses. Of another tree it appends nothing.
pub fn print_parameters(
    arena: &Arena,
    i: u32,
    style: Style,
    out: &mut Text,
) -> Result<(), AllocError>
    requires within { i < size arena.now }
    ensures prints { Prints result out.old out.new (spec.parameters_text (top style) (tree_at (forest arena.now) i)) }
{
    match *node_at(arena, i) {
        Node::Encoding(ref encoding) => print_parens(arena, Env::top(style), encoding.params, out),
        _ => Ok(()),
    }
}

/// Appends the return type of a function, if it has one. Of another tree it appends nothing.
pub fn print_return_type(
    arena: &Arena,
    i: u32,
    style: Style,
    out: &mut Text,
) -> Result<(), AllocError>
    requires within { i < size arena.now }
    ensures prints { Prints result out.old out.new (spec.return_type_text (top style) (tree_at (forest arena.now) i)) }
{
    match *arena.node(i) {
        Node::Encoding(ref encoding) => match encoding.ret {
            None => Ok(()),
            Some(t) => print(arena, Env::top(style), t, out),
        },
        _ => Ok(()),
    }
}

// The name of a function or of data.
fn named_of(arena: &Arena, i: u32) -> Option<u32>
    requires within { i < size arena.now }
    ensures value { MatchOption result (spec.named_of (tree_at (forest arena.now) i) ≡ None)
        (λ name. spec.named_of (tree_at (forest arena.now) i) ≡ Some (tree_at (forest arena.now) name)) }
    ensures within { IfSome result (λ name. name < size arena.now) }
{
    match *arena.node(i) {
        Node::Encoding(ref encoding) => Some(encoding.name),
        Node::Plain(Plain::Data(name)) => Some(name),
        _ => None,
    }
}

// Appends the base of a name.
fn print_base(arena: &Arena, env: Env, i: u32, out: &mut Text) -> Result<(), AllocError>
    requires within { i < size arena.now }
    ensures prints { Prints result out.old out.new
        (whole (printing.print (spec.split (tree_at (forest arena.now) i)).1 env)) }
{
    match *arena.node(i) {
        Node::Plain(Plain::AbiTag(name, _))
        | Node::Plain(Plain::InModule(name, _))
        | Node::Plain(Plain::WithArgs(name, _))
        | Node::Plain(Plain::Scoped(_, _, name)) => print_base(arena, env, name, out),
        Node::Plain(Plain::ScopedName(_, ref name)) => write_text(arena, name, out),
        _ => print(arena, env, i, out),
    }
}

// Appends the scopes around the base of a name, with `::` between.
fn print_scopes(
    arena: &Arena,
    env: Env,
    is_first: bool,
    i: u32,
    out: &mut Text,
) -> Result<(), AllocError>
    requires within { i < size arena.now }
    ensures prints { Prints result out.old out.new
        (spec.joined is_first env (spec.split (tree_at (forest arena.now) i)).0) }
{
    match *arena.node(i) {
        Node::Plain(Plain::AbiTag(name, _))
        | Node::Plain(Plain::InModule(name, _))
        | Node::Plain(Plain::WithArgs(name, _)) => print_scopes(arena, env, is_first, name, out),
        Node::Plain(Plain::Scoped(_, scope, name)) => {
            tri!(print_next(arena, env, is_first, scope, out));
            print_scopes(arena, env, false, name, out)
        }
        Node::Plain(Plain::ScopedName(scope, _)) => print_next(arena, env, is_first, scope, out),
        _ => Ok(()),
    }
}

// Appends the next scope, after `::` if it isn't the first.
fn print_next(
    arena: &Arena,
    env: Env,
    is_first: bool,
    scope: u32,
    out: &mut Text,
) -> Result<(), AllocError>
    requires scope { scope < size arena.now }
    ensures prints { Prints result out.old out.new
        (spec.colons is_first ++ scope_text env (printing.print (tree_at (forest arena.now) scope) env)) }
{
    if is_first {
        return print_scope(arena, env, scope, out);
    }
    tri!(write(out, b"::"));
    print_scope(arena, env, scope, out)
}
