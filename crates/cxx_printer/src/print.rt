//! Printing.
//!
//! A function that looks at the kind of a node calls the function for that kind last. That call is a jump, so the first
//! function takes no stack. `#[inline(never)]` keeps the two apart.
#![tactic(auto, using(crate::proofs::Appended::prints, crate::proofs::Items::args_item, crate::proofs::Packs::plains, crate::proofs::Declarators::one_sided), unfolding(cxx_tree::specs::Stored::tree_of, cxx_tree::specs::Stored::plain_tree, cxx_tree::specs::Stored::declaration_tree, cxx_tree::specs::Stored::IsBelow, cxx_tree::specs::Stored::IsPlainBelow, cxx_tree::specs::Stored::IsDeclarationBelow, crate::specs::Print::print, crate::specs::Asked::text_of_part, cxx_tree::specs::Measure::measure))]

ghost use Rattle.std.specs.Prelude.{◌≡◌, ℕ, ◌+◌, ◌<◌, ◌≤◌, Bool, true, false, List, [], ◌++◌, codes, Option, Some, None};
ghost use Rattle.std.specs.List.{AllByRecursion};
ghost use Rattle.cxx_tree.specs.declared.kinds.Listing.TheVariants as listing;
ghost use Rattle.cxx_tree.specs.declared.kinds.Manner.TheVariants as manner;
ghost use Rattle.cxx_tree.specs.declared.kinds.Prec.TheVariants as prec;
ghost use Rattle.cxx_tree.specs.declared.node.Node.TheVariants as node;
ghost use Rattle.cxx_tree.specs.Tree.{Tree, named, pack, pointer, qualified, reference};
ghost use Rattle.cxx_tree.specs.Measure.{measure};
ghost use Rattle.cxx_tree.specs.Stored.{forest, size, tree_of, IsBelow, tree_at, trees_at, trees_in, option_at, plain_tree, declaration_tree, parts_in, text_at, IsText, IsListBelow, IsOptionBelow, IsPlainBelow, IsDeclarationBelow, IsPartsBelow, IsPartBelow};
ghost use Rattle.cxx_printer.specs.declared.shapes.Ending.TheVariants as ending;
ghost use Rattle.cxx_printer.specs.Heads as heads;
ghost use Rattle.cxx_printer.specs.Print as spec;
ghost use Rattle.cxx_printer.specs.Words as words;
ghost use Rattle.cxx_printer.specs.Prints.{Prints};
ghost use Rattle.cxx_printer.specs.Asked.{height, item, text_of_part};

use crate::env::Env;
use crate::operands::{
    count_of, is_designator, is_named_address, is_simple, is_tight, prec_of, protocol_of,
};
use crate::shapes::{
    Ending, element, ending_of, ending_of_list, form_of, has_right, is_closed, is_one_sided,
    is_plain, is_starred, node_at, referent_of,
};
use crate::words::member_opened;
use crate::writing::{
    styled_bytes, try_separator, write, write_behind, write_blank_unless, write_byte, write_closed,
    write_cv, write_cv_mark, write_equals, write_id, write_item, write_joined, write_mark,
    write_number, write_opened, write_ref, write_separator, write_sizeof, write_star, write_std,
    write_styled, write_text,
};
use cxx_tree::{
    Arena, Cv, Declaration, Encoding, Function, List, Listing, Manner, Node, NodeText, Part, Parts,
    Phrase, Plain, Prec,
};
use growing_text::Text;
use std::alloc::AllocError;

/// Appends what a tree prints. A name in a scope is printed without another call, which saves 3 % of the
/// instructions of printing.
#[inline(always)]
#[cycle(printer)]
pub fn print(arena: &Arena, env: Env, i: u32, out: &mut Text) -> Result<(), AllocError>
    requires within { i < size arena.now }
    ensures prints { Prints result out.old out.new (spec.whole (spec.print (tree_at (forest arena.now) i) env)) }
{
    match *node_at(arena, i) {
        Node::Plain(Plain::ScopedName(scope, ref name)) => print_scoped_name(
            arena, env, scope, name, out,
        ),
        _ => print_node(arena, env, i, out),
    }
}

// Appends what a tree prints. The frequent nodes come first.
#[inline(never)]
#[cycle(printer)]
fn print_node(arena: &Arena, env: Env, i: u32, out: &mut Text) -> Result<(), AllocError>
    requires within { i < size arena.now }
    ensures prints { Prints result out.old out.new (spec.whole (spec.print (tree_at (forest arena.now) i) env)) }
{
    match *node_at(arena, i) {
        Node::Plain(Plain::WithArgs(name, args)) => print_with_args(arena, env, name, args, out),
        Node::Plain(Plain::Name(ref text)) => write_text(arena, text, out),
        Node::Plain(ref plain) => print_plain(arena, env, plain, out),
        Node::Encoding(ref encoding) => print_encoding(arena, env, encoding, out),
        Node::Qualified(t, cv) => print_qualified(arena, env, i, t, cv, out),
        Node::Pointer(t) => print_pointer(arena, env, i, t, out),
        Node::Reference(t, is_lvalue) => print_reference(arena, env, i, is_lvalue, t, out),
        _ => print_sides(arena, env, i, out),
    }
}

// Appends what a node prints that qualifies another one.
#[inline(never)]
#[cycle(printer)]
fn print_qualified(
    arena: &Arena,
    env: Env,
    i: u32,
    t: u32,
    cv: Cv,
    out: &mut Text,
) -> Result<(), AllocError>
    requires within { i < size arena.now }
    requires child { t < size arena.now }
    requires height { height (tree_at (forest arena.now) i) ≡ height (qualified (tree_at (forest arena.now) t) cv) }
    requires tree { tree_at (forest arena.now) i ≡ qualified (tree_at (forest arena.now) t) cv }
    ensures prints { Prints result out.old out.new (spec.whole (spec.print (tree_at (forest arena.now) i) env)) }
{
    if !is_plain(arena, t) {
        return print_sides(arena, env, i, out);
    }
    tri!(print(arena, env, t, out));
    write_cv(cv, out)
}

// Appends what a pointer prints.
#[inline(never)]
#[cycle(printer)]
fn print_pointer(arena: &Arena, env: Env, i: u32, t: u32, out: &mut Text) -> Result<(), AllocError>
    requires within { i < size arena.now }
    requires child { t < size arena.now }
    requires height { height (tree_at (forest arena.now) i) ≡ height (pointer (tree_at (forest arena.now) t)) }
    requires tree { tree_at (forest arena.now) i ≡ pointer (tree_at (forest arena.now) t) }
    ensures prints { Prints result out.old out.new (spec.whole (spec.print (tree_at (forest arena.now) i) env)) }
{
    match *node_at(arena, t) {
        Node::Plain(ref plain) => match *plain {
            Plain::ObjcProtocol(_, _) => print_sides(arena, env, i, out),
            _ => {
                tri!(print(arena, env, t, out));
                write_byte(out, b'*')
            }
        },
        Node::Qualified(u, cv) if is_plain(arena, u) => {
            tri!(print(arena, env, u, out));
            write_star(cv, out)
        }
        _ => print_sides(arena, env, i, out),
    }
}

// Appends what a reference prints.
#[inline(never)]
#[cycle(printer)]
fn print_reference(
    arena: &Arena,
    env: Env,
    i: u32,
    is_lvalue: bool,
    t: u32,
    out: &mut Text,
) -> Result<(), AllocError>
    requires within { i < size arena.now }
    requires child { t < size arena.now }
    requires height { height (tree_at (forest arena.now) i) ≡ height (reference (tree_at (forest arena.now) t)
        is_lvalue) }
    requires tree { tree_at (forest arena.now) i ≡ reference (tree_at (forest arena.now) t) is_lvalue }
    ensures prints { Prints result out.old out.new (spec.whole (spec.print (tree_at (forest arena.now) i) env)) }
{
    match *node_at(arena, t) {
        Node::Plain(_) => {
            tri!(print(arena, env, t, out));
            write_mark(is_lvalue, out)
        }
        Node::Qualified(u, cv) if is_plain(arena, u) => {
            tri!(print(arena, env, u, out));
            write_cv_mark(cv, is_lvalue, out)
        }
        _ => print_sides(arena, env, i, out),
    }
}

// Appends what a tree prints on both sides.
#[inline(never)]
#[cycle(printer)]
fn print_sides(arena: &Arena, env: Env, i: u32, out: &mut Text) -> Result<(), AllocError>
    requires within { i < size arena.now }
    ensures prints { Prints result out.old out.new (spec.whole (spec.print (tree_at (forest arena.now) i) env)) }
{
    tri!(print_left(arena, env, i, out));
    if is_one_sided(arena, i) {
        return Ok(());
    }
    print_right(arena, env, i, is_closed(arena, env, i), out)
}

// Appends what a function prints.
#[inline(never)]
#[cycle(printer)]
pub fn print_encoding(
    arena: &Arena,
    env: Env,
    encoding: &Encoding,
    out: &mut Text,
) -> Result<(), AllocError>
    requires below { IsBelow arena.now.held (size arena.now) (node.Encoding encoding.now) }
    ensures prints { Prints result out.old out.new
        (spec.whole (spec.print (tree_of arena.now.held (forest arena.now) (node.Encoding encoding.now)) env)) }
{
    tri!(left_encoding(arena, env, encoding, out));
    right_encoding(arena, env, encoding, out)
}

/// Appends what a tree prints on the left of a name.
#[inline(never)]
#[cycle(printer)]
pub fn print_left(arena: &Arena, env: Env, i: u32, out: &mut Text) -> Result<(), AllocError>
    requires within { i < size arena.now }
    ensures prints { Prints result out.old out.new ((spec.print (tree_at (forest arena.now) i) env).text.left) }
{
    match *node_at(arena, i) {
        Node::Plain(ref plain) => print_plain(arena, env, plain, out),
        Node::Declaration(ref declaration) => left_declaration(arena, env, declaration, out),
        Node::Qualified(t, cv) => left_qualified(arena, env, t, cv, out),
        Node::Pointer(t) => left_pointer(arena, env, t, out),
        Node::Reference(t, is_lvalue) => left_reference(arena, env, is_lvalue, t, out),
        Node::MemberPointer(class, member) => left_member(arena, env, class, member, out),
        Node::Array(element, _) => print_left(arena, env, element, out),
        Node::Function(ref function) => left_function(arena, env, function.ret, out),
        Node::Encoding(ref encoding) => left_encoding(arena, env, encoding, out),
        Node::Pack(items) => match element(arena, env, items) {
            None => Ok(()),
            Some(t) => print_left(arena, env, t, out),
        },
    }
}

/// Appends what a tree prints on the right of a name. If `joined` holds, no blank is before the bracket of an array.
#[inline(never)]
#[cycle(printer)]
pub fn print_right(
    arena: &Arena,
    env: Env,
    i: u32,
    joined: bool,
    out: &mut Text,
) -> Result<(), AllocError>
    requires within { i < size arena.now }
    ensures prints { Prints result out.old out.new (spec.right_behind joined (spec.print (tree_at (forest
        arena.now) i) env).text) }
{
    match *node_at(arena, i) {
        Node::Plain(_) => Ok(()),
        Node::Declaration(ref declaration) => right_declaration(arena, env, declaration, out),
        Node::Qualified(t, _) => print_right(arena, env, t, joined, out),
        Node::Pointer(t) => right_pointer(arena, env, t, out),
        Node::Reference(t, is_lvalue) => right_reference(arena, env, is_lvalue, t, out),
        Node::MemberPointer(_, member) => right_behind(arena, env, member, out),
        Node::Array(element, dimension) => right_array(arena, env, element, dimension, joined, out),
        Node::Function(ref function) => right_function(arena, env, function, out),
        Node::Encoding(ref encoding) => right_encoding(arena, env, encoding, out),
        Node::Pack(items) => match element(arena, env, items) {
            None => Ok(()),
            Some(t) => print_right(arena, env, t, joined, out),
        },
    }
}

// Appends what a tree with one side prints.
#[inline(never)]
#[cycle(printer)]
fn print_plain(arena: &Arena, env: Env, plain: &Plain, out: &mut Text) -> Result<(), AllocError>
    requires below { IsPlainBelow arena.now.held (size arena.now) plain.now }
    ensures prints { Prints result out.old out.new ((spec.print (plain_tree arena.now.held (forest arena.now)
        plain.now) env).text.left) }
{
    match *plain {
        Plain::Name(ref text) => write_text(arena, text, out),
        Plain::Leaf(_, ref llvm, ref gnu) => write_styled(arena, env, llvm, gnu, out),
        Plain::StdName(std, is_expanded) => write_std(env, std, is_expanded, out),
        Plain::Phrase(phrase, parts) => print_phrase(arena, env, phrase, parts, out),
        Plain::Scoped(is_friend, scope, name) => print_scoped(
            arena, env, is_friend, scope, name, out,
        ),
        Plain::ScopedName(scope, ref name) => print_scoped_name(arena, env, scope, name, out),
        Plain::WithArgs(name, args) => print_with_args(arena, env, name, args, out),
        Plain::AbiTag(name, ref tag) => print_abi_tag(arena, env, name, tag, out),
        Plain::InModule(name, owner) => print_in_module(arena, env, name, owner, out),
        Plain::Data(name) => print(arena, env, name, out),
        Plain::ObjcProtocol(t, ref protocol) => print_protocol(arena, env, t, protocol, out),
        Plain::Several(items) => print_list(arena, env, arena.items(items), out),
        Plain::Expansion(t) => print_expansion(arena, env, t, out),
        Plain::Param(_, _) => Ok(()),
    }
}

// Appends a scope, and a name that is a text. A scope that is a name is copied with it, which saves 3 % of the
// instructions of printing.
#[inline(never)]
#[cycle(printer)]
fn print_scoped_name(
    arena: &Arena,
    env: Env,
    scope: u32,
    name: &NodeText,
    out: &mut Text,
) -> Result<(), AllocError>
    requires scope { scope < size arena.now }
    requires name { IsText arena.now.held name.now }
    ensures prints { Prints result out.old out.new (spec.scope_text env (spec.print (tree_at (forest arena.now) scope)
        env) ++ (codes "::" ++ spec.whole (spec.print (named (text_at arena.now.held name.now)) env))) }
{
    match *arena.node(scope) {
        Node::Plain(Plain::Name(text)) => write_joined(arena.bytes(text), arena.bytes(*name), out),
        _ => {
            tri!(print_scope(arena, env, scope, out));
            write_behind(out, b"::", arena.bytes(*name))
        }
    }
}

// Appends what a name in a scope prints.
#[inline(never)]
#[cycle(printer)]
fn print_scoped(
    arena: &Arena,
    env: Env,
    is_friend: bool,
    scope: u32,
    name: u32,
    out: &mut Text,
) -> Result<(), AllocError>
    requires scope { scope < size arena.now }
    requires name { name < size arena.now }
    ensures prints { Prints result out.old out.new ((spec.in_scope is_friend env (spec.print (tree_at (forest
        arena.now) scope) env) (spec.print (tree_at (forest arena.now) name) env)).text.left) }
{
    if is_friend {
        tri!(print(arena, env, scope, out));
        tri!(write(out, b"::friend "));
        return print(arena, env, name, out);
    }
    tri!(print_scope(arena, env, scope, out));
    tri!(write(out, b"::"));
    print(arena, env, name, out)
}

/// Appends what a tree prints as a scope. In GNU's style a function has no return type there.
#[inline(always)]
#[cycle(printer)]
pub fn print_scope(arena: &Arena, env: Env, i: u32, out: &mut Text) -> Result<(), AllocError>
    requires within { i < size arena.now }
    ensures prints { Prints result out.old out.new (spec.scope_text env (spec.print (tree_at (forest arena.now) i)
        env)) }
{
    if env.is_llvm() {
        return print(arena, env, i, out);
    }
    print_gnu_scope(arena, env, i, out)
}

#[inline(never)]
#[cycle(printer)]
fn print_gnu_scope(arena: &Arena, env: Env, i: u32, out: &mut Text) -> Result<(), AllocError>
    requires within { i < size arena.now }
    ensures prints { Prints result out.old out.new (spec.without_return (spec.print (tree_at (forest arena.now) i)
        env)) }
{
    match *node_at(arena, i) {
        Node::Encoding(ref encoding) => print_signature(arena, env, encoding, out),
        _ => print(arena, env, i, out),
    }
}

/// Appends a function without its return type.
#[inline(never)]
#[cycle(printer)]
pub fn print_signature(
    arena: &Arena,
    env: Env,
    encoding: &Encoding,
    out: &mut Text,
) -> Result<(), AllocError>
    requires below { IsBelow arena.now.held (size arena.now) (node.Encoding encoding.now) }
    ensures prints { Prints result out.old out.new
        (spec.whole (spec.print (tree_at (forest arena.now) encoding.now.name) env)
        ++ spec.signature_right env [] (spec.items_of (trees_in arena.now.held (forest arena.now) encoding.now.params))
        encoding.now.cv encoding.now.ref_qual
        (spec.print_parts (parts_in arena.now.held (forest arena.now) encoding.now.clauses) env)) }
{
    tri!(print(arena, env, encoding.name, out));
    tri!(print_parens(arena, env, encoding.params, out));
    print_qualifiers(arena, env, encoding, out)
}

#[inline(never)]
#[cycle(printer)]
fn print_with_args(
    arena: &Arena,
    env: Env,
    name: u32,
    args: List,
    out: &mut Text,
) -> Result<(), AllocError>
    requires name { name < size arena.now }
    requires args { IsListBelow arena.now.held (size arena.now) args }
    ensures prints { Prints result out.old out.new ((spec.with_list env (spec.print (tree_at (forest arena.now)
        name) env) (spec.items_of (trees_in arena.now.held (forest arena.now) args))).text.left) }
{
    tri!(print(arena, env, name, out));
    tri!(blank_behind_less(arena, env, name, out));
    print_angles(arena, env, args, out)
}

// Appends a blank after a name that ends with a `<`, in GNU's style.
fn blank_behind_less(arena: &Arena, env: Env, name: u32, out: &mut Text) -> Result<(), AllocError>
    requires name { name < size arena.now }
    ensures prints { Prints result out.old out.new (spec.gnu_blank env ending.Less (spec.print (tree_at (forest
        arena.now) name) env).ends) }
{
    if env.is_llvm() {
        return Ok(());
    }
    match ending_of(arena, env, name) {
        Ending::Less => write(out, b" "),
        Ending::Greater | Ending::Other => Ok(()),
    }
}

#[inline(never)]
#[cycle(printer)]
fn print_abi_tag(
    arena: &Arena,
    env: Env,
    name: u32,
    tag: &NodeText,
    out: &mut Text,
) -> Result<(), AllocError>
    requires name { name < size arena.now }
    requires tag { IsText arena.now.held tag.now }
    ensures prints { Prints result out.old out.new ((spec.print (tree_at (forest arena.now) name) env).text.left ++
        (codes "[abi:" ++ (text_at arena.now.held tag.now ++ codes "]"))) }
{
    tri!(print_left(arena, env, name, out));
    tri!(write(out, b"[abi:"));
    tri!(write(out, arena.bytes(*tag)));
    write(out, b"]")
}

#[inline(never)]
#[cycle(printer)]
fn print_in_module(
    arena: &Arena,
    env: Env,
    name: u32,
    owner: u32,
    out: &mut Text,
) -> Result<(), AllocError>
    requires name { name < size arena.now }
    requires owner { owner < size arena.now }
    ensures prints { Prints result out.old out.new (spec.whole (spec.print (tree_at (forest arena.now) name) env)
        ++ (codes "@" ++ spec.whole (spec.print (tree_at (forest arena.now) owner) env))) }
{
    tri!(print(arena, env, name, out));
    tri!(write(out, b"@"));
    print(arena, env, owner, out)
}

#[inline(never)]
#[cycle(printer)]
fn print_protocol(
    arena: &Arena,
    env: Env,
    t: u32,
    protocol: &NodeText,
    out: &mut Text,
) -> Result<(), AllocError>
    requires within { t < size arena.now }
    requires protocol { IsText arena.now.held protocol.now }
    ensures prints { Prints result out.old out.new (spec.whole (spec.print (tree_at (forest arena.now) t) env) ++
        (codes "<" ++ (text_at arena.now.held protocol.now ++ codes ">"))) }
{
    tri!(print(arena, env, t, out));
    tri!(write(out, b"<"));
    tri!(write(out, arena.bytes(*protocol)));
    write(out, b">")
}

// Appends an expansion: its pattern for each element of the packs in it, with commas between, or the pattern and an
// ellipsis.
#[inline(never)]
#[cycle(printer)]
fn print_expansion(arena: &Arena, env: Env, t: u32, out: &mut Text) -> Result<(), AllocError>
    requires within { t < size arena.now }
    ensures prints { Prints result out.old out.new (spec.expansion_text env (measure (tree_at (forest arena.now)
        t)).elements (item (tree_at (forest arena.now) t))) }
{
    let Some(n) = arena.elements(t) else {
        tri!(print_operand(arena, env.at(0), Prec::Comma, true, t, out));
        return write(out, b"...");
    };
    for k in 0..n {
        tri!(write_separator(k == 0, out));
        tri!(print(arena, env.at(k), t, out));
    }
    Ok(())
}

// Appends a list. What prints nothing has no comma.
#[inline(always)]
#[cycle(printer)]
fn print_list(arena: &Arena, env: Env, items: &[u32], out: &mut Text) -> Result<(), AllocError>
    requires below { AllByRecursion (λ t. t < size arena.now) items.now }
    ensures prints { Prints result out.old out.new (spec.list_from true env (spec.items_of (trees_at (forest arena.now)
        items.now))) }
{
    let start = out.len();
    for t in items {
        tri!(print_item(arena, env, out.len() == start, *t, out));
    }
    Ok(())
}

// Appends an item of a list, with a comma before it if it isn't the first that prints something.
#[inline(never)]
#[cycle(printer)]
fn print_item(
    arena: &Arena,
    env: Env,
    is_first: bool,
    t: u32,
    out: &mut Text,
) -> Result<(), AllocError>
    requires within { t < size arena.now }
    ensures prints { Prints result out.old out.new (spec.item_behind is_first (spec.item_text env (item (tree_at
        (forest arena.now) t)))) }
{
    match *node_at(arena, t) {
        Node::Plain(Plain::Name(text)) => write_item(is_first, arena.bytes(text), out),
        Node::Plain(Plain::Leaf(_, ref llvm, ref gnu)) => write_item(
            is_first,
            styled_bytes(arena, env, llvm, gnu),
            out,
        ),
        // These print something.
        Node::Plain(Plain::ScopedName(scope, ref name)) if try_separator(is_first, out) => {
            print_scoped_name(arena, env, scope, name, out)
        }
        Node::Plain(Plain::WithArgs(name, args)) if try_separator(is_first, out) => {
            print_with_args(arena, env, name, args, out)
        }
        Node::Pointer(u) if try_separator(is_first, out) => print_pointer(arena, env, t, u, out),
        Node::Reference(u, is_lvalue) if try_separator(is_first, out) => {
            print_reference(arena, env, t, is_lvalue, u, out)
        }
        _ => print_any_item(arena, env, is_first, t, out),
    }
}

// Appends an item of a list that may print nothing.
#[inline(never)]
#[cycle(printer)]
fn print_any_item(
    arena: &Arena,
    env: Env,
    is_first: bool,
    t: u32,
    out: &mut Text,
) -> Result<(), AllocError>
    requires within { t < size arena.now }
    ensures prints { Prints result out.old out.new (spec.item_behind is_first (spec.item_text env (item (tree_at
        (forest arena.now) t)))) }
{
    let before = out.len();
    tri!(write_separator(is_first, out));
    let start = out.len();
    tri!(print_item_text(arena, env, t, out));
    if out.len() == start {
        out.truncate(before);
    }
    Ok(())
}

// Appends what an item prints. Its parentheses are written here, so that no call of `print_enclosed` takes stack.
#[inline(always)]
#[cycle(printer)]
fn print_item_text(arena: &Arena, env: Env, t: u32, out: &mut Text) -> Result<(), AllocError>
    requires within { t < size arena.now }
    ensures prints { Prints result out.old out.new (spec.item_text env (item (tree_at (forest arena.now) t))) }
{
    if !env.is_llvm() || is_tight(prec_of(arena, t), Prec::Comma, false) {
        return print(arena, env, t, out);
    }
    tri!(write(out, b"("));
    tri!(print(arena, env.enclosed(), t, out));
    write(out, b")")
}

// Appends an operand: the tree, in parentheses if it is looser than the precedence, or as loose and `loose` is false.
// In GNU's style it is in parentheses if it isn't a name.
#[inline(always)]
#[cycle(printer)]
fn print_operand(
    arena: &Arena,
    env: Env,
    prec: Prec,
    loose: bool,
    t: u32,
    out: &mut Text,
) -> Result<(), AllocError>
    requires within { t < size arena.now }
    ensures prints { Prints result out.old out.new (spec.operand env prec loose (item (tree_at (forest
        arena.now) t))) }
{
    if is_bare(arena, env, prec, loose, t) {
        return print(arena, env, t, out);
    }
    print_enclosed(arena, env, t, out)
}

// Whether an operand needs no parentheses.
#[inline(always)]
fn is_bare(arena: &Arena, env: Env, prec: Prec, loose: bool, t: u32) -> bool
    requires within { t < size arena.now }
    ensures value { result ≡ spec.is_bare env prec loose (item (tree_at (forest arena.now) t)) }
{
    if env.is_llvm() {
        return is_tight(prec_of(arena, t), prec, loose);
    }
    is_simple(arena, t)
}

// Appends a tree in parentheses.
#[inline(never)]
#[cycle(printer)]
fn print_enclosed(arena: &Arena, env: Env, t: u32, out: &mut Text) -> Result<(), AllocError>
    requires within { t < size arena.now }
    ensures prints { Prints result out.old out.new (spec.in_parens env (item (tree_at (forest arena.now) t))) }
{
    tri!(write(out, b"("));
    tri!(print(arena, env.enclosed(), t, out));
    write(out, b")")
}

#[inline(never)]
#[cycle(printer)]
fn print_phrase(
    arena: &Arena,
    env: Env,
    phrase: Phrase,
    parts: Parts,
    out: &mut Text,
) -> Result<(), AllocError>
    requires parts { IsPartsBelow arena.now.held (size arena.now) parts }
    ensures prints { Prints result out.old out.new ((spec.phrased phrase env (spec.print_parts (parts_in
        arena.now.held (forest arena.now) parts) (words.within env phrase.guard))).text.left) }
{
    let inner = env.within(phrase.guard);
    if !env.is_guarded(phrase.guard) {
        return print_parts(arena, inner, parts, out);
    }
    tri!(write(out, b"("));
    tri!(print_parts(arena, inner, parts, out));
    write(out, b")")
}

#[inline(never)]
#[cycle(printer)]
fn print_parts(arena: &Arena, env: Env, parts: Parts, out: &mut Text) -> Result<(), AllocError>
    requires parts { IsPartsBelow arena.now.held (size arena.now) parts }
    ensures prints { Prints result out.old out.new ((spec.print_parts (parts_in arena.now.held (forest arena.now)
        parts) env).text) }
{
    let list = arena.parts_of(parts);
    for part in list {
        tri!(print_part(arena, env, part, out));
    }
    Ok(())
}

#[inline(always)]
#[cycle(printer)]
fn print_part(arena: &Arena, env: Env, part: &Part, out: &mut Text) -> Result<(), AllocError>
    requires below { IsPartBelow arena.now.held (size arena.now) part.now }
    ensures prints { Prints result out.old out.new (text_of_part arena.now.held (forest arena.now) env part.now) }
{
    match *part {
        Part::Text(ref llvm, ref gnu) => write_styled(arena, env, llvm, gnu, out),
        Part::Tree(manner, t) => print_tree(arena, env, manner, t, out),
        Part::Trees(listing, items) => print_trees(arena, env, listing, items, out),
    }
}

#[inline(never)]
#[cycle(printer)]
fn print_tree(
    arena: &Arena,
    env: Env,
    manner: Manner,
    t: u32,
    out: &mut Text,
) -> Result<(), AllocError>
    requires within { t < size arena.now }
    ensures prints { Prints result out.old out.new (spec.part_text manner env (item (tree_at (forest arena.now) t))) }
{
    match manner {
        Manner::Whole(context) => print(arena, env.in_context(context), t, out),
        Manner::Operand(prec, loose) => print_operand(arena, env, prec, loose, t, out),
        Manner::Scope => print_scope(arena, env, t, out),
        Manner::Callee => print_callee(arena, env, t, out),
        Manner::Address(prec) => print_address(arena, env, prec, t, out),
        Manner::Value => print_value(arena, env, t, out),
        Manner::Argument => print_argument(arena, env, t, out),
        Manner::Count(has_blank) => print_count(arena, env, has_blank, t, out),
        Manner::Folded => print_folded(arena, env, t, out),
    }
}

// Appends a function that is called. In GNU's style it has no parameters.
#[inline(never)]
#[cycle(printer)]
fn print_callee(arena: &Arena, env: Env, t: u32, out: &mut Text) -> Result<(), AllocError>
    requires within { t < size arena.now }
    ensures prints { Prints result out.old out.new (spec.part_text manner.Callee env (item (tree_at (forest
        arena.now) t))) }
{
    if env.is_llvm() {
        return print(arena, env, t, out);
    }
    match *node_at(arena, t) {
        Node::Encoding(ref encoding) => print_operand(
            arena,
            env,
            Prec::Comma,
            true,
            encoding.name,
            out,
        ),
        _ => print_operand(arena, env, Prec::Comma, true, t, out),
    }
}

// Appends the operand of an `&`. In GNU's style some functions have no parameters.
#[inline(never)]
#[cycle(printer)]
fn print_address(
    arena: &Arena,
    env: Env,
    prec: Prec,
    t: u32,
    out: &mut Text,
) -> Result<(), AllocError>
    requires within { t < size arena.now }
    ensures prints { Prints result out.old out.new (spec.part_text (manner.Address prec) env (item (tree_at (forest
        arena.now) t))) }
{
    match *node_at(arena, t) {
        Node::Encoding(ref encoding)
            if !env.is_llvm()
                && is_named_address(arena, encoding.name, encoding.cv, encoding.ref_qual) => {
            print(arena, env, encoding.name, out)
        }
        _ => print_operand(arena, env, prec, false, t, out),
    }
}

// Appends a value after a designator.
#[inline(never)]
#[cycle(printer)]
fn print_value(arena: &Arena, env: Env, t: u32, out: &mut Text) -> Result<(), AllocError>
    requires within { t < size arena.now }
    ensures prints { Prints result out.old out.new (spec.part_text manner.Value env (item (tree_at (forest
        arena.now) t))) }
{
    if is_designator(arena, t) {
        return print(arena, env, t, out);
    }
    tri!(write_equals(env, out));
    print_operand(arena, env, Prec::Comma, true, t, out)
}

// Appends the only argument of a conversion.
#[inline(never)]
#[cycle(printer)]
fn print_argument(arena: &Arena, env: Env, t: u32, out: &mut Text) -> Result<(), AllocError>
    requires within { t < size arena.now }
    ensures prints { Prints result out.old out.new (spec.part_text manner.Argument env (item (tree_at (forest
        arena.now) t))) }
{
    if !env.is_llvm() {
        return print_operand(arena, env, Prec::Comma, true, t, out);
    }
    tri!(write(out, b"("));
    tri!(print_operand(arena, env.enclosed(), Prec::Comma, false, t, out));
    write(out, b")")
}

// Appends `sizeof...` and a pack, in GNU's style the number of its elements if it is known.
#[inline(never)]
#[cycle(printer)]
fn print_count(
    arena: &Arena,
    env: Env,
    has_blank: bool,
    t: u32,
    out: &mut Text,
) -> Result<(), AllocError>
    requires within { t < size arena.now }
    ensures prints { Prints result out.old out.new (spec.part_text (manner.Count has_blank) env (item (tree_at
        (forest arena.now) t))) }
{
    match count_of(arena, t) {
        Some(n) if !env.is_llvm() => write_number(n, out),
        _ => {
            tri!(write_sizeof(has_blank, out));
            print_enclosed(arena, env, t, out)
        }
    }
}

// Appends a pack that a fold expression folds.
#[inline(never)]
#[cycle(printer)]
fn print_folded(arena: &Arena, env: Env, t: u32, out: &mut Text) -> Result<(), AllocError>
    requires within { t < size arena.now }
    ensures prints { Prints result out.old out.new (spec.folded_text env (measure (tree_at (forest arena.now)
        t)).elements (item (tree_at (forest arena.now) t))) }
{
    if !env.is_llvm() && arena.elements(t).is_none() {
        return print_operand(arena, env, Prec::Comma, true, t, out);
    }
    tri!(write(out, b"("));
    tri!(print_expansion(arena, env, t, out));
    write(out, b")")
}

#[inline(never)]
#[cycle(printer)]
fn print_trees(
    arena: &Arena,
    env: Env,
    listing: Listing,
    list: List,
    out: &mut Text,
) -> Result<(), AllocError>
    requires below { IsListBelow arena.now.held (size arena.now) list }
    ensures prints { Prints result out.old out.new (spec.list_of listing env (spec.items_of (trees_in
        arena.now.held (forest arena.now) list))) }
{
    match listing {
        Listing::Items => print_list(arena, env, arena.items(list), out),
        Listing::Enclosed => print_list(arena, env.enclosed(), arena.items(list), out),
        Listing::Parens => print_parens(arena, env, list, out),
        Listing::Angles => print_angles(arena, env, list, out),
        Listing::Declarations => print_declarations(arena, env, list, out),
        Listing::Sequence => print_sequence(arena, env.enclosed(), arena.items(list), out),
    }
}

/// Appends a list in parentheses.
#[inline(always)]
#[cycle(printer)]
pub fn print_parens(arena: &Arena, env: Env, list: List, out: &mut Text) -> Result<(), AllocError>
    requires below { IsListBelow arena.now.held (size arena.now) list }
    ensures prints { Prints result out.old out.new (spec.parens env (spec.items_of (trees_in arena.now.held (forest
        arena.now) list))) }
{
    tri!(write_byte(out, b'('));
    tri!(print_list(arena, env.enclosed(), arena.items(list), out));
    write_byte(out, b')')
}

// Appends a list in angle brackets.
#[inline(always)]
#[cycle(printer)]
fn print_angles(arena: &Arena, env: Env, list: List, out: &mut Text) -> Result<(), AllocError>
    requires below { IsListBelow arena.now.held (size arena.now) list }
    ensures prints { Prints result out.old out.new (spec.angles env (spec.items_of (trees_in arena.now.held (forest
        arena.now) list))) }
{
    tri!(write_byte(out, b'<'));
    tri!(print_list(arena, env.in_angle(), arena.items(list), out));
    tri!(blank_behind_greater(arena, env.in_angle(), arena.items(list), out));
    write_byte(out, b'>')
}

// Appends a blank after a list that ends with a `>`, in GNU's style.
fn blank_behind_greater(
    arena: &Arena,
    env: Env,
    items: &[u32],
    out: &mut Text,
) -> Result<(), AllocError>
    requires below { AllByRecursion (λ t. t < size arena.now) items.now }
    ensures prints { Prints result out.old out.new (spec.gnu_blank env ending.Greater (spec.last_ends env
        (spec.items_of (trees_at (forest arena.now) items.now)))) }
{
    if env.is_llvm() {
        return Ok(());
    }
    match ending_of_list(arena, env, items) {
        Ending::Greater => write(out, b" "),
        Ending::Less | Ending::Other => Ok(()),
    }
}

#[inline(never)]
#[cycle(printer)]
fn print_sequence(arena: &Arena, env: Env, items: &[u32], out: &mut Text) -> Result<(), AllocError>
    requires below { AllByRecursion (λ t. t < size arena.now) items.now }
    ensures prints { Prints result out.old out.new (spec.sequence env (spec.items_of (trees_at (forest arena.now)
        items.now))) }
{
    for t in items {
        tri!(print(arena, env, *t, out));
    }
    Ok(())
}

// Appends the declarations of a closure's template parameters.
#[inline(never)]
#[cycle(printer)]
fn print_declarations(arena: &Arena, env: Env, list: List, out: &mut Text) -> Result<(), AllocError>
    requires below { IsListBelow arena.now.held (size arena.now) list }
    ensures prints { Prints result out.old out.new (spec.list_of listing.Declarations env (spec.items_of (trees_in
        arena.now.held (forest arena.now) list))) }
{
    if env.is_llvm() {
        return print_angles(arena, env, list, out);
    }
    tri!(write(out, b"<"));
    let mut is_first = true;
    for t in arena.items(list) {
        tri!(write_separator(is_first, out));
        tri!(print_declared(arena, env.in_angle(), *t, out));
        is_first = false;
    }
    write(out, b">")
}

#[cycle(printer)]
fn print_declared(arena: &Arena, env: Env, t: u32, out: &mut Text) -> Result<(), AllocError>
    requires within { t < size arena.now }
    ensures prints { Prints result out.old out.new (spec.declared (spec.print (tree_at (forest arena.now) t) env)) }
{
    tri!(print_head(arena, env, t, out));
    tri!(write(out, b" "));
    print_declared_name(arena, env, t, out)
}

// Appends a declaration of a template parameter without its name, as GNU's style has it.
#[cycle(printer)]
fn print_head(arena: &Arena, env: Env, t: u32, out: &mut Text) -> Result<(), AllocError>
    requires within { t < size arena.now }
    ensures prints { Prints result out.old out.new (spec.head (spec.print (tree_at (forest arena.now) t) env)) }
{
    match *node_at(arena, t) {
        Node::Declaration(Declaration::Typename(_)) => write(out, b"typename"),
        Node::Declaration(Declaration::TypeParam(constraint, _)) => print(
            arena, env, constraint, out,
        ),
        Node::Declaration(Declaration::NonTypeParam(_, t)) => print(arena, env, t, out),
        Node::Declaration(Declaration::TemplateParam(_, declarations, _)) => print_template_head(
            arena,
            env,
            arena.items(declarations),
            out,
        ),
        Node::Declaration(Declaration::PackParam(d)) => {
            tri!(print_head(arena, env, d, out));
            write(out, b"...")
        }
        _ => print(arena, env, t, out),
    }
}

#[cycle(printer)]
fn print_template_head(
    arena: &Arena,
    env: Env,
    items: &[u32],
    out: &mut Text,
) -> Result<(), AllocError>
    requires below { AllByRecursion (λ t. t < size arena.now) items.now }
    ensures prints { Prints result out.old out.new (codes "template<" ++ (spec.separated spec.head true env
        (spec.items_of
        (trees_at (forest arena.now) items.now)) ++ codes "> class")) }
{
    tri!(write(out, b"template<"));
    let mut is_first = true;
    for t in items {
        tri!(write_separator(is_first, out));
        tri!(print_head(arena, env, *t, out));
        is_first = false;
    }
    write(out, b"> class")
}

// Appends the name that a declaration declares.
#[cycle(printer)]
fn print_declared_name(arena: &Arena, env: Env, t: u32, out: &mut Text) -> Result<(), AllocError>
    requires within { t < size arena.now }
    ensures prints { Prints result out.old out.new (spec.declared_name (spec.print (tree_at (forest arena.now) t)
        env)) }
{
    match *node_at(arena, t) {
        Node::Declaration(Declaration::Typename(name)) => print(arena, env, name, out),
        Node::Declaration(Declaration::TypeParam(_, name)) => print(arena, env, name, out),
        Node::Declaration(Declaration::NonTypeParam(name, _)) => print(arena, env, name, out),
        Node::Declaration(Declaration::TemplateParam(name, _, _)) => print(arena, env, name, out),
        Node::Declaration(Declaration::PackParam(d)) => print_declared_name(arena, env, d, out),
        _ => Ok(()),
    }
}

#[inline(never)]
#[cycle(printer)]
fn left_declaration(
    arena: &Arena,
    env: Env,
    declaration: &Declaration,
    out: &mut Text,
) -> Result<(), AllocError>
    requires below { IsDeclarationBelow arena.now.held (size arena.now) declaration.now }
    ensures prints { Prints result out.old out.new ((spec.print (declaration_tree arena.now.held (forest arena.now)
        declaration.now) env).text.left) }
{
    match *declaration {
        Declaration::Typename(_) => write(out, b"typename "),
        Declaration::TypeParam(constraint, _) => {
            tri!(print(arena, env, constraint, out));
            write(out, b" ")
        }
        Declaration::NonTypeParam(_, t) => left_non_type(arena, env, t, out),
        Declaration::TemplateParam(_, declarations, _) => {
            tri!(write(out, b"template"));
            tri!(print_angles(arena, env, declarations, out));
            write(out, b" typename ")
        }
        Declaration::PackParam(d) => {
            tri!(print_left(arena, env, d, out));
            write(out, b"...")
        }
    }
}

// Appends the left side of a type, and a blank unless it has a right one.
#[inline(never)]
#[cycle(printer)]
fn left_non_type(arena: &Arena, env: Env, t: u32, out: &mut Text) -> Result<(), AllocError>
    requires within { t < size arena.now }
    ensures prints { Prints result out.old out.new ((spec.print (tree_at (forest arena.now) t) env).text.left ++
        spec.blank_unless (spec.print (tree_at (forest arena.now) t) env).has_right) }
{
    tri!(print_left(arena, env, t, out));
    write_blank_unless(has_right(arena, env, t), out)
}

#[inline(never)]
#[cycle(printer)]
fn right_declaration(
    arena: &Arena,
    env: Env,
    declaration: &Declaration,
    out: &mut Text,
) -> Result<(), AllocError>
    requires below { IsDeclarationBelow arena.now.held (size arena.now) declaration.now }
    ensures prints { Prints result out.old out.new ((spec.print (declaration_tree arena.now.held (forest arena.now)
        declaration.now) env).text.right) }
{
    match *declaration {
        Declaration::Typename(name) => print(arena, env, name, out),
        Declaration::TypeParam(_, name) => print(arena, env, name, out),
        Declaration::NonTypeParam(name, t) => {
            tri!(print(arena, env, name, out));
            print_right(arena, env, t, false, out)
        }
        Declaration::TemplateParam(name, _, rest) => {
            tri!(print(arena, env, name, out));
            print_parts(arena, env, rest, out)
        }
        Declaration::PackParam(d) => print_right(arena, env, d, false, out),
    }
}

#[inline(never)]
#[cycle(printer)]
fn left_qualified(arena: &Arena, env: Env, t: u32, cv: Cv, out: &mut Text) -> Result<(), AllocError>
    requires within { t < size arena.now }
    ensures prints { Prints result out.old out.new ((spec.print (tree_at (forest arena.now) t) env).text.left ++
        words.cv_text cv) }
{
    tri!(print_left(arena, env, t, out));
    write_cv(cv, out)
}

#[inline(never)]
#[cycle(printer)]
fn left_pointer(arena: &Arena, env: Env, t: u32, out: &mut Text) -> Result<(), AllocError>
    requires within { t < size arena.now }
    ensures prints { Prints result out.old out.new ((spec.pointed (heads.protocol_of (tree_at (forest arena.now)
        t)) (spec.print (tree_at (forest arena.now) t) env)).text.left) }
{
    match protocol_of(arena, t) {
        None => {
            tri!(print_left(arena, env, t, out));
            tri!(write_opened(form_of(arena, env, t), out));
            write(out, b"*")
        }
        Some(protocol) => write_id(protocol, out),
    }
}

#[inline(never)]
#[cycle(printer)]
fn right_pointer(arena: &Arena, env: Env, t: u32, out: &mut Text) -> Result<(), AllocError>
    requires within { t < size arena.now }
    ensures prints { Prints result out.old out.new ((spec.pointed (heads.protocol_of (tree_at (forest arena.now)
        t)) (spec.print (tree_at (forest arena.now) t) env)).text.right) }
{
    match protocol_of(arena, t) {
        None => right_behind(arena, env, t, out),
        Some(_) => Ok(()),
    }
}

// Appends the right side of a type after a pointer to it.
#[inline(never)]
#[cycle(printer)]
fn right_behind(arena: &Arena, env: Env, t: u32, out: &mut Text) -> Result<(), AllocError>
    requires within { t < size arena.now }
    ensures prints { Prints result out.old out.new (words.closed (spec.print (tree_at (forest arena.now) t)
        env).text.form ++ spec.right_behind false (spec.print (tree_at (forest arena.now) t) env).text) }
{
    tri!(write_closed(form_of(arena, env, t), out));
    print_right(arena, env, t, false, out)
}

#[inline(never)]
#[cycle(printer)]
fn left_reference(
    arena: &Arena,
    env: Env,
    is_lvalue: bool,
    t: u32,
    out: &mut Text,
) -> Result<(), AllocError>
    requires within { t < size arena.now }
    ensures prints { Prints result out.old out.new ((spec.referred is_lvalue (spec.print (tree_at (forest
        arena.now) t) env)).text.left) }
{
    let referent = referent_of(arena, env, is_lvalue, t);
    match referent.base {
        None => write_mark(referent.is_lvalue, out),
        Some(base) => {
            tri!(print_left(arena, env, base, out));
            tri!(write_opened(form_of(arena, env, base), out));
            write_mark(referent.is_lvalue, out)
        }
    }
}

#[inline(never)]
#[cycle(printer)]
fn right_reference(
    arena: &Arena,
    env: Env,
    is_lvalue: bool,
    t: u32,
    out: &mut Text,
) -> Result<(), AllocError>
    requires within { t < size arena.now }
    ensures prints { Prints result out.old out.new ((spec.referred is_lvalue (spec.print (tree_at (forest
        arena.now) t) env)).text.right) }
{
    match referent_of(arena, env, is_lvalue, t).base {
        None => Ok(()),
        Some(base) => right_behind(arena, env, base, out),
    }
}

#[inline(never)]
#[cycle(printer)]
fn left_member(
    arena: &Arena,
    env: Env,
    class: u32,
    member: u32,
    out: &mut Text,
) -> Result<(), AllocError>
    requires class { class < size arena.now }
    requires member { member < size arena.now }
    ensures prints { Prints result out.old out.new ((spec.member_of env.style (spec.print (tree_at (forest
        arena.now) class) env) (spec.print (tree_at (forest arena.now) member) env)).text.left) }
{
    tri!(print_left(arena, env, member, out));
    tri!(write(out, member_opened(env.style, form_of(arena, env, member))));
    tri!(print(arena, env, class, out));
    write(out, b"::*")
}

#[cycle(printer)]
fn right_array(
    arena: &Arena,
    env: Env,
    element: u32,
    dimension: Parts,
    joined: bool,
    out: &mut Text,
) -> Result<(), AllocError>
    requires element { element < size arena.now }
    requires dimension { IsPartsBelow arena.now.held (size arena.now) dimension }
    ensures prints { Prints result out.old out.new (spec.right_behind joined (spec.arrayed (spec.print (tree_at
        (forest arena.now) element) env) (spec.print_parts (parts_in arena.now.held (forest arena.now) dimension)
        env)).text) }
{
    tri!(write_blank_unless(joined, out));
    tri!(write(out, b"["));
    tri!(print_parts(arena, env, dimension, out));
    tri!(write(out, b"]"));
    print_right(arena, env, element, true, out)
}

#[inline(never)]
#[cycle(printer)]
fn left_function(arena: &Arena, env: Env, ret: u32, out: &mut Text) -> Result<(), AllocError>
    requires ret { ret < size arena.now }
    ensures prints { Prints result out.old out.new ((spec.print (tree_at (forest arena.now) ret) env).text.left ++
        spec.function_blank env (spec.print (tree_at (forest arena.now) ret) env)) }
{
    tri!(print_left(arena, env, ret, out));
    let is_joined = !env.is_llvm() && is_starred(arena, env, ret) && has_right(arena, env, ret);
    write_blank_unless(is_joined, out)
}

#[inline(never)]
#[cycle(printer)]
fn right_function(
    arena: &Arena,
    env: Env,
    function: &Function,
    out: &mut Text,
) -> Result<(), AllocError>
    requires below { IsBelow arena.now.held (size arena.now) (node.Function function.now) }
    ensures prints { Prints result out.old out.new
        ((spec.called env (spec.print (tree_at (forest arena.now) function.now.ret) env)
        (spec.items_of (trees_in arena.now.held (forest arena.now) function.now.params))
        function.now.cv function.now.ref_qual
        (spec.print_parts (parts_in arena.now.held (forest arena.now) function.now.exception) env)).text.right) }
{
    tri!(print_parens(arena, env, function.params, out));
    if env.is_llvm() {
        tri!(print_right(arena, env, function.ret, false, out));
        tri!(write_cv(function.cv, out));
        tri!(write_ref(function.ref_qual, out));
        return print_parts(arena, env, function.exception, out);
    }
    tri!(print_parts(arena, env, function.exception, out));
    tri!(write_cv(function.cv, out));
    tri!(write_ref(function.ref_qual, out));
    print_right(arena, env, function.ret, false, out)
}

#[inline(always)]
#[cycle(printer)]
fn left_encoding(
    arena: &Arena,
    env: Env,
    encoding: &Encoding,
    out: &mut Text,
) -> Result<(), AllocError>
    requires below { IsBelow arena.now.held (size arena.now) (node.Encoding encoding.now) }
    ensures prints { Prints result out.old out.new
        (spec.of_return spec.left_of env (spec.items_of (option_at (forest arena.now) encoding.now.ret))
        ++ spec.whole (spec.print (tree_at (forest arena.now) encoding.now.name) env)) }
{
    if let Some(t) = encoding.ret {
        tri!(left_non_type(arena, env, t, out));
    }
    print(arena, env, encoding.name, out)
}

#[cycle(printer)]
fn right_ret(arena: &Arena, env: Env, ret: Option<u32>, out: &mut Text) -> Result<(), AllocError>
    requires ret { IsOptionBelow (size arena.now) ret }
    ensures prints { Prints result out.old out.new (spec.of_return spec.behind env (spec.items_of (option_at (forest
        arena.now) ret))) }
{
    match ret {
        None => Ok(()),
        Some(t) => print_right(arena, env, t, false, out),
    }
}

#[inline(always)]
#[cycle(printer)]
fn right_encoding(
    arena: &Arena,
    env: Env,
    encoding: &Encoding,
    out: &mut Text,
) -> Result<(), AllocError>
    requires below { IsBelow arena.now.held (size arena.now) (node.Encoding encoding.now) }
    ensures prints { Prints result out.old out.new (spec.signature_right env
        (spec.of_return spec.behind env (spec.items_of (option_at (forest arena.now) encoding.now.ret)))
        (spec.items_of (trees_in arena.now.held (forest arena.now) encoding.now.params))
        encoding.now.cv encoding.now.ref_qual
        (spec.print_parts (parts_in arena.now.held (forest arena.now) encoding.now.clauses) env)) }
{
    tri!(print_parens(arena, env, encoding.params, out));
    if env.is_llvm() {
        tri!(right_ret(arena, env, encoding.ret, out));
        return print_qualifiers(arena, env, encoding, out);
    }
    tri!(write_cv(encoding.cv, out));
    tri!(write_ref(encoding.ref_qual, out));
    tri!(right_ret(arena, env, encoding.ret, out));
    print_parts(arena, env, encoding.clauses, out)
}

// Appends the qualifiers of a function, and what follows them.
#[inline(always)]
#[cycle(printer)]
fn print_qualifiers(
    arena: &Arena,
    env: Env,
    encoding: &Encoding,
    out: &mut Text,
) -> Result<(), AllocError>
    requires below { IsBelow arena.now.held (size arena.now) (node.Encoding encoding.now) }
    ensures prints { Prints result out.old out.new
        (words.cv_text encoding.now.cv ++ (words.ref_text encoding.now.ref_qual
        ++ (spec.print_parts (parts_in arena.now.held (forest arena.now) encoding.now.clauses) env).text)) }
{
    tri!(write_cv(encoding.cv, out));
    tri!(write_ref(encoding.ref_qual, out));
    if arena.parts_of(encoding.clauses).is_empty() {
        return Ok(());
    }
    print_parts(arena, env, encoding.clauses, out)
}
