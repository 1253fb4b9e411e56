//! The printings of a symbol.
#![tactic(auto, using(crate::proofs::Appended::prints), unfolding(cxx_tree::specs::Stored::tree_of, cxx_tree::specs::Stored::plain_tree, cxx_tree::specs::Stored::declaration_tree, cxx_tree::specs::Stored::IsBelow, crate::specs::Symbol::mode_text, crate::specs::Symbol::block_text, crate::specs::Symbol::suffix_text, crate::specs::Symbol::symbol_in))]

ghost use Rattle.std.specs.Prelude.{◌≡◌, ◌<◌, ◌++◌, take, length, Some, IfSome};
ghost use Rattle.cxx_tree.specs.Stored.{forest, size, tree_at, IsText};
ghost use Rattle.cxx_printer.specs.Prints.{Prints};
ghost use Rattle.cxx_printer.specs.Symbol as spec;

use crate::env::{Env, Style};
use crate::print::{print, print_encoding, print_signature};
use crate::shapes::node_at;
use crate::writing::{write, write_behind};
use cxx_tree::{Arena, Node, NodeText};
use growing_text::Text;
use std::alloc::AllocError;

/// What of a function is printed. Whatever else a symbol stands for is printed whole.
#[derive(Clone, Copy, PartialEq)]
pub enum Mode {
    /// The name.
    Name,
    /// The name and the parameters, without the return type.
    Signature,
    /// The declaration.
    Declaration,
}

/// What a symbol is read as.
#[derive(Clone, Copy)]
pub struct Symbol {
    /// The index of a node.
    pub tree: u32,
    /// The symbol is that of a block's function.
    pub is_block: bool,
    /// What follows from a dot.
    pub suffix: Option<NodeText>,
}

/// Appends what a symbol prints.
pub fn print_symbol(
    arena: &Arena,
    symbol: Symbol,
    mode: Mode,
    style: Style,
    out: &mut Text,
) -> Result<(), AllocError>
    requires within { symbol.tree < size arena.now }
    requires suffix { IfSome symbol.suffix (IsText arena.now.held) }
    ensures prints { Prints result out.old out.new (spec.symbol_text mode style (spec.symbol_at arena.now symbol)) }
{
    let env = Env::top(style);
    tri!(write_block(symbol.is_block, out));
    tri!(print_mode(arena, env, symbol.tree, mode, out));
    match symbol.suffix {
        None => Ok(()),
        Some(suffix) => print_suffix(env, arena.bytes(suffix), out),
    }
}

// Appends what stands in front of a symbol of a block's function.
fn write_block(is_block: bool, out: &mut Text) -> Result<(), AllocError>
    ensures prints { Prints result out.old out.new (spec.block_text is_block) }
{
    if is_block {
        return write(out, b"invocation function for block in ");
    }
    Ok(())
}

#[inline(always)]
fn print_mode(arena: &Arena, env: Env, i: u32, mode: Mode, out: &mut Text) -> Result<(), AllocError>
    requires within { i < size arena.now }
    ensures prints { Prints result out.old out.new (spec.mode_text mode env (tree_at (forest arena.now) i)) }
{
    match *node_at(arena, i) {
        Node::Encoding(ref encoding) => match mode {
            Mode::Name => print(arena, env, encoding.name, out),
            Mode::Signature => print_signature(arena, env, encoding, out),
            Mode::Declaration => print_encoding(arena, env, encoding, out),
        },
        _ => print(arena, env, i, out),
    }
}

// Appends what follows from a dot.
fn print_suffix(env: Env, suffix: &[u8], out: &mut Text) -> Result<(), AllocError>
    ensures prints { Prints result out.old out.new (spec.suffix_text env (Some suffix.now)) }
{
    if !env.is_llvm() {
        return print_pieces(suffix, out);
    }
    tri!(write(out, b" ("));
    tri!(write(out, suffix));
    write(out, b")")
}

// Appends a suffix in pieces. The first one begins where the suffix does.
#[tactic(auto, using(crate::proofs::Appended::prints), unfolding(crate::specs::Symbol::pieces_text))]
fn print_pieces(suffix: &[u8], out: &mut Text) -> Result<(), AllocError>
    ensures prints { Prints result out.old out.new (spec.pieces_text suffix.now) }
{
    match suffix {
        [] => Ok(()),
        [_, behind @ ..] => {
            tri!(write(out, b" [clone "));
            tri!(write(out, &suffix[..1]));
            print_behind(behind, out)
        }
    }
}

// Appends the bytes of a suffix after its first one.
fn print_behind(behind: &[u8], out: &mut Text) -> Result<(), AllocError>
    ensures prints { Prints result out.old out.new (spec.pieces_behind behind.now) }
{
    for k in 0..behind.len() {
        tri!(print_byte(&behind[k..], out));
    }
    write(out, b"]")
}

// Appends the first byte of what is left of a suffix, after what stands between two pieces if it begins one.
#[tactic(auto, using(crate::proofs::Appended::prints), unfolding(crate::specs::Symbol::between))]
fn print_byte(rest: &[u8], out: &mut Text) -> Result<(), AllocError>
    requires some { 0 < length rest.now }
    ensures prints { Prints result out.old out.new (spec.between rest.now ++ take 1 rest.now) }
{
    if is_piece(rest) {
        return write_behind(out, b"] [clone ", &rest[..1]);
    }
    write(out, &rest[..1])
}

// Whether a piece begins here: with a dot that no digit follows.
#[tactic(auto, unfolding(crate::specs::Symbol::is_piece, crate::specs::Symbol::is_digit_first))]
fn is_piece(bytes: &[u8]) -> bool
    ensures value { result ≡ spec.is_piece bytes.now }
{
    match bytes {
        [b'.', b'0'..=b'9', ..] => false,
        [b'.', ..] => true,
        _ => false,
    }
}
