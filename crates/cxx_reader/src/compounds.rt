//! Types of functions, arrays, vectors and pointers to members (Itanium C++ ABI 5.1.5).
#![tactic(auto, using(crate::proofs::Rules::productions), unfolding(cxx_tree::specs::Grows::Makes, cxx_tree::specs::Stored::tree_of, cxx_tree::specs::Stored::plain_tree, cxx_tree::specs::Stored::IsBelow, cxx_tree::specs::Stored::IsPlainBelow, cxx_tree::specs::Stored::stands, crate::specs::Outcome::list_trees, cxx_grammar::specs::Types::exception_as, cxx_grammar::specs::Types::parse_dimension))]

ghost use Rattle.std.specs.Prelude.{◌≡◌, ℕ, ◌<◌, ◌≤◌, length, take, OnOk, IfSome, option_map};
ghost use Rattle.abi_scalars.specs.Texts.{begins_source};
ghost use Rattle.cxx_tree.specs.Stored.{stands};
ghost use Rattle.cxx_tree.specs.Kept.{KeepsNodes, IsNode};
ghost use Rattle.cxx_grammar.specs.Cases.{case_of_exception};
ghost use Rattle.cxx_grammar.specs.Parses.{saved};
ghost use Rattle.cxx_grammar.specs.Types as spec;
ghost use Rattle.cxx_grammar.specs.Symbol.{productions};
ghost use Rattle.cxx_reader.specs.Outcome.{state, trees_behind, list_trees, Keeps, KeepsFront, Moves, Gives, GivesOption, GivesFrom, GivesUnit};

use crate::cases::{begins, exception_case};
use crate::reader::Reader;
use crate::rows::{read_items, read_list, read_row, read_size};
use crate::specials::computed_noexcept_row;
use crate::types::read_type;
use abi_scalars::texts::begins_source;
use cxx_grammar::cases::ExceptionCase;
use cxx_grammar::rows::{End, Item};
use cxx_tree::{Cv, Node, NodeText, Plain, Prec, Stop};

/// Reads `<function-type> ::= [<CV-qualifiers>] [<exception-spec>] [Dx] F [Y] <bare-function-type> [<ref-qualifier>] E`,
/// and saves it.
#[cycle(reader)]
#[inline(never)]
pub fn read_function_type(reader: &mut Reader, depth: usize) -> Result<u32, Stop>
    ensures reads { Gives result reader.new (saved (spec.parse_function_type (productions depth)) (state reader.old)) }
    ensures moves { OnOk result (Moves reader.old reader.new) }
{
    let cv = reader.read_cv();
    let exception = tri!(read_exception(reader, depth));
    tri!(reader.skip_function_mark());
    let t = tri!(read_function_inside(reader, depth, cv, exception));
    tri!(reader.arena.save(t));
    Ok(t)
}

// Reads `<bare-function-type> [<ref-qualifier>] E`.
#[cycle(reader)]
fn read_function_inside(
    reader: &mut Reader,
    depth: usize,
    cv: Cv,
    exception: Option<u32>,
) -> Result<u32, Stop>
    requires exception { IfSome exception (IsNode reader.old.arena) }
    ensures reads { Gives result reader.new (spec.parse_function_inside (productions depth) cv
        (option_map (stands reader.old.arena) exception) (state reader.old)) }
    ensures keeps { OnOk result (Keeps reader.old reader.new) }
{
    let ret = tri!(read_type(reader, depth, false));
    let from = reader.arena.pending_len();
    tri!(read_function_params(reader, depth));
    reader.make_function_type(cv, exception, ret, from)
}

// Reads `[<exception-spec>]`.
#[cycle(reader)]
fn read_exception(reader: &mut Reader, depth: usize) -> Result<Option<u32>, Stop>
    ensures reads { GivesOption result reader.new (spec.exception_as (productions depth)
        (case_of_exception reader.old.rest.now) (state reader.old)) }
    ensures keeps { OnOk result (Keeps reader.old reader.new) }
{
    match exception_case(reader.rest) {
        ExceptionCase::Noexcept => {
            let word = tri!(reader.read_noexcept());
            Ok(Some(word))
        }
        ExceptionCase::Computed => {
            let exception = tri!(read_row(reader, depth, computed_noexcept_row()));
            Ok(Some(exception))
        }
        ExceptionCase::Throw => {
            let exception = tri!(read_throw(reader, depth));
            Ok(Some(exception))
        }
        ExceptionCase::None => Ok(None),
    }
}

// Reads `Dw <type>* E`.
#[cycle(reader)]
fn read_throw(reader: &mut Reader, depth: usize) -> Result<u32, Stop>
    ensures reads { Gives result reader.new (spec.parse_throw (productions depth) (state reader.old)) }
    ensures keeps { OnOk result (Keeps reader.old reader.new) }
{
    let types = tri!(read_list(reader, depth, 2, Item::Type));
    let list = tri!(reader.make(Node::Plain(Plain::Several(types))));
    let word = NodeText::Fixed(b"throw");
    reader.arena.make_enclosing(word, word, list, Prec::Primary)
}

// Reads `v | <type>*` up to the end of the function, and collects the nodes.
#[cycle(reader)]
fn read_function_params(reader: &mut Reader, depth: usize) -> Result<(), Stop>
    ensures reads { GivesFrom result (length reader.old.arena.pending) reader.new
        (spec.parse_function_params (productions depth) (state reader.old)) }
    ensures keeps { OnOk result (KeepsFront (length reader.old.arena.pending) reader.old reader.new) }
{
    if reader.skip_letter(b'v') {
        return Ok(());
    }
    let from = reader.arena.pending_len();
    read_items(reader, depth, Item::Param, End::Function, from)
}

/// Reads `<array-type> ::= A [<size>] _ <type>`, and saves it.
#[cycle(reader)]
#[inline(never)]
pub fn read_array_type(reader: &mut Reader, depth: usize, is_bare: bool) -> Result<u32, Stop>
    ensures reads { Gives result reader.new (saved (spec.parse_array_type (productions depth) is_bare)
        (state reader.old)) }
    ensures moves { OnOk result (Moves reader.old reader.new) }
{
    reader.skip(1);
    let dimension = tri!(read_dimension(reader, depth));
    let element = tri!(read_type(reader, depth, is_bare));
    let t = tri!(reader.arena.make_array(element, dimension));
    tri!(reader.arena.save(t));
    Ok(t)
}

/// Reads `<vector-type> ::= Dv [<size>] _ <type> | Dv <number> _ p`, and saves it.
#[cycle(reader)]
#[inline(never)]
pub fn read_vector_type(reader: &mut Reader, depth: usize, is_bare: bool) -> Result<u32, Stop>
    ensures reads { Gives result reader.new (saved (spec.parse_vector_type (productions depth) is_bare)
        (state reader.old)) }
    ensures moves { OnOk result (Moves reader.old reader.new) }
{
    reader.skip(2);
    if begins(reader.rest, b'0') {
        return Err(Stop::Unreadable);
    }
    let is_number = begins_source(reader.rest);
    let dimension = tri!(read_dimension(reader, depth));
    let element = tri!(read_element(reader, depth, is_bare, is_number));
    let t = tri!(reader.arena.make_vector(element, dimension));
    tri!(reader.arena.save(t));
    Ok(t)
}

// Reads `[<size>] _`.
#[cycle(reader)]
fn read_dimension(reader: &mut Reader, depth: usize) -> Result<Option<u32>, Stop>
    ensures reads { GivesOption result reader.new (spec.parse_dimension (productions depth) (state reader.old)) }
    ensures moves { OnOk result (Moves reader.old reader.new) }
{
    if reader.skip_letter(b'_') {
        return Ok(None);
    }
    let size = tri!(read_size(reader, depth));
    Ok(Some(size))
}

// Reads the type of the elements of a vector, which may be `p` behind a number.
#[cycle(reader)]
fn read_element(
    reader: &mut Reader,
    depth: usize,
    is_bare: bool,
    is_number: bool,
) -> Result<u32, Stop>
    ensures reads { Gives result reader.new (spec.parse_element (productions depth) is_bare is_number
        (state reader.old)) }
    ensures moves { OnOk result (Moves reader.old reader.new) }
{
    if is_number && reader.skip_letter(b'p') {
        return reader.arena.make_fixed(b"pixel");
    }
    read_type(reader, depth, is_bare)
}

/// Reads `<pointer-to-member-type> ::= M <class type> <member type>`, and saves it.
#[cycle(reader)]
#[inline(never)]
pub fn read_member_pointer(reader: &mut Reader, depth: usize, is_bare: bool) -> Result<u32, Stop>
    ensures reads { Gives result reader.new (saved (spec.parse_member_pointer (productions depth) is_bare)
        (state reader.old)) }
    ensures moves { OnOk result (Moves reader.old reader.new) }
{
    reader.skip(1);
    let class = tri!(read_type(reader, depth, false));
    let member = tri!(read_type(reader, depth, is_bare));
    reader.make_saved(Node::MemberPointer(class, member))
}
