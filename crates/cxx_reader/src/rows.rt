//! Lists of items, and productions that are a row of items.
#![tactic(auto, using(crate::proofs::Rules::productions), unfolding(cxx_tree::specs::Grows::Makes, cxx_tree::specs::Stored::stands, crate::specs::Outcome::named_at, cxx_grammar::specs::Rows::tree_as, cxx_grammar::specs::Rows::item_as, cxx_grammar::specs::Rows::ends, cxx_grammar::specs::Rows::parse_params, cxx_grammar::specs::Rows::parse_size))]

ghost use Rattle.std.specs.Prelude.{◌≡◌, ℕ, ◌<◌, ◌≤◌, length, drop, true, OnOk};
ghost use Rattle.std.specs.List.{AllByRecursion};
ghost use Rattle.cxx_tree.specs.Kept.{IsNode};
ghost use Rattle.cxx_grammar.specs.Parses.{item_more};
ghost use Rattle.cxx_grammar.specs.Productions.{name_tree};
ghost use Rattle.cxx_grammar.specs.Rows as spec;
ghost use Rattle.cxx_grammar.specs.Symbol.{productions};
ghost use Rattle.cxx_reader.specs.Outcome.{state, trees_behind, Keeps, KeepsFront, Moves, Gives, GivesFrom, GivesList};
ghost use Rattle.cxx_grammar.specs.declared.rows.Item.TheVariants.{Param as param, Operands as operands};
ghost use Rattle.cxx_reader.specs.Rows.{row_at};

use crate::args::{read_arg, read_constrained_arg};
use crate::cases::{begins, begins_digit, is_function_end, is_lambda_end, is_params_end};
use crate::encodings::read_encoding;
use crate::expressions::{read_braced, read_expression};
use crate::names::read_name;
use crate::reader::Reader;
use crate::requirements::read_requirement;
use crate::types::read_type;
use cxx_grammar::rows::{End, Item, Row};
use cxx_tree::{List, NodeText, Prec, Stop};

/// Reads a row, and makes the node of its items.
#[cycle(reader)]
#[inline(never)]
pub fn read_row(reader: &mut Reader, depth: usize, row: Row) -> Result<u32, Stop>
    requires some { 0 < row.skip }
    requires rest { 0 < length reader.old.rest.now }
    ensures reads { Gives result reader.new (spec.parse_row (productions depth) (row_at row) (state reader.old)) }
    ensures moves { OnOk result (Moves reader.old reader.new) }
{
    reader.skip(row.skip);
    let from = reader.arena.pending_len();
    tri!(read_row_items(reader, depth, row.items, from));
    reader.make_row(row, from)
}

// Reads items one after the other, and collects their nodes.
#[cycle(reader)]
#[inline(never)]
fn read_row_items(
    reader: &mut Reader,
    depth: usize,
    items: &[Item],
    from: usize,
) -> Result<(), Stop>
    requires within { from ≤ length reader.old.arena.pending }
    requires nodes { AllByRecursion (IsNode reader.old.arena) (drop from reader.old.arena.pending) }
    ensures reads { GivesFrom result from reader.new (spec.parse_items (productions depth)
        (trees_behind from reader.old.arena) items.now (state reader.old)) }
    ensures keeps { OnOk result (KeepsFront from reader.old reader.new) }
{
    for item in items {
        tri!(read_item(reader, depth, *item, from));
    }
    Ok(())
}

// Reads an item, and collects its node.
#[cycle(reader)]
#[inline(always)]
fn read_item(reader: &mut Reader, depth: usize, item: Item, from: usize) -> Result<(), Stop>
    requires within { from ≤ length reader.old.arena.pending }
    requires nodes { AllByRecursion (IsNode reader.old.arena) (drop from reader.old.arena.pending) }
    ensures reads { GivesFrom result from reader.new (spec.item_as (productions depth)
        (trees_behind from reader.old.arena) item (state reader.old)) }
    ensures keeps { OnOk result (KeepsFront from reader.old reader.new) }
{
    match item {
        Item::Expressions => read_rest(reader, depth, Item::Expression, from),
        Item::Braces => read_rest(reader, depth, Item::Braced, from),
        Item::Args => read_rest(reader, depth, Item::Arg, from),
        Item::SourceNames => read_rest(reader, depth, Item::SourceName, from),
        Item::Operands => read_operands(reader, depth, from),
        Item::Offset => reader.skip_offset(),
        Item::CallOffset => reader.skip_call_offset(),
        Item::SeqId => reader.skip_seq_id(),
        Item::Number => reader.skip_optional_number(),
        Item::E => reader.expect(b'E'),
        _ => collect(reader, depth, item, from),
    }
}

// Reads the items of a list up to an `E`, which is read too, and collects their nodes.
#[cycle(reader)]
#[inline(never)]
fn read_rest(reader: &mut Reader, depth: usize, item: Item, from: usize) -> Result<(), Stop>
    requires within { from ≤ length reader.old.arena.pending }
    requires nodes { AllByRecursion (IsNode reader.old.arena) (drop from reader.old.arena.pending) }
    ensures reads { GivesFrom result from reader.new (spec.rest_after (productions depth) item
        (trees_behind from reader.old.arena) (state reader.old)) }
    ensures keeps { OnOk result (KeepsFront from reader.old reader.new) }
{
    tri!(read_items(reader, depth, item, End::E, from));
    reader.skip(1);
    Ok(())
}

// Reads `<expression>` or `_ <expression>* E`, and collects the nodes.
#[cycle(reader)]
fn read_operands(reader: &mut Reader, depth: usize, from: usize) -> Result<(), Stop>
    requires within { from ≤ length reader.old.arena.pending }
    requires nodes { AllByRecursion (IsNode reader.old.arena) (drop from reader.old.arena.pending) }
    ensures reads { GivesFrom result from reader.new (spec.item_as (productions depth)
        (trees_behind from reader.old.arena) operands (state reader.old)) }
    ensures keeps { OnOk result (KeepsFront from reader.old reader.new) }
{
    if begins(reader.rest, b'_') {
        return read_operand_list(reader, depth, from);
    }
    collect(reader, depth, Item::Expression, from)
}

// Reads `_ <expression>* E`, and collects the nodes.
#[cycle(reader)]
fn read_operand_list(reader: &mut Reader, depth: usize, from: usize) -> Result<(), Stop>
    requires within { from ≤ length reader.old.arena.pending }
    requires nodes { AllByRecursion (IsNode reader.old.arena) (drop from reader.old.arena.pending) }
    ensures reads { GivesFrom result from reader.new (spec.parse_operands (productions depth)
        (trees_behind from reader.old.arena) (state reader.old)) }
    ensures keeps { OnOk result (KeepsFront from reader.old reader.new) }
{
    reader.skip(1);
    read_rest(reader, depth, Item::Expression, from)
}

/// Reads the items of a list up to its end, and collects their nodes. Those that were collected from `from` on are
/// items of the same list.
#[cycle(reader)]
#[inline(always)]
pub fn read_items(
    reader: &mut Reader,
    depth: usize,
    item: Item,
    end: End,
    from: usize,
) -> Result<(), Stop>
    requires within { from ≤ length reader.old.arena.pending }
    requires nodes { AllByRecursion (IsNode reader.old.arena) (drop from reader.old.arena.pending) }
    ensures reads { GivesFrom result from reader.new (spec.list_after (productions depth) item end
        (trees_behind from reader.old.arena) (state reader.old)) }
    ensures keeps { OnOk result (KeepsFront from reader.old reader.new) }
    ensures end { OnOk result (spec.ends end reader.new.rest.now ≡ true) }
{
    while !is_end(reader.rest, end) {
        tri!(collect(reader, depth, item, from));
    }
    Ok(())
}

/// Reads items up to an `E`, behind n letters.
#[cycle(reader)]
#[inline(always)]
pub fn read_list(reader: &mut Reader, depth: usize, n: usize, item: Item) -> Result<List, Stop>
    ensures reads { GivesList result reader.new (spec.parse_list (productions depth) n item (state reader.old)) }
    ensures moves { OnOk result (Moves reader.old reader.new) }
{
    reader.skip(n);
    let from = reader.arena.pending_len();
    tri!(read_items(reader, depth, item, End::E, from));
    reader.skip(1);
    reader.arena.list_from(from)
}

/// Reads `v | <type>+` up to an end, and collects the nodes. The first type is an item of its own.
#[cycle(reader)]
#[inline(always)]
pub fn read_params(reader: &mut Reader, depth: usize, first: Item, end: End) -> Result<(), Stop>
    ensures reads { GivesFrom result (length reader.old.arena.pending) reader.new
        (spec.parse_params (productions depth) first end (state reader.old)) }
    ensures keeps { OnOk result (KeepsFront (length reader.old.arena.pending) reader.old reader.new) }
{
    if reader.skip_letter(b'v') {
        return Ok(());
    }
    read_some_params(reader, depth, first, end)
}

// Reads `<type>+` up to an end.
#[cycle(reader)]
#[inline(always)]
fn read_some_params(reader: &mut Reader, depth: usize, first: Item, end: End) -> Result<(), Stop>
    ensures reads { GivesFrom result (length reader.old.arena.pending) reader.new
        (spec.parse_some_params (productions depth) first end (state reader.old)) }
    ensures keeps { OnOk result (KeepsFront (length reader.old.arena.pending) reader.old reader.new) }
{
    let from = reader.arena.pending_len();
    let param = tri!(read_tree(reader, depth, first));
    tri!(reader.arena.add(param));
    read_items(reader, depth, Item::Type, end, from)
}

// Reads an item that has a node, and collects it.
#[cycle(reader)]
#[inline(always)]
fn collect(reader: &mut Reader, depth: usize, item: Item, from: usize) -> Result<(), Stop>
    requires within { from ≤ length reader.old.arena.pending }
    requires nodes { AllByRecursion (IsNode reader.old.arena) (drop from reader.old.arena.pending) }
    ensures reads { GivesFrom result from reader.new (item_more (spec.tree_as (productions depth) item)
        (trees_behind from reader.old.arena) (state reader.old)) }
    ensures keeps { OnOk result (KeepsFront from reader.old reader.new) }
    ensures takes { OnOk result (length reader.new.rest.now < length reader.old.rest.now) }
{
    let i = tri!(read_tree(reader, depth, item));
    reader.arena.add(i)
}

// Reads an item that has a node.
#[cycle(reader)]
#[inline(always)]
fn read_tree(reader: &mut Reader, depth: usize, item: Item) -> Result<u32, Stop>
    ensures reads { Gives result reader.new (spec.tree_as (productions depth) item (state reader.old)) }
    ensures moves { OnOk result (Moves reader.old reader.new) }
{
    match item {
        Item::Type => read_type(reader, depth, false),
        Item::Param => read_param(reader, depth),
        Item::BareType => read_type(reader, depth, true),
        Item::Object => read_object(reader, depth),
        Item::Expression => read_expression(reader, depth),
        Item::Braced => read_braced(reader, depth),
        Item::SourceName => reader.read_source_name(),
        Item::Module => reader.read_module(),
        Item::TemplateParam => reader.read_template_param(),
        Item::FunctionParam => reader.read_function_param(),
        Item::Size => read_size(reader, depth),
        Item::Name => read_name_tree(reader, depth),
        Item::ConstrainedArg => read_constrained_arg(reader, depth),
        Item::Arg => read_arg(reader, depth),
        Item::Requirement => read_requirement(reader, depth),
        Item::Encoding => read_encoding(reader, depth),
        _ => Err(Stop::Unreadable),
    }
}

// Reads `<type>` that isn't `void`.
#[cycle(reader)]
fn read_param(reader: &mut Reader, depth: usize) -> Result<u32, Stop>
    ensures reads { Gives result reader.new (spec.tree_as (productions depth) param (state reader.old)) }
    ensures moves { OnOk result (Moves reader.old reader.new) }
{
    if begins(reader.rest, b'v') {
        return Err(Stop::Unreadable);
    }
    read_type(reader, depth, false)
}

// Reads `<type>` that is the object of a function.
#[cycle(reader)]
fn read_object(reader: &mut Reader, depth: usize) -> Result<u32, Stop>
    ensures reads { Gives result reader.new (spec.parse_object (productions depth) (state reader.old)) }
    ensures moves { OnOk result (Moves reader.old reader.new) }
{
    let t = tri!(read_type(reader, depth, false));
    reader.arena.make_prefixed(
        NodeText::Fixed(b"this "),
        NodeText::Fixed(b"this "),
        t,
        Prec::Primary,
    )
}

/// Reads `<number> _` or `<expression> _`, the size of an array, of a vector or of an integer.
#[cycle(reader)]
pub fn read_size(reader: &mut Reader, depth: usize) -> Result<u32, Stop>
    ensures reads { Gives result reader.new (spec.parse_size (productions depth) (state reader.old)) }
    ensures moves { OnOk result (Moves reader.old reader.new) }
{
    let size = tri!(read_size_inside(reader, depth));
    tri!(reader.expect(b'_'));
    Ok(size)
}

// Reads `<number>` or `<expression>`.
#[cycle(reader)]
fn read_size_inside(reader: &mut Reader, depth: usize) -> Result<u32, Stop>
    ensures reads { Gives result reader.new (spec.parse_size_inside (productions depth) (state reader.old)) }
    ensures keeps { OnOk result (Keeps reader.old reader.new) }
{
    if begins_digit(reader.rest) {
        return reader.read_number_size();
    }
    read_expression(reader, depth)
}

/// Reads `<name>`, of which nothing else matters.
#[cycle(reader)]
#[inline(always)]
pub fn read_name_tree(reader: &mut Reader, depth: usize) -> Result<u32, Stop>
    ensures reads { Gives result reader.new (name_tree (productions depth) (state reader.old)) }
    ensures moves { OnOk result (Moves reader.old reader.new) }
{
    let name = tri!(read_name(reader, depth));
    Ok(name.node)
}

// Returns whether a list ends here.
#[inline(always)]
fn is_end(bytes: &[u8], end: End) -> bool
    ensures value { result ≡ spec.ends end bytes.now }
{
    match end {
        End::E => begins(bytes, b'E'),
        End::Encoding => is_params_end(bytes),
        End::Lambda => is_lambda_end(bytes),
        End::Function => is_function_end(bytes),
        End::Underscore => begins(bytes, b'_'),
    }
}
