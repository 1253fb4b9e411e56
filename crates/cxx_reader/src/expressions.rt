//! Expressions (Itanium C++ ABI 5.1.6).
#![tactic(auto, using(crate::proofs::Rules::productions), unfolding(cxx_tree::specs::Grows::Makes, cxx_tree::specs::Stored::stands, crate::specs::Outcome::list_trees, cxx_grammar::specs::Parses::past_word_if, cxx_grammar::specs::Expressions::parse_offset_end, cxx_grammar::specs::Expressions::expression_as, cxx_grammar::specs::Expressions::parse_vendor_operands))]

ghost use Rattle.std.specs.Prelude.{◌≡◌, ℕ, ◌<◌, ◌≤◌, length, OnOk, Some};
ghost use Rattle.cxx_tree.specs.Kept.{IsNode};
ghost use Rattle.cxx_tree.specs.Phrases.{call, new_expression, requires_expression, subobject};
ghost use Rattle.cxx_tree.specs.Stored.{size, stands, IsListBelow};
ghost use Rattle.cxx_tree.specs.Texts.{number_printed};
ghost use Rattle.cxx_grammar.specs.Expressions as spec;
ghost use Rattle.cxx_grammar.specs.Parses.{make};
ghost use Rattle.cxx_grammar.specs.Leaves.{make_name};
ghost use Rattle.cxx_grammar.specs.Symbol.{productions};
ghost use Rattle.cxx_reader.specs.Outcome.{state, list_trees, Keeps, Moves, Gives, GivesList, GivesNumber, Copies};

use crate::args::read_literal;
use crate::cases::{begins, begins_values, expression_case};
use crate::operators::{braced_row, expression_row};
use crate::reader::Reader;
use crate::rows::{read_items, read_list, read_row};
use crate::types::read_type;
use crate::unresolved::{read_global_name, read_unresolved_name};
use abi_scalars::texts::optional_number_text;
use cxx_grammar::cases::ExpressionCase;
use cxx_grammar::rows::{End, Item};
use cxx_tree::{List, NodeText, Stop};

/// Reads `<expression>`. At most `depth` counted productions may nest, this one included.
#[cycle(reader)]
pub fn read_expression(reader: &mut Reader, depth: usize) -> Result<u32, Stop>
    ensures reads { Gives result reader.new ((productions depth).expression (state reader.old)) }
    ensures moves { OnOk result (Moves reader.old reader.new) }
{
    if depth == 0 {
        return Err(Stop::Unreadable);
    }
    let depth = depth - 1;
    match expression_row(reader.rest) {
        Some(row) => read_row(reader, depth, row),
        None => read_other_expression(reader, depth),
    }
}

/// Reads `<braced-expression>`. At most `depth` counted productions may nest, this one included.
#[cycle(reader)]
pub fn read_braced(reader: &mut Reader, depth: usize) -> Result<u32, Stop>
    ensures reads { Gives result reader.new ((productions depth).braced (state reader.old)) }
    ensures moves { OnOk result (Moves reader.old reader.new) }
{
    if depth == 0 {
        return Err(Stop::Unreadable);
    }
    let depth = depth - 1;
    match braced_row(reader.rest) {
        Some(row) => read_row(reader, depth, row),
        None => read_expression(reader, depth),
    }
}

// Reads an `<expression>` that is no row.
#[cycle(reader)]
fn read_other_expression(reader: &mut Reader, depth: usize) -> Result<u32, Stop>
    ensures reads { Gives result reader.new (spec.parse_other_expression (productions depth) (state reader.old)) }
    ensures moves { OnOk result (Moves reader.old reader.new) }
{
    match expression_case(reader.rest) {
        ExpressionCase::New(is_global, is_array) => read_new(reader, depth, is_global, is_array),
        ExpressionCase::GlobalName => read_global_name(reader, depth),
        ExpressionCase::Literal => read_literal(reader, depth),
        ExpressionCase::Param => reader.read_template_param(),
        ExpressionCase::FunctionParam => reader.read_function_param(),
        ExpressionCase::Subobject => read_subobject(reader, depth),
        ExpressionCase::Requires(has_params) => read_requires(reader, depth, has_params),
        ExpressionCase::Vendor => read_vendor_expression(reader, depth),
        ExpressionCase::Unread => Err(Stop::Unreadable),
        ExpressionCase::Name => read_unresolved_name(reader, depth),
    }
}

// Reads `[gs] nw <expression>* _ <type> [pi <expression>*] E`, and the same with `na`.
#[cycle(reader)]
#[inline(never)]
fn read_new(reader: &mut Reader, depth: usize, is_global: bool, is_array: bool) -> Result<u32, Stop>
    ensures reads { Gives result reader.new (spec.parse_new (productions depth) is_global is_array
        (state reader.old)) }
    ensures moves { OnOk result (Moves reader.old reader.new) }
{
    let places = tri!(read_to_underscore(reader, depth, new_len(is_global), Item::Expression));
    let t = tri!(read_type(reader, depth, false));
    let values = tri!(read_initializer(reader, depth));
    reader.make_new(places, t, values, is_global, is_array)
}

// How many bytes stand in front of the placement.
fn new_len(is_global: bool) -> usize
    ensures value { result ≡ spec.new_len is_global }
{
    if is_global {
        return 4;
    }
    2
}

// Reads items up to a `_`, behind n letters.
#[cycle(reader)]
fn read_to_underscore(reader: &mut Reader, depth: usize, n: usize, item: Item) -> Result<List, Stop>
    ensures reads { GivesList result reader.new (spec.parse_to_underscore (productions depth) n item
        (state reader.old)) }
    ensures moves { OnOk result (Moves reader.old reader.new) }
{
    reader.skip(n);
    let from = reader.arena.pending_len();
    tri!(read_items(reader, depth, item, End::Underscore, from));
    reader.skip(1);
    reader.arena.list_from(from)
}

// Reads `pi <expression>* E` or `E`.
#[cycle(reader)]
fn read_initializer(reader: &mut Reader, depth: usize) -> Result<List, Stop>
    ensures reads { GivesList result reader.new (spec.parse_initializer (productions depth) (state reader.old)) }
    ensures moves { OnOk result (Moves reader.old reader.new) }
{
    if begins_values(reader.rest) {
        return read_list(reader, depth, 2, Item::Expression);
    }
    reader.read_no_values()
}

// Reads `so <type> <expression> [<number>] <union-selector>* [p] E`.
#[cycle(reader)]
#[inline(never)]
fn read_subobject(reader: &mut Reader, depth: usize) -> Result<u32, Stop>
    ensures reads { Gives result reader.new (spec.parse_subobject (productions depth) (state reader.old)) }
    ensures moves { OnOk result (Moves reader.old reader.new) }
{
    reader.skip(2);
    let t = tri!(read_type(reader, depth, false));
    let e = tri!(read_expression(reader, depth));
    let offset = tri!(reader.read_offset_end());
    reader.make_subobject(t, e, offset)
}

// Reads `rq <requirement>+ E`, or `rQ <type>* _ <requirement>+ E`.
#[cycle(reader)]
#[inline(never)]
fn read_requires(reader: &mut Reader, depth: usize, has_params: bool) -> Result<u32, Stop>
    ensures reads { Gives result reader.new (spec.parse_requires (productions depth) has_params (state reader.old)) }
    ensures moves { OnOk result (Moves reader.old reader.new) }
{
    let params = tri!(read_requires_params(reader, depth, has_params));
    let requirements = tri!(read_requirements(reader, depth));
    reader.make_requires(params, requirements)
}

// Reads `rq`, or `rQ <type>* _`.
#[cycle(reader)]
fn read_requires_params(reader: &mut Reader, depth: usize, has_params: bool) -> Result<List, Stop>
    ensures reads { GivesList result reader.new (spec.parse_requires_params (productions depth) has_params
        (state reader.old)) }
    ensures keeps { OnOk result (Keeps reader.old reader.new) }
{
    if has_params {
        return read_to_underscore(reader, depth, 2, Item::Type);
    }
    reader.read_no_params()
}

// Reads `<requirement>+ E`.
#[cycle(reader)]
fn read_requirements(reader: &mut Reader, depth: usize) -> Result<List, Stop>
    ensures reads { GivesList result reader.new (spec.parse_requirements (productions depth) (state reader.old)) }
    ensures moves { OnOk result (Moves reader.old reader.new) }
{
    if begins(reader.rest, b'E') {
        return Err(Stop::Unreadable);
    }
    read_list(reader, depth, 0, Item::Requirement)
}

// Reads `u <source-name> <template-arg>* E`, or `u8__uuidof` and `t <type>` or `z <expression>`.
#[cycle(reader)]
#[inline(never)]
fn read_vendor_expression(reader: &mut Reader, depth: usize) -> Result<u32, Stop>
    ensures reads { Gives result reader.new (spec.parse_vendor_expression (productions depth) (state reader.old)) }
    ensures moves { OnOk result (Moves reader.old reader.new) }
{
    reader.skip(1);
    let name = tri!(reader.read_identifier());
    let function = tri!(reader.make_function_name(name));
    let args = tri!(read_vendor_operands(reader, depth, name));
    reader.make_call(function, args)
}

// Reads the operands behind the name of an operator of a vendor.
#[cycle(reader)]
fn read_vendor_operands(reader: &mut Reader, depth: usize, name: &[u8]) -> Result<List, Stop>
    ensures reads { GivesList result reader.new (spec.parse_vendor_operands (productions depth) name.now
        (state reader.old)) }
    ensures keeps { OnOk result (Keeps reader.old reader.new) }
{
    if is_uuid(name, reader.rest) {
        return read_uuid_operand(reader, depth);
    }
    read_list(reader, depth, 0, Item::Arg)
}

// Whether the name is that of Microsoft's operator, and a type or an expression follows.
fn is_uuid(name: &[u8], bytes: &[u8]) -> bool
    ensures value { result ≡ spec.is_uuid name.now bytes.now }
{
    match bytes {
        [b't' | b'z', ..] => name == b"__uuidof".as_slice(),
        _ => false,
    }
}

// Reads `t <type>` or `z <expression>`.
#[cycle(reader)]
fn read_uuid_operand(reader: &mut Reader, depth: usize) -> Result<List, Stop>
    ensures reads { GivesList result reader.new (spec.parse_uuid_operand (productions depth) (state reader.old)) }
    ensures keeps { OnOk result (Keeps reader.old reader.new) }
{
    let operand = tri!(read_uuid_tree(reader, depth));
    reader.make_one(operand)
}

// Reads `t <type>` or `z <expression>`.
#[cycle(reader)]
fn read_uuid_tree(reader: &mut Reader, depth: usize) -> Result<u32, Stop>
    ensures reads { Gives result reader.new (spec.parse_uuid_tree (productions depth) (state reader.old)) }
    ensures keeps { OnOk result (Keeps reader.old reader.new) }
{
    if reader.skip_letter(b't') {
        return read_type(reader, depth, false);
    }
    reader.skip(1);
    read_expression(reader, depth)
}

impl<'a> Reader<'a> {
    // Reads `E`, where there are no values.
    fn read_no_values(&mut self) -> Result<List, Stop>
        ensures reads { GivesList result self.new (spec.parse_no_values (state self.old)) }
        ensures moves { OnOk result (Moves self.old self.new) }
    {
        tri!(self.expect(b'E'));
        let from = self.arena.pending_len();
        self.arena.list_from(from)
    }

    // Reads `rq`, behind which there are no parameters.
    fn read_no_params(&mut self) -> Result<List, Stop>
        ensures reads { GivesList result self.new (spec.parse_no_params (state self.old)) }
        ensures keeps { OnOk result (Keeps self.old self.new) }
    {
        self.skip(2);
        let from = self.arena.pending_len();
        self.arena.list_from(from)
    }

    // Makes a requires expression.
    fn make_requires(&mut self, params: List, requirements: List) -> Result<u32, Stop>
        requires params { IsListBelow self.old.arena.held (size self.old.arena) params }
        requires requirements { IsListBelow self.old.arena.held (size self.old.arena) requirements }
        ensures reads { Gives result self.new (make (requires_expression (list_trees self.old.arena params)
            (list_trees self.old.arena requirements)) (state self.old)) }
        ensures keeps { OnOk result (Keeps self.old self.new) }
        ensures rest { OnOk result (self.new.rest.now ≡ self.old.rest.now) }
    {
        self.arena.make_requires(params, requirements)
    }

    // Makes a `new` expression.
    fn make_new(
        &mut self,
        places: List,
        t: u32,
        values: List,
        is_global: bool,
        is_array: bool,
    ) -> Result<u32, Stop>
        requires places { IsListBelow self.old.arena.held (size self.old.arena) places }
        requires t { IsNode self.old.arena t }
        requires values { IsListBelow self.old.arena.held (size self.old.arena) values }
        ensures reads { Gives result self.new (make (new_expression (list_trees self.old.arena places)
            (stands self.old.arena t) (list_trees self.old.arena values) is_global is_array) (state self.old)) }
        ensures keeps { OnOk result (Keeps self.old self.new) }
        ensures rest { OnOk result (self.new.rest.now ≡ self.old.rest.now) }
    {
        self.arena.make_new(places, t, values, is_global, is_array)
    }

    // Reads `[<number>] <union-selector>* [p] E`. Returns the number as it is written.
    fn read_offset_end(&mut self) -> Result<&'a [u8], Stop>
        ensures reads { GivesNumber result self.new (spec.parse_offset_end (state self.old)) }
        ensures arena { self.new.arena ≡ self.old.arena }
        ensures within { OnOk result (length self.new.rest.now ≤ length self.old.rest.now) }
    {
        let Some((offset, rest)) = optional_number_text(self.rest) else {
            return Err(Stop::Unreadable);
        };
        self.rest = rest;
        self.skip_selectors();
        self.skip_letter(b'p');
        tri!(self.expect(b'E'));
        Ok(offset)
    }

    // Skips `<union-selector>* ::= (_ [<number>])*`.
    fn skip_selectors(&mut self)
        ensures reads { spec.skip_selectors (state self.old) ≡ Some (tt, state self.new) }
        ensures arena { self.new.arena ≡ self.old.arena }
        ensures within { length self.new.rest.now ≤ length self.old.rest.now }
    {
        while begins(self.rest, b'_') {
            self.skip(1);
            self.read_digits();
        }
    }

    // Makes a subobject at an offset.
    fn make_subobject(&mut self, t: u32, e: u32, offset: &[u8]) -> Result<u32, Stop>
        requires t { IsNode self.old.arena t }
        requires e { IsNode self.old.arena e }
        ensures reads { Gives result self.new (make (subobject (stands self.old.arena t) (stands self.old.arena e)
            (number_printed offset.now)) (state self.old)) }
        ensures keeps { OnOk result (Keeps self.old self.new) }
        ensures rest { OnOk result (self.new.rest.now ≡ self.old.rest.now) }
    {
        let number = tri!(self.number_text(offset));
        self.arena.make_subobject(t, e, number)
    }

    // Makes the text of what is printed of a number.
    fn number_text(&mut self, number: &[u8]) -> Result<NodeText, Stop>
        ensures text { Copies result self.new.arena (number_printed number.now) }
        ensures keeps { Keeps self.old self.new }
        ensures state { state self.new ≡ state self.old }
        ensures rest { self.new.rest.now ≡ self.old.rest.now }
    {
        match self.arena.joined(b"", number, b"") {
            Ok(text) => Ok(text),
            Err(_) => Err(Stop::Memory),
        }
    }

    // Makes the name of an operator of a vendor.
    fn make_function_name(&mut self, name: &[u8]) -> Result<u32, Stop>
        ensures reads { Gives result self.new (make_name name.now (state self.old)) }
        ensures keeps { OnOk result (Keeps self.old self.new) }
        ensures rest { OnOk result (self.new.rest.now ≡ self.old.rest.now) }
    {
        self.arena.make_name(name)
    }

    // Makes a call.
    fn make_call(&mut self, function: u32, args: List) -> Result<u32, Stop>
        requires function { IsNode self.old.arena function }
        requires args { IsListBelow self.old.arena.held (size self.old.arena) args }
        ensures reads { Gives result self.new (make (call (stands self.old.arena function)
            (list_trees self.old.arena args)) (state self.old)) }
        ensures keeps { OnOk result (Keeps self.old self.new) }
        ensures rest { OnOk result (self.new.rest.now ≡ self.old.rest.now) }
    {
        self.arena.make_call(function, args)
    }

    // Makes a list of one node.
    fn make_one(&mut self, i: u32) -> Result<List, Stop>
        requires i { IsNode self.old.arena i }
        ensures reads { GivesList result self.new (Some (spec.one (stands self.old.arena i), state self.old)) }
        ensures keeps { OnOk result (Keeps self.old self.new) }
    {
        match self.arena.list(&[i]) {
            Ok(list) => Ok(list),
            Err(_) => Err(Stop::Memory),
        }
    }
}
