//! Requirements (Itanium C++ ABI 5.1.6).
#![tactic(auto, using(crate::proofs::Rules::productions), unfolding(cxx_tree::specs::Grows::Makes, cxx_tree::specs::Stored::stands, cxx_grammar::specs::Parses::past_word_if, cxx_grammar::specs::Requirements::requirement_as))]

ghost use Rattle.std.specs.Prelude.{◌≡◌, ◌<◌, ◌≤◌, codes, length, option_map, IfSome, OnOk};
ghost use Rattle.cxx_tree.specs.Kept.{IsNode};
ghost use Rattle.cxx_tree.specs.Phrases as phrases;
ghost use Rattle.cxx_tree.specs.Stored.{stands};
ghost use Rattle.cxx_grammar.specs.Parses.{make};
ghost use Rattle.cxx_grammar.specs.Requirements as spec;
ghost use Rattle.cxx_grammar.specs.Symbol.{productions};
ghost use Rattle.cxx_reader.specs.Outcome.{state, Keeps, Moves, Gives, GivesOption};

use crate::cases::requirement_case;
use crate::expressions::read_expression;
use crate::reader::Reader;
use crate::rows::read_name_tree;
use crate::types::read_type;
use cxx_grammar::cases::RequirementCase;
use cxx_tree::{NodeText, Stop};

/// Reads `<requirement>`.
#[cycle(reader)]
#[inline(never)]
pub fn read_requirement(reader: &mut Reader, depth: usize) -> Result<u32, Stop>
    ensures reads { Gives result reader.new (spec.parse_requirement (productions depth) (state reader.old)) }
    ensures moves { OnOk result (Moves reader.old reader.new) }
{
    match requirement_case(reader.rest) {
        RequirementCase::Expression => read_simple_requirement(reader, depth),
        RequirementCase::Type => read_type_requirement(reader, depth),
        RequirementCase::Nested => read_nested_requirement(reader, depth),
        RequirementCase::Unread => Err(Stop::Unreadable),
    }
}

// Reads `X <expression> [N] [R <type-constraint>]`.
#[cycle(reader)]
fn read_simple_requirement(reader: &mut Reader, depth: usize) -> Result<u32, Stop>
    ensures reads { Gives result reader.new (spec.parse_simple_requirement (productions depth) (state reader.old)) }
    ensures moves { OnOk result (Moves reader.old reader.new) }
{
    reader.skip(1);
    let e = tri!(read_expression(reader, depth));
    let is_noexcept = reader.skip_letter(b'N');
    let constraint = tri!(read_type_constraint(reader, depth));
    reader.make_expr_requirement(e, is_noexcept, constraint)
}

// Reads `[R <type-constraint>]`.
#[cycle(reader)]
fn read_type_constraint(reader: &mut Reader, depth: usize) -> Result<Option<u32>, Stop>
    ensures reads { GivesOption result reader.new (spec.parse_type_constraint (productions depth) (state reader.old)) }
    ensures keeps { OnOk result (Keeps reader.old reader.new) }
{
    if !reader.skip_letter(b'R') {
        return Ok(None);
    }
    let concept = tri!(read_name_tree(reader, depth));
    Ok(Some(concept))
}

// Reads `T <type>`.
#[cycle(reader)]
fn read_type_requirement(reader: &mut Reader, depth: usize) -> Result<u32, Stop>
    ensures reads { Gives result reader.new (spec.parse_type_requirement (productions depth) (state reader.old)) }
    ensures moves { OnOk result (Moves reader.old reader.new) }
{
    reader.skip(1);
    let t = tri!(read_type(reader, depth, false));
    reader.make_requirement(b"typename", t)
}

// Reads `Q <constraint-expression>`.
#[cycle(reader)]
fn read_nested_requirement(reader: &mut Reader, depth: usize) -> Result<u32, Stop>
    ensures reads { Gives result reader.new (spec.parse_nested_requirement (productions depth) (state reader.old)) }
    ensures moves { OnOk result (Moves reader.old reader.new) }
{
    reader.skip(1);
    let e = tri!(read_expression(reader, depth));
    reader.make_requirement(b"requires", e)
}

impl<'a> Reader<'a> {
    // Makes the requirement that an expression is valid.
    fn make_expr_requirement(
        &mut self,
        e: u32,
        is_noexcept: bool,
        constraint: Option<u32>,
    ) -> Result<u32, Stop>
        requires e { IsNode self.old.arena e }
        requires constraint { IfSome constraint (IsNode self.old.arena) }
        ensures reads { Gives result self.new (make (phrases.expr_requirement (stands self.old.arena e) is_noexcept
            (option_map (stands self.old.arena) constraint)) (state self.old)) }
        ensures keeps { OnOk result (Keeps self.old self.new) }
        ensures rest { OnOk result (self.new.rest.now ≡ self.old.rest.now) }
    {
        self.arena.make_expr_requirement(e, is_noexcept, constraint)
    }

    // Makes a requirement with a word in front of it.
    fn make_requirement(&mut self, word: &'static [u8], t: u32) -> Result<u32, Stop>
        requires t { IsNode self.old.arena t }
        ensures reads { Gives result self.new (make (phrases.requirement word.now (stands self.old.arena t))
            (state self.old)) }
        ensures keeps { OnOk result (Keeps self.old self.new) }
        ensures rest { OnOk result (self.new.rest.now ≡ self.old.rest.now) }
    {
        self.arena.make_requirement(NodeText::Fixed(word), t)
    }
}
