//! Constraints (Itanium C++ ABI 5.1.7).
#![tactic(auto, using(crate::proofs::Rules::productions), unfolding(cxx_tree::specs::Stored::stands, cxx_grammar::specs::Parses::past_word_if))]

ghost use Rattle.std.specs.Prelude.{◌≡◌, ◌<◌, ◌≤◌, length, OnOk};
ghost use Rattle.cxx_grammar.specs.Constraints as spec;
ghost use Rattle.cxx_grammar.specs.Symbol.{productions};
ghost use Rattle.cxx_reader.specs.Outcome.{state, Keeps, Moves, Gives, GivesOption};

use crate::expressions::read_expression;
use crate::reader::Reader;
use cxx_tree::Stop;

/// Reads `[Q <constraint-expression>]`, behind a function, a lambda or the declarations of a template.
#[cycle(reader)]
#[inline(always)]
pub fn read_constraint(reader: &mut Reader, depth: usize) -> Result<Option<u32>, Stop>
    ensures reads { GivesOption result reader.new (spec.parse_constraint (productions depth) (state reader.old)) }
    ensures keeps { OnOk result (Keeps reader.old reader.new) }
{
    if !reader.skip_letter(b'Q') {
        return Ok(None);
    }
    let e = tri!(read_written(reader, depth));
    Ok(Some(e))
}

// Reads `<constraint-expression>`, whose template parameters become names.
#[cycle(reader)]
#[inline(never)]
fn read_written(reader: &mut Reader, depth: usize) -> Result<u32, Stop>
    ensures reads { Gives result reader.new (spec.parse_written (productions depth) (state reader.old)) }
    ensures moves { OnOk result (Moves reader.old reader.new) }
{
    let e = tri!(read_expression(reader, depth));
    reader.bind_constraint(e)
}
