//! Unnamed types and closures (Itanium C++ ABI 5.1.7).
#![tactic(auto, using(crate::proofs::Rules::productions), unfolding(cxx_tree::specs::Grows::Makes, cxx_tree::specs::Stored::stands, crate::specs::Outcome::list_trees, cxx_grammar::specs::Unnamed::parse_closure, cxx_grammar::specs::Unnamed::parse_lambda))]

ghost use Rattle.std.specs.Prelude.{◌≡◌, ℕ, ◌<◌, ◌≤◌, length, OnOk};
ghost use Rattle.cxx_grammar.specs.Unnamed as spec;
ghost use Rattle.cxx_grammar.specs.Symbol.{productions};
ghost use Rattle.cxx_reader.specs.Outcome.{state, Keeps, Moves, Gives, GivesList, GivesSignature};

use crate::constraints::read_constraint;
use crate::declarations::read_declarations;
use crate::reader::Reader;
use crate::rows::read_params;
use cxx_grammar::rows::{End, Item};
use cxx_tree::{List, Signature, Stop};

/// The most binders of template parameters around a place.
pub const MAX_LEVEL: u64 = 512;

/// Reads `<closure-type-name> ::= Ul <lambda-sig> E [<number>] _`.
#[cycle(reader)]
#[inline(never)]
pub fn read_closure(reader: &mut Reader, depth: usize) -> Result<u32, Stop>
    ensures reads { Gives result reader.new (spec.parse_closure (productions depth) (state reader.old)) }
    ensures moves { OnOk result (Moves reader.old reader.new) }
{
    let level = reader.level;
    let signature = tri!(read_closure_sig(reader, depth, level));
    reader.read_closure_end(level, signature)
}

/// Reads `<closure-type-name>` as the value of a lambda.
#[cycle(reader)]
#[inline(never)]
pub fn read_lambda(reader: &mut Reader, depth: usize) -> Result<u32, Stop>
    ensures reads { Gives result reader.new (spec.parse_lambda (productions depth) (state reader.old)) }
    ensures moves { OnOk result (Moves reader.old reader.new) }
{
    let level = reader.level;
    let signature = tri!(read_closure_sig(reader, depth, level));
    reader.read_lambda_end(level, signature)
}

// Reads `Ul <lambda-sig> E` at a level.
#[cycle(reader)]
fn read_closure_sig(reader: &mut Reader, depth: usize, level: u64) -> Result<Signature, Stop>
    requires level { level ≡ reader.old.level }
    ensures reads { GivesSignature result reader.new (spec.parse_closure_sig (productions depth) level
        (state reader.old)) }
    ensures moves { OnOk result (Moves reader.old reader.new) }
{
    reader.skip(2);
    if level >= MAX_LEVEL {
        return Err(Stop::Unreadable);
    }
    reader.level = level + 1;
    let signature = tri!(read_lambda_sig(reader, depth));
    reader.level = level;
    Ok(signature)
}

// Reads `<lambda-sig> E`.
#[cycle(reader)]
fn read_lambda_sig(reader: &mut Reader, depth: usize) -> Result<Signature, Stop>
    ensures reads { GivesSignature result reader.new (spec.parse_lambda_sig (productions depth) (state reader.old)) }
    ensures moves { OnOk result (Moves reader.old reader.new) }
{
    let declarations = tri!(read_declarations(reader, depth));
    let before = tri!(read_constraint(reader, depth));
    let params = tri!(read_lambda_params(reader, depth));
    let behind = tri!(read_constraint(reader, depth));
    tri!(reader.expect(b'E'));
    Ok(Signature {
        declarations,
        before,
        params,
        behind,
    })
}

// Reads `v | <type>+`.
#[cycle(reader)]
fn read_lambda_params(reader: &mut Reader, depth: usize) -> Result<List, Stop>
    ensures reads { GivesList result reader.new (spec.parse_lambda_params (productions depth) (state reader.old)) }
    ensures keeps { OnOk result (Keeps reader.old reader.new) }
{
    let from = reader.arena.pending_len();
    tri!(read_params(reader, depth, Item::Type, End::Lambda));
    reader.arena.list_from(from)
}
