//! Worked examples, and the laws that tie the readers to the grammar. The functions do nothing: each exists for the
//! facts that its contract states.
ghost use Rattle.std.specs.Prelude.{◌≡◌};
ghost use Rattle.itanium_grammar.specs.Answer.{max_depth, max_text};
ghost use Rattle.itanium_demangle.specs.Examples.{WorkedSymbols};
ghost use Rattle.itanium_demangle.specs.Readers.{LawsOfReaders};

use crate::{MAX_DEPTH, MAX_TEXT};

/// States the results of some symbols, as the definition gives them.
#[tactic(auto, using(crate::proofs::Examples::worked_symbols))]
pub fn worked_symbols()
    ensures symbols { WorkedSymbols }
{}

/// States that the parser agrees with the grammar at every depth. If the parser returns a shape, a reading within the
/// limits has that shape, and every other reading agrees with it. If the parser returns nothing, there is no reading
/// within the limits. For encodings, arguments and literals, which aren't counted, the last statement covers only
/// readings whose text has at most `MAX_TEXT` bytes.
#[tactic(auto, using(crate::proofs::Readers::laws_of_readers))]
pub fn laws_of_readers()
    ensures laws { LawsOfReaders }
{}

/// States that the public constants are the limits in the definition of an answer.
#[tactic(auto, using(itanium_reader::proofs::Texts::max_text_is))]
pub fn laws_of_limits()
    ensures depth { MAX_DEPTH ≡ max_depth }
    ensures text { MAX_TEXT ≡ max_text }
{}
