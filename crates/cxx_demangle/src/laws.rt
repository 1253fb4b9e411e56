//! Worked examples. The function does nothing: it exists for the facts that its contract states.
ghost use Rattle.cxx_demangle.specs.Examples.{WorkedSymbols};

/// States what is printed of symbols, and which have no answer.
#[tactic(auto, using(crate::proofs::Examples::worked_symbols))]
pub fn worked_symbols()
    ensures symbols { WorkedSymbols }
{}
