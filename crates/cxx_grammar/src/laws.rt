//! What holds of the grammar. The function does nothing: it exists for the facts that its contract states.
ghost use Rattle.cxx_grammar.specs.WrittenOut.{SubstitutionsCanBeWrittenOut};

/// States that a symbol of names and builtin types is read as the same symbol with its substitutions written out.
#[tactic(auto, using(crate::proofs::WrittenOut::substitutions))]
pub fn substitutions_can_be_written_out()
    ensures symbols { SubstitutionsCanBeWrittenOut }
{}
