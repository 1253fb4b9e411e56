//! Laws of readings and of results. The functions do nothing: each exists for the law that its contract states.
ghost use Rattle.itanium_grammar.specs.Laws.{LawsOfReadings, LawsOfAnswers};

/// States that any two readings of a symbol within the limits agree, and that a reading takes at least one byte.
#[tactic(auto, using(crate::proofs::Agreement::laws_of_readings))]
pub fn laws_of_readings()
    ensures laws { LawsOfReadings }
{}

/// States that a symbol has at most one result, that an underscore in front of a symbol that begins with `_Z` changes
/// nothing, and that a dot right after what was read is kept with all that follows.
#[tactic(auto, using(crate::proofs::Agreement::laws_of_answers))]
pub fn laws_of_answers()
    ensures laws { LawsOfAnswers }
{}
