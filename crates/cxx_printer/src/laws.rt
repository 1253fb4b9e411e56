//! Worked examples. The functions do nothing: each exists for the facts that its contract states.
ghost use Rattle.cxx_printer.specs.Examples.{WorkedNames, WorkedTypes, WorkedExpressions, WorkedParts};

/// States what trees of names, functions and special names print.
#[tactic(auto, using(crate::proofs::Examples::worked_names))]
pub fn worked_names()
    ensures names { WorkedNames }
{}

/// States what trees of types and template arguments print.
#[tactic(auto, using(crate::proofs::Examples::worked_types))]
pub fn worked_types()
    ensures types { WorkedTypes }
{}

/// States what trees of expressions print.
#[tactic(auto, using(crate::proofs::Examples::worked_expressions))]
pub fn worked_expressions()
    ensures expressions { WorkedExpressions }
{}

/// States what trees stand for, and what their parts print.
#[tactic(auto, using(crate::proofs::Examples::worked_parts))]
pub fn worked_parts()
    ensures parts { WorkedParts }
{}
