//! A law of values under an assignment, as the contract of a function without effect.
ghost use Rattle.opl_meaning.specs.Laws.{DataStays};

/// What names no decision variable comes to the same, be it a value or a fault, under every assignment as without one.
#[tactic(auto, using(crate::proofs::VariableValues::data_stays))]
pub fn data_stays()
    ensures { DataStays }
{}
