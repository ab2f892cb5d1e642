//! Laws of the decision variables of declarations, as contracts of functions without effect.
ghost use Rattle.opl_meaning.specs.VariableLaws.{ScopeIsDeclared, SinglesHaveOneSet, VariablesAreNamed};

/// A variable that is no array has one declared set.
#[tactic(auto, using(crate::proofs::VariableLaws::singles_have_one_set))]
pub fn singles_have_one_set()
    ensures { SinglesHaveOneSet }
{}

/// The variables have the names of their declarations, in order.
#[tactic(auto, using(crate::proofs::VariableLaws::variables_are_named))]
pub fn variables_are_named()
    ensures { VariablesAreNamed }
{}

/// The names of the variables, and of those that are no arrays, are those of the declarations.
#[tactic(auto, using(crate::proofs::VariableLaws::scope_is_declared))]
pub fn scope_is_declared()
    ensures { ScopeIsDeclared }
{}
