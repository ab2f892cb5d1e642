//! No solution is lost: from the text of a model to the marks of its search.
#![tactic(auto)]

pub mod laws;
