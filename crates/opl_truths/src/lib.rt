//! Nodes of ground forms that are truths: `\/`, `&`, `=>`, `<=>` and `not`, each with its tests.
#![tactic(auto)]

mod condition;
mod conjunction;
mod connective;
mod disjunction;
mod holding;
mod measure;
mod negation;

pub use condition::into_condition;
pub use conjunction::all_hold;
pub use connective::{implied, same};
pub use disjunction::one_holds;
pub use negation::{opposite, truth_part};
