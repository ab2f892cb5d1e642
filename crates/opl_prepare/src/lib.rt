//! From a model whose expressions have types and its data files to its core, ready to be searched.
#![tactic(auto)]

mod binding;
mod preparing;
mod problem;

pub use preparing::prepare;
pub use problem::Problem;
