//! The parser of whole models: from the tokens of a text to their tree.
#![tactic(auto)]

pub mod laws;
mod model;

pub use model::parse_model;
