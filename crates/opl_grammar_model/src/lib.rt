//! The rules of whole models.
#![tactic(auto)]

mod model;

pub use model::read_model;
