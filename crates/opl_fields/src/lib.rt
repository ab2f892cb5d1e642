//! The positions of the fields of records that a model names.
#![tactic(auto)]

mod declaration;
mod expression;
mod item;
pub mod laws;
mod model;
mod place;
mod search;
mod structs;
mod walk;

pub use model::fields;
pub use place::FieldPlace;
