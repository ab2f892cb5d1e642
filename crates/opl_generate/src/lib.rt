//! The texts of generated models.
#![tactic(auto)]

mod chain;
mod kind;
pub mod laws;
mod model;
mod number;

pub use kind::{head_text, kind_name};
pub use model::model_text;
