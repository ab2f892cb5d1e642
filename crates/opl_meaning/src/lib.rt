//! What the declarations of decision variables mean: their declared sets, and their values under an assignment.
#![tactic(auto)]

mod counted;
mod ends;
mod fault;
mod items;
pub mod laws;
mod sets;
mod totals;
mod variable;
pub mod variable_laws;
mod visible;

pub use fault::MeaningFault;
pub use items::variables;
pub use variable::{DeclaredSet, Kind, VariableItem};
