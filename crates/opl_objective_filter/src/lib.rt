//! The filter of the bound that a best value sets on a linear objective: its linear form is made once, and each best value changes
//! the constant alone.
#![tactic(auto)]

pub mod laws;
mod objective_filter;

pub use objective_filter::{ObjectiveFilter, is_near};
