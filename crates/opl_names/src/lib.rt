//! The names of decision variables.
#![tactic(auto)]

mod element;
mod variables;

pub use variables::variable_names;
