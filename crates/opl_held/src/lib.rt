//! Conditions of a model under a whole assignment of its decision variables.
#![tactic(auto)]

mod arrays;
mod assigned;
mod combine;
mod connective;
mod holds;
mod keys;
pub mod laws;
mod names;
mod outcome;
mod sign;
mod sum;
mod total;
mod worth;

pub use holds::holds_source;
