//! Filters: each removes the values that its constraint refutes alone.
#![tactic(auto)]

mod filter;
mod generic;
pub mod laws;
mod outcome;
mod rounds;
mod variables;

pub use filter::Filter;
pub use generic::{GenericFilter, sweep};
pub use outcome::Outcome;
pub use rounds::remove_dead;
pub use variables::variables_of;
