//! Filters of connectives inside one another whose innermost parts compare linear sides.
#![tactic(auto)]

mod connective_filter;
mod deciding;
mod filtering;
pub mod laws;
mod making;
mod node;
mod noticing;
mod open;
mod refuting;
mod rounds;

pub use connective_filter::ConnectiveFilter;
