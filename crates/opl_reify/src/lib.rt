//! Filters of disjunctions whose parts compare linear sides: by one part's own filter where all others are refuted.
#![tactic(auto)]

mod filtering;
pub mod laws;
mod making;
mod open;
mod part;
mod reify_filter;
mod rounds;

pub use making::literal;
pub use part::Part;
pub use reify_filter::ReifyFilter;
pub use rounds::try_shared;
