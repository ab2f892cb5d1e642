//! The solver: the search of a ground core over an engine and the sets that it narrows.
#![tactic(auto)]

mod objective;
mod pair;
mod start;
mod together;

pub use pair::Pair;
pub use start::search;
