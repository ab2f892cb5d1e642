//! A search, one solution after another.
#![tactic(auto)]

mod machine;
mod search;
mod solver;
mod tail;

pub use machine::{Last, Machine, Way, has_empty_set};
pub use search::Step1;
pub use solver::{Closed, Solver};
