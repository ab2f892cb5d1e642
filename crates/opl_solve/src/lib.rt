//! What a search finds, shown on a sink.
#![tactic(auto)]

mod each;
mod latest;
pub mod laws;
mod numbers;
mod print;
mod show;
mod solutions;
mod summary;
mod turn;

pub use show::{Showing, Shown};
pub use solutions::solve;
pub use summary::summarize;
