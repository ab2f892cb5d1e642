//! The marks of a search with its search section, by a plain program that computes the sets of each moment anew.
#![tactic(auto)]

mod elements;
mod leaf;
mod next;
mod run;
mod search;
mod statements;
mod step;
mod task;

pub use search::marks;
