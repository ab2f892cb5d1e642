//! Notes of constraints that a family refutes. What is noted in a level is given back with it.
#![tactic(auto)]

mod notes;

pub use notes::Notes;
