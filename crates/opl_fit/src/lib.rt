//! What the values of data are: each has the form of its type, each cell of an array stands at its key's place. Definitions and laws, and the call that makes sets.
#![tactic(auto)]

pub mod laws;
mod set;

pub use set::set_of;
