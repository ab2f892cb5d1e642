//! The values of data expressions are of the types that typing finds. Definitions and laws alone.
#![tactic(auto)]

pub mod laws;
