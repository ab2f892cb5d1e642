//! Models unrolled: the conditions that items give, and each of them without parameters and names; definitions and their laws.
#![tactic(auto)]

pub mod laws;
