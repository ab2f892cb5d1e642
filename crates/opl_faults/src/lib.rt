//! Faults of grounding: laws alone.
#![tactic(auto)]

pub mod laws;
