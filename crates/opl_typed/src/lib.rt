//! Typing as a relation: what types expressions have, said without an order of faults. Definitions and laws alone.
#![tactic(auto)]

pub mod laws;
