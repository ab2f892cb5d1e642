//! Typing of whole models as a relation: what declarations make visible, and which items and statements have types, said without an order of faults.
//! Definitions and laws alone.
#![tactic(auto)]

pub mod laws;
