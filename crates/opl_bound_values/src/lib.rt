//! The values of all data of a model have the forms of their declared types. Definitions and laws alone.
#![tactic(auto)]

pub mod laws;
