//! The positions of fields that a model is bound with are those of its types, where the model was read from a text. Definitions and laws alone.
#![tactic(auto)]

pub mod laws;
