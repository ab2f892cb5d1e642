//! The positions of fields that are found in a model suit its declarations, so its data has the forms of its types. Definitions and laws alone.
#![tactic(auto)]

pub mod laws;
