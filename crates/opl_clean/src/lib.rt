//! What typing rules out of expressions: decision variables where data is needed. Definitions and laws alone.
#![tactic(auto)]

pub mod laws;
