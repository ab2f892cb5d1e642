//! Where typing finds that an expression is no data: exactly where a decision variable, an activity or a question is mentioned. Definitions and laws alone.
#![tactic(auto)]

pub mod laws;
