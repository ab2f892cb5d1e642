//! Ground forms: what unrolled conditions become, with the tests of each node; definitions and their laws.
#![tactic(auto)]

pub mod laws;
