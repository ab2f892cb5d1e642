//! Objectives: their values, the best solutions, and what objectives become in ground cores; definitions and their laws.
#![tactic(auto)]

pub mod laws;
