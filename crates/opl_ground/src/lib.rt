//! The declared part of a ground core: its sets and tables, and what is known of them.
#![tactic(auto)]

pub mod laws;
