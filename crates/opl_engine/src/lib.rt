//! The propagation engine: constraints that are posted level by level, and what they leave of the sets of variables.
#![tactic(auto)]

mod base;
mod bound;
mod closed;
mod engine;
pub mod laws;
mod member;
mod members;
mod opening;
mod own_filter;

pub use closed::Closed;
pub use engine::Engine;
