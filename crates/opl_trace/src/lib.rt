//! What propagation and search are to compute: stable families, the closure, and their laws.
#![tactic(auto)]

mod closing;
pub mod laws;
mod sets;

pub use closing::{Test, closed};
pub use sets::Sets;
