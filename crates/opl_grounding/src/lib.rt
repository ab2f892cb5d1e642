//! The core of a model: its objective and the constraints of its items over the declared sets of its variables and the tables of its arrays.
#![tactic(auto)]

mod arrays;
mod data;
mod ends;
mod forms;
mod grounding;
mod indices;
mod naming;
mod tables;
mod variables;

pub use grounding::ground;
