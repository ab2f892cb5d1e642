//! The texts that solutions are printed as.
#![tactic(auto)]

mod cells;
mod course;
mod ending;
mod item;
mod layers;
mod name;
mod solution;
mod value;

pub use ending::{Last, closing};
pub use solution::solution_text;
pub use value::push_value;
