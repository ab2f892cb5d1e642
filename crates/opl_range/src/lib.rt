//! Ranges of expressions and constraints over a view, without taking memory.
#![tactic(auto)]

mod coefficients;
mod comparisons;
mod differences;
mod hulls;
pub mod laws;
mod ranges;
mod rows;
mod table_row;
mod uses;
mod zeros;

pub use coefficients::{constant, is_linear};
pub use ranges::{cons_range, range, refuted};
pub use zeros::last_factor;
