//! The types of expressions, of their parts first.
#![tactic(auto)]

mod expression;
mod parts;
mod pattern;
mod plain;

pub use expression::{Opened, add, expr, open_params, post, set, subscripts};
pub use plain::{Cells, cells_of};
