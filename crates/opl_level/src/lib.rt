//! Expressions, the sets and the parameters in them, and all else that stands in brackets: the rules of one level.
#![tactic(auto)]

mod below;
mod bracket;
mod just;
mod params;
mod prim;
mod product;
mod truth;
mod word;

pub use below::{Below, Level};
pub use just::{into_name, into_post};
pub use word::{field_name, name, names};
