//! Filters of comparisons whose sides are linear: the linear form of their difference, made once.
#![tactic(auto)]

mod as_filter;
mod constant;
mod factors;
pub mod laws;
mod linear_filter;
mod narrowing;
mod numbers;
mod parts;
mod short;

pub use constant::constant_part;
pub use linear_filter::LinearFilter;
pub use parts::parts_between;
