//! The filter of `alldifferent`, where each part has at most one variable, and no two parts have the same.
#![tactic(auto)]

mod constructor;
mod different_filter;
pub mod laws;
mod numbers;
mod part;
mod reading;
mod settling;
mod single;
mod spreading;
mod taking;

pub use different_filter::DifferentFilter;
