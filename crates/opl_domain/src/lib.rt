//! Intervals of whole numbers, sets of values, and how the solver sees the sets of its variables.
#![tactic(auto)]

mod domain;
mod fault;
mod interval;
pub mod laws;
mod only;
mod steps;
mod view;

pub use domain::Domain;
pub use fault::OutOfMemory;
pub use interval::Interval;
pub use only::Only;
pub use steps::Steps;
pub use view::{Narrow, View};
