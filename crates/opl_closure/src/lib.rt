//! Propagation: what is left of a store once no member of a list of constraints can remove more.
#![tactic(auto)]

pub mod laws;
mod propagation;
mod propagator;
mod queue;
mod value;
mod waiting;
mod watched;
mod watchers;

pub use propagation::propagate;
pub use propagator::Propagator;
pub use value::keep_value;
pub use waiting::Waiting;
pub use watched::Watched;
pub use watchers::Watchers;
