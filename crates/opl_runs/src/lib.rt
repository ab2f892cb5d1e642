//! Which models run: the first form that does not yet, and whether decision variables stand only where they may.
#![tactic(auto)]

mod clean;
mod data;
pub mod laws;
mod runs;
mod scope;
mod term;

pub use clean::is_clean;
pub use runs::not_yet;
