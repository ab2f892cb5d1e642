//! The filter of a comparison of sums whose addends are of any form: a value is asked of the addends alone that mention its variable.
#![tactic(auto)]

mod addends_filter;
mod apart;
mod asking;
pub mod laws;
mod making;
mod ranges;
mod rounds;
mod sum;
mod values;

pub use addends_filter::AddendsFilter;
