//! Numbers, sums, products and quotients of parts, each with the tests of its node; where no variable is left, what their values come to.
#![tactic(auto)]

mod aggregates;
mod chains;
mod measured;
mod pairs;
mod row;
mod singles;

pub use aggregates::{aggregated, greatest, least, product, summed};
pub use chains::{Sign, chained, stepped};
pub use pairs::{divided, left_over, multiplied};
pub use singles::{absolute, negated, number_part};
