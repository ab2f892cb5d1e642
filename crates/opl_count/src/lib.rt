//! Filters of comparisons of counting sums: of numbers, truths of comparisons of linear sides, and multiples of such truths.
#![tactic(auto)]

mod costs;
mod count_filter;
mod filtering;
mod forcing;
mod noted;
mod noticing;
mod places;
mod reading;
mod sum;
mod ties;

pub use count_filter::CountFilter;
