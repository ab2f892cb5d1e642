//! The marks of a search, by a plain program that computes the sets of each moment anew.
#![tactic(auto)]

mod constraints;
mod core_ranges;
mod labelling;
mod mark;
mod marks;
mod moment;
mod outcome;
mod ranges;

pub use constraints::{copies, with_value};
pub use core_ranges::CoreRanges;
pub use mark::Mark;
pub use marks::{base, closure_of, default_marks, variables};
pub use moment::Search;
pub use outcome::{Outcome, joined};
pub use ranges::Ranges;
