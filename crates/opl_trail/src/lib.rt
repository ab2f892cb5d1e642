//! Words of bits whose changes are undone level by level, and scans over them.
#![tactic(auto)]

mod bits;
mod scan;
mod trail;

pub use bits::Bits;
pub use scan::{count_left, first_left, last_left, let_go};
pub use trail::Trail;
