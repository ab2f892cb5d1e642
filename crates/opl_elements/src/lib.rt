//! Nodes of ground forms that compare parts or name variables and elements of arrays, with the tests of each node.
#![tactic(auto)]

mod comparisons;
mod differences;
mod dimensions;
mod elements;
mod keys;
mod kinds;
mod lookups;
mod measures;
mod ranks;
mod runs;
mod sorts;
mod subscripts;
mod variables;

pub use comparisons::compared;
pub use differences::different;
pub use elements::indexed;
pub use kinds::variable;
