//! Parts of ground forms with their measures, and the tests of magnitude, depth and number of nodes that each node passes.
#![tactic(auto)]

mod arithmetic;
mod array;
mod context;
mod fault;
mod known;
mod part;
mod parts;
mod testing;
mod values;

pub use arithmetic::operand;
pub use array::{Array, Leaves};
pub use context::Context;
pub use fault::FormFault;
pub use known::{evaluated, known_node, truth_node, value_node};
pub use part::{Form, Part, both_values};
pub use parts::Parts;
pub use testing::{condition_node, number_node, tested};
pub use values::{is_true, rank};
