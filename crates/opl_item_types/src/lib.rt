//! The types of the expressions in items, in the instruction and in the statements of a search section.
#![tactic(auto)]

mod item;
mod search;

pub use item::instr;
pub use search::search_block;
