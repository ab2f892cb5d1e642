//! The rules of items, and of the instruction above them.
#![tactic(auto)]

mod instruction;
mod item;
mod next_items;
mod wanted_items;

pub use instruction::instr;
