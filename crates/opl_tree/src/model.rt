//! The tree of a whole model.
use crate::declaration::DeclTree;
use crate::instruction::InstrTree;
use crate::search::SearchTree;
use opl_list::Seq;

/// How many levels a text may open one in another.
pub const MAX_NESTING: u32 = 256;

/// A model: its declarations, then its instruction, then its search section if it has one.
#[derive(Drop)]
pub struct ModelTree {
    pub at: u32,
    pub decls: Seq<DeclTree>,
    pub instr: InstrTree,
    pub search: Option<SearchTree>,
}
