//! The trees of the instruction, its block and its items.
use crate::expression::{AddTree, ExprTree, NameTree, ParamsTree, PostTree, SubscriptsTree};
use opl_list::{Boxed, Seq};

/// What a model asks for.
#[derive(Drop)]
pub enum InstrTree {
    /// `solve BLOCK;`
    Solve(u32, BlockTree),
    /// `minimize EXPR subject to BLOCK;` or `maximize EXPR subject to BLOCK;`
    Optimize(u32, Optimum, ExprTree, BlockTree),
}

/// Which value of the objective is the best.
#[derive(Clone, Copy)]
pub enum Optimum {
    /// `minimize`
    Least,
    /// `maximize`
    Greatest,
}

/// `{ITEMS}`
#[derive(Drop)]
#[cycle(items)]
pub struct BlockTree {
    pub at: u32,
    pub items: ItemsTree,
}

/// Items with `;` between them. A list with items may end with one more `;`, an empty one may not.
#[derive(Drop)]
#[cycle(items)]
pub enum ItemsTree {
    Empty(u32),
    Several(u32, Boxed<ItemTree>, Seq<ItemTree>, bool),
}

/// An item of a block.
#[derive(Drop)]
#[cycle(items)]
pub enum ItemTree {
    Block(BlockTree),
    /// `forall (PARAMS) ITEM`
    ForAll(u32, ParamsTree, Boxed<ItemTree>),
    /// `if EXPR then ITEMS endif`, or with `else ITEMS` before `endif`
    If(u32, ExprTree, ItemsTree, Option<ItemsTree>),
    /// `POST precedes POST`
    Precedes(u32, PostTree, PostTree),
    Requires(RequiresTree),
    Constraint(ExprTree),
}

/// `POST requires NAME`, with `(ADD)` before the name and subscripts behind it where they are written
#[derive(Drop)]
pub struct RequiresTree {
    pub at: u32,
    pub activity: PostTree,
    pub demand: Option<AddTree>,
    pub resource: NameTree,
    pub subscripts: Option<SubscriptsTree>,
}
