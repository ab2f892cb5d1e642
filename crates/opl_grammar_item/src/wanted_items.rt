//! What is wanted behind a token that opens a level of items, and what was found there.
use opl_list::Boxed;
use opl_tree::{ExprTree, ItemTree, ItemsTree, ParamsTree};

/// What is wanted behind a token that opens a level: a field of the rules.
#[derive(Clone, Copy)]
pub enum WantedItems {
    Items,
    ForAll,
    Branches,
}

/// What was found there.
pub enum FoundItems {
    Items(ItemsTree),
    ForAll(Boxed<ParamsTree>, Boxed<ItemTree>),
    Branches(Boxed<ExprTree>, ItemsTree, Option<ItemsTree>),
}
