//! The trees of the search section.
use crate::expression::{AddTree, ExprTree, ParamsTree, PostTree};
use opl_list::{Boxed, Seq};

/// `search {STATEMENTS};`
#[derive(Drop)]
pub struct SearchTree {
    pub at: u32,
    pub block: SearchBlockTree,
}

/// `{STATEMENTS}`
#[derive(Drop)]
#[cycle(statements)]
pub struct SearchBlockTree {
    pub at: u32,
    pub statements: StatementsTree,
}

/// Statements with `;` between them. A list with statements may end with one more `;`, an empty one may not.
#[derive(Drop)]
#[cycle(statements)]
pub enum StatementsTree {
    Empty(u32),
    Several(u32, Boxed<StatementTree>, Seq<StatementTree>, bool),
}

/// A statement of a search section.
#[derive(Drop)]
#[cycle(statements)]
pub enum StatementTree {
    Block(SearchBlockTree),
    /// `try STATEMENTS | STATEMENTS | .. endtry`
    Try(u32, StatementsTree, StatementsTree, Seq<StatementsTree>),
    /// `tryall (PARAMS) STATEMENT` and the like
    Branch(u32, BranchOp, OrderedParamsTree, Boxed<StatementTree>),
    /// `once STATEMENT`
    Once(u32, Boxed<StatementTree>),
    /// `while EXPR do STATEMENT`
    While(u32, ExprTree, Boxed<StatementTree>),
    /// `if EXPR then STATEMENTS endif`, or with `else STATEMENTS` before `endif`
    If(u32, ExprTree, StatementsTree, Option<StatementsTree>),
    /// `generate (POST)` or `rank (POST)`
    Label(u32, LabelOp, PostTree),
    /// `POST precedes POST`
    Precedes(u32, PostTree, PostTree),
    Constraint(ExprTree),
}

/// The word of a statement with parameters.
#[derive(Clone, Copy)]
pub enum BranchOp {
    /// `tryall`
    TryAll,
    /// `forall`
    ForAll,
    /// `select`
    Select,
}

/// The word of a statement that decides a whole item.
#[derive(Clone, Copy)]
pub enum LabelOp {
    /// `generate`
    Generate,
    /// `rank`
    Rank,
}

/// `PARAMS`, or `PARAMS ORDER`
#[derive(Drop)]
pub struct OrderedParamsTree {
    pub at: u32,
    pub params: ParamsTree,
    pub order: Option<OrderTree>,
}

/// `ordered by increasing ADD` or `ordered by decreasing ADD`
#[derive(Drop)]
pub struct OrderTree {
    pub at: u32,
    /// Whether the least key comes first.
    pub is_increasing: bool,
    pub key: AddTree,
}
