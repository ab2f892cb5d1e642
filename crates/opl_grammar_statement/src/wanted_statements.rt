//! What is wanted behind a token that opens a level of statements, and what was found there.
use opl_list::{Boxed, Seq};
use opl_tree::{ExprTree, OrderedParamsTree, StatementTree, StatementsTree};

/// What is wanted behind a token that opens a level: a field of the rules.
#[derive(Clone, Copy)]
pub enum WantedStatements {
    Statements,
    Alternatives,
    Branch,
    Statement,
    Loop,
    Choice,
}

/// What was found there.
pub enum FoundStatements {
    Statements(StatementsTree),
    Alternatives(StatementsTree, StatementsTree, Seq<StatementsTree>),
    Branch(Boxed<OrderedParamsTree>, Boxed<StatementTree>),
    Statement(Boxed<StatementTree>),
    Loop(Boxed<ExprTree>, Boxed<StatementTree>),
    Choice(Boxed<ExprTree>, StatementsTree, Option<StatementsTree>),
}
