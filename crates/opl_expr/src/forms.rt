//! Ground expressions and constraints.
use opl_list::{Boxed, Seq};

/// What a search may ask of the set of a variable.
#[derive(Drop, Clone, Copy)]
pub enum Ask {
    /// The number of values.
    Size,
    /// The least value.
    Least,
    /// The greatest value.
    Greatest,
}

/// How a comparison compares its sides.
#[derive(Drop, Clone, Copy)]
pub enum Op {
    Eq,
    Ne,
    Lt,
    Le,
    Gt,
    Ge,
}

/// A ground expression. Variables, tables and resources are named by their numbers in the core.
#[derive(Drop)]
#[cycle(forms)]
pub enum Expr {
    Const(i128),
    Var(u32),
    Sum(Seq<Expr>),
    Neg(Boxed<Expr>),
    Mul(Boxed<Expr>, Boxed<Expr>),
    /// The truncated quotient.
    Div(Boxed<Expr>, Boxed<Expr>),
    /// The remainder, with the sign of the dividend.
    Rem(Boxed<Expr>, Boxed<Expr>),
    Abs(Boxed<Expr>),
    Min(Seq<Expr>),
    Max(Seq<Expr>),
    /// A cell of a table, by one subscript for each of its dimensions.
    At(u32, Seq<Expr>),
    /// 1 where the constraint holds, and 0 where it does not.
    Truth(Boxed<Cons>),
    /// A question on the set of a variable. It stands in a search alone.
    Ask(Ask, u32),
}

/// A ground constraint.
#[derive(Drop)]
#[cycle(forms)]
pub enum Cons {
    Fixed(bool),
    Cmp(Op, Boxed<Expr>, Boxed<Expr>),
    And(Seq<Cons>),
    Or(Seq<Cons>),
    Imp(Boxed<Cons>, Boxed<Cons>),
    Iff(Boxed<Cons>, Boxed<Cons>),
    Not(Boxed<Cons>),
    AllDifferent(Seq<Expr>),
    /// At one time the demands on a resource are at most its capacity.
    Capacity(u32, i64),
    /// Whether a variable has a single value. It stands in a search alone.
    Bound(u32),
}
