//! The statements of a search section.
use crate::forms::{Cons, Expr};
use opl_list::{Boxed, Seq};

/// One alternative of a statement: what it does where its condition holds, and the key that orders it.
#[derive(Drop)]
#[cycle(steps)]
pub struct Branch {
    pub when: Cons,
    pub key: Option<Expr>,
    /// Whether the least key comes first.
    pub rising: bool,
    pub body: Step,
}

/// A statement of a search section.
#[derive(Drop)]
#[cycle(steps)]
pub enum Step {
    Post(Cons),
    Block(Seq<Step>),
    Try(Seq<Step>),
    TryAll(Seq<Branch>),
    ForAll(Seq<Branch>),
    Select(Seq<Branch>),
    Once(Boxed<Step>),
    While(Cons, Boxed<Step>),
    If(Cons, Boxed<Step>, Boxed<Step>),
    /// Values for the variables, in this order.
    Generate(Seq<u32>),
    /// An order for each pair of start variables; the duration that goes with a start `x` is `x + 1`.
    Rank(Seq<(u32, u32)>),
}
