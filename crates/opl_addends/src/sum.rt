//! A demand on the sum of some addends.
use opl_expr::Expr;
use opl_list::{Boxed, Seq};

/// What a sum is to be.
#[derive(Drop, Clone, Copy)]
pub enum Demand {
    /// At most 0.
    AtMost,
    /// Below 0.
    Below,
    /// 0.
    Zero,
    /// Any other number than 0.
    Different,
}

/// An expression, or its opposite, with the variables that the expression mentions.
#[derive(Drop)]
pub struct Addend {
    pub is_opposite: bool,
    pub expression: Boxed<Expr>,
    pub variables: Seq<u32>,
}

/// The places of the addends that mention a variable.
#[derive(Drop)]
pub struct Mention {
    pub variable: u32,
    pub places: Seq<usize>,
}

/// What the sum of some addends is to be, with the variables that they mention.
#[derive(Drop)]
pub struct Sum {
    pub demand: Demand,
    pub addends: Seq<Addend>,
    pub mentions: Seq<Mention>,
}
