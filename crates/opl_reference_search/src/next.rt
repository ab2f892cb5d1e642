//! What comes next in a search.
use crate::task::Task;
use opl_expr::{Cons, Step};
use opl_list::Seq;

/// The constraints from which a path goes on, and what it has to do.
#[derive(Drop)]
pub struct Way<'a> {
    /// The variable and its value, where the way is an alternative of labelling.
    pub label: Option<(u32, i64)>,
    pub posted: Seq<Cons>,
    pub tasks: Seq<Task<'a>>,
}

/// What comes next on a path.
#[derive(Drop)]
pub enum Next<'a> {
    /// All is done.
    Finished,
    /// The path ends without a mark.
    Nothing,
    /// A choice is due, and none is left.
    Spent,
    /// The path goes on.
    Go(Way<'a>),
    /// Alternatives, in order.
    Choose(Seq<Way<'a>>),
    /// A statement under `once`, and what follows it.
    Commit(&'a Step, Seq<Task<'a>>),
}
