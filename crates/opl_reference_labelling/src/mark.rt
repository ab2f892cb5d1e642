//! The marks that a search makes.
use opl_expr::Cons;
use opl_list::Seq;

/// A mark of a search.
#[derive(Drop)]
pub enum Mark {
    /// An alternative is entered, with the variable and its value where it is one of labelling.
    Choice(Option<(u32, i64)>),
    /// A statement under `once` is done, with these constraints. It stands in no list of marks of a whole search.
    Leaf(Seq<Cons>),
    /// A solution: a value for each variable.
    Solution(Seq<i64>),
    /// The end, as a choice was due and none was left.
    Cut,
}
