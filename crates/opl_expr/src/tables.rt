//! Tables of cells, and resources with their uses.
use opl_list::Seq;
use opl_token::Name;

/// A cell of a table: a number, or the value of a variable.
#[derive(Drop, Clone, Copy)]
pub enum Cell {
    Const(i128),
    Var(u32),
}

/// An array whose elements are reached by subscripts with variables.
#[derive(Drop)]
pub struct Table {
    pub name: Name,
    /// The indices of each dimension.
    pub dims: Seq<Seq<i128>>,
    /// The elements, in the order of their indices, the last dimension varying fastest.
    pub cells: Seq<Cell>,
}

/// An activity's use of a resource. `start` and `duration` are variables.
#[derive(Drop, Clone, Copy)]
pub struct Use {
    pub demand: i128,
    pub start: u32,
    pub duration: u32,
}

/// A discrete resource, with the times at which its capacity is asked: `from` to `to - 1`.
#[derive(Drop)]
pub struct Resource {
    pub name: Name,
    pub capacity: i128,
    pub from: i64,
    pub to: i64,
    pub uses: Seq<Use>,
}
