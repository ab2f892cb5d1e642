//! Decision variables.
use opl_list::Seq;
use opl_token::Name;
use opl_value::IndexSpace;

/// What the values of a decision variable are.
#[derive(Clone, Copy)]
pub enum Kind {
    /// Whole numbers.
    Number,
    /// Names of the enumeration with this number of its declaration: a value is the name's position, from 0.
    Enumeration(u32),
}

/// The set of values that a decision variable may take: the whole numbers from the first to the second.
#[derive(Clone, Copy)]
pub struct DeclaredSet {
    pub low: i64,
    pub high: i64,
}

/// A decision variable or an array of them, as one declaration declares it.
#[derive(Drop)]
pub struct VariableItem {
    pub name: Name,
    pub kind: Kind,
    /// The index space of an array.
    pub space: Option<IndexSpace>,
    /// The declared set of the variable, or of each element of the array in index order.
    pub sets: Seq<DeclaredSet>,
}
