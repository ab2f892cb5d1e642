//! The ground form of a whole model.
use crate::forms::{Cons, Expr};
use crate::search::Step;
use crate::tables::{Resource, Table};
use opl_list::Seq;
use opl_token::Name;

/// The objective.
#[derive(Drop)]
pub struct Goal {
    /// Whether the greatest value is the best.
    pub maximize: bool,
    pub value: Expr,
}

/// The variables with their declared sets, the tables and resources, the constraints, the objective and the search section.
#[derive(Drop)]
pub struct Core {
    /// The name of each variable.
    pub names: Seq<Name>,
    /// The ends of each variable's declared set, which is empty where the first is the greater.
    pub sets: Seq<(i64, i64)>,
    pub tables: Seq<Table>,
    pub resources: Seq<Resource>,
    pub cons: Seq<Cons>,
    pub goal: Option<Goal>,
    pub search: Option<Step>,
}
