//! Objectives with their nodes.
use opl_expr::Goal;
use opl_list::Boxed;

/// The objective of a core, if it has one.
#[derive(Drop)]
pub struct Aim {
    pub goal: Option<Boxed<Goal>>,
    /// How many nodes it has, 0 where there is none.
    pub nodes: u64,
}
