//! The ranges of a core's constraints.
use crate::ranges::Ranges;
use opl_domain::View;
use opl_expr::{Cons, Core};

/// Ranges as they are defined.
#[derive(Drop, Clone, Copy)]
pub struct CoreRanges;

impl Ranges for CoreRanges {
    fn refuted<V: View>(&self, core: &Core, c: &Cons, view: &V) -> bool {
        opl_range::refuted(core, c, view)
    }
}
