//! Asking whether a value of a variable is refuted.
ghost use Rattle.std.specs.Prelude.{◌≡◌};

use crate::ranges::{is_refuted_by, total_at};
use crate::sum::{Mention, Sum};
use opl_domain::{Interval, View};
use opl_expr::Core;
use opl_trace::Test;

/// Whether a family refutes a sum, by the addends that mention a variable, where the others come to `others`.
#[derive(Drop)]
pub struct WithOthers<'a> {
    pub core: &'a Core,
    pub sum: &'a Sum,
    pub mention: &'a Mention,
    pub others: Interval,
}

impl<'a> Test for WithOthers<'a> {
    ghost use Rattle.opl_addends.specs.Sums.{is_refuted, CanAsk};

    ghost can_test = { λ s F. CanAsk s.core.now s.sum.now s.mention.now s.others F };

    ghost dead = { λ s. is_refuted s.core.now s.sum.now };

    fn is_dead<V: View>(&self, view: &V) -> bool {
        // No set is empty: a view says so with its number of variables.
        let _vars = view.vars();
        let places = self.mention.places.as_slice();
        match total_at(self.core, &self.sum.addends, places, view) {
            None => true,
            Some(own) => is_refuted_by(self.sum.demand, self.others.add(own)),
        }
    }
}
