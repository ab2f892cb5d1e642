//! The filter of a linear form as one of the filters of constraints.
use crate::linear_filter::LinearFilter;
use crate::narrowing::narrow;
use opl_domain::Narrow;
use opl_expr::Core;
use opl_filter::{Filter, Outcome};

impl Filter for LinearFilter {
    ghost use Rattle.opl_linear_filter.specs.LinearForms.{IsMade};
    ghost use Rattle.opl_linear_filter.specs.NormalForms.{normal_form};

    ghost constraint = { λ f core. normal_form f };

    ghost is_made_with = { λ f core. IsMade core f };

    ghost fresh = { λ f F. Unit {0} };

    ghost fresh_law = { λ f d F G made agree is. is };

    fn filter<N: Narrow>(&mut self, core: &Core, n: &mut N) -> Outcome {
        narrow(&*self, core, n)
    }

    fn wake(&mut self, _x: u32) {}
}
