//! What a linear form removes, by its normal form.
ghost use Rattle.opl_domain.specs.Family.{Below};
ghost use Rattle.opl_expr.specs.Solutions.{declared};
ghost use Rattle.opl_filter.specs.Filtering.{refutes, IsBetween, Filters};
ghost use Rattle.opl_linear_filter.specs.LinearForms.{IsMade};
ghost use Rattle.opl_linear_filter.specs.NormalForms.{normal_form};

use crate::linear_filter::LinearFilter;
use opl_domain::Narrow;
use opl_expr::Core;
use opl_filter::Outcome;

/// Removes values that the normal form refutes alone at that moment, until the family is stable for it, or until none within is.
/// All values must be declared. It takes no memory.
pub fn narrow<N: Narrow>(form: &LinearFilter, core: &Core, n: &mut N) -> Outcome
    requires made { IsMade core.now form.now }
    requires declared { Below (N.family n.old) (declared core.now) }
    ensures between { IsBetween (refutes (normal_form form.now)) (N.family n.old) (N.family n.new) }
    ensures outcome { Filters (refutes (normal_form form.now)) (N.family n.old) (N.family n.new) result }
    ensures leads_to { N.leads_to n.old n.new }
{
    form.filter(core, n)
}
