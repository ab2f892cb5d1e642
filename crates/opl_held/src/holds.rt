//! Whether conditions hold under an assignment.
ghost use Rattle.std.specs.Prelude.{◌≡◌};
ghost use Rattle.opl_eval.specs.Evaluation.{eval};
ghost use Rattle.opl_eval.specs.Visible.{Gives};
ghost use Rattle.opl_meaning.specs.Assigned.{with_variables};
ghost use Rattle.opl_draft.specs.Laws.{Fits};
ghost use Rattle.opl_groups.specs.Visits.{sees};
ghost use Rattle.opl_nodes.specs.Contexts.{arrays};
ghost use Rattle.opl_making.specs.Sites as sites;
ghost use Rattle.opl_held.specs.Laws.{answer, data_fault};
ghost use Rattle.opl_held.specs.Outcomes.{truth_of};
ghost use Rattle.opl_held.specs.Sourced.{AreTyped};
ghost use Rattle.opl_held.specs.Worth as spec;

use crate::outcome::Outcome;
use crate::worth::worth;
use opl_eval::EvalFault;
use opl_groups::Scope;
use opl_making::Site;
use opl_nodes::is_true;
use opl_term::Term;
use opl_value::Value;
use std::alloc::Global;

/// Whether a part is true, if it is defined.
fn truth_of(part: Outcome<Value>) -> Option<bool>
    ensures { result ≡ truth_of part }
{
    match part {
        Outcome::Fixed(value) => Some(is_true(&value)),
        Outcome::Live(Some(value)) => Some(is_true(&value)),
        Outcome::Live(None) => None,
    }
}

/// Whether a condition is true under a whole assignment, which has a value for each decision variable by its number. A fault without
/// variables, whatever the assignment, is told: the first, operands before operators and left before right. None comes exactly where
/// there is no such fault and the condition is undefined under this assignment; a part that is undefined makes the whole so, also
/// beside a decided one. A number of 2^127 and more that a variable gives is undefined. Variables stand where typing lets them.
pub fn holds_source(
    alloc: Global,
    site: Site<'_>,
    scope: Scope<'_>,
    condition: &Term,
    values: &[i64],
) -> Result<Option<bool>, EvalFault>
    requires site { sites.IsSite site scope.environment.now }
    requires values { Fits (sites.items site) values.now }
    ensures drafts { Gives (λ holds. holds) (spec.comes_to (arrays site.entry.context.now) values.now (sites.draft site.entry scope.entry condition.now)) result }
    ensures source { AreTyped (sites.items site.entry) (sites.names site.entry) condition.now → Gives (λ holds. holds) (answer (data_fault (arrays site.entry.context.now) (sites.draft site.entry scope.entry condition.now)) (eval condition.now (with_variables (sites.items site.entry) values.now (sees scope.entry)))) result }
{
    opl_draft::laws::unrolled_means();
    match worth(alloc, site, scope, values, condition) {
        Ok(part) => Ok(truth_of(part)),
        Err(fault) => Err(fault),
    }
}
