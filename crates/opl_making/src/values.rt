//! Parts that are made of values.
ghost use Rattle.opl_groups.specs.Visits.{sees};
ghost use Rattle.opl_nodes.specs.Pieces.{Makes};
ghost use Rattle.opl_unfolding.specs.Unrolling.{value_draft};
ghost use Rattle.opl_making.specs.Sites as spec;

use crate::site::Site;
use opl_declared::place;
use opl_eval::eval;
use opl_groups::Scope;
use opl_nodes::{FormFault, Part, value_node};
use opl_term::Term;
use opl_value::Value;
use std::alloc::Global;

/// An expression that names no decision variable.
pub fn value_part(
    alloc: Global,
    site: Site<'_>,
    scope: Scope<'_>,
    term: &Term,
    before: u64,
) -> Result<Part, FormFault>
    ensures { Makes site.entry.context.now (spec.maker site.entry before (value_draft (spec.items site.entry) (spec.names site.entry) term.now (sees scope.entry))) result }
{
    let at = place(site.declared, term);
    match eval(alloc, scope.environment, scope.parameters, term) {
        Ok(value) => value_node(alloc, site.context, at, before, value),
        Err(fault) => Err(FormFault::from(fault)),
    }
}

/// A value that stands elsewhere.
pub fn copied_part(
    alloc: Global,
    site: Site<'_>,
    at: u32,
    before: u64,
    value: &Value,
) -> Result<Part, FormFault>
    ensures { Makes site.entry.context.now (spec.maker site.entry before (spec.known at value.now)) result }
{
    let value = value.copy(alloc)?;
    value_node(alloc, site.context, at, before, value)
}

/// The number 0, which stands for what typing rules out.
pub fn nothing_part(alloc: Global, site: Site<'_>, at: u32, before: u64) -> Result<Part, FormFault>
    ensures { Makes site.entry.context.now (spec.maker site.entry before (spec.nothing at)) result }
{
    value_node(alloc, site.context, at, before, Value::Int(0))
}
