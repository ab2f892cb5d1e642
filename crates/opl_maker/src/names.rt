//! Names as parts.
ghost use Rattle.std.specs.Prelude.{None, Some, map};
ghost use Rattle.opl_eval.specs.Evaluation.{parameter_or};
ghost use Rattle.opl_eval.specs.Visible.{parameter_of};
ghost use Rattle.opl_draft.specs.Drafts.{Draft};
ghost use Rattle.opl_draft.specs.Forms.{cells_in};
ghost use Rattle.opl_draft.specs.Numbers.{variable_named};
ghost use Rattle.opl_draft.specs.Unrolled.{named_draft, plain_draft};
ghost use Rattle.opl_declared.specs.Lookups.{cells_named};
ghost use Rattle.opl_groups.specs.Visits.{sees};
ghost use Rattle.opl_nodes.specs.Pieces.{Makes};
ghost use Rattle.opl_making.specs.Sites as spec;

use opl_declared::{Numbered, name_of};
use opl_elements::{different, variable};
use opl_groups::Scope;
use opl_making::{Site, copied_part, declared_number, elements_differ, nothing_part, parameter};
use opl_nodes::{FormFault, Part, truth_node};
use opl_term::Term;
use std::alloc::Global;

/// A name: the parameter of that name, else the decision variable.
pub(crate) fn named_part(
    alloc: Global,
    site: Site<'_>,
    scope: Scope<'_>,
    at: u32,
    name: &[u8],
    before: u64,
) -> Result<Part, FormFault>
    requires { spec.IsSite site scope.environment.now }
    ensures { Makes site.entry.context.now (spec.maker site.entry before (named_draft at (parameter_or None name.now (map parameter_of scope.entry.parameters.now)) (variable_named name.now (spec.items site.entry)))) result }
{
    match parameter(scope.parameters, name) {
        Some(value) => copied_part(alloc, site, at, before, value),
        None => declared_part(alloc, site, scope, at, name, before),
    }
}

/// The decision variable of a name.
fn declared_part(
    alloc: Global,
    site: Site<'_>,
    scope: Scope<'_>,
    at: u32,
    name: &[u8],
    before: u64,
) -> Result<Part, FormFault>
    requires { spec.IsSite site scope.environment.now }
    ensures { Makes site.entry.context.now (spec.maker site.entry before (named_draft at None (variable_named name.now (spec.items site.entry)))) result }
{
    match site.declared.variable(scope.environment, name) {
        Some(numbered) => variable_part(alloc, site, at, numbered, before),
        None => nothing_part(alloc, site, at, before),
    }
}

/// A decision variable that is no array. An array stands nowhere alone, which typing sees to.
fn variable_part(
    alloc: Global,
    site: Site<'_>,
    at: u32,
    numbered: Numbered<'_>,
    before: u64,
) -> Result<Part, FormFault>
    ensures { Makes site.entry.context.now (spec.maker site.entry before (plain_draft at numbered.entry.item.now numbered.entry.first numbered.entry.item.now.space)) result }
{
    match &numbered.item.space {
        None => {
            variable(
                alloc,
                site.context,
                at,
                before,
                numbered.first,
                numbered.item.kind,
            )
        }
        Some(_) => nothing_part(alloc, site, at, before),
    }
}

/// `alldifferent` of the array that a term names. What names none differs.
pub(crate) fn difference(
    alloc: Global,
    site: Site<'_>,
    scope: Scope<'_>,
    at: u32,
    term: &Term,
    before: u64,
) -> Result<Part, FormFault>
    requires { spec.IsSite site scope.environment.now }
    ensures { Makes site.entry.context.now (spec.maker site.entry before (Draft.different at (cells_in (spec.items site.entry) (spec.names site.entry) term.now (sees scope.entry)))) result }
{
    match name_of(site.declared, term) {
        Some(name) => named_difference(alloc, site, scope, at, name, before),
        None => truth_node(alloc, site.context, before, true),
    }
}

/// The same of the array that a name stands for.
fn named_difference(
    alloc: Global,
    site: Site<'_>,
    scope: Scope<'_>,
    at: u32,
    name: &[u8],
    before: u64,
) -> Result<Part, FormFault>
    requires { spec.IsSite site scope.environment.now }
    ensures { Makes site.entry.context.now (spec.maker site.entry before (Draft.different at (cells_named (spec.items site.entry) (Some name.now) (sees scope.entry)))) result }
{
    match parameter(scope.parameters, name) {
        Some(value) => {
            let differ = elements_differ(alloc, value)?;
            truth_node(alloc, site.context, before, differ)
        }
        None => {
            let array = declared_number(site, scope, name)?;
            different(alloc, site.context, at, before, array)
        }
    }
}
