//! The declared sets of an array of variables, key by key.
ghost use Rattle.std.specs.Prelude.{◌≡◌, ◌∷◌, [], IfOk, map, take};
ghost use Rattle.opl_value.specs.Places.{dimension_values};
ghost use Rattle.opl_given.specs.Elements.{left};
ghost use Rattle.opl_bind.specs.EachKey.{with_names};
ghost use Rattle.opl_bind.specs.Keys.{chosen};
ghost use Rattle.opl_meaning.specs.EachSet as keys;
ghost use Rattle.opl_meaning.specs.Faults.{Makes};
ghost use Rattle.opl_meaning.specs.VariableReadings.{sees};
ghost use Rattle.opl_meaning.specs.Variables as spec;

use crate::ends::{EndTerms, end_terms, set_by};
use crate::fault::MeaningFault;
use crate::totals::values_with;
use crate::variable::DeclaredSet;
use crate::visible::Visible;
use opl_bind::{Turn, Walk, with_names};
use opl_given::{Elements, elements_of};
use opl_list::Seq;
use opl_tree::{DimTree, VariableTree};
use opl_value::Dimension;
use std::alloc::{AllocError, Global};

/// The first so many dimensions, or all of them where there are fewer.
#[tactic(auto, using(crate::proofs::EachSet::first_dimensions))]
fn first_of(dimensions: &[Dimension], count: usize) -> &[Dimension]
    ensures { map dimension_values result.now ≡ take count (map dimension_values dimensions.now) }
{
    if count < dimensions.len() {
        &dimensions[..count]
    } else {
        dimensions
    }
}

/// The index sets of dimensions.
fn sets_of<'d>(alloc: Global, dimensions: &'d [Dimension]) -> Result<Vec<Elements<'d>>, AllocError>
    ensures { IfOk result (λ sets. map left sets.items ≡ map dimension_values dimensions.now) }
{
    let mut sets = Vec::new(alloc);
    for dimension in dimensions {
        sets.push(elements_of(dimension))?;
    }
    Ok(sets)
}

/// The declared set of one key. Those before have so many values.
fn set_at(
    alloc: Global,
    visible: Visible<'_>,
    t: &VariableTree,
    ends: &Option<EndTerms>,
    first: &DimTree,
    rest: &[DimTree],
    key: &[Turn<'_, '_>],
    before: u128,
) -> Result<DeclaredSet, MeaningFault>
    ensures { Makes (keys.set_by t.now ends.now before (with_names (first.now ∷ rest.now) (chosen key.now) (sees visible.entry))) result }
{
    let parameters = with_names(alloc, visible.parameters, first, rest, key)?;
    let inner = Visible {
        environment: visible.environment,
        parameters: parameters.as_slice(),
    };
    set_by(alloc, inner, t, ends, before)
}

/// The declared set for each key of an array of variables, in index order. Those of earlier declarations have so many values. The
/// expressions of its ends are made once for all.
#[tactic(auto, using(crate::proofs::Limits::sums))]
pub(crate) fn each_set(
    alloc: Global,
    visible: Visible<'_>,
    t: &VariableTree,
    earlier: u128,
    first: &DimTree,
    rest: &[DimTree],
    dimensions: &[Dimension],
) -> Result<Seq<DeclaredSet>, MeaningFault>
    ensures { Makes (spec.each_set t.now earlier (first.now ∷ rest.now) (map dimension_values dimensions.now) (sees visible.entry) []) result }
{
    let ends = end_terms(alloc, &t.bounds)?;
    let index_sets = sets_of(alloc, first_of(dimensions, rest.len() + 1))?;
    let mut walk = Walk::new(alloc, index_sets.as_slice());
    let mut sets = Seq::new(alloc);
    let mut values = earlier;
    while walk.advance()? {
        let set = set_at(alloc, visible, t, &ends, first, rest, walk.key(), values)?;
        values = values_with(values, &set)?;
        sets.push(set)?;
    }
    Ok(sets)
}
