//! The decision variables of declarations.
ghost use Rattle.std.specs.Prelude.{◌≡◌, ◌∷◌, ◌++◌, [], Ok};
ghost use Rattle.opl_value.specs.Places.{elements, lists};
ghost use Rattle.opl_eval.specs.Visible.{seen};
ghost use Rattle.opl_bind.specs.Dimensions.{space_in};
ghost use Rattle.opl_meaning.specs.Faults.{Does, Gives, Makes, found};
ghost use Rattle.opl_meaning.specs.Variables as spec;

use crate::counted::Counted;
use crate::ends::{kind_of, set_in};
use crate::fault::MeaningFault;
use crate::sets::each_set;
use crate::totals::Totals;
use crate::variable::{DeclaredSet, VariableItem};
use crate::visible::Visible;
use opl_bind::{BindFault, index_space};
use opl_eval::Environment;
use opl_list::Seq;
use opl_token::Name;
use opl_tree::{DeclTree, DimsTree, VariableTree};
use opl_value::IndexSpace;
use std::alloc::Global;

/// The greatest number of decision variables.
const MOST_VARIABLES: u64 = 65536;

/// A fault of index sets.
fn fault_of(fault: BindFault) -> MeaningFault
    ensures { result ≡ spec.fault_of fault }
{
    match fault {
        BindFault::Eval(fault) => MeaningFault::Eval(fault),
        BindFault::Given(_)
        | BindFault::Twice(_)
        | BindFault::Missing(_)
        | BindFault::Shape(..)
        | BindFault::Outside(..)
        | BindFault::Override(_)
        | BindFault::OutOfMemory => MeaningFault::OutOfMemory,
    }
}

/// The index space of the dimensions.
fn space_of(
    alloc: Global,
    environment: &Environment<'_>,
    dims: &DimsTree,
) -> Result<IndexSpace, MeaningFault>
    ensures { Makes (spec.spaced (space_in (seen environment.now) dims.now)) result }
{
    match index_space(alloc, environment, dims) {
        Ok(space) => Ok(space),
        Err(fault) => Err(fault_of(fault)),
    }
}

/// The declared set of a variable that is no array. Those before have so many values.
fn single_set(
    alloc: Global,
    environment: &Environment<'_>,
    t: &VariableTree,
    before: u128,
) -> Result<DeclaredSet, MeaningFault>
    ensures { Makes (spec.set_in t.now before (seen environment.now)) result }
{
    let visible = Visible {
        environment,
        parameters: &[],
    };
    set_in(alloc, visible, t, before)
}

/// The declared set for each key of an array of variables, in index order. Those of earlier declarations have so many values.
fn array_sets(
    alloc: Global,
    environment: &Environment<'_>,
    t: &VariableTree,
    earlier: u128,
    dims: &DimsTree,
    space: &IndexSpace,
) -> Result<Seq<DeclaredSet>, MeaningFault>
    ensures { Makes (spec.each_set t.now earlier (dims.now.first ∷ dims.now.rest) (lists space.now) (seen environment.now) []) result }
{
    let visible = Visible {
        environment,
        parameters: &[],
    };
    each_set(
        alloc,
        visible,
        t,
        earlier,
        &dims.first,
        dims.rest.as_slice(),
        space.dims.as_slice(),
    )
}

/// The variables of a declaration, with their index space and declared sets.
fn item_with(
    alloc: Global,
    environment: &Environment<'_>,
    t: &VariableTree,
    space: Option<IndexSpace>,
    sets: Seq<DeclaredSet>,
) -> Result<VariableItem, MeaningFault>
    ensures { Does (λ item. item ≡ spec.item_with t.now (seen environment.now) space sets) result }
{
    let name = Name::from_slice(alloc, t.name.text.as_slice())?;
    let kind = kind_of(alloc, environment, t)?;
    Ok(VariableItem {
        name,
        kind,
        space,
        sets,
    })
}

/// With so many variables more than before there are not too many.
fn few_variables(at: u32, before: u64, more: u64) -> Result<(), MeaningFault>
    ensures { Makes (spec.few_variables at before more (Ok tt)) result }
{
    match before.checked_add(more) {
        None => Err(MeaningFault::TooManyVariables(at)),
        Some(together) => {
            if together > MOST_VARIABLES {
                return Err(MeaningFault::TooManyVariables(at));
            }
            Ok(())
        }
    }
}

/// The same for each key of an index space, which may have more than can be counted.
fn few_keys(at: u32, before: u64, space: &IndexSpace) -> Result<(), MeaningFault>
    ensures { Makes (spec.few_variables at before (elements (lists space.now)) (Ok tt)) result }
{
    match space.elements() {
        None => Err(MeaningFault::TooManyVariables(at)),
        Some(more) => few_variables(at, before, more),
    }
}

/// The variable of a declaration without dimensions.
fn single_in(
    alloc: Global,
    environment: &Environment<'_>,
    before: Totals,
    t: &VariableTree,
) -> Result<VariableItem, MeaningFault>
    ensures { Makes (spec.item_over (seen environment.now) before t.now None) result }
{
    few_variables(t.at, before.variables, 1)?;
    let mut sets = Seq::new(alloc);
    sets.push(single_set(alloc, environment, t, before.values)?)?;
    item_with(alloc, environment, t, None, sets)
}

/// The array of variables of a declaration with these dimensions.
fn array_in(
    alloc: Global,
    environment: &Environment<'_>,
    before: Totals,
    t: &VariableTree,
    dims: &DimsTree,
) -> Result<VariableItem, MeaningFault>
    ensures { Makes (spec.item_over (seen environment.now) before t.now (Some dims.now)) result }
{
    let space = space_of(alloc, environment, dims)?;
    few_keys(t.at, before.variables, &space)?;
    let sets = array_sets(alloc, environment, t, before.values, dims, &space)?;
    item_with(alloc, environment, t, Some(space), sets)
}

/// The variables of a declaration, where there are so many before.
#[tactic(auto, unfolding(crate::specs::Variables::item_in))]
fn item_in(
    alloc: Global,
    environment: &Environment<'_>,
    before: Totals,
    t: &VariableTree,
) -> Result<VariableItem, MeaningFault>
    ensures { Makes (spec.item_in (seen environment.now) before t.now) result }
{
    match &t.dims {
        None => single_in(alloc, environment, before, t),
        Some(dims) => array_in(alloc, environment, before, t, dims),
    }
}

/// The variables so far, and behind them those of a declaration.
fn with_variables(
    alloc: Global,
    environment: &Environment<'_>,
    before: Counted,
    t: &VariableTree,
) -> Result<Counted, MeaningFault>
    ensures { Gives (λ c. c.items) (found (λ v. before.items ++ v ∷ []) (spec.item_in (seen environment.now) (spec.totals_of before.items) t.now)) result }
{
    let item = item_in(alloc, environment, before.totals, t)?;
    Ok(before.with(item)?)
}

/// The variables so far, and behind them those of a declaration, if it declares some.
fn with_decl(
    alloc: Global,
    environment: &Environment<'_>,
    before: Counted,
    t: &DeclTree,
) -> Result<Counted, MeaningFault>
    ensures { Gives (λ c. c.items) (spec.with_decl (seen environment.now) before.items t.now) result }
{
    match t {
        DeclTree::Variable(t) => with_variables(alloc, environment, before, t),
        DeclTree::Data(_)
        | DeclTree::Range(_)
        | DeclTree::Enumeration(_)
        | DeclTree::Structure(_)
        | DeclTree::Activity(_)
        | DeclTree::Unary(_)
        | DeclTree::Discrete(_)
        | DeclTree::Schedule(_) => Ok(before),
    }
}

/// The decision variables of declarations with their declared sets, or the first fault, in the order of the declarations: of a
/// declaration the faults of its index sets, too many variables, then element by element the faults of the low end and of the high end,
/// an end that is too far from 0, too many values in the set, and too many in all sets so far.
#[tactic(auto, unfolding(crate::specs::Variables::variables_in))]
pub fn variables(
    alloc: Global,
    environment: &Environment<'_>,
    decls: &[DeclTree],
) -> Result<Seq<VariableItem>, MeaningFault>
    ensures { Makes (spec.variables_in (seen environment.now) [] decls.now) result }
{
    let mut counted = Counted::new(alloc);
    for t in decls {
        counted = with_decl(alloc, environment, counted, t)?;
    }
    Ok(counted.into_items())
}
