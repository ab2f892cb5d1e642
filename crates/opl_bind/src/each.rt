//! Arrays whose dimensions have names: the expression for each key.
ghost use Rattle.std.specs.Prelude.{◌≡◌, ◌∷◌, [], IfOk, map, take};
ghost use Rattle.opl_given.specs.Arrays.{values_of};
ghost use Rattle.opl_given.specs.Elements.{left};
ghost use Rattle.opl_given.specs.Faults.{Binds};
ghost use Rattle.opl_given.specs.Readings.{axis_of, known_of};
ghost use Rattle.opl_bind.specs.EachKey as keys;
ghost use Rattle.opl_bind.specs.Keys.{chosen, to_come};
ghost use Rattle.opl_bind.specs.Scopes.{names_in};
ghost use Rattle.opl_bind.specs.Written as spec;

use crate::fitted::fitted;
use crate::key_names::with_names;
use crate::key_walk::{Turn, Walk};
use crate::scope::Scope;
use opl_given::{Axis, BindFault, Elements, Form, Types, elements_of};
use opl_list::Seq;
use opl_term::Term;
use opl_tree::DimTree;
use opl_value::Value;
use std::alloc::{AllocError, Global};

/// The first so many axes, or all of them where there are fewer.
#[tactic(auto, using(crate::proofs::EachKey::first_axes))]
fn first_of(axes: &[Axis], count: usize) -> &[Axis]
    ensures { map axis_of result.now ≡ take count (map axis_of axes.now) }
{
    if count < axes.len() {
        &axes[..count]
    } else {
        axes
    }
}

/// The index sets of axes.
fn sets_of<'d>(alloc: Global, axes: &'d [Axis]) -> Result<Vec<Elements<'d>>, AllocError>
    ensures { IfOk result (λ sets. map left sets.items ≡ map values_of (map axis_of axes.now)) }
{
    let mut sets = Vec::new(alloc);
    for axis in axes {
        sets.push(elements_of(&axis.dimension))?;
    }
    Ok(sets)
}

/// The value of one key.
fn value_at(
    alloc: Global,
    types: &Types<'_>,
    scope: Scope<'_>,
    form: &Form,
    term: &Term,
    first: &DimTree,
    rest: &[DimTree],
    key: &[Turn<'_, '_>],
) -> Result<Value, BindFault>
    ensures { Binds ((spec.written (known_of types.now) term.now).fit form.now (keys.with_names (first.now ∷ rest.now) (chosen key.now) (names_in scope.entry))) result }
{
    let parameters = with_names(alloc, scope.parameters, first, rest, key)?;
    let inner = Scope {
        environment: scope.environment,
        parameters: parameters.as_slice(),
    };
    fitted(alloc, types, inner, form, term)
}

/// The values of the keys to which a walk still comes, in index order.
fn values_walked(
    alloc: Global,
    types: &Types<'_>,
    scope: Scope<'_>,
    form: &Form,
    term: &Term,
    first: &DimTree,
    rest: &[DimTree],
    walk: &mut Walk<'_, '_>,
) -> Result<Seq<Value>, BindFault>
    ensures { Binds (keys.over_keys (keys.cell_at (spec.written (known_of types.now) term.now).fit form.now (first.now ∷ rest.now) (names_in scope.entry)) [] (to_come walk.old)) result }
{
    let mut cells = Seq::new(alloc);
    while walk.advance()? {
        let value = value_at(alloc, types, scope, form, term, first, rest, walk.key())?;
        cells.push(value)?;
    }
    Ok(cells)
}

/// The expression for each key of an array, in index order.
pub(crate) fn each_key(
    alloc: Global,
    types: &Types<'_>,
    scope: Scope<'_>,
    form: &Form,
    term: &Term,
    first: &DimTree,
    rest: &[DimTree],
    axes: &[Axis],
) -> Result<Seq<Value>, BindFault>
    ensures { Binds (spec.each_cell (spec.written (known_of types.now) term.now).fit form.now (first.now ∷ rest.now) (map axis_of axes.now) (names_in scope.entry) []) result }
{
    let sets = sets_of(alloc, first_of(axes, rest.len() + 1))?;
    let mut walk = Walk::new(alloc, sets.as_slice());
    values_walked(alloc, types, scope, form, term, first, rest, &mut walk)
}
