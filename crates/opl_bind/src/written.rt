//! Values that the model itself gives.
ghost use Rattle.std.specs.Prelude.{◌≡◌, ◌∷◌, map};
ghost use Rattle.std.specs.List.{list_any};
ghost use Rattle.opl_eval.specs.Visible.{seen};
ghost use Rattle.opl_given.specs.Faults.{Binds};
ghost use Rattle.opl_given.specs.Readings.{axis_of, known_of};
ghost use Rattle.opl_bind.specs.Scopes.{names_in};
ghost use Rattle.opl_bind.specs.Written as spec;

use crate::each::each_key;
use crate::fitted::fitted;
use crate::opened::listed_cells;
use crate::scope::Scope;
use crate::taken::taken_cells;
use opl_eval::Environment;
use opl_given::{Axis, BindFault, Form, Types};
use opl_list::Seq;
use opl_term::Term;
use opl_tree::DimTree;
use opl_value::Value;
use std::alloc::Global;

/// The value of an item without dimensions that the model gives.
pub(crate) fn written_value(
    alloc: Global,
    types: &Types<'_>,
    environment: &Environment<'_>,
    form: &Form,
    term: &Term,
) -> Result<Value, BindFault>
    ensures { Binds (spec.written_value (known_of types.now) (seen environment.now) form.now term.now) result }
{
    let scope = Scope {
        environment,
        parameters: &[],
    };
    fitted(alloc, types, scope, form, term)
}

/// Whether an expression is `[..]` or `#[..]#`.
#[tactic(auto, using(crate::proofs::WrittenLayers::cells_had))]
fn has_cells(term: &Term) -> bool
    ensures { result ≡ spec.has_cells term.now }
{
    match term {
        Term::Number(..) => false,
        Term::Named(..) => false,
        Term::Bracket(..) => false,
        Term::Negative(..) => false,
        Term::Chain(..) => false,
        Term::Related(..) => false,
        Term::Member(..) => false,
        Term::Equivalent(..) => false,
        Term::Implied(..) => false,
        Term::Or(..) => false,
        Term::And(..) => false,
        Term::Not(..) => false,
        Term::Aggregate(..) => false,
        Term::Call(..) => false,
        Term::AllDifferent(..) => false,
        Term::Question(..) => false,
        Term::Element(..) => false,
        Term::Fields(..) => false,
        Term::Record(..) => false,
        Term::Listed(..) => false,
        Term::Described(..) => false,
        Term::Array(..) => true,
        Term::KeyedArray(..) => true,
    }
}

/// Whether one of these dimensions has a name.
fn has_name(dims: &[DimTree]) -> bool
    ensures { result ≡ list_any spec.has_name dims.now }
{
    for dim in dims {
        if dim.name.is_some() {
            return true;
        }
    }
    false
}

/// The cells of an array under a scope, in index order.
#[tactic(auto, using(crate::proofs::WrittenLayers::written_with_cells))]
fn cells_by_form(
    alloc: Global,
    types: &Types<'_>,
    scope: Scope<'_>,
    form: &Form,
    first: &DimTree,
    rest: &[DimTree],
    axes: &[Axis],
    term: &Term,
) -> Result<Seq<Value>, BindFault>
    ensures { Binds (spec.cells_by_form (known_of types.now) (spec.written (known_of types.now) term.now) form.now (first.now ∷ rest.now) (map axis_of axes.now) (names_in scope.entry)) result }
{
    if first.name.is_some() || has_name(rest) {
        return each_key(alloc, types, scope, form, term, first, rest, axes);
    }
    if has_cells(term) {
        return listed_cells(alloc, types, scope, form, axes, term);
    }
    taken_cells(alloc, types, scope, form, axes, term)
}

/// The cells of an array that the model gives, in index order: where a dimension has a name, the expression for each key; else those
/// that are written out, or those of another array by their keys.
pub(crate) fn written_cells(
    alloc: Global,
    types: &Types<'_>,
    environment: &Environment<'_>,
    form: &Form,
    first: &DimTree,
    rest: &[DimTree],
    axes: &[Axis],
    term: &Term,
) -> Result<Seq<Value>, BindFault>
    ensures { Binds (spec.written_cells (known_of types.now) (seen environment.now) form.now (first.now ∷ rest.now) (map axis_of axes.now) term.now) result }
{
    let scope = Scope {
        environment,
        parameters: &[],
    };
    cells_by_form(alloc, types, scope, form, first, rest, axes, term)
}
