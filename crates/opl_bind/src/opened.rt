//! `[..]` and `#[..]#` of the model: the shape of the whole, then the elements in index order.
ghost use Rattle.std.specs.Prelude.{◌≡◌, ◌<◌, ◌∷◌, ◌++◌, ◌^◌, [], IfOk, None, Some, length, map, nat_eq, set};
ghost use Rattle.opl_value.specs.Places.{place_in};
ghost use Rattle.opl_eval.specs.Evaluation.{meaning};
ghost use Rattle.opl_given.specs.Arrays as arrays;
ghost use Rattle.opl_bind.specs.Cells.{fits, fits_at, key_place, terms_at};
ghost use Rattle.opl_bind.specs.Dimensions.{evaluated};
ghost use Rattle.opl_given.specs.Faults.{Binds, Gives, provided, then};
ghost use Rattle.opl_given.specs.Readings.{axis_of, known_of, lent};
ghost use Rattle.opl_bind.specs.Scopes.{names_in};
ghost use Rattle.opl_given.specs.Values.{all_by_form};
ghost use Rattle.opl_bind.specs.Written as spec;

use crate::fitted::{first_token, fitted};
use crate::scope::{Scope, evaluated};
use opl_given::{Axis, BindFault, Form, Types};
use opl_list::Seq;
use opl_term::Term;
use opl_value::Value;
use std::alloc::{AllocError, Global};

/// What an array of the model is opened under, and the place of its first token.
#[derive(Clone, Copy)]
struct Opening<'a> {
    types: &'a Types<'a>,
    scope: Scope<'a>,
    at: u32,
}

/// Whether an index set has so many elements.
fn has_size(axis: &Axis, count: usize) -> bool
    ensures { result ≡ nat_eq count (length (arrays.values_of (axis_of axis.now))) }
{
    match axis.dimension.count() {
        Some(size) => count as u64 == size,
        None => false,
    }
}

/// As many free places as there are keys.
fn free_slots<'t>(alloc: Global, keys: &[Term]) -> Result<Vec<Option<Seq<&'t Term>>>, AllocError>
    ensures { IfOk result (λ slots. terms_at slots.items ≡ map (λ key. None) keys.now) }
{
    let mut slots = Vec::new(alloc);
    for key in keys {
        let _key = key;
        slots.push(None)?;
    }
    Ok(slots)
}

/// Whether there is such a place, and no cells are at it yet.
#[tactic(auto, using(crate::proofs::CellSlots::slots))]
fn is_free(slots: &[Option<Seq<&Term>>], place: Option<u64>) -> bool
    ensures { result ≡ arrays.is_free (spec.slot_at (terms_at slots.now) place) }
{
    let Some(place) = place else {
        return false;
    };
    match slots.get(place as usize) {
        Some(slot) => slot.is_none(),
        None => false,
    }
}

/// The place of a value in an index set.
fn place_of(axis: &Axis, value: &Value) -> Option<u64>
    requires { length (arrays.values_of (axis_of axis.now)) < 2 ^ 64 }
    ensures { result ≡ place_in value.now (arrays.values_of (axis_of axis.now)) }
{
    axis.dimension.place(value)
}

/// The place of a key, where no cells are yet.
fn free_place(
    alloc: Global,
    opening: Opening<'_>,
    axis: &Axis,
    slots: &[Option<Seq<&Term>>],
    key: &Term,
) -> Result<Option<u64>, BindFault>
    requires { length (arrays.values_of (axis_of axis.now)) < 2 ^ 64 }
    ensures { Binds (key_place (BindFault.Shape 0 opening.entry.at) (axis_of axis.now) (terms_at slots.now) (evaluated ((meaning key.now).value (names_in opening.entry.scope)))) result }
{
    let place = place_of(axis, &evaluated(alloc, opening.scope, key)?);
    if !is_free(slots, place) {
        return Err(BindFault::Shape(0, opening.at));
    }
    Ok(place)
}

/// The cells at a place.
fn put<'t>(
    slots: Vec<Option<Seq<&'t Term>>>,
    place: u64,
    cells: Seq<&'t Term>,
) -> Vec<Option<Seq<&'t Term>>>
    ensures { result.items ≡ set slots.entry.items place (Some cells.entry) }
{
    let at = place as usize;
    let mut slots = slots;
    if at < slots.len() {
        slots[at] = Some(cells);
    }
    slots
}

/// The cells at their place, if there is one.
#[tactic(auto, using(crate::proofs::CellSlots::slots))]
fn with_slot<'t>(
    slots: Vec<Option<Seq<&'t Term>>>,
    place: Option<u64>,
    cells: Seq<&'t Term>,
) -> Vec<Option<Seq<&'t Term>>>
    ensures { terms_at result.items ≡ spec.with_slot (terms_at slots.entry.items) place (lent cells.entry) }
{
    match place {
        Some(place) => put(slots, place, cells),
        None => slots,
    }
}

/// The one list behind the other.
#[tactic(auto, using(crate::proofs::CellSlots::lists))]
fn joined<'t>(before: Seq<&'t Term>, cells: &[&'t Term]) -> Result<Seq<&'t Term>, AllocError>
    ensures { IfOk result (λ all. lent all ≡ lent before.entry ++ lent cells.now) }
{
    let mut all = before;
    for cell in cells {
        all.push(*cell)?;
    }
    Ok(all)
}

/// A list of one cell.
fn single<'t>(alloc: Global, term: &'t Term) -> Result<Seq<&'t Term>, AllocError>
    ensures { IfOk result (λ cells. lent cells ≡ term.now ∷ []) }
{
    let mut cells = Seq::new(alloc);
    cells.push(term)?;
    Ok(cells)
}

/// The cells at all places in their order, where none is missing.
fn gathered<'t>(
    alloc: Global,
    at: u32,
    slots: &[Option<Seq<&'t Term>>],
) -> Result<Seq<&'t Term>, BindFault>
    ensures { Gives lent (spec.gathered (BindFault.Shape 0 at) [] (terms_at slots.now)) result }
{
    let mut all = Seq::new(alloc);
    for slot in slots {
        let Some(cells) = slot else {
            return Err(BindFault::Shape(0, at));
        };
        all = joined(all, cells.as_slice())?;
    }
    Ok(all)
}

/// The cells of an expression over index sets, in index order: the expression itself where there are none.
#[cycle(opening)]
fn cells_of<'t>(
    alloc: Global,
    opening: Opening<'_>,
    axes: &[Axis],
    term: &'t Term,
) -> Result<Seq<&'t Term>, BindFault>
    ensures { Gives (λ cells. fits (known_of opening.entry.types.now) (lent cells)) ((spec.written (known_of opening.entry.types.now) term.now).cells (BindFault.Shape 0 opening.entry.at) (map axis_of axes.now) (names_in opening.entry.scope)) result }
{
    match axes.split_first() {
        None => Ok(single(alloc, term)?),
        Some((axis, others)) => cells_over(alloc, opening, axis, others, term),
    }
}

/// The cells of `[..]`, which has as many as the first index set has elements, or of `#[..]#`, which has one for each key.
#[cycle(opening)]
#[tactic(auto, using(crate::proofs::WrittenLayers::cells_written))]
fn cells_over<'t>(
    alloc: Global,
    opening: Opening<'_>,
    axis: &Axis,
    axes: &[Axis],
    term: &'t Term,
) -> Result<Seq<&'t Term>, BindFault>
    ensures { Gives (λ cells. fits (known_of opening.entry.types.now) (lent cells)) ((spec.written (known_of opening.entry.types.now) term.now).cells (BindFault.Shape 0 opening.entry.at) (axis_of axis.now ∷ map axis_of axes.now) (names_in opening.entry.scope)) result }
{
    match term {
        Term::Array(_, parts) => {
            if !has_size(axis, parts.len()) {
                return Err(BindFault::Shape(0, opening.at));
            }
            opened(alloc, opening, axes, parts.as_slice())
        }
        Term::KeyedArray(_, keys, cells) => {
            keyed(
                alloc,
                opening,
                axis,
                axes,
                keys.as_slice(),
                cells.as_slice(),
            )
        }
        Term::Number(..) => Err(BindFault::Shape(0, opening.at)),
        Term::Named(..) => Err(BindFault::Shape(0, opening.at)),
        Term::Bracket(..) => Err(BindFault::Shape(0, opening.at)),
        Term::Negative(..) => Err(BindFault::Shape(0, opening.at)),
        Term::Chain(..) => Err(BindFault::Shape(0, opening.at)),
        Term::Related(..) => Err(BindFault::Shape(0, opening.at)),
        Term::Member(..) => Err(BindFault::Shape(0, opening.at)),
        Term::Equivalent(..) => Err(BindFault::Shape(0, opening.at)),
        Term::Implied(..) => Err(BindFault::Shape(0, opening.at)),
        Term::Or(..) => Err(BindFault::Shape(0, opening.at)),
        Term::And(..) => Err(BindFault::Shape(0, opening.at)),
        Term::Not(..) => Err(BindFault::Shape(0, opening.at)),
        Term::Aggregate(..) => Err(BindFault::Shape(0, opening.at)),
        Term::Call(..) => Err(BindFault::Shape(0, opening.at)),
        Term::AllDifferent(..) => Err(BindFault::Shape(0, opening.at)),
        Term::Question(..) => Err(BindFault::Shape(0, opening.at)),
        Term::Element(..) => Err(BindFault::Shape(0, opening.at)),
        Term::Fields(..) => Err(BindFault::Shape(0, opening.at)),
        Term::Record(..) => Err(BindFault::Shape(0, opening.at)),
        Term::Listed(..) => Err(BindFault::Shape(0, opening.at)),
        Term::Described(..) => Err(BindFault::Shape(0, opening.at)),
    }
}

/// The cells of all these, one list behind the other.
#[cycle(opening)]
#[tactic(auto, using(crate::proofs::CellSlots::mapped))]
fn opened<'t>(
    alloc: Global,
    opening: Opening<'_>,
    axes: &[Axis],
    parts: &'t [Term],
) -> Result<Seq<&'t Term>, BindFault>
    ensures { Gives (λ cells. fits (known_of opening.entry.types.now) (lent cells)) (spec.opened (BindFault.Shape 0 opening.entry.at) (map axis_of axes.now) (names_in opening.entry.scope) [] (map (spec.written (known_of opening.entry.types.now)) parts.now)) result }
{
    let mut all = Seq::new(alloc);
    for part in parts {
        let cells = cells_of(alloc, opening, axes, part)?;
        all = joined(all, cells.as_slice())?;
    }
    Ok(all)
}

/// The cells of `#[..]#`, in index order.
#[cycle(opening)]
fn keyed<'t>(
    alloc: Global,
    opening: Opening<'_>,
    axis: &Axis,
    axes: &[Axis],
    keys: &'t [Term],
    cells: &'t [Term],
) -> Result<Seq<&'t Term>, BindFault>
    ensures { Gives (λ cells. fits (known_of opening.entry.types.now) (lent cells)) (provided (nat_eq (length keys.now) (length (arrays.values_of (axis_of axis.now)))) (BindFault.Shape 0 opening.entry.at) (then (spec.laid (BindFault.Shape 0 opening.entry.at) (axis_of axis.now) (map axis_of axes.now) (names_in opening.entry.scope) (spec.free_slots (map (spec.written (known_of opening.entry.types.now)) keys.now)) (map (spec.written (known_of opening.entry.types.now)) keys.now) (map (spec.written (known_of opening.entry.types.now)) cells.now)) (spec.gathered (BindFault.Shape 0 opening.entry.at) []))) result }
{
    if !has_size(axis, keys.len()) {
        return Err(BindFault::Shape(0, opening.at));
    }
    let slots = laid(alloc, opening, axis, axes, keys, cells)?;
    gathered(alloc, opening.at, slots.as_slice())
}

/// The cells of each pair at the place of its key, where none are yet.
#[cycle(opening)]
fn laid<'t>(
    alloc: Global,
    opening: Opening<'_>,
    axis: &Axis,
    axes: &[Axis],
    keys: &'t [Term],
    cells: &'t [Term],
) -> Result<Vec<Option<Seq<&'t Term>>>, BindFault>
    requires { length (arrays.values_of (axis_of axis.now)) < 2 ^ 64 }
    ensures { Gives (λ slots. fits_at (known_of opening.entry.types.now) (terms_at slots.items)) (spec.laid (BindFault.Shape 0 opening.entry.at) (axis_of axis.now) (map axis_of axes.now) (names_in opening.entry.scope) (spec.free_slots (map (spec.written (known_of opening.entry.types.now)) keys.now)) (map (spec.written (known_of opening.entry.types.now)) keys.now) (map (spec.written (known_of opening.entry.types.now)) cells.now)) result }
{
    let mut slots = free_slots(alloc, keys)?;
    let mut left = cells;
    for key in keys {
        let Some((cell, others)) = left.split_first() else {
            return Ok(slots);
        };
        let place = free_place(alloc, opening, axis, slots.as_slice(), key)?;
        let more = cells_of(alloc, opening, axes, cell)?;
        slots = with_slot(slots, place, more);
        left = others;
    }
    Ok(slots)
}

/// The values of these cells, in their order.
fn all_fitted(
    alloc: Global,
    types: &Types<'_>,
    scope: Scope<'_>,
    form: &Form,
    cells: &[&Term],
) -> Result<Seq<Value>, BindFault>
    ensures { Binds (all_by_form [] (map (λ fit. λ f. fit f (names_in scope.entry)) (fits (known_of types.now) (lent cells.now))) form.now) result }
{
    let mut found = Seq::new(alloc);
    for cell in cells {
        found.push(fitted(alloc, types, scope, form, cell)?)?;
    }
    Ok(found)
}

/// The elements of `[..]` or `#[..]#`, in index order. The shape of the whole is tested before any element.
pub(crate) fn listed_cells(
    alloc: Global,
    types: &Types<'_>,
    scope: Scope<'_>,
    form: &Form,
    axes: &[Axis],
    term: &Term,
) -> Result<Seq<Value>, BindFault>
    ensures { Binds (spec.listed_cells (spec.written (known_of types.now) term.now) form.now (map axis_of axes.now) (names_in scope.entry)) result }
{
    let at = first_token(term);
    let opening = Opening { types, scope, at };
    let cells = cells_of(alloc, opening, axes, term)?;
    all_fitted(alloc, types, scope, form, cells.as_slice())
}
