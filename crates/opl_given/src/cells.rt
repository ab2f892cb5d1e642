//! Arrays of data files: the shape of the whole, then the elements in index order.
ghost use Rattle.std.specs.Prelude.{◌≡◌, ◌<◌, ◌∷◌, ◌++◌, ◌^◌, [], IfOk, IsTrue, length, map, nat_eq, slice_get};
ghost use Rattle.opl_given.specs.Arrays as spec;
ghost use Rattle.opl_given.specs.Faults.{Binds, Does, Gives};
ghost use Rattle.opl_given.specs.Readings.{axis_of, known_of, laid, lent};
ghost use Rattle.opl_given.specs.Values.{all_by_form, value_in};

use crate::axis::Axis;
use crate::fault::BindFault;
use crate::form::Form;
use crate::types::Types;
use crate::value::value_in;
use opl_data::{DataPair, DataValue};
use opl_list::Seq;
use opl_value::Value;
use std::alloc::{AllocError, Global};

/// An array of a data file: the file's number, and the place of the array's first token.
#[derive(Clone, Copy)]
pub(crate) struct Source {
    pub(crate) file: u32,
    pub(crate) at: u32,
}

impl Source {
    /// The fault of a wrong number of cells or a wrong key.
    pub(crate) fn shape(self) -> BindFault
        ensures { result ≡ BindFault.Shape self.file self.at }
    {
        BindFault::Shape(self.file, self.at)
    }
}

impl Axis {
    /// Whether the index set has so many elements.
    fn has_size(&self, count: usize) -> bool
        ensures { result ≡ nat_eq count (length (spec.values_of (axis_of self.now))) }
    {
        match self.dimension.count() {
            Some(size) => count as u64 == size,
            None => false,
        }
    }
}

/// The place of a key among the elements of the index set, if it is one of them.
fn key_place(
    alloc: Global,
    types: &Types<'_>,
    axis: &Axis,
    key: &DataValue,
) -> Result<Option<u64>, BindFault>
    requires { length (spec.values_of (axis_of axis.now)) < 2 ^ 64 }
    ensures { Does (λ place. place ≡ spec.key_place (known_of types.now) (axis_of axis.now) key.now) result }
{
    match value_in(alloc, types, 0, key, &axis.form) {
        Ok(value) => Ok(axis.dimension.place(&value)),
        Err(BindFault::OutOfMemory) => Err(BindFault::OutOfMemory),
        Err(
            BindFault::Given(_)
            | BindFault::Twice(_)
            | BindFault::Missing(_)
            | BindFault::Shape(..)
            | BindFault::Outside(..)
            | BindFault::Override(_)
            | BindFault::Eval(_),
        ) => Ok(None),
    }
}

/// As many free places as there are pairs.
fn free<'v>(alloc: Global, pairs: &[DataPair]) -> Result<Vec<Option<&'v DataValue>>, AllocError>
    ensures { IfOk result (λ slots. laid slots.items ≡ spec.free pairs.now) }
{
    let mut slots = Vec::new(alloc);
    for pair in pairs {
        let _at = pair.at;
        slots.push(None)?;
    }
    Ok(slots)
}

/// Whether no cell is at that place yet.
#[tactic(auto, using(crate::proofs::Slots::slots))]
fn is_free(slots: &[Option<&DataValue>], place: u64) -> bool
    ensures value { result ≡ spec.is_free (slice_get (laid slots.now) place) }
    ensures within { IsTrue result → place < length slots.now }
{
    match slots.get(place as usize) {
        Some(slot) => slot.is_none(),
        None => false,
    }
}

/// The cell at its place, where none is there yet.
#[tactic(auto, using(crate::proofs::Slots::slots))]
fn put<'v>(
    source: Source,
    slots: Vec<Option<&'v DataValue>>,
    place: Option<u64>,
    cell: &'v DataValue,
) -> Result<Vec<Option<&'v DataValue>>, BindFault>
    ensures { Gives (λ s. laid s.items) (spec.put (BindFault.Shape source.file source.at) (laid slots.entry.items) place cell.now) result }
{
    let Some(place) = place else {
        return Err(source.shape());
    };
    if !is_free(slots.as_slice(), place) {
        return Err(source.shape());
    }
    let mut slots = slots;
    slots[place as usize] = Some(cell);
    Ok(slots)
}

/// Each cell at the place of its key.
fn lay<'v>(
    alloc: Global,
    types: &Types<'_>,
    source: Source,
    axis: &Axis,
    pairs: &'v [DataPair],
) -> Result<Vec<Option<&'v DataValue>>, BindFault>
    requires { length (spec.values_of (axis_of axis.now)) < 2 ^ 64 }
    ensures { Gives (λ s. laid s.items) (spec.lay (known_of types.now) (BindFault.Shape source.file source.at) (axis_of axis.now) (spec.free pairs.now) pairs.now) result }
{
    let mut slots = free(alloc, pairs)?;
    for pair in pairs {
        let place = key_place(alloc, types, axis, &pair.key)?;
        slots = put(source, slots, place, &pair.value)?;
    }
    Ok(slots)
}

/// The cells in the order of their places, where none is missing.
#[tactic(auto, using(crate::proofs::Slots::slots))]
fn filled<'v>(
    alloc: Global,
    source: Source,
    slots: &[Option<&'v DataValue>],
) -> Result<Seq<&'v DataValue>, BindFault>
    ensures { Gives lent (spec.filled (BindFault.Shape source.file source.at) [] (laid slots.now)) result }
{
    let mut cells = Seq::new(alloc);
    for slot in slots {
        let Some(cell) = slot else {
            return Err(source.shape());
        };
        cells.push(*cell)?;
    }
    Ok(cells)
}

/// The cells of `[..]`, which has as many as the index set has elements.
#[tactic(auto, using(crate::proofs::Slots::slots))]
fn listed<'v>(
    alloc: Global,
    source: Source,
    axis: &Axis,
    parts: &'v [DataValue],
) -> Result<Seq<&'v DataValue>, BindFault>
    ensures { Gives lent (spec.listed (BindFault.Shape source.file source.at) (axis_of axis.now) parts.now) result }
{
    if !axis.has_size(parts.len()) {
        return Err(source.shape());
    }
    let mut cells = Seq::new(alloc);
    for part in parts {
        cells.push(part)?;
    }
    Ok(cells)
}

/// The cells of `#[..]#`, which has one for each key.
fn keyed<'v>(
    alloc: Global,
    types: &Types<'_>,
    source: Source,
    axis: &Axis,
    pairs: &'v [DataPair],
) -> Result<Seq<&'v DataValue>, BindFault>
    ensures { Gives lent (spec.keyed (known_of types.now) (BindFault.Shape source.file source.at) (axis_of axis.now) pairs.now) result }
{
    if !axis.has_size(pairs.len()) {
        return Err(source.shape());
    }
    let slots = lay(alloc, types, source, axis, pairs)?;
    filled(alloc, source, slots.as_slice())
}

/// The cells of one dimension, in the order of its index set.
#[tactic(auto, using(crate::proofs::Slots::cells))]
fn cells_of<'v>(
    alloc: Global,
    types: &Types<'_>,
    source: Source,
    axis: &Axis,
    value: &'v DataValue,
) -> Result<Seq<&'v DataValue>, BindFault>
    ensures { Gives lent (spec.cells_of (known_of types.now) (BindFault.Shape source.file source.at) (axis_of axis.now) value.now) result }
{
    match value {
        DataValue::Array(_, parts) => listed(alloc, source, axis, parts.as_slice()),
        DataValue::KeyedArray(_, pairs) => keyed(alloc, types, source, axis, pairs.as_slice()),
        DataValue::Number(..) | DataValue::Named(_) | DataValue::Record(..) | DataValue::Set(..) =>
            { Err(source.shape()) }
    }
}

/// The one list behind the other.
#[tactic(auto, using(crate::proofs::Slots::slots))]
fn joined<'v>(
    before: Seq<&'v DataValue>,
    cells: Seq<&'v DataValue>,
) -> Result<Seq<&'v DataValue>, AllocError>
    ensures { IfOk result (λ all. lent all ≡ lent before.entry ++ lent cells.entry) }
{
    let mut all = before.into_vec();
    all.append(&mut cells.into_vec())?;
    Ok(Seq::from_vec(all))
}

/// The cells of all these, one after another.
fn opened<'v>(
    alloc: Global,
    types: &Types<'_>,
    source: Source,
    axis: &Axis,
    values: &[&'v DataValue],
) -> Result<Seq<&'v DataValue>, BindFault>
    ensures { Gives lent (spec.opened (known_of types.now) (BindFault.Shape source.file source.at) (axis_of axis.now) [] (lent values.now)) result }
{
    let mut all = Seq::new(alloc);
    for value in values {
        let cells = cells_of(alloc, types, source, axis, value)?;
        all = joined(all, cells)?;
    }
    Ok(all)
}

/// The cells of an array, in index order.
fn flat<'v>(
    alloc: Global,
    types: &Types<'_>,
    source: Source,
    axes: &[Axis],
    value: &'v DataValue,
) -> Result<Seq<&'v DataValue>, BindFault>
    ensures { Gives lent (spec.flat (known_of types.now) (BindFault.Shape source.file source.at) (map axis_of axes.now) (value.now ∷ [])) result }
{
    let mut cells = Seq::new(alloc);
    cells.push(value)?;
    for axis in axes {
        cells = opened(alloc, types, source, axis, cells.as_slice())?;
    }
    Ok(cells)
}

/// The values of these cells, in their order.
fn all_in(
    alloc: Global,
    types: &Types<'_>,
    file: u32,
    cells: &[&DataValue],
    form: &Form,
) -> Result<Seq<Value>, BindFault>
    ensures { Binds (all_by_form [] (map (value_in (known_of types.now) file) (lent cells.now)) form.now) result }
{
    let mut found = Seq::new(alloc);
    for cell in cells {
        found.push(value_in(alloc, types, file, cell, form)?)?;
    }
    Ok(found)
}

/// The elements of an array, in index order. The shape of the whole is tested before any element. The time is that of a search by
/// halves for each key.
pub(crate) fn elements_in(
    alloc: Global,
    types: &Types<'_>,
    source: Source,
    axes: &[Axis],
    form: &Form,
    value: &DataValue,
) -> Result<Seq<Value>, BindFault>
    ensures { Binds (spec.elements_in (known_of types.now) source.file (BindFault.Shape source.file source.at) (map axis_of axes.now) form.now value.now) result }
{
    let cells = flat(alloc, types, source, axes, value)?;
    all_in(alloc, types, source.file, cells.as_slice(), form)
}
