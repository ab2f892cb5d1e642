//! Elements of arrays.
ghost use Rattle.std.specs.Prelude.{◌≡◌, ◌<◌, true, map, None, Some};
ghost use Rattle.std.specs.List.{All};
ghost use Rattle.opl_value.specs.Places.{value_at};
ghost use Rattle.opl_draft.specs.Drafts as drafts;
ghost use Rattle.opl_expr.specs.Sound.{cells_magnitude};
ghost use Rattle.opl_form.specs.Made.{array_of};
ghost use Rattle.opl_form.specs.Nodes as nodes;
ghost use Rattle.opl_form.specs.Parts.{all_known, cells_of};
ghost use Rattle.opl_nodes.specs.Contexts.{arrays, cells, leaves, sets};
ghost use Rattle.opl_nodes.specs.Pieces as pieces;
ghost use Rattle.opl_elements.specs.Places.{key_place, rank};
ghost use Rattle.opl_elements.specs.Sorts as sorts;

use crate::dimensions::{all_of_sort, first_sort, greatest_rank};
use crate::keys::{dimensions, key_place};
use crate::kinds::{sorted, variable_node};
use crate::lookups::array_at;
use crate::measures::larger;
use crate::runs::{are_alike, greatest_two};
use crate::sorts::Sort;
use crate::subscripts::{all_by_rank, all_fit, all_nodes, deepest, first_large};
use crate::variables::sort_of_variable;
use opl_eval::EvalFault;
use opl_expr::Expr;
use opl_list::Boxed;
use opl_meaning::Kind;
use opl_nodes::{Array, Context, FormFault, Leaves, Part, Parts, value_node};
use opl_value::Value;
use std::alloc::Global;

/// `a[b,..]` of the array of this number, with the places of the subscripts. `OutOfIndex` comes where there is no such array, where the
/// subscripts are not one index for each dimension, or where one with variables is of another sort than the indices.
pub fn indexed(
    alloc: Global,
    context: &Context<'_>,
    at: u32,
    array: Option<u32>,
    places: &[u32],
    parts: Parts,
) -> Result<Part, FormFault>
    requires { pieces.AreParts context.now parts }
    ensures { pieces.Makes context.now (nodes.indexed (sets context.now) (arrays context.now) context.now.item at parts.before array (array_of (arrays context.now) array) places.now (pieces.forms parts.items)) result }
{
    match array {
        Some(number) => by_number(alloc, context, at, number, places, parts),
        None => Err(FormFault::Eval(EvalFault::OutOfIndex(at))),
    }
}

/// The same of the array of a number.
fn by_number(
    alloc: Global,
    context: &Context<'_>,
    at: u32,
    number: u32,
    places: &[u32],
    parts: Parts,
) -> Result<Part, FormFault>
    requires { pieces.AreParts context.now parts }
    ensures { pieces.Makes context.now (nodes.indexed (sets context.now) (arrays context.now) context.now.item at parts.before (Some number) (array_of (arrays context.now) (Some number)) places.now (pieces.forms parts.items)) result }
{
    match array_at(context, Some(number)) {
        Some(array) => looked_up(alloc, context, at, number, array, places, parts),
        None => Err(FormFault::Eval(EvalFault::OutOfIndex(at))),
    }
}

/// An element of an array.
fn looked_up(
    alloc: Global,
    context: &Context<'_>,
    at: u32,
    number: u32,
    array: &Array<'_>,
    places: &[u32],
    parts: Parts,
) -> Result<Part, FormFault>
    requires parts { pieces.AreParts context.now parts }
    requires array { array_of (arrays context.now) (Some number) ≡ Some (cells array.now) }
    ensures { pieces.Makes context.now (nodes.looked_up (sets context.now) (arrays context.now) context.now.item at parts.before (all_known (pieces.forms parts.items)) number (cells array.now) places.now (pieces.forms parts.items)) result }
{
    let is_known = parts.are_known;
    if is_known {
        let items = parts.items.as_slice();
        return known_element(alloc, context, at, parts.before, array, items);
    }
    live_element(alloc, context, at, number, array, places, parts)
}

/// The element by a key without variables.
fn known_element(
    alloc: Global,
    context: &Context<'_>,
    at: u32,
    before: u64,
    array: &Array<'_>,
    parts: &[Part],
) -> Result<Part, FormFault>
    ensures { pieces.Makes context.now (nodes.placed (sets context.now) (arrays context.now) context.now.item at before (leaves array.now.leaves) (key_place (cells array.now).dims (pieces.forms parts.now))) result }
{
    match key_place(array.space, parts)? {
        Some(place) => element_at(alloc, context, at, before, array, place),
        None => Err(FormFault::Eval(EvalFault::OutOfIndex(at))),
    }
}

/// The element at a place: a value, or a variable.
fn element_at(
    alloc: Global,
    context: &Context<'_>,
    at: u32,
    before: u64,
    array: &Array<'_>,
    place: u64,
) -> Result<Part, FormFault>
    ensures { pieces.Makes context.now (nodes.element_at (sets context.now) (arrays context.now) context.now.item at before (leaves array.now.leaves) place) result }
{
    match array.leaves {
        Leaves::Listed(values) => value_at_place(alloc, context, at, before, values, place),
        Leaves::Numbered(kind, first, count) => {
            variable_at_place(alloc, context, at, before, kind, first, count, place)
        }
    }
}

/// The value at a place, 0 where there is none.
fn value_at_place(
    alloc: Global,
    context: &Context<'_>,
    at: u32,
    before: u64,
    values: &[Value],
    place: u64,
) -> Result<Part, FormFault>
    ensures { pieces.Makes context.now (nodes.value_node context.now.item at before (value_at values.now place)) result }
{
    match values.get(place as usize) {
        Some(value) => value_node(alloc, context, at, before, value.copy(alloc)?),
        None => value_node(alloc, context, at, before, Value::Int(0)),
    }
}

/// The variable at a place. Variables past number 2^32 - 1 count as want of memory.
fn variable_at_place(
    alloc: Global,
    context: &Context<'_>,
    at: u32,
    before: u64,
    kind: Kind,
    first: u32,
    count: u32,
    place: u64,
) -> Result<Part, FormFault>
    ensures { pieces.Makes context.now (nodes.element_at (sets context.now) (arrays context.now) context.now.item at before (drafts.Leaves.numbered kind first count) place) result }
{
    if place >= u64::from(count) {
        return Err(FormFault::Eval(EvalFault::OutOfIndex(at)));
    }
    match first.checked_add(place as u32) {
        Some(x) => variable_node(alloc, context, at, before, kind, x),
        None => Err(FormFault::OutOfMemory),
    }
}

/// The element by subscripts of which one has a variable.
fn live_element(
    alloc: Global,
    context: &Context<'_>,
    at: u32,
    number: u32,
    array: &Array<'_>,
    places: &[u32],
    parts: Parts,
) -> Result<Part, FormFault>
    requires parts { pieces.AreParts context.now parts }
    requires array { array_of (arrays context.now) (Some number) ≡ Some (cells array.now) }
    ensures { pieces.Makes context.now (nodes.looked_up (sets context.now) (arrays context.now) context.now.item at parts.before None number (cells array.now) places.now (pieces.forms parts.items)) result }
{
    let dims = dimensions(array.space);
    let items = parts.items.as_slice();
    let fit = all_fit(dims, items)?;
    if !fit {
        return Err(FormFault::Eval(EvalFault::OutOfIndex(at)));
    }
    match first_large(context, dims, places, items) {
        Some(place) => Err(FormFault::TooLarge(place)),
        None => table_element(alloc, context, at, number, array, parts),
    }
}

/// The cell of an array's table that subscripts name.
fn table_element(
    alloc: Global,
    context: &Context<'_>,
    at: u32,
    number: u32,
    array: &Array<'_>,
    parts: Parts,
) -> Result<Part, FormFault>
    requires parts { pieces.AreParts context.now parts }
    requires array { array_of (arrays context.now) (Some number) ≡ Some (cells array.now) }
    ensures { pieces.Makes context.now (nodes.element_node (sets context.now) (arrays context.now) context.now.item (nodes.element_sort (sets context.now) (leaves array.now.leaves)) at parts.before (Expr.At number (map rank parts.items))) result }
{
    let Parts {
        items,
        before,
        next: _,
        are_known: _,
    } = parts;
    let sort = sort_of_elements(context, array);
    let size = larger(1, greatest_element(context, array));
    let depth = deepest(items.as_slice()) + 1;
    let Some(below) = all_nodes(items.as_slice()) else {
        return Err(FormFault::OutOfMemory);
    };
    let Some(nodes) = below.checked_add(1) else {
        return Err(FormFault::OutOfMemory);
    };
    let subscripts = all_by_rank(alloc, items)?;
    let expr = Boxed::new(alloc, Expr::At(number, subscripts))?;
    sorted(context, at, before, sort, expr, size, depth, nodes)
}

/// The sort of the elements of an array, other where they are not alike.
fn sort_of_elements(context: &Context<'_>, array: &Array<'_>) -> Sort
    ensures { sorts.sort result ≡ nodes.element_sort (sets context.now) (leaves array.now.leaves) }
{
    match array.leaves {
        Leaves::Listed(values) => sort_where(
            all_of_sort(values, first_sort(values)),
            first_sort(values),
        ),
        Leaves::Numbered(kind, first, count) => sort_where(
            are_alike(context, kind, first, count),
            sort_of_variable(context, kind, first as usize),
        ),
    }
}

/// A sort where it is that of all, and other where it isn't.
fn sort_where(is_one: bool, sort: Sort) -> Sort
    ensures { sorts.sort result ≡ sorts.sort_where is_one (sorts.sort sort) }
{
    if is_one { sort } else { Sort::Other }
}

/// The greatest magnitude of the elements of an array.
fn greatest_element(context: &Context<'_>, array: &Array<'_>) -> u128
    ensures { result ≡ cells_magnitude (sets context.now) (cells_of (leaves array.now.leaves)) }
{
    match array.leaves {
        Leaves::Listed(values) => greatest_rank(values),
        Leaves::Numbered(_, first, count) => greatest_two(
            context,
            first as usize,
            count as usize,
        ).0,
    }
}
