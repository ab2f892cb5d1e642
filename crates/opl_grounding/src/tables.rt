//! The tables of arrays.
ghost use Rattle.std.specs.Prelude.{◌≡◌, IfOk, map};
ghost use Rattle.opl_value.specs.Places.{dimension_values, lists};
ghost use Rattle.opl_meaning.specs.declared.variable.Kind.{Kind};
ghost use Rattle.opl_eval.specs.Compare as compare;
ghost use Rattle.opl_form.specs.Parts as spec;
ghost use Rattle.opl_nodes.specs.Contexts.{cells, leaves};

use crate::indices::indices_of;
use crate::variables::behind;
use opl_expr::{Cell, Table};
use opl_list::Seq;
use opl_nodes::{Array, Leaves, rank};
use opl_value::{Dimension, IndexSpace, Value};
use std::alloc::{AllocError, Global};

/// The dimensions of an index space.
fn dimensions(space: &IndexSpace) -> &[Dimension]
    ensures { map dimension_values result.now ≡ lists space.now }
{
    space.dims.as_slice()
}

/// The indices of each dimension.
fn all_indices(alloc: Global, dims: &[Dimension]) -> Result<Seq<Seq<i128>>, AllocError>
    ensures { IfOk result (λ indices. indices ≡ map spec.indices_of (map dimension_values dims.now)) }
{
    let mut found = Seq::new(alloc);
    for dimension in dims {
        found.push(indices_of(alloc, dimension)?)?;
    }
    Ok(found)
}

/// Values as cells.
fn listed_cells(alloc: Global, values: &[Value]) -> Result<Seq<Cell>, AllocError>
    ensures { IfOk result (λ cells. cells ≡ map (λ v. Cell.Const (compare.rank v)) values.now) }
{
    let mut found = Seq::new(alloc);
    for value in values {
        found.push(Cell::Const(rank(value)))?;
    }
    Ok(found)
}

/// So many variables from this number on, as cells. From 2^32 variables on memory is wanting.
fn numbered_cells(alloc: Global, first: u32, count: u32) -> Result<Seq<Cell>, AllocError>
    ensures { IfOk result (λ cells. (k : Kind) → cells ≡ spec.number_cells k first count) }
{
    let mut found = Seq::new(alloc);
    for place in 0..count {
        found.push(Cell::Var(behind(first, place)?))?;
    }
    Ok(found)
}

/// The elements of an array as cells.
fn cells_of(alloc: Global, elements: Leaves<'_>) -> Result<Seq<Cell>, AllocError>
    ensures { IfOk result (λ cells. cells ≡ spec.cells_of (leaves elements.entry)) }
{
    match elements {
        Leaves::Listed(values) => listed_cells(alloc, values),
        Leaves::Numbered(_, first, count) => numbered_cells(alloc, first, count),
    }
}

/// The table of an array.
fn table_of(alloc: Global, array: &Array<'_>) -> Result<Table, AllocError>
    ensures { IfOk result (λ table. table ≡ spec.table_of (cells array.now)) }
{
    let name = Seq::from_slice(alloc, array.name)?;
    let dims = all_indices(alloc, dimensions(array.space))?;
    let cells = cells_of(alloc, array.leaves)?;
    Ok(Table { name, dims, cells })
}

/// The tables of arrays, each with the number of its array.
pub(crate) fn tables_of(alloc: Global, arrays: &[Array<'_>]) -> Result<Seq<Table>, AllocError>
    ensures { IfOk result (λ tables. tables ≡ spec.tables (map cells arrays.now)) }
{
    let mut tables = Seq::new(alloc);
    for array in arrays {
        tables.push(table_of(alloc, array)?)?;
    }
    Ok(tables)
}
