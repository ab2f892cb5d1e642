//! Whether tables are whole, and how great their cells and indices are.
ghost use Rattle.std.specs.Prelude.{◌≡◌, ◌<◌, ◌+◌, ◌*◌, ℕ, pos, drop, length, nat_eq, slice_index_or, Some};
ghost use Rattle.std.specs.List.{list_all};
ghost use Rattle.opl_domain.specs.Family.{member};
ghost use Rattle.opl_expr.specs.Laws.{all_differ};
ghost use Rattle.opl_expr.specs.Sound.{keys, is_there, greatest_abs, cell_magnitude, cells_magnitude};
ghost use Rattle.opl_sound.specs.Measures.{is_whole, counted, measure_table};

use crate::{numbers, variables};
use opl_expr::{Cell, Core, Table};
use opl_list::Seq;

/// The greatest absolute value of some numbers.
pub fn greatest_abs(numbers: &[i128]) -> u128
    ensures { result ≡ greatest_abs numbers.now }
{
    let mut found = 0;
    let mut left = numbers.len();
    while left > 0 {
        left -= 1;
        let v = numbers[left].unsigned_abs();
        if found < v {
            found = v;
        }
    }
    found
}

/// Whether the number at a place stands again behind it.
fn stands_again(numbers: &[i128], place: usize) -> bool
    requires { place < length numbers.now }
    ensures { result ≡ member (slice_index_or numbers.now place (pos 0)) (drop (place + 1) numbers.now) }
{
    let v = numbers[place];
    let mut left = numbers.len();
    while left > place + 1 {
        left -= 1;
        if v == numbers[left] {
            return true;
        }
    }
    false
}

/// Whether no number stands twice.
fn all_differ(numbers: &[i128]) -> bool
    ensures { result ≡ all_differ numbers.now }
{
    let mut left = numbers.len();
    while left > 0 {
        left -= 1;
        if stands_again(numbers, left) {
            return false;
        }
    }
    true
}

/// Whether in each dimension no index stands twice.
fn are_clear(dims: &[Seq<i128>]) -> bool
    ensures { result ≡ list_all all_differ dims.now }
{
    for dim in dims {
        if !all_differ(dim.as_slice()) {
            return false;
        }
    }
    true
}

/// How many combinations of indices there are; none where they are too many.
fn keys(dims: &[Seq<i128>]) -> Option<usize>
    ensures { result ≡ counted (keys dims.now) }
{
    let mut found = Some(1);
    let mut left = dims.len();
    while left > 0 {
        left -= 1;
        found = times(dims[left].len(), found);
    }
    found
}

/// A product, where it is not too great.
fn times(n: usize, found: Option<usize>) -> Option<usize>
    ensures { (k : ℕ) → found ≡ counted k → result ≡ counted (n * k) }
{
    if n == 0 {
        return Some(0);
    }
    n.checked_mul(found?)
}

/// Whether a cell is a number or names a variable that is there.
fn is_there(core: &Core, cell: Cell) -> bool
    ensures { result ≡ is_there (length core.now.sets) cell }
{
    match cell {
        Cell::Const(_k) => true,
        Cell::Var(x) => variables::is_variable(core, x),
    }
}

/// Whether each cell is a number or names a variable that is there.
fn are_there(core: &Core, cells: &[Cell]) -> bool
    ensures { result ≡ list_all (is_there (length core.now.sets)) cells.now }
{
    for cell in cells {
        if !is_there(core, *cell) {
            return false;
        }
    }
    true
}

/// The magnitude of a cell.
fn cell_magnitude(core: &Core, cell: Cell) -> u128
    ensures { result ≡ cell_magnitude core.now.sets cell }
{
    match cell {
        Cell::Const(k) => k.unsigned_abs(),
        Cell::Var(x) => variables::variable_or_zero(core, x),
    }
}

/// The greatest magnitude of some cells.
fn cells_magnitude(core: &Core, cells: &[Cell]) -> u128
    ensures { result ≡ cells_magnitude core.now.sets cells.now }
{
    let mut found = 0;
    let mut left = cells.len();
    while left > 0 {
        left -= 1;
        let magnitude = cell_magnitude(core, cells[left]);
        if found < magnitude {
            found = magnitude;
        }
    }
    found
}

/// Whether a table has one cell for each combination of indices.
fn has_each_cell(table: &Table) -> bool
    ensures { result ≡ nat_eq (length table.now.cells) (keys table.now.dims) }
{
    let count = table.cells.len();
    match keys(table.dims.as_slice()) {
        None => false,
        Some(keys) => count == keys,
    }
}

/// Whether a table has one cell for each combination of indices, no index twice in a dimension, and no cell that names
/// a variable that isn't there.
pub fn is_whole(core: &Core, table: &Table) -> bool
    ensures { result ≡ is_whole core.now.sets table.now }
{
    has_each_cell(table)
        && (are_clear(table.dims.as_slice()) && are_there(core, table.cells.as_slice()))
}

/// The magnitude of a cell of a table, where its subscripts fit; none where the table isn't whole.
pub fn measure_table(core: &Core, table: &Table, fits: bool) -> Option<u128>
    ensures { result ≡ measure_table core.now.sets (Some table.now) fits }
{
    let magnitude = cells_magnitude(core, table.cells.as_slice());
    numbers::only_if(
        is_whole(core, table) && fits,
        numbers::at_least_one(numbers::small(magnitude)),
    )
}
