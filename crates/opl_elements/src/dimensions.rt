//! The index sets of arrays, as subscripts meet them.
ghost use Rattle.std.specs.Prelude.{◌≡◌, ◌<◌, ◌≤◌, ◌^◌, IfOk, length, map};
ghost use Rattle.opl_value.specs.Places.{dimension_values, numbers_between, place_in};
ghost use Rattle.opl_eval.specs.Compare as compare;
ghost use Rattle.opl_expr.specs.Sound as sound;
ghost use Rattle.opl_form.specs.Parts as parts;
ghost use Rattle.opl_nodes.specs.Pieces as pieces;
ghost use Rattle.opl_elements.specs.Places as spec;
ghost use Rattle.opl_elements.specs.Sorts as sorts;

use crate::measures::larger;
use crate::sorts::{Sort, are_alike, key_sort, key_sort_of};
use opl_nodes::{Part, rank};
use opl_value::{Dimension, Value};
use std::alloc::AllocError;

/// The place of a value in a list; None exactly where it isn't there. Values need no order for it, and the time is that of looking at each.
fn place_among(values: &[Value], wanted: &Value) -> Option<u64>
    ensures { result ≡ place_in wanted.now values.now }
{
    let mut place = 0;
    for value in values {
        let is_wanted = wanted == value;
        if is_wanted {
            return Some(place);
        }
        place += 1;
    }
    None
}

/// The place of a value in an index set; None exactly where it isn't there.
#[tactic(auto, using(crate::proofs::Dimensional::variants))]
fn place_of(dimension: &Dimension, wanted: &Value) -> Option<u64>
    requires { length (dimension_values dimension.now) < 2 ^ 64 }
    ensures { result ≡ place_in wanted.now (dimension_values dimension.now) }
{
    match dimension {
        Dimension::Whole(_, _) => dimension.place(wanted),
        Dimension::Listed(values, _) => place_among(values.as_slice(), wanted),
    }
}

/// The place of a subscript without variables in its index set.
pub fn subscript_place(dimension: &Dimension, part: &Part) -> Option<u64>
    requires { length (dimension_values dimension.now) < 2 ^ 64 }
    ensures { result ≡ spec.subscript_place (dimension_values dimension.now) (pieces.form part.now) }
{
    match part.value() {
        Some(value) => place_of(dimension, value),
        None => None,
    }
}

/// Whether a subscript is an index, or has variables. An index set of 2^64 numbers and more counts as want of memory.
fn is_index(dimension: &Dimension, part: &Part) -> Result<bool, AllocError>
    ensures { IfOk result (λ holds. holds ≡ parts.is_index (dimension_values dimension.now) (pieces.form part.now)) }
{
    if !part.is_known() {
        return Ok(true);
    }
    if dimension.count().is_none() {
        return Err(AllocError);
    }
    Ok(subscript_place(dimension, part).is_some())
}

/// Whether all indices are of a sort.
#[tactic(auto, using(crate::proofs::Dimensional::variants))]
fn are_of_sort(dimension: &Dimension, sort: Sort) -> bool
    ensures { result ≡ parts.all_alike (sorts.sort sort) (dimension_values dimension.now) }
{
    match dimension {
        Dimension::Whole(low, high) => are_numbers_of_sort(*low, *high, sort),
        Dimension::Listed(values, _) => all_of_sort(values.as_slice(), sort),
    }
}

/// Whether the whole numbers between two ends are of a sort, as none are of each.
fn are_numbers_of_sort(low: i128, high: i128, sort: Sort) -> bool
    ensures { result ≡ parts.all_alike (sorts.sort sort) (numbers_between low high) }
{
    if high < low {
        return true;
    }
    are_alike(sort, Sort::Whole)
}

/// Whether all values are of a sort.
pub fn all_of_sort(values: &[Value], sort: Sort) -> bool
    ensures { result ≡ parts.all_alike (sorts.sort sort) values.now }
{
    for value in values {
        if !are_alike(sort, key_sort_of(value)) {
            return false;
        }
    }
    true
}

/// The sort of the first value.
pub fn first_sort(values: &[Value]) -> Sort
    ensures { sorts.sort result ≡ parts.first_sort values.now }
{
    match values.split_first() {
        Some((value, _)) => key_sort_of(value),
        None => Sort::Whole,
    }
}

/// Whether an index set takes a subscript.
pub fn fits(dimension: &Dimension, part: &Part) -> Result<bool, AllocError>
    ensures { IfOk result (λ holds. holds ≡ spec.fits (dimension_values dimension.now) (pieces.form part.now)) }
{
    Ok(is_index(dimension, part)? && are_of_sort(dimension, key_sort(part)))
}

/// The greatest absolute value of ranks.
pub fn greatest_rank(values: &[Value]) -> u128
    ensures size { result ≡ sound.greatest_abs (map compare.rank values.now) }
    ensures small { result ≤ 2 ^ 127 }
{
    let mut found = 0;
    let mut left = values.len();
    while left > 0 {
        left -= 1;
        found = larger(found, rank(&values[left]).unsigned_abs());
    }
    found
}

/// The greatest absolute value of the numbers by which indices are told apart.
#[tactic(auto, using(crate::proofs::Dimensional::variants))]
pub fn greatest_index(dimension: &Dimension) -> u128
    ensures size { result ≡ sound.greatest_abs (parts.indices_of (dimension_values dimension.now)) }
    ensures small { result ≤ 2 ^ 127 }
{
    match dimension {
        Dimension::Whole(low, high) => greatest_between(*low, *high),
        Dimension::Listed(values, _) => greatest_listed(values.as_slice()),
    }
}

/// The same of the whole numbers between two ends.
fn greatest_between(low: i128, high: i128) -> u128
    ensures size { result ≡ sound.greatest_abs (parts.indices_of (numbers_between low high)) }
    ensures small { result ≤ 2 ^ 127 }
{
    if high < low {
        return 0;
    }
    larger(low.unsigned_abs(), high.unsigned_abs())
}

/// The same of listed indices: their ranks where these tell them apart, else their places.
fn greatest_listed(values: &[Value]) -> u128
    ensures size { result ≡ sound.greatest_abs (parts.indices_of values.now) }
    ensures small { result ≤ 2 ^ 127 }
{
    if all_of_sort(values, first_sort(values)) {
        return greatest_rank(values);
    }
    let count = values.len() as u128;
    if count == 0 { 0 } else { count - 1 }
}
