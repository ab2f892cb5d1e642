//! The declared sets of variables.
ghost use Rattle.std.specs.Prelude.{◌≡◌, ◌<◌, ◌^◌, [], pos, slice_index_or};
ghost use Rattle.opl_expr.specs.Sound.{set_magnitude, var_magnitude};
ghost use Rattle.opl_form.specs.Nodes as nodes;
ghost use Rattle.opl_nodes.specs.Contexts.{sets};
ghost use Rattle.opl_elements.specs.Sorts as spec;

use crate::sorts::Sort;
use opl_meaning::Kind;
use opl_nodes::Context;

/// The greatest absolute value of the numbers between two ends, and at least 1.
fn set_magnitude(low: i64, high: i64) -> u128
    ensures size { result ≡ set_magnitude [] (low, high) }
    ensures small { result < 2 ^ 64 }
{
    if low > high {
        return 1;
    }
    let low = low.unsigned_abs();
    let high = high.unsigned_abs();
    let magnitude = if low < high { high } else { low };
    if magnitude < 1 { 1 } else { magnitude as u128 }
}

/// The magnitude of a variable; that of 0 where there is no such variable.
pub fn magnitude(context: &Context<'_>, x: usize) -> u128
    ensures size { result ≡ var_magnitude (sets context.now) x }
    ensures small { result < 2 ^ 64 }
{
    let sets = context.sets;
    if x < sets.len() {
        let (low, high) = sets[x];
        set_magnitude(low, high)
    } else {
        1
    }
}

/// Whether no number of a variable's declared set is below 0; so it is where there is no such variable.
pub fn has_positions(context: &Context<'_>, x: usize) -> bool
    ensures { result ≡ nodes.has_positions (slice_index_or (sets context.now) x (pos 0, pos 0)) }
{
    let sets = context.sets;
    if x < sets.len() {
        let (low, _high) = sets[x];
        0 <= low
    } else {
        true
    }
}

/// The sort of a variable, by the kind of its values and its declared set.
pub fn sort_of_variable(context: &Context<'_>, kind: Kind, x: usize) -> Sort
    ensures { spec.sort result ≡ nodes.variable_sort (sets context.now) kind x }
{
    match kind {
        Kind::Number => Sort::Whole,
        Kind::Enumeration(declaration) => sort_of_names(declaration, has_positions(context, x)),
    }
}

/// The sort of a variable of an enumeration.
fn sort_of_names(declaration: u32, has_positions: bool) -> Sort
    ensures { spec.sort result ≡ spec.sort_of_names declaration has_positions }
{
    if has_positions {
        Sort::Named(declaration)
    } else {
        Sort::Other
    }
}
