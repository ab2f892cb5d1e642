//! Subscripts with variables.
ghost use Rattle.std.specs.Prelude.{◌≡◌, ◌≤◌, IfOk, IfSome, map};
ghost use Rattle.std.specs.List.{All};
ghost use Rattle.opl_value.specs.Places.{dimension_values};
ghost use Rattle.opl_form.specs.Measures as measures;
ghost use Rattle.opl_nodes.specs.Pieces as pieces;
ghost use Rattle.opl_elements.specs.Places as spec;
ghost use Rattle.opl_elements.specs.Ranks.{HasMeasures};

use crate::dimensions::{fits, greatest_index};
use crate::measures::{CAP, greater};
use crate::ranks::{depth_by_rank, expr_by_rank, nodes_by_rank};
use opl_expr::Expr;
use opl_list::Seq;
use opl_nodes::{Context, Part};
use opl_value::Dimension;
use std::alloc::{AllocError, Global};

/// Whether there is one subscript for each dimension, which takes it.
pub fn all_fit(dims: &[Dimension], parts: &[Part]) -> Result<bool, AllocError>
    ensures { IfOk result (λ holds. holds ≡ spec.all_fit (map dimension_values dims.now) (pieces.forms parts.now)) }
{
    let mut left = dims;
    let mut rest = parts;
    while let Some((dimension, others)) = left.split_first() {
        let Some((part, behind)) = rest.split_first() else {
            return Ok(false);
        };
        if !fits(dimension, part)? {
            return Ok(false);
        }
        left = others;
        rest = behind;
    }
    Ok(rest.is_empty())
}

/// The place in the text of the first subscript whose magnitude, with those of the indices of its dimension, is too large.
pub fn first_large(
    context: &Context<'_>,
    dims: &[Dimension],
    places: &[u32],
    parts: &[Part],
) -> Option<u32>
    requires { All (pieces.IsPart context.now) parts.now }
    ensures { result ≡ spec.first_large context.now (map dimension_values dims.now) places.now (pieces.forms parts.now) }
{
    let mut left = dims;
    let mut ahead = places;
    let mut rest = parts;
    while let Some((dimension, others)) = left.split_first() {
        let (place, places) = ahead.split_first()?;
        let (part, behind) = rest.split_first()?;
        if part.size + greatest_index(dimension) >= CAP {
            return Some(*place);
        }
        left = others;
        ahead = places;
        rest = behind;
    }
    None
}

/// The greatest depth of parts in the order of values.
pub fn deepest(parts: &[Part]) -> u32
    requires { All HasMeasures parts.now }
    ensures depth { result ≡ measures.greatest (spec.depths parts.now) }
    ensures small { result ≤ 2049 }
{
    let mut found = 0;
    let mut left = parts.len();
    while left > 0 {
        left -= 1;
        found = greater(found, depth_by_rank(&parts[left]));
    }
    found
}

/// All nodes of parts in the order of values; None where there are 2^64 and more.
pub fn all_nodes(parts: &[Part]) -> Option<u64>
    requires { All HasMeasures parts.now }
    ensures { IfSome result (λ nodes. nodes ≡ measures.total (spec.nodes parts.now)) }
{
    let mut found: u64 = 0;
    let mut left = parts.len();
    while left > 0 {
        left -= 1;
        found = found.checked_add(u64::from(nodes_by_rank(&parts[left])))?;
    }
    Some(found)
}

/// Parts in the order of values.
pub fn all_by_rank(alloc: Global, parts: Seq<Part>) -> Result<Seq<Expr>, AllocError>
    ensures { IfOk result (λ es. es ≡ map spec.rank parts) }
{
    let mut found = Seq::new(alloc);
    for part in parts.into_vec() {
        found.push(expr_by_rank(alloc, part)?.into_inner())?;
    }
    Ok(found)
}
