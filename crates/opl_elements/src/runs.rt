//! Variables one behind another.
ghost use Rattle.std.specs.Prelude.{◌≡◌, ◌+◌, ◌<◌, ◌^◌, IfOk};
ghost use Rattle.opl_draft.specs.Drafts as drafts;
ghost use Rattle.opl_form.specs.Measures as measures;
ghost use Rattle.opl_form.specs.Nodes as nodes;
ghost use Rattle.opl_nodes.specs.Contexts.{sets};
ghost use Rattle.opl_elements.specs.Runs as spec;

use crate::measures::larger;
use crate::variables::{has_positions, magnitude};
use opl_expr::Expr;
use opl_list::Seq;
use opl_meaning::Kind;
use opl_nodes::Context;
use std::alloc::{AllocError, Global};

/// So many variables from this number on.
pub fn run(alloc: Global, first: u32, count: u32) -> Result<Seq<Expr>, AllocError>
    requires { first + count < 2 ^ 32 }
    ensures { IfOk result (λ es. es ≡ spec.run first count) }
{
    let mut found = Seq::new(alloc);
    for place in 0..count {
        found.push(Expr::Var(first + place))?;
    }
    Ok(found)
}

/// Whether no declared set of them has a number below 0.
fn all_positions(context: &Context<'_>, first: usize, count: usize) -> bool
    requires { first + count < 2 ^ 64 }
    ensures { result ≡ spec.all_positions (sets context.now) first count }
{
    for place in 0..count {
        if !has_positions(context, first + place) {
            return false;
        }
    }
    true
}

/// Whether they are of the sort of the first.
pub fn are_alike(context: &Context<'_>, kind: Kind, first: u32, count: u32) -> bool
    ensures { result ≡ nodes.variable_sorts (sets context.now) (nodes.variable_sort (sets context.now) kind first) kind first count }
{
    match kind {
        Kind::Number => true,
        Kind::Enumeration(_) => all_positions(context, first as usize, count as usize),
    }
}

/// Whether they are declared, and of the sort of the first.
pub fn are_declared(context: &Context<'_>, kind: Kind, first: u32, count: u32) -> bool
    ensures { result ≡ nodes.are_alike (sets context.now) (drafts.Leaves.numbered kind first count) }
{
    first as usize + count as usize <= context.sets.len() && are_alike(context, kind, first, count)
}

/// The greatest of their magnitudes, and the greatest sum of two of them; one alone stands for itself.
pub fn greatest_two(context: &Context<'_>, first: usize, count: usize) -> (u128, u128)
    requires { first + count < 2 ^ 64 }
    ensures greatest { result.0 ≡ measures.greatest (spec.run_sizes (sets context.now) first count) }
    ensures two { result.1 ≡ nodes.two_greatest (spec.run_sizes (sets context.now) first count) }
{
    let mut greatest = 0;
    let mut two = 0;
    let mut left = count;
    while left > 0 {
        left -= 1;
        let size = magnitude(context, first + left);
        two = larger(two, size + greatest);
        greatest = larger(greatest, size);
    }
    (greatest, two)
}
