//! Parts as numbers one behind another.
ghost use Rattle.std.specs.Prelude.{◌≡◌, ◌++◌, ◌∷◌, [], IfOk, List, OnOk, map};
ghost use Rattle.std.specs.List.{All};
ghost use Rattle.opl_expr.specs.declared.forms.Expr.{Expr as exprs};
ghost use Rattle.opl_form.specs.Parts as forms;
ghost use Rattle.opl_nodes.specs.declared.context.Context.{Context};
ghost use Rattle.opl_nodes.specs.Pieces as pieces;
ghost use Rattle.opl_numbers.specs.Numbers as spec;

use crate::measured::{Number, as_number, deeper, larger, number_of};
use opl_expr::Expr;
use opl_list::Seq;
use opl_nodes::{Part, Parts};
use std::alloc::{AllocError, Global};

/// Numbers one behind another, with their measures together.
#[derive(Drop)]
pub(crate) struct Numbers {
    pub(crate) exprs: Seq<Expr>,
    /// Their magnitudes together, as far as that is below 2^127.
    pub(crate) total: u128,
    /// The greatest magnitude.
    pub(crate) greatest: u128,
    /// The greatest depth.
    pub(crate) depth: u32,
    /// Their nodes together.
    pub(crate) nodes: u64,
}

impl Numbers {
    /// No numbers. It takes no memory.
    fn new(alloc: Global) -> Numbers
        ensures { (c : Context) → spec.AreNumbers c [] result }
    {
        Numbers {
            exprs: Seq::new(alloc),
            total: 0,
            greatest: 0,
            depth: 0,
            nodes: 0,
        }
    }

    /// Adds a number behind the others. Where memory is wanting, as which 2^64 nodes and more count, the numbers stay as they were.
    fn push(&mut self, number: Number) -> Result<(), AllocError>
        ensures { OnOk result ((c : Context) (es : List exprs) → spec.AreNumbers c es self.old → spec.IsNumber c number → spec.AreNumbers c (es ++ number.expr ∷ []) self.new) }
    {
        let Number {
            expr,
            size,
            depth,
            nodes,
        } = number;
        let Some(nodes) = self.nodes.checked_add(nodes) else {
            return Err(AllocError);
        };
        self.exprs.push(expr.into_inner())?;
        self.total = self.total.saturating_add(size);
        self.greatest = larger(self.greatest, size);
        self.depth = deeper(self.depth, depth);
        self.nodes = nodes;
        Ok(())
    }
}

/// Parts as numbers.
pub(crate) fn as_numbers(alloc: Global, parts: Seq<Part>) -> Result<Numbers, AllocError>
    ensures { IfOk result (λ ns. (c : Context) → All (pieces.IsPart c) parts → spec.AreNumbers c (map forms.as_number (pieces.forms parts)) ns) }
{
    let mut numbers = Numbers::new(alloc);
    for part in parts.into_vec() {
        numbers.push(as_number(alloc, part)?)?;
    }
    Ok(numbers)
}

/// The number that a part counts as.
#[tactic(auto, unfolding(crate::specs::Numbers::number_at))]
fn number_at(part: &Part) -> i128
    ensures { result ≡ spec.number_at part.now }
{
    number_of(part)
}

/// The numbers that parts count as, one by one.
fn each_number(alloc: Global, parts: &[Part]) -> Result<Vec<i128>, AllocError>
    ensures { IfOk result (λ ns. ns.items ≡ map spec.number_at parts.now) }
{
    let mut numbers = Vec::new(alloc);
    for part in parts {
        numbers.push(number_at(part))?;
    }
    Ok(numbers)
}

/// The numbers that parts count as.
pub(crate) fn numbers_of(alloc: Global, parts: &Parts) -> Result<Vec<i128>, AllocError>
    ensures { IfOk result (λ ns. ns.items ≡ map spec.number_of (pieces.forms parts.now.items)) }
{
    each_number(alloc, parts.items.as_slice())
}
