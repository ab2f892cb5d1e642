//! Copies of expressions and constraints. What is copied stands in a box until no step is left that can fail.
ghost use Rattle.std.specs.Prelude.{◌≡◌, IfOk};

use crate::forms::{Cons, Expr};
use opl_domain::OutOfMemory;
use opl_list::{Boxed, Seq};
use std::alloc::Global;

/// A box that holds `value`.
pub(crate) fn boxed<T: Drop>(alloc: Global, value: T) -> Result<Boxed<T>, OutOfMemory>
    ensures { IfOk result (λ b. b ≡ value) }
{
    Ok(Boxed::new(alloc, value)?)
}

/// Copies of expressions, in their order.
#[cycle(copies)]
fn expressions(alloc: Global, parts: &[Expr]) -> Result<Seq<Expr>, OutOfMemory>
    ensures { IfOk result (λ r. r ≡ parts.now) }
{
    let mut copies = Seq::new(alloc);
    for part in parts {
        copies.push(part.boxed_copy(alloc)?.into_inner())?;
    }
    Ok(copies)
}

/// Copies of constraints, in their order.
#[cycle(copies)]
pub fn constraints(alloc: Global, parts: &[Cons]) -> Result<Seq<Cons>, OutOfMemory>
    ensures { IfOk result (λ r. r ≡ parts.now) }
{
    let mut copies = Seq::new(alloc);
    for part in parts {
        copies.push(part.boxed_copy(alloc)?.into_inner())?;
    }
    Ok(copies)
}

impl Expr {
    /// An equal expression, in a box.
    #[cycle(copies)]
    fn boxed_copy(&self, alloc: Global) -> Result<Boxed<Expr>, OutOfMemory>
        ensures { IfOk result (λ r. r ≡ self.now) }
    {
        match self {
            Expr::Const(k) => boxed(alloc, Expr::Const(*k)),
            Expr::Var(x) => boxed(alloc, Expr::Var(*x)),
            Expr::Sum(parts) => boxed(alloc, Expr::Sum(expressions(alloc, parts.as_slice())?)),
            Expr::Neg(a) => boxed(alloc, Expr::Neg(a.get().boxed_copy(alloc)?)),
            Expr::Mul(a, b) => boxed(
                alloc,
                Expr::Mul(a.get().boxed_copy(alloc)?, b.get().boxed_copy(alloc)?),
            ),
            Expr::Div(a, b) => boxed(
                alloc,
                Expr::Div(a.get().boxed_copy(alloc)?, b.get().boxed_copy(alloc)?),
            ),
            Expr::Rem(a, b) => boxed(
                alloc,
                Expr::Rem(a.get().boxed_copy(alloc)?, b.get().boxed_copy(alloc)?),
            ),
            Expr::Abs(a) => boxed(alloc, Expr::Abs(a.get().boxed_copy(alloc)?)),
            Expr::Min(parts) => boxed(alloc, Expr::Min(expressions(alloc, parts.as_slice())?)),
            Expr::Max(parts) => boxed(alloc, Expr::Max(expressions(alloc, parts.as_slice())?)),
            Expr::At(table, parts) => {
                boxed(
                    alloc,
                    Expr::At(*table, expressions(alloc, parts.as_slice())?),
                )
            }
            Expr::Truth(c) => boxed(alloc, Expr::Truth(c.get().boxed_copy(alloc)?)),
            Expr::Ask(ask, x) => boxed(alloc, Expr::Ask(*ask, *x)),
        }
    }

    /// An equal expression.
    pub fn copy(&self, alloc: Global) -> Result<Expr, OutOfMemory>
        ensures { IfOk result (λ r. r ≡ self.now) }
    {
        Ok(self.boxed_copy(alloc)?.into_inner())
    }
}

impl Cons {
    /// An equal constraint, in a box.
    #[cycle(copies)]
    fn boxed_copy(&self, alloc: Global) -> Result<Boxed<Cons>, OutOfMemory>
        ensures { IfOk result (λ r. r ≡ self.now) }
    {
        match self {
            Cons::Fixed(b) => boxed(alloc, Cons::Fixed(*b)),
            Cons::Cmp(op, a, b) => boxed(
                alloc,
                Cons::Cmp(*op, a.get().boxed_copy(alloc)?, b.get().boxed_copy(alloc)?),
            ),
            Cons::And(parts) => boxed(alloc, Cons::And(constraints(alloc, parts.as_slice())?)),
            Cons::Or(parts) => boxed(alloc, Cons::Or(constraints(alloc, parts.as_slice())?)),
            Cons::Imp(a, b) => boxed(
                alloc,
                Cons::Imp(a.get().boxed_copy(alloc)?, b.get().boxed_copy(alloc)?),
            ),
            Cons::Iff(a, b) => boxed(
                alloc,
                Cons::Iff(a.get().boxed_copy(alloc)?, b.get().boxed_copy(alloc)?),
            ),
            Cons::Not(a) => boxed(alloc, Cons::Not(a.get().boxed_copy(alloc)?)),
            Cons::AllDifferent(parts) => boxed(
                alloc,
                Cons::AllDifferent(expressions(alloc, parts.as_slice())?),
            ),
            Cons::Capacity(resource, time) => boxed(alloc, Cons::Capacity(*resource, *time)),
            Cons::Bound(x) => boxed(alloc, Cons::Bound(*x)),
        }
    }

    /// An equal constraint.
    pub fn copy(&self, alloc: Global) -> Result<Cons, OutOfMemory>
        ensures { IfOk result (λ r. r ≡ self.now) }
    {
        Ok(self.boxed_copy(alloc)?.into_inner())
    }
}
