//! Constraints that a search makes itself, and lists of constraints.
ghost use Rattle.std.specs.Prelude.{◌≡◌, ◌++◌, ◌∷◌, [], IfOk};
ghost use Rattle.opl_expr.specs.Forms.{Fact, term, fact};
ghost use Rattle.opl_expr.specs.Forms.Relation.{equal};
ghost use Rattle.opl_trace.specs.Answers.{is_value};
ghost use Rattle.opl_trace.specs.Objective.{better_than};
ghost use Rattle.opl_trace.specs.SoundCores.{facts_in};

use opl_expr::{Cons, Core, Expr, Goal, Op, OutOfMemory};
use opl_list::{Boxed, Seq};
use std::alloc::Global;

/// Variable `x` has the value `v`.
pub fn is_value(alloc: Global, core: &Core, x: u32, v: i64) -> Result<Cons, OutOfMemory>
    ensures { IfOk result (λ c. fact core.now.tables core.now.resources c ≡ is_value x v) }
{
    let left = Boxed::new(alloc, Expr::Var(x))?;
    Ok(Cons::Cmp(Op::Eq, left, Boxed::new(alloc, Expr::Const(v as i128))?))
}

/// The objective is better than `best`.
pub fn better_than(alloc: Global, core: &Core, goal: &Goal, best: i128) -> Result<Cons, OutOfMemory>
    ensures { IfOk result (λ c. fact core.now.tables core.now.resources c ≡ better_than (record { is_most = goal.now.maximize; term = term core.now.tables core.now.resources goal.now.value }) best) }
{
    let value = Boxed::new(alloc, goal.value.copy(alloc)?)?;
    let best = Boxed::new(alloc, Expr::Const(best))?;
    if goal.maximize {
        Ok(Cons::Cmp(Op::Lt, best, value))
    } else {
        Ok(Cons::Cmp(Op::Lt, value, best))
    }
}

/// The objective is defined.
pub fn defined(alloc: Global, core: &Core, goal: &Goal) -> Result<Cons, OutOfMemory>
    ensures { IfOk result (λ c. fact core.now.tables core.now.resources c ≡ Fact.cmp equal (term core.now.tables core.now.resources goal.now.value) (term core.now.tables core.now.resources goal.now.value)) }
{
    let left = Boxed::new(alloc, goal.value.copy(alloc)?)?;
    Ok(Cons::Cmp(Op::Eq, left, Boxed::new(alloc, goal.value.copy(alloc)?)?))
}

/// Copies of constraints, in their order.
pub fn copies(alloc: Global, constraints: &[Cons]) -> Result<Seq<Cons>, OutOfMemory>
    ensures { IfOk result (λ r. r ≡ constraints.now) }
{
    let mut copies = Seq::new(alloc);
    for c in constraints {
        copies.push(c.copy(alloc)?)?;
    }
    Ok(copies)
}

/// The constraints, and that variable `x` has the value `v`.
pub fn with_value(
    alloc: Global,
    core: &Core,
    constraints: &[Cons],
    x: u32,
    v: i64,
) -> Result<Seq<Cons>, OutOfMemory>
    ensures { IfOk result (λ r. facts_in core.now r ≡ facts_in core.now constraints.now ++ is_value x v ∷ []) }
{
    let mut more = copies(alloc, constraints)?;
    more.push(is_value(alloc, core, x, v)?)?;
    Ok(more)
}
