//! Expressions and constraints with their questions answered by the sets of a moment.
ghost use Rattle.std.specs.Prelude.{◌≡◌, ℤ, pos, map, IfOk};
ghost use Rattle.std.specs.Prelude.{IsTrue, ◌↔◌};
ghost use Rattle.opl_expr.specs.Forms.{Term, constant_value, product, term, fact};
ghost use Rattle.opl_trace.specs.Answers.{answer, answered, answered_term, is_single};
ghost use Rattle.opl_choices.specs.Answered.{is_some_number, is_swapped};

use opl_domain::View;
use opl_expr::{Ask, Cons, Core, Expr, OutOfMemory};
use opl_list::{Boxed, Seq};
use std::alloc::Global;

/// The answer to a question; 0 where there is no such variable.
fn answer<V: View>(view: &V, ask: Ask, x: u32) -> i128
    ensures { result ≡ answer (V.family view.now) ask x }
{
    if x >= view.vars() {
        return 0;
    }
    match ask {
        Ask::Size => view.size(x) as i128,
        Ask::Least => view.min(x) as i128,
        Ask::Greatest => view.max(x) as i128,
    }
}

/// Whether the set of a variable has one value.
pub fn is_single<V: View>(view: &V, x: u32) -> bool
    ensures { result ≡ is_single (V.family view.now) x }
{
    x < view.vars() && view.size(x) == 1
}

/// Whether an expression is a number.
fn is_number(core: &Core, e: &Expr) -> bool
    ensures { result ≡ is_some_number (constant_value (term core.now.tables core.now.resources e.now)) }
{
    match e {
        Expr::Const(_k) => true,
        Expr::Var(_x) => false,
        Expr::Sum(_parts) => false,
        Expr::Neg(_a) => false,
        Expr::Mul(_a, _b) => false,
        Expr::Div(_a, _b) => false,
        Expr::Rem(_a, _b) => false,
        Expr::Abs(_a) => false,
        Expr::Min(_parts) => false,
        Expr::Max(_parts) => false,
        Expr::At(_table, _parts) => false,
        Expr::Truth(_c) => false,
        Expr::Ask(_ask, _x) => false,
    }
}

/// Whether the second of two factors alone is a number.
fn is_swapped(core: &Core, a: &Expr, b: &Expr) -> bool
    ensures { result ≡ is_swapped (constant_value (term core.now.tables core.now.resources a.now)) (constant_value (term core.now.tables core.now.resources b.now)) }
{
    !is_number(core, a) && is_number(core, b)
}

/// A product, of whose factors both the forms and the answers are given. A factor that was a number comes first.
fn answered_product<V: View>(
    core: &Core,
    view: &V,
    a: &Expr,
    b: &Expr,
    first: Boxed<Expr>,
    second: Boxed<Expr>,
) -> Expr
    requires left { term core.now.tables core.now.resources first ≡ answered_term (V.family view.now) (term core.now.tables core.now.resources a.now) }
    requires right { term core.now.tables core.now.resources second ≡ answered_term (V.family view.now) (term core.now.tables core.now.resources b.now) }
    ensures { term core.now.tables core.now.resources result ≡ answered_term (V.family view.now) (product (term core.now.tables core.now.resources a.now) (term core.now.tables core.now.resources b.now)) }
{
    if is_swapped(core, a, b) {
        Expr::Mul(second, first)
    } else {
        Expr::Mul(first, second)
    }
}

/// Expressions with their questions answered, in their order.
#[cycle(answers)]
fn answered_terms<V: View>(
    alloc: Global,
    core: &Core,
    view: &V,
    parts: &[Expr],
) -> Result<Seq<Expr>, OutOfMemory>
    ensures { IfOk result (λ r. map (term core.now.tables core.now.resources) r ≡ map (λ e. answered_term (V.family view.now) (term core.now.tables core.now.resources e)) parts.now) }
{
    let mut answers = Seq::new(alloc);
    for part in parts {
        answers.push(answered_term(alloc, core, view, part)?.into_inner())?;
    }
    Ok(answers)
}

/// An expression with its questions answered, in a box.
#[cycle(answers)]
pub fn answered_term<V: View>(
    alloc: Global,
    core: &Core,
    view: &V,
    e: &Expr,
) -> Result<Boxed<Expr>, OutOfMemory>
    ensures { IfOk result (λ r. term core.now.tables core.now.resources r ≡ answered_term (V.family view.now) (term core.now.tables core.now.resources e.now)) }
{
    match e {
        Expr::Const(k) => Ok(Boxed::new(alloc, Expr::Const(*k))?),
        Expr::Var(x) => Ok(Boxed::new(alloc, Expr::Var(*x))?),
        Expr::Sum(parts) => {
            let parts = answered_terms(alloc, core, view, parts.as_slice())?;
            Ok(Boxed::new(alloc, Expr::Sum(parts))?)
        }
        Expr::Neg(a) => {
            let part = answered_term(alloc, core, view, a.get())?;
            Ok(Boxed::new(alloc, Expr::Neg(part))?)
        }
        Expr::Mul(a, b) => {
            let first = answered_term(alloc, core, view, a.get())?;
            let second = answered_term(alloc, core, view, b.get())?;
            let product = answered_product(core, view, a.get(), b.get(), first, second);
            Ok(Boxed::new(alloc, product)?)
        }
        Expr::Div(a, b) => {
            let first = answered_term(alloc, core, view, a.get())?;
            let second = answered_term(alloc, core, view, b.get())?;
            Ok(Boxed::new(alloc, Expr::Div(first, second))?)
        }
        Expr::Rem(a, b) => {
            let first = answered_term(alloc, core, view, a.get())?;
            let second = answered_term(alloc, core, view, b.get())?;
            Ok(Boxed::new(alloc, Expr::Rem(first, second))?)
        }
        Expr::Abs(a) => {
            let part = answered_term(alloc, core, view, a.get())?;
            Ok(Boxed::new(alloc, Expr::Abs(part))?)
        }
        Expr::Min(parts) => {
            let parts = answered_terms(alloc, core, view, parts.as_slice())?;
            Ok(Boxed::new(alloc, Expr::Min(parts))?)
        }
        Expr::Max(parts) => {
            let parts = answered_terms(alloc, core, view, parts.as_slice())?;
            Ok(Boxed::new(alloc, Expr::Max(parts))?)
        }
        Expr::At(table, parts) => {
            let parts = answered_terms(alloc, core, view, parts.as_slice())?;
            Ok(Boxed::new(alloc, Expr::At(*table, parts))?)
        }
        Expr::Truth(c) => {
            let part = answered(alloc, core, view, c.get())?;
            Ok(Boxed::new(alloc, Expr::Truth(part))?)
        }
        Expr::Ask(ask, x) => Ok(Boxed::new(alloc, Expr::Const(answer(view, *ask, *x)))?),
    }
}

/// Constraints with their questions answered, in their order.
#[cycle(answers)]
fn all_answered<V: View>(
    alloc: Global,
    core: &Core,
    view: &V,
    parts: &[Cons],
) -> Result<Seq<Cons>, OutOfMemory>
    ensures { IfOk result (λ r. map (fact core.now.tables core.now.resources) r ≡ map (λ c. answered (V.family view.now) (fact core.now.tables core.now.resources c)) parts.now) }
{
    let mut answers = Seq::new(alloc);
    for part in parts {
        answers.push(answered(alloc, core, view, part)?.into_inner())?;
    }
    Ok(answers)
}

/// A constraint with its questions answered, in a box.
#[cycle(answers)]
pub fn answered<V: View>(
    alloc: Global,
    core: &Core,
    view: &V,
    c: &Cons,
) -> Result<Boxed<Cons>, OutOfMemory>
    ensures { IfOk result (λ r. fact core.now.tables core.now.resources r ≡ answered (V.family view.now) (fact core.now.tables core.now.resources c.now)) }
{
    match c {
        Cons::Fixed(b) => Ok(Boxed::new(alloc, Cons::Fixed(*b))?),
        Cons::Cmp(op, a, b) => {
            let first = answered_term(alloc, core, view, a.get())?;
            let second = answered_term(alloc, core, view, b.get())?;
            Ok(Boxed::new(alloc, Cons::Cmp(*op, first, second))?)
        }
        Cons::And(parts) => {
            let parts = all_answered(alloc, core, view, parts.as_slice())?;
            Ok(Boxed::new(alloc, Cons::And(parts))?)
        }
        Cons::Or(parts) => {
            let parts = all_answered(alloc, core, view, parts.as_slice())?;
            Ok(Boxed::new(alloc, Cons::Or(parts))?)
        }
        Cons::Imp(a, b) => {
            let first = answered(alloc, core, view, a.get())?;
            let second = answered(alloc, core, view, b.get())?;
            Ok(Boxed::new(alloc, Cons::Imp(first, second))?)
        }
        Cons::Iff(a, b) => {
            let first = answered(alloc, core, view, a.get())?;
            let second = answered(alloc, core, view, b.get())?;
            Ok(Boxed::new(alloc, Cons::Iff(first, second))?)
        }
        Cons::Not(a) => {
            let part = answered(alloc, core, view, a.get())?;
            Ok(Boxed::new(alloc, Cons::Not(part))?)
        }
        Cons::AllDifferent(parts) => {
            let parts = answered_terms(alloc, core, view, parts.as_slice())?;
            Ok(Boxed::new(alloc, Cons::AllDifferent(parts))?)
        }
        Cons::Capacity(resource, time) => Ok(Boxed::new(alloc, Cons::Capacity(*resource, *time))?),
        Cons::Bound(x) => Ok(Boxed::new(alloc, Cons::Fixed(is_single(view, *x)))?),
    }
}
