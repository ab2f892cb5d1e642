//! The ranges of comparisons.
ghost use Rattle.std.specs.Prelude.{◌≡◌, ◌+◌, unsigned_abs, length, Some};
ghost use Rattle.opl_domain.specs.Family.{Below};
ghost use Rattle.opl_expr.specs.Forms.{Relation, Fact, compared};
ghost use Rattle.opl_expr.specs.Forms.Relation.{below};
ghost use Rattle.opl_expr.specs.Options.{lift1};
ghost use Rattle.opl_expr.specs.Range.{coef, pure, rest, ends, may_be, fact_range, is_refuted};
ghost use Rattle.opl_expr.specs.Solutions.{declared};
ghost use Rattle.opl_expr.specs.Sound.{IsSmall, IsSoundTerm, IsSoundFact, term_magnitude};
ghost use Rattle.opl_range.specs.Between.{term_of, rest_between, CanCompare};

use crate::differences::with_variables;
use crate::rows;
use crate::zeros::never_zero;
use opl_domain::{Interval, View};
use opl_expr::{Core, Expr, Op};

/// The range of `a = b`; `rest` is what `a` minus `b` has beside its variables.
fn equal<V: View>(
    core: &Core,
    a: &Expr,
    b: &Expr,
    rest: Option<Interval>,
    view: &V,
) -> Option<Interval>
    requires sound { CanCompare core.now a.now b.now }
    requires within { Below (V.family view.now) (declared core.now) }
    requires rest { rest ≡ rest_between (V.family view.now) core.now a.now b.now }
    ensures { result ≡ fact_range (V.family view.now) (Fact.cmp Relation.equal (term_of core.now a.now) (term_of core.now b.now)) }
{
    let rest = rest?;
    let whole = with_variables(core, a, b, rest, view);
    let never = never_zero(core, a, b, rest, whole, view);
    Some(rows::verdict(rows::is_point(0, whole), never))
}

/// The range of `a <= b`.
fn at_most<V: View>(
    core: &Core,
    a: &Expr,
    b: &Expr,
    rest: Option<Interval>,
    view: &V,
) -> Option<Interval>
    requires sound { CanCompare core.now a.now b.now }
    requires within { Below (V.family view.now) (declared core.now) }
    requires rest { rest ≡ rest_between (V.family view.now) core.now a.now b.now }
    ensures { result ≡ fact_range (V.family view.now) (Fact.cmp Relation.at_most (term_of core.now a.now) (term_of core.now b.now)) }
{
    let rest = rest?;
    let whole = with_variables(core, a, b, rest, view);
    Some(rows::at_most_zero(whole))
}

/// The range of `a < b`.
fn below<V: View>(
    core: &Core,
    a: &Expr,
    b: &Expr,
    rest: Option<Interval>,
    view: &V,
) -> Option<Interval>
    requires sound { CanCompare core.now a.now b.now }
    requires within { Below (V.family view.now) (declared core.now) }
    requires rest { rest ≡ rest_between (V.family view.now) core.now a.now b.now }
    ensures { result ≡ fact_range (V.family view.now) (Fact.cmp below (term_of core.now a.now) (term_of core.now b.now)) }
{
    let rest = rest?;
    let whole = with_variables(core, a, b, rest, view);
    Some(rows::below_zero(whole))
}

/// What `a` minus `b` has beside its variables, from the same of each.
fn rest_of_difference<V: View>(
    core: &Core,
    a: &Expr,
    b: &Expr,
    first: Option<Interval>,
    second: Option<Interval>,
    view: &V,
) -> Option<Interval>
    requires sound { CanCompare core.now a.now b.now }
    requires within { Below (V.family view.now) (declared core.now) }
    requires first { first ≡ rest (V.family view.now) (term_of core.now a.now) }
    requires second { second ≡ rest (V.family view.now) (term_of core.now b.now) }
    ensures { result ≡ rest_between (V.family view.now) core.now a.now b.now }
{
    rows::sum(first, rows::negative(second))
}

/// The range of a comparison; `first` and `second` are what `a` and `b` have beside their variables.
pub fn compared<V: View>(
    core: &Core,
    op: Op,
    a: &Expr,
    first: Option<Interval>,
    b: &Expr,
    second: Option<Interval>,
    view: &V,
) -> Option<Interval>
    requires sound { IsSoundFact core.now.sets (compared op (term_of core.now a.now) (term_of core.now b.now)) }
    requires within { Below (V.family view.now) (declared core.now) }
    requires first { first ≡ rest (V.family view.now) (term_of core.now a.now) }
    requires second { second ≡ rest (V.family view.now) (term_of core.now b.now) }
    ensures { result ≡ fact_range (V.family view.now) (compared op (term_of core.now a.now) (term_of core.now b.now)) }
{
    match op {
        Op::Eq => equal(
            core,
            a,
            b,
            rest_of_difference(core, a, b, first, second, view),
            view,
        ),
        Op::Ne => rows::opposite(equal(
            core,
            a,
            b,
            rest_of_difference(core, a, b, first, second, view),
            view,
        )),
        Op::Lt => below(
            core,
            a,
            b,
            rest_of_difference(core, a, b, first, second, view),
            view,
        ),
        Op::Le => at_most(
            core,
            a,
            b,
            rest_of_difference(core, a, b, first, second, view),
            view,
        ),
        Op::Gt => below(
            core,
            b,
            a,
            rest_of_difference(core, b, a, second, first, view),
            view,
        ),
        Op::Ge => at_most(
            core,
            b,
            a,
            rest_of_difference(core, b, a, second, first, view),
            view,
        ),
    }
}

/// Whether `a <> b` is refuted: what both have beside their variables is missing, or their difference is 0 alone. The
/// values of the variables need not be asked.
fn are_equal<V: View>(core: &Core, a: &Expr, b: &Expr, rest: Option<Interval>, view: &V) -> bool
    requires sound { CanCompare core.now a.now b.now }
    requires within { Below (V.family view.now) (declared core.now) }
    requires rest { rest ≡ rest_between (V.family view.now) core.now a.now b.now }
    ensures { result ≡ is_refuted (V.family view.now) (Fact.not (Fact.cmp Relation.equal (term_of core.now a.now) (term_of core.now b.now))) }
{
    let _vars = view.vars();
    match rest {
        None => true,
        Some(rest) => {
            let _lo = rest.lo();
            rows::is_point(0, with_variables(core, a, b, rest, view))
        }
    }
}

/// Whether a comparison is refuted; `first` and `second` are what `a` and `b` have beside their variables.
pub fn refutes<V: View>(
    core: &Core,
    op: Op,
    a: &Expr,
    first: Option<Interval>,
    b: &Expr,
    second: Option<Interval>,
    view: &V,
) -> bool
    requires sound { IsSoundFact core.now.sets (compared op (term_of core.now a.now) (term_of core.now b.now)) }
    requires within { Below (V.family view.now) (declared core.now) }
    requires first { first ≡ rest (V.family view.now) (term_of core.now a.now) }
    requires second { second ≡ rest (V.family view.now) (term_of core.now b.now) }
    ensures { result ≡ is_refuted (V.family view.now) (compared op (term_of core.now a.now) (term_of core.now b.now)) }
{
    match op {
        Op::Ne => are_equal(
            core,
            a,
            b,
            rest_of_difference(core, a, b, first, second, view),
            view,
        ),
        _ => !rows::is_possible(compared(core, op, a, first, b, second, view)),
    }
}

/// The range of an expression, from what it has beside its variables.
pub fn range_of_rest<V: View>(
    core: &Core,
    e: &Expr,
    beside: Option<Interval>,
    view: &V,
) -> Option<Interval>
    requires sound { IsSoundTerm core.now.sets (term_of core.now e.now) }
    requires within { Below (V.family view.now) (declared core.now) }
    requires beside { beside ≡ rest (V.family view.now) (term_of core.now e.now) }
    ensures { result ≡ ends (V.family view.now) (term_of core.now e.now) beside }
{
    let beside = beside?;
    let zero = Expr::Const(0);
    Some(with_variables(core, e, &zero, beside, view))
}

/// Whether an expression may equal a number; `beside` is what it has beside its variables.
pub fn may_be<V: View>(core: &Core, e: &Expr, beside: Option<Interval>, i: i128, view: &V) -> bool
    requires sound { IsSoundTerm core.now.sets (term_of core.now e.now) }
    requires small { IsSmall (term_magnitude core.now.sets (term_of core.now e.now) + unsigned_abs i) }
    requires within { Below (V.family view.now) (declared core.now) }
    requires beside { beside ≡ rest (V.family view.now) (term_of core.now e.now) }
    ensures { result ≡ may_be (V.family view.now) (record { coef = coef (term_of core.now e.now); pure = pure (term_of core.now e.now); rest = rest (V.family view.now) (term_of core.now e.now) }) i }
{
    let index = Expr::Const(i);
    let difference = rest_of_difference(core, e, &index, beside, Some(Interval::point(i)), view);
    rows::is_possible(equal(core, e, &index, difference, view))
}
