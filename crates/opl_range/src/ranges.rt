//! The ranges of expressions and constraints over the sets of a view.
ghost use Rattle.std.specs.Prelude.{◌≡◌, ◌<◌, ◌≤◌, map, length, take, slice_index_or, true, false, Some};
ghost use Rattle.std.specs.List.{list_all};
ghost use Rattle.opl_domain.specs.Span.{point};
ghost use Rattle.opl_domain.specs.Arithmetic.{span_hull, span_min, span_max};
ghost use Rattle.opl_domain.specs.Family.{Below};
ghost use Rattle.opl_expr.specs.Options.{joined};
ghost use Rattle.opl_expr.specs.Forms.{Term, Fact, term, fact, compared, terms_of, facts_of};
ghost use Rattle.opl_expr.specs.Range.{taken, chosen, masks, cell_range, may_be, rest, linears, range, fact_range, is_refuted};
ghost use Rattle.opl_expr.specs.Solutions.{declared};
ghost use Rattle.opl_expr.specs.Sound.{IsSoundTerm, AreSoundTerms, IsSoundFact, AreSoundFacts, FitDimensions, keys, is_there};
ghost use Rattle.opl_range.specs.Between.{term_of};

use crate::coefficients::constant;
use crate::comparisons::{compared, may_be, range_of_rest, refutes};
use crate::hulls::cell_range;
use crate::rows;
use crate::table_row::joined_row;
use crate::uses::capacity;
use opl_domain::{Interval, View};
use opl_expr::{Cell, Cons, Core, Expr, Op};
use opl_list::Seq;

/// What an expression has beside its variables: its constant, and the scaled ranges of the parts that aren't linear.
#[cycle(ranges)]
#[tactic(none)]
fn rest_of<V: View>(core: &Core, e: &Expr, view: &V) -> Option<Interval>
    requires sound { IsSoundTerm core.now.sets (term core.now.tables core.now.resources e.now) }
    requires within { Below (V.family view.now) (declared core.now) }
    ensures { result ≡ rest (V.family view.now) (term core.now.tables core.now.resources e.now) }
{
    match e {
        Expr::Const(k) => Some(Interval::point(*k)),
        Expr::Var(_x) => Some(Interval::point(0)),
        Expr::Sum(parts) => sum(core, parts.as_slice(), view),
        Expr::Neg(a) => rows::negative(rest_of(core, a.get(), view)),
        Expr::Mul(a, b) => match constant(core, a.get()) {
            Some(k) => rows::multiple(k, rest_of(core, b.get(), view)),
            None => match constant(core, b.get()) {
                Some(k) => rows::multiple(k, rest_of(core, a.get(), view)),
                None => rows::product(
                    range_of_rest(core, a.get(), rest_of(core, a.get(), view), view),
                    range_of_rest(core, b.get(), rest_of(core, b.get(), view), view),
                ),
            },
        },
        Expr::Div(a, b) => rows::quotient(
            range_of_rest(core, a.get(), rest_of(core, a.get(), view), view),
            range_of_rest(core, b.get(), rest_of(core, b.get(), view), view),
        ),
        Expr::Rem(a, b) => rows::remainder(
            range_of_rest(core, a.get(), rest_of(core, a.get(), view), view),
            range_of_rest(core, b.get(), rest_of(core, b.get(), view), view),
        ),
        Expr::Abs(a) => rows::absolute_value(range_of_rest(
            core,
            a.get(),
            rest_of(core, a.get(), view),
            view,
        )),
        Expr::Min(parts) => least(core, parts.as_slice(), view),
        Expr::Max(parts) => greatest(core, parts.as_slice(), view),
        Expr::At(table, parts) => match core.tables.get(*table as usize) {
            None => None,
            Some(t) => cells(
                core,
                t.dims.as_slice(),
                parts.as_slice(),
                t.cells.as_slice(),
                view,
            ),
        },
        Expr::Truth(c) => cons_range(core, c.get(), view),
        Expr::Ask(_ask, _x) => None,
    }
}

/// The same of a sum.
#[cycle(ranges)]
#[tactic(none)]
fn sum<V: View>(core: &Core, parts: &[Expr], view: &V) -> Option<Interval>
    requires sound { IsSoundTerm core.now.sets (Term.sum (terms_of (map (term core.now.tables core.now.resources) parts.now))) }
    requires within { Below (V.family view.now) (declared core.now) }
    ensures { result ≡ rest (V.family view.now) (Term.sum (terms_of (map (term core.now.tables core.now.resources) parts.now))) }
{
    let mut found = Some(Interval::point(0));
    let mut left = parts.len();
    while left > 0 {
        left -= 1;
        found = rows::sum(rest_of(core, &parts[left], view), found);
    }
    found
}

/// The range of the least of expressions.
#[cycle(ranges)]
#[tactic(none)]
fn least<V: View>(core: &Core, parts: &[Expr], view: &V) -> Option<Interval>
    requires sound { IsSoundTerm core.now.sets (Term.least (terms_of (map (term core.now.tables core.now.resources) parts.now))) }
    requires within { Below (V.family view.now) (declared core.now) }
    ensures { result ≡ rest (V.family view.now) (Term.least (terms_of (map (term core.now.tables core.now.resources) parts.now))) }
{
    let mut left = parts.len() - 1;
    let mut found = range_of_rest(core, &parts[left], rest_of(core, &parts[left], view), view);
    while left > 0 {
        left -= 1;
        let part = &parts[left];
        found = rows::least(
            range_of_rest(core, part, rest_of(core, part, view), view),
            found,
        );
    }
    found
}

/// The range of the greatest of expressions.
#[cycle(ranges)]
#[tactic(none)]
fn greatest<V: View>(core: &Core, parts: &[Expr], view: &V) -> Option<Interval>
    requires sound { IsSoundTerm core.now.sets (Term.greatest (terms_of (map (term core.now.tables core.now.resources) parts.now))) }
    requires within { Below (V.family view.now) (declared core.now) }
    ensures { result ≡ rest (V.family view.now) (Term.greatest (terms_of (map (term core.now.tables core.now.resources) parts.now))) }
{
    let mut left = parts.len() - 1;
    let mut found = range_of_rest(core, &parts[left], rest_of(core, &parts[left], view), view);
    while left > 0 {
        left -= 1;
        let part = &parts[left];
        found = rows::greatest(
            range_of_rest(core, part, rest_of(core, part, view), view),
            found,
        );
    }
    found
}

/// The hull of the cells that the subscripts may reach; none where they may reach none. What the last subscript has beside
/// its variables is asked for once, that of the others once for each row of cells.
#[cycle(ranges)]
#[tactic(none)]
fn cells<V: View>(
    core: &Core,
    dims: &[Seq<i128>],
    parts: &[Expr],
    cells: &[Cell],
    view: &V,
) -> Option<Interval>
    requires sound { AreSoundTerms core.now.sets (terms_of (map (term core.now.tables core.now.resources) parts.now)) }
    requires subscripts { FitDimensions core.now.sets dims.now (terms_of (map (term core.now.tables core.now.resources) parts.now)) }
    requires whole { length cells.now ≡ keys dims.now }
    requires there { list_all (is_there (length core.now.sets)) cells.now ≡ true }
    requires within { Below (V.family view.now) (declared core.now) }
    ensures { result ≡ joined span_hull (map (cell_range (V.family view.now)) (chosen (taken (masks (may_be (V.family view.now)) dims.now (linears (V.family view.now) (terms_of (map (term core.now.tables core.now.resources) parts.now))))) cells.now)) }
{
    if cells.is_empty() {
        return None;
    }
    if dims.is_empty() {
        return Some(cell_range(cells[0], view));
    }
    let last = dims.len() - 1;
    let part = &parts[last];
    let beside = rest_of(core, part, view);
    let dim = dims[last].as_slice();
    let count = cells.len() / dim.len();
    let mut found = None;
    let mut left = count;
    while left > 0 {
        left -= 1;
        if is_reached(core, dims, parts, last, count, left, view) {
            let start = left * dim.len();
            let row = &cells[start..start + dim.len()];
            found = joined_row(core, part, &beside, dim, row, found, view);
        }
    }
    found
}

/// Whether the subscripts of the first `outer` dimensions may reach a row; these have `count` rows.
#[cycle(ranges)]
#[tactic(none)]
fn is_reached<V: View>(
    core: &Core,
    dims: &[Seq<i128>],
    parts: &[Expr],
    outer: usize,
    count: usize,
    row: usize,
    view: &V,
) -> bool
    requires sound { AreSoundTerms core.now.sets (terms_of (map (term core.now.tables core.now.resources) parts.now)) }
    requires subscripts { FitDimensions core.now.sets dims.now (terms_of (map (term core.now.tables core.now.resources) parts.now)) }
    requires some { outer ≤ length dims.now }
    requires whole { count ≡ keys (take outer dims.now) }
    requires there { row < count }
    requires within { Below (V.family view.now) (declared core.now) }
    ensures { result ≡ slice_index_or (taken (masks (may_be (V.family view.now)) (take outer dims.now) (linears (V.family view.now) (terms_of (map (term core.now.tables core.now.resources) parts.now))))) row false }
{
    let mut size = count;
    let mut place = row;
    for at in 0..outer {
        let dim = dims[at].as_slice();
        let part = &parts[at];
        size /= dim.len();
        if !may_be(
            core,
            part,
            rest_of(core, part, view),
            dim[place / size],
            view,
        ) {
            return false;
        }
        place %= size;
    }
    true
}

/// The range of a constraint over the sets of a view; none where it is surely undefined.
#[cycle(ranges)]
#[tactic(none)]
pub fn cons_range<V: View>(core: &Core, c: &Cons, view: &V) -> Option<Interval>
    requires sound { IsSoundFact core.now.sets (fact core.now.tables core.now.resources c.now) }
    requires within { Below (V.family view.now) (declared core.now) }
    ensures { result ≡ fact_range (V.family view.now) (fact core.now.tables core.now.resources c.now) }
{
    match c {
        Cons::Fixed(b) => Some(rows::truth(*b)),
        Cons::Cmp(op, a, b) => compared(
            core,
            *op,
            a.get(),
            rest_of(core, a.get(), view),
            b.get(),
            rest_of(core, b.get(), view),
            view,
        ),
        Cons::And(parts) => all(core, parts.as_slice(), view),
        Cons::Or(parts) => any(core, parts.as_slice(), view),
        Cons::Imp(a, b) => rows::greatest(
            rows::opposite(cons_range(core, a.get(), view)),
            cons_range(core, b.get(), view),
        ),
        Cons::Iff(a, b) => rows::same(
            cons_range(core, a.get(), view),
            cons_range(core, b.get(), view),
        ),
        Cons::Not(a) => rows::opposite(cons_range(core, a.get(), view)),
        Cons::AllDifferent(parts) => all_differ(core, parts.as_slice(), view),
        Cons::Capacity(resource, time) => match core.resources.get(*resource as usize) {
            None => None,
            Some(r) => Some(capacity(core, r, *time, view)),
        },
        Cons::Bound(_x) => None,
    }
}

/// The range of all constraints holding.
#[cycle(ranges)]
#[tactic(none)]
fn all<V: View>(core: &Core, parts: &[Cons], view: &V) -> Option<Interval>
    requires sound { AreSoundFacts core.now.sets (facts_of (map (fact core.now.tables core.now.resources) parts.now)) }
    requires within { Below (V.family view.now) (declared core.now) }
    ensures { result ≡ fact_range (V.family view.now) (Fact.and (facts_of (map (fact core.now.tables core.now.resources) parts.now))) }
{
    let mut found = Some(Interval::point(1));
    let mut left = parts.len();
    while left > 0 {
        left -= 1;
        found = rows::least(cons_range(core, &parts[left], view), found);
    }
    found
}

/// The range of some constraint holding.
#[cycle(ranges)]
#[tactic(none)]
fn any<V: View>(core: &Core, parts: &[Cons], view: &V) -> Option<Interval>
    requires sound { AreSoundFacts core.now.sets (facts_of (map (fact core.now.tables core.now.resources) parts.now)) }
    requires within { Below (V.family view.now) (declared core.now) }
    ensures { result ≡ fact_range (V.family view.now) (Fact.or (facts_of (map (fact core.now.tables core.now.resources) parts.now))) }
{
    let mut found = Some(Interval::point(0));
    let mut left = parts.len();
    while left > 0 {
        left -= 1;
        found = rows::greatest(cons_range(core, &parts[left], view), found);
    }
    found
}

/// The range of expressions being there and differing pairwise.
#[cycle(ranges)]
#[tactic(none)]
fn all_differ<V: View>(core: &Core, parts: &[Expr], view: &V) -> Option<Interval>
    requires sound { IsSoundFact core.now.sets (Fact.different (terms_of (map (term core.now.tables core.now.resources) parts.now))) }
    requires within { Below (V.family view.now) (declared core.now) }
    ensures { result ≡ fact_range (V.family view.now) (Fact.different (terms_of (map (term core.now.tables core.now.resources) parts.now))) }
{
    let mut found = Some(Interval::point(1));
    let mut left = parts.len();
    while left > 0 {
        left -= 1;
        let first = &parts[left];
        let mut other = parts.len();
        while other > left + 1 {
            other -= 1;
            let second = &parts[other];
            let differ = compared(
                core,
                Op::Ne,
                first,
                rest_of(core, first, view),
                second,
                rest_of(core, second, view),
                view,
            );
            found = rows::least(differ, found);
        }
        found = rows::least(rows::known(rest_of(core, first, view)), found);
    }
    found
}

/// The range of an expression over the sets of a view; none where it is surely undefined.
pub fn range<V: View>(core: &Core, e: &Expr, view: &V) -> Option<Interval>
    requires sound { IsSoundTerm core.now.sets (term core.now.tables core.now.resources e.now) }
    requires within { Below (V.family view.now) (declared core.now) }
    ensures { result ≡ range (V.family view.now) (term core.now.tables core.now.resources e.now) }
{
    range_of_rest(core, e, rest_of(core, e, view), view)
}

/// Whether the sets of a view refute a comparison.
fn refuted_comparison<V: View>(core: &Core, op: Op, a: &Expr, b: &Expr, view: &V) -> bool
    requires sound { IsSoundFact core.now.sets (compared op (term_of core.now a.now) (term_of core.now b.now)) }
    requires within { Below (V.family view.now) (declared core.now) }
    ensures { result ≡ is_refuted (V.family view.now) (compared op (term_of core.now a.now) (term_of core.now b.now)) }
{
    let first = rest_of(core, a, view);
    let second = rest_of(core, b, view);
    refutes(core, op, a, first, b, second, view)
}

/// Whether the sets of a view refute a constraint: its range is missing or 0 alone.
pub fn refuted<V: View>(core: &Core, c: &Cons, view: &V) -> bool
    requires sound { IsSoundFact core.now.sets (fact core.now.tables core.now.resources c.now) }
    requires within { Below (V.family view.now) (declared core.now) }
    ensures { result ≡ is_refuted (V.family view.now) (fact core.now.tables core.now.resources c.now) }
{
    match c {
        Cons::Cmp(op, a, b) => refuted_comparison(core, *op, a.get(), b.get(), view),
        _ => !rows::is_possible(cons_range(core, c, view)),
    }
}
