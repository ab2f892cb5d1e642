//! The values of expressions, and whether constraints hold, on whole assignments.
ghost use Rattle.std.specs.Prelude.{◌≡◌, ◌<◌, ◌≤◌, ◌*◌, true, ℤ, ℕ, map, length, ◌&&◌, ◌||◌, false, not, IsTrue, Option, Some, slice_get, take, drop};
ghost use Rattle.std.specs.List.{list_all};
ghost use Rattle.opl_expr.specs.Options.{joined};
ghost use Rattle.opl_expr.specs.Forms.{Term, Fact, Facts, term, fact, terms_of, facts_of};
ghost use Rattle.opl_expr.specs.Range.{chosen, taken, masks};
ghost use Rattle.opl_expr.specs.Holds.{value, holds, all_values, all_hold, cell_value, is_index, place_in, is_active, total_demand};
ghost use Rattle.opl_expr.specs.Solutions.{declared, is_among};
ghost use Rattle.opl_expr.specs.Sound.{IsSoundTerm, AreSoundTerms, IsSoundFact, AreSoundFacts, IsSmall, UsesThere, demands, keys, is_there};
ghost use Rattle.opl_expr.specs.Laws.{all_differ};

use crate::forms::{Cons, Expr, Op};
use crate::model::Core;
use crate::numbers;
use crate::tables::{Cell, Use};
use opl_list::Seq;

/// The place of a number in a list.
fn place_in(v: i128, list: &[i128]) -> Option<usize>
    ensures { result ≡ place_in v list.now }
{
    for (place, w) in list.iter().enumerate() {
        if v == *w {
            return Some(place);
        }
    }
    None
}

/// One of `count` blocks of cells, all of one size.
fn block(cells: &[Cell], count: usize, place: usize) -> &[Cell]
    requires place { place < count }
    requires whole { (k : ℕ) × (length cells.now ≡ count * k) }
    ensures { (k : ℕ) → length cells.now ≡ count * k → result.now ≡ take k (drop (place * k) cells.now) }
{
    let size = cells.len() / count;
    let from = place * size;
    &cells[from..from + size]
}

/// The value of a cell.
fn cell_value(cell: Cell, values: &[i64]) -> i128
    requires { is_there (length values.now) cell ≡ true }
    ensures { result ≡ cell_value values.now cell }
{
    match cell {
        Cell::Const(k) => k,
        Cell::Var(x) => values[x as usize] as i128,
    }
}

/// Whether the activity of a use runs at a time.
fn is_active(u: &Use, time: i64, values: &[i64]) -> bool
    requires start { u.now.start < length values.now }
    requires duration { u.now.duration < length values.now }
    ensures { result ≡ is_active values.now time u.now }
{
    let start = values[u.start as usize] as i128;
    let duration = values[u.duration as usize] as i128;
    let time = time as i128;
    start <= time && time < start + duration
}

/// What the uses demand at a time.
fn total_demand(uses: &[Use], time: i64, values: &[i64]) -> i128
    requires there { UsesThere (length values.now) uses.now }
    requires small { IsSmall (demands uses.now) }
    ensures { result ≡ total_demand values.now time uses.now }
{
    let mut total = 0;
    let mut left = uses.len();
    while left > 0 {
        left -= 1;
        let u = &uses[left];
        if is_active(u, time, values) {
            total = numbers::added(u.demand, total);
        }
    }
    total
}

/// The value of an expression; none where a part of it is undefined.
#[cycle(values)]
pub fn value(core: &Core, e: &Expr, values: &[i64]) -> Option<i128>
    requires sound { IsSoundTerm core.now.sets (term core.now.tables core.now.resources e.now) }
    requires among { is_among values.now (declared core.now) ≡ true }
    ensures { result ≡ value values.now (term core.now.tables core.now.resources e.now) }
{
    match e {
        Expr::Const(k) => Some(*k),
        Expr::Var(x) => Some(values[*x as usize] as i128),
        Expr::Sum(parts) => sum(core, parts.as_slice(), values),
        Expr::Neg(a) => numbers::negative(value(core, a.get(), values)),
        Expr::Mul(a, b) => numbers::product(
            value(core, a.get(), values),
            value(core, b.get(), values),
        ),
        Expr::Div(a, b) => numbers::quotient(
            value(core, a.get(), values),
            value(core, b.get(), values),
        ),
        Expr::Rem(a, b) => numbers::remainder(
            value(core, a.get(), values),
            value(core, b.get(), values),
        ),
        Expr::Abs(a) => numbers::absolute_value(value(core, a.get(), values)),
        Expr::Min(parts) => least(core, parts.as_slice(), values),
        Expr::Max(parts) => greatest(core, parts.as_slice(), values),
        Expr::Truth(c) => numbers::truth(holds(core, c.get(), values)),
        Expr::At(table, parts) => match core.tables.get(*table as usize) {
            None => None,
            Some(t) => cell_at(
                core,
                t.dims.as_slice(),
                parts.as_slice(),
                t.cells.as_slice(),
                values,
            ),
        },
        Expr::Ask(_ask, _x) => None,
    }
}

/// The sum of the values of expressions.
#[cycle(values)]
fn sum(core: &Core, parts: &[Expr], values: &[i64]) -> Option<i128>
    requires sound { IsSoundTerm core.now.sets (Term.sum (terms_of (map (term core.now.tables core.now.resources) parts.now))) }
    requires among { is_among values.now (declared core.now) ≡ true }
    ensures { result ≡ value values.now (Term.sum (terms_of (map (term core.now.tables core.now.resources) parts.now))) }
{
    let mut found = Some(0);
    let mut left = parts.len();
    while left > 0 {
        left -= 1;
        found = numbers::sum(value(core, &parts[left], values), found);
    }
    found
}

/// The least of the values of expressions.
#[cycle(values)]
fn least(core: &Core, parts: &[Expr], values: &[i64]) -> Option<i128>
    requires sound { IsSoundTerm core.now.sets (Term.least (terms_of (map (term core.now.tables core.now.resources) parts.now))) }
    requires among { is_among values.now (declared core.now) ≡ true }
    ensures { result ≡ value values.now (Term.least (terms_of (map (term core.now.tables core.now.resources) parts.now))) }
{
    let mut left = parts.len() - 1;
    let mut found = value(core, &parts[left], values);
    while left > 0 {
        left -= 1;
        found = numbers::least(value(core, &parts[left], values), found);
    }
    found
}

/// The greatest of the values of expressions.
#[cycle(values)]
fn greatest(core: &Core, parts: &[Expr], values: &[i64]) -> Option<i128>
    requires sound { IsSoundTerm core.now.sets (Term.greatest (terms_of (map (term core.now.tables core.now.resources) parts.now))) }
    requires among { is_among values.now (declared core.now) ≡ true }
    ensures { result ≡ value values.now (Term.greatest (terms_of (map (term core.now.tables core.now.resources) parts.now))) }
{
    let mut left = parts.len() - 1;
    let mut found = value(core, &parts[left], values);
    while left > 0 {
        left -= 1;
        found = numbers::greatest(value(core, &parts[left], values), found);
    }
    found
}

/// Whether a constraint holds; none where a part of it is undefined.
#[cycle(values)]
pub fn holds(core: &Core, c: &Cons, values: &[i64]) -> Option<bool>
    requires sound { IsSoundFact core.now.sets (fact core.now.tables core.now.resources c.now) }
    requires among { is_among values.now (declared core.now) ≡ true }
    ensures { result ≡ holds values.now (fact core.now.tables core.now.resources c.now) }
{
    match c {
        Cons::Fixed(b) => Some(*b),
        Cons::And(parts) => all_hold(core, parts.as_slice(), values),
        Cons::Or(parts) => some_hold(core, parts.as_slice(), values),
        Cons::Imp(a, b) => numbers::either(
            numbers::opposite(holds(core, a.get(), values)),
            holds(core, b.get(), values),
        ),
        Cons::Iff(a, b) => numbers::same(
            holds(core, a.get(), values),
            holds(core, b.get(), values),
        ),
        Cons::Not(a) => numbers::opposite(holds(core, a.get(), values)),
        Cons::Cmp(op, a, b) => numbers::compared(
            *op,
            value(core, a.get(), values),
            value(core, b.get(), values),
        ),
        Cons::AllDifferent(parts) => all_differ(core, parts.as_slice(), values),
        Cons::Capacity(resource, time) => match core.resources.get(*resource as usize) {
            None => None,
            Some(r) => Some(total_demand(r.uses.as_slice(), *time, values) <= r.capacity),
        },
        Cons::Bound(_x) => None,
    }
}

/// Whether all constraints hold.
#[cycle(values)]
fn all_hold(core: &Core, parts: &[Cons], values: &[i64]) -> Option<bool>
    requires sound { AreSoundFacts core.now.sets (facts_of (map (fact core.now.tables core.now.resources) parts.now)) }
    requires among { is_among values.now (declared core.now) ≡ true }
    ensures { result ≡ holds values.now (Fact.and (facts_of (map (fact core.now.tables core.now.resources) parts.now))) }
{
    let mut found = Some(true);
    let mut left = parts.len();
    while left > 0 {
        left -= 1;
        found = numbers::both(holds(core, &parts[left], values), found);
    }
    found
}

/// Whether some constraint holds.
#[cycle(values)]
fn some_hold(core: &Core, parts: &[Cons], values: &[i64]) -> Option<bool>
    requires sound { AreSoundFacts core.now.sets (facts_of (map (fact core.now.tables core.now.resources) parts.now)) }
    requires among { is_among values.now (declared core.now) ≡ true }
    ensures { result ≡ holds values.now (Fact.or (facts_of (map (fact core.now.tables core.now.resources) parts.now))) }
{
    let mut found = Some(false);
    let mut left = parts.len();
    while left > 0 {
        left -= 1;
        found = numbers::either(holds(core, &parts[left], values), found);
    }
    found
}

/// Whether the values of expressions are there and differ pairwise.
#[cycle(values)]
fn all_differ(core: &Core, parts: &[Expr], values: &[i64]) -> Option<bool>
    requires sound { AreSoundTerms core.now.sets (terms_of (map (term core.now.tables core.now.resources) parts.now)) }
    requires among { is_among values.now (declared core.now) ≡ true }
    ensures { result ≡ holds values.now (Fact.different (terms_of (map (term core.now.tables core.now.resources) parts.now))) }
{
    let mut found = Some(true);
    let mut left = parts.len();
    while left > 0 {
        left -= 1;
        let first = value(core, &parts[left], values);
        let mut other = parts.len();
        while other > left + 1 {
            other -= 1;
            found = numbers::both(
                numbers::compared(Op::Ne, first, value(core, &parts[other], values)),
                found,
            );
        }
        found = numbers::both(numbers::known(first), found);
    }
    found
}

/// The value of the cell that the subscripts name.
#[cycle(values)]
fn cell_at(
    core: &Core,
    dims: &[Seq<i128>],
    parts: &[Expr],
    cells: &[Cell],
    values: &[i64],
) -> Option<i128>
    requires sound { AreSoundTerms core.now.sets (terms_of (map (term core.now.tables core.now.resources) parts.now)) }
    requires among { is_among values.now (declared core.now) ≡ true }
    requires subscripts { length parts.now ≡ length dims.now }
    requires whole { length cells.now ≡ keys dims.now }
    requires clear { list_all all_differ dims.now ≡ true }
    requires there { list_all (is_there (length values.now)) cells.now ≡ true }
    ensures { result ≡ joined (λ v w. v) (map (cell_value values.now) (chosen (taken (masks is_index dims.now (all_values values.now (terms_of (map (term core.now.tables core.now.resources) parts.now))))) cells.now)) }
{
    let mut left = cells;
    for at in 0..dims.len() {
        let index = value(core, &parts[at], values)?;
        let dim = dims[at].as_slice();
        let place = place_in(index, dim)?;
        left = block(left, dim.len(), place);
    }
    Some(cell_value(left[0], values))
}
