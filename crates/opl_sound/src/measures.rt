//! The magnitudes of sound expressions, and which constraints are sound.
ghost use Rattle.std.specs.Prelude.{◌≡◌, ◌*◌, map, ◌||◌};
ghost use Rattle.opl_expr.specs.Forms.{term, fact, terms_of, facts_of, product};
ghost use Rattle.opl_sound.specs.Measures.{measure, measure_sum, measure_all, measure_some, measure_pairs, fit_subscripts, fits, all_fit, is_number, measure_question};

use crate::{numbers, tables, variables};
use opl_expr::{Ask, Cons, Core, Expr};
use opl_list::Seq;

/// Whether an expression is a number.
#[tactic(auto, using(crate::proofs::Plain::are_numbers))]
fn is_number(core: &Core, e: &Expr) -> bool
    ensures { result ≡ is_number (term core.now.tables core.now.resources e.now) }
{
    match e {
        Expr::Const(_k) => true,
        Expr::Var(_x) => false,
        Expr::Sum(_parts) => false,
        Expr::Neg(_a) => false,
        Expr::Mul(_a, _b) => false,
        Expr::Div(_a, _b) => false,
        Expr::Rem(_a, _b) => false,
        Expr::Abs(_a) => false,
        Expr::Min(_parts) => false,
        Expr::Max(_parts) => false,
        Expr::At(_table, _parts) => false,
        Expr::Truth(_c) => false,
        Expr::Ask(_ask, _x) => false,
    }
}

/// The magnitude of a product, by those of its factors. It is at least 1 unless a factor is a number.
fn product(
    core: &Core,
    asks: bool,
    a: &Expr,
    b: &Expr,
    first: Option<u128>,
    second: Option<u128>,
) -> Option<u128>
    requires first { first ≡ measure core.now.sets asks (term core.now.tables core.now.resources a.now) }
    requires second { second ≡ measure core.now.sets asks (term core.now.tables core.now.resources b.now) }
    ensures { result ≡ measure core.now.sets asks (product (term core.now.tables core.now.resources a.now) (term core.now.tables core.now.resources b.now)) }
{
    let product = numbers::multiplied(first, second);
    if is_number(core, a) || is_number(core, b) {
        product
    } else {
        numbers::at_least_one(product)
    }
}

/// The greatest absolute value of an answer to a question, and at least 1; none where there is no such variable.
fn question(core: &Core, asks: bool, ask: Ask, x: u32) -> Option<u128>
    ensures { result ≡ measure_question core.now.sets asks ask x }
{
    if !asks {
        return None;
    }
    match ask {
        Ask::Size => variables::size(core, x),
        Ask::Least => variables::variable(core, x),
        Ask::Greatest => variables::variable(core, x),
    }
}

/// The magnitude of an expression; none where it is not sound. Questions may stand in it where `asks`.
#[cycle(measures)]
#[tactic(auto, using(crate::proofs::Plain::measures))]
pub fn measure(core: &Core, asks: bool, e: &Expr) -> Option<u128>
    ensures { result ≡ measure core.now.sets asks (term core.now.tables core.now.resources e.now) }
{
    match e {
        Expr::Const(k) => numbers::small(k.unsigned_abs()),
        Expr::Var(x) => variables::variable(core, *x),
        Expr::Sum(parts) => sum(core, asks, parts.as_slice()),
        Expr::Neg(a) => measure(core, asks, a.get()),
        Expr::Mul(a, b) => product(
            core,
            asks,
            a.get(),
            b.get(),
            measure(core, asks, a.get()),
            measure(core, asks, b.get()),
        ),
        Expr::Div(a, b) => numbers::at_least_one(numbers::first(
            measure(core, asks, a.get()),
            measure(core, asks, b.get()),
        )),
        Expr::Rem(a, b) => numbers::at_least_one(numbers::first(
            measure(core, asks, a.get()),
            measure(core, asks, b.get()),
        )),
        Expr::Abs(a) => numbers::at_least_one(measure(core, asks, a.get())),
        Expr::Min(parts) => greatest_of_some(core, asks, parts.as_slice()),
        Expr::Max(parts) => greatest_of_some(core, asks, parts.as_slice()),
        Expr::At(table, parts) => match core.tables.get(*table as usize) {
            None => None,
            Some(t) => tables::measure_table(
                core,
                t,
                fit_subscripts(core, asks, t.dims.as_slice(), parts.as_slice()),
            ),
        },
        Expr::Truth(c) => numbers::one_if(fits(core, asks, c.get())),
        Expr::Ask(ask, x) => question(core, asks, *ask, *x),
    }
}

/// The sum of the magnitudes of expressions.
#[cycle(measures)]
fn sum(core: &Core, asks: bool, parts: &[Expr]) -> Option<u128>
    ensures { result ≡ measure_sum core.now.sets asks (terms_of (map (term core.now.tables core.now.resources) parts.now)) }
{
    let mut found = Some(0);
    let mut left = parts.len();
    while left > 0 {
        left -= 1;
        found = numbers::added(measure(core, asks, &parts[left]), found);
    }
    found
}

/// The greatest magnitude of expressions, of which there must be one, and at least 1.
#[cycle(measures)]
fn greatest_of_some(core: &Core, asks: bool, parts: &[Expr]) -> Option<u128>
    ensures { result ≡ measure_some core.now.sets asks (terms_of (map (term core.now.tables core.now.resources) parts.now)) }
{
    if parts.is_empty() {
        return None;
    }
    numbers::at_least_one(greatest(core, asks, parts))
}

/// The greatest magnitude of expressions.
#[cycle(measures)]
fn greatest(core: &Core, asks: bool, parts: &[Expr]) -> Option<u128>
    ensures { result ≡ measure_all core.now.sets asks (terms_of (map (term core.now.tables core.now.resources) parts.now)) }
{
    let mut found = Some(0);
    let mut left = parts.len();
    while left > 0 {
        left -= 1;
        found = numbers::greater(measure(core, asks, &parts[left]), found);
    }
    found
}

/// Whether there is a subscript for each dimension that can be compared with each of its indices.
#[cycle(measures)]
fn fit_subscripts(core: &Core, asks: bool, dims: &[Seq<i128>], parts: &[Expr]) -> bool
    ensures { result ≡ fit_subscripts core.now.sets asks dims.now (terms_of (map (term core.now.tables core.now.resources) parts.now)) }
{
    if dims.len() != parts.len() {
        return false;
    }
    let mut left = parts.len();
    while left > 0 {
        left -= 1;
        let greatest = tables::greatest_abs(dims[left].as_slice());
        let both = numbers::added(measure(core, asks, &parts[left]), Some(greatest));
        if !numbers::is_there(both) {
            return false;
        }
    }
    true
}

/// The greatest magnitude of expressions of which each two can be compared.
#[cycle(measures)]
fn pairs(core: &Core, asks: bool, parts: &[Expr]) -> Option<u128>
    ensures { result ≡ measure_pairs core.now.sets asks (terms_of (map (term core.now.tables core.now.resources) parts.now)) }
{
    let mut found = Some(0);
    let mut left = parts.len();
    while left > 0 {
        left -= 1;
        found = numbers::comparable(measure(core, asks, &parts[left]), found);
    }
    found
}

/// Whether a constraint is sound. Questions may stand in it where `asks`.
#[cycle(measures)]
#[tactic(auto, using(crate::proofs::Plain::fittings))]
pub fn fits(core: &Core, asks: bool, c: &Cons) -> bool
    ensures { result ≡ fits core.now.sets asks (fact core.now.tables core.now.resources c.now) }
{
    match c {
        Cons::Fixed(_b) => true,
        Cons::Cmp(_op, a, b) => numbers::is_there(numbers::added(
            measure(core, asks, a.get()),
            measure(core, asks, b.get()),
        )),
        Cons::And(parts) => all_fit(core, asks, parts.as_slice()),
        Cons::Or(parts) => all_fit(core, asks, parts.as_slice()),
        Cons::Imp(a, b) => fits(core, asks, a.get()) && fits(core, asks, b.get()),
        Cons::Iff(a, b) => fits(core, asks, a.get()) && fits(core, asks, b.get()),
        Cons::Not(a) => fits(core, asks, a.get()),
        Cons::AllDifferent(parts) => numbers::is_there(pairs(core, asks, parts.as_slice())),
        Cons::Capacity(resource, time) => match core.resources.get(*resource as usize) {
            None => false,
            Some(r) => variables::fits_capacity(core, r, time.unsigned_abs() as u128),
        },
        Cons::Bound(x) => asks && variables::is_variable(core, *x),
    }
}

/// Whether all constraints are sound.
#[cycle(measures)]
pub fn all_fit(core: &Core, asks: bool, parts: &[Cons]) -> bool
    ensures { result ≡ all_fit core.now.sets asks (facts_of (map (fact core.now.tables core.now.resources) parts.now)) }
{
    let mut left = parts.len();
    while left > 0 {
        left -= 1;
        if !fits(core, asks, &parts[left]) {
            return false;
        }
    }
    true
}
