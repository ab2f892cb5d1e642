//! Expressions that count truths, read as costs.
ghost use Rattle.std.specs.Prelude.{◌≡◌, ◌+◌, ◌*◌, ◌<◌, ◌^◌, unsigned_abs, map, IfOk};
ghost use Rattle.opl_expr.specs.Forms.{Term, term, fact, terms_of};
ghost use Rattle.opl_expr.specs.Sound.{term_magnitude, IsSoundTerm, IsSoundFact};
ghost use Rattle.opl_count.specs.Readings.{load, added, is_paid, is_turned, ReadsTruthIf, ReadsIf, ReadsMultipleIf, ReadAllIf};

use crate::sum::{Costs, Literal};
use opl_domain::OutOfMemory;
use opl_expr::{Cons, Core, Expr};
use opl_range::constant;
use opl_reify::literal;
use std::alloc::Global;

/// Adds an amount to what is paid, or to the room.
fn add(costs: &mut Costs, is_paid: bool, amount: u128)
    requires { load costs.old + amount < 2 ^ 128 }
    ensures { costs.new ≡ added is_paid amount costs.old }
{
    if is_paid {
        costs.paid += amount;
    } else {
        costs.room += amount;
    }
}

/// Whether a number is paid, or makes room.
fn is_paid(k: i128, is_negative: bool) -> bool
    ensures { result ≡ is_paid is_negative k }
{
    if k < 0 { is_negative } else { !is_negative }
}

/// Whether a multiple by a number is subtracted.
fn is_turned(k: i128, is_negative: bool) -> bool
    ensures { result ≡ is_turned is_negative k }
{
    if k < 0 { !is_negative } else { is_negative }
}

/// The absolute value of a number.
fn amount(k: i128) -> u128
    ensures { result ≡ unsigned_abs k }
{
    k.unsigned_abs()
}

/// Adds a truth so many times, or subtracts it; tells whether it is that of a comparison of linear sides, or of an opposite of one.
fn add_truth(
    alloc: Global,
    core: &Core,
    c: &Cons,
    is_negative: bool,
    times: u128,
    costs: &mut Costs,
) -> Result<bool, OutOfMemory>
    requires sound { IsSoundFact core.now.sets (fact core.now.tables core.now.resources c.now) }
    requires fits { load costs.old + 2 * times < 2 ^ 128 }
    ensures { IfOk result (ReadsTruthIf core.now is_negative times c.now costs.old costs.new) }
{
    match literal(alloc, core, c, !is_negative)? {
        None => Ok(false),
        Some(part) => {
            costs.literals.push(Literal {
                part,
                weight: times,
            })?;
            if is_negative {
                costs.room += times;
            }
            Ok(true)
        }
    }
}

/// Adds the multiple of a truth, or subtracts it; tells whether the expression is one.
fn add_multiple(
    alloc: Global,
    core: &Core,
    k: i128,
    e: &Expr,
    is_negative: bool,
    costs: &mut Costs,
) -> Result<bool, OutOfMemory>
    requires sound { IsSoundTerm core.now.sets (term core.now.tables core.now.resources e.now) }
    requires fits { load costs.old + 2 * term_magnitude core.now.sets (Term.scale k (term core.now.tables core.now.resources e.now)) < 2 ^ 128 }
    ensures { IfOk result (ReadsMultipleIf core.now is_negative k e.now costs.old costs.new) }
{
    match e {
        Expr::Const(_k) => Ok(false),
        Expr::Var(_x) => Ok(false),
        Expr::Sum(_parts) => Ok(false),
        Expr::Neg(_a) => Ok(false),
        Expr::Mul(_a, _b) => Ok(false),
        Expr::Div(_a, _b) => Ok(false),
        Expr::Rem(_a, _b) => Ok(false),
        Expr::Abs(_a) => Ok(false),
        Expr::Min(_parts) => Ok(false),
        Expr::Max(_parts) => Ok(false),
        Expr::At(_table, _parts) => Ok(false),
        Expr::Truth(c) => add_truth(
            alloc,
            core,
            c.get(),
            is_turned(k, is_negative),
            amount(k),
            costs,
        ),
        Expr::Ask(_ask, _x) => Ok(false),
    }
}

/// Adds an expression that counts truths, or subtracts it; tells whether it does.
#[cycle(reading)]
pub fn read(
    alloc: Global,
    core: &Core,
    e: &Expr,
    is_negative: bool,
    costs: &mut Costs,
) -> Result<bool, OutOfMemory>
    requires sound { IsSoundTerm core.now.sets (term core.now.tables core.now.resources e.now) }
    requires fits { load costs.old + 2 * term_magnitude core.now.sets (term core.now.tables core.now.resources e.now) < 2 ^ 128 }
    ensures { IfOk result (ReadsIf core.now is_negative e.now costs.old costs.new) }
{
    match e {
        Expr::Const(k) => {
            add(costs, is_paid(*k, is_negative), amount(*k));
            Ok(true)
        }
        Expr::Var(_x) => Ok(false),
        Expr::Sum(parts) => read_all(alloc, core, parts.as_slice(), is_negative, costs),
        Expr::Neg(a) => read(alloc, core, a.get(), !is_negative, costs),
        Expr::Mul(a, b) => match constant(core, a.get()) {
            Some(k) => add_multiple(alloc, core, k, b.get(), is_negative, costs),
            None => match constant(core, b.get()) {
                Some(k) => add_multiple(alloc, core, k, a.get(), is_negative, costs),
                None => Ok(false),
            },
        },
        Expr::Div(_a, _b) => Ok(false),
        Expr::Rem(_a, _b) => Ok(false),
        Expr::Abs(_a) => Ok(false),
        Expr::Min(_parts) => Ok(false),
        Expr::Max(_parts) => Ok(false),
        Expr::At(_table, _parts) => Ok(false),
        Expr::Truth(c) => add_truth(alloc, core, c.get(), is_negative, 1, costs),
        Expr::Ask(_ask, _x) => Ok(false),
    }
}

/// Adds expressions that count truths, or subtracts them; tells whether all do.
#[cycle(reading)]
fn read_all(
    alloc: Global,
    core: &Core,
    parts: &[Expr],
    is_negative: bool,
    costs: &mut Costs,
) -> Result<bool, OutOfMemory>
    requires sound { IsSoundTerm core.now.sets (Term.sum (terms_of (map (term core.now.tables core.now.resources) parts.now))) }
    requires fits { load costs.old + 2 * term_magnitude core.now.sets (Term.sum (terms_of (map (term core.now.tables core.now.resources) parts.now))) < 2 ^ 128 }
    ensures { IfOk result (ReadAllIf core.now is_negative parts.now costs.old costs.new) }
{
    let mut left = parts.len();
    while left > 0 {
        left -= 1;
        if !read(alloc, core, &parts[left], is_negative, costs)? {
            return Ok(false);
        }
    }
    Ok(true)
}
