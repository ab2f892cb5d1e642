//! The factors of the variables of linear expressions, added up in a map.
ghost use Rattle.std.specs.Prelude.{◌≡◌, ℕ, ◌<◌, map, length, OnOk};
ghost use Rattle.opl_expr.specs.Forms.{Term, terms_of};
ghost use Rattle.opl_expr.specs.Range.{coef};
ghost use Rattle.opl_expr.specs.Sound.{IsSoundTerm, term_magnitude};
ghost use Rattle.opl_range.specs.Between.{term_of};
ghost use Rattle.opl_linear_filter.specs.Factors.{factor_at, Adds, AreBelow, CanAdd, IsMultiple};

use crate::numbers::added;
use opl_domain::OutOfMemory;
use opl_expr::{Core, Expr};
use opl_range::constant;
use std::collections::BTreeMap;

/// The product of two numbers, or the number that is nearest to it.
fn multiple(x: i128, y: i128) -> i128
    ensures { IsMultiple x y result }
{
    x.saturating_mul(y)
}

/// The factor of a variable that is known, and 0 where none is.
fn factor_of(factors: &BTreeMap<u32, i128>, x: u32) -> i128
    ensures { result ≡ factor_at factors.now x }
{
    match factors.get(&x) {
        Some(factor) => *factor,
        None => 0,
    }
}

/// Adds a factor of a variable to the one that is known.
fn add_factor(factors: &mut BTreeMap<u32, i128>, x: u32, factor: i128) -> Result<(), OutOfMemory>
    requires { CanAdd factors.old factor 1 }
    ensures below { OnOk result ((n : ℕ) → x < n → AreBelow n factors.old → AreBelow n factors.new) }
    ensures factors { OnOk result (Adds factors.old factor (coef (Term.var x)) factors.new) }
{
    let before = factor_of(&*factors, x);
    factors.insert(x, added(before, factor))?;
    Ok(())
}

/// Adds so many times the linear form of an expression. Where that number is not one of 128 bits, the form has no variables.
#[cycle(adding)]
pub fn add_form(
    core: &Core,
    e: &Expr,
    times: i128,
    factors: &mut BTreeMap<u32, i128>,
) -> Result<(), OutOfMemory>
    requires sound { IsSoundTerm core.now.sets (term_of core.now e.now) }
    requires fits { CanAdd factors.old times (term_magnitude core.now.sets (term_of core.now e.now)) }
    requires below { AreBelow (length core.now.sets) factors.old }
    ensures below { OnOk result (AreBelow (length core.now.sets) factors.new) }
    ensures factors { OnOk result (Adds factors.old times (coef (term_of core.now e.now)) factors.new) }
{
    match e {
        Expr::Const(_k) => Ok(()),
        Expr::Var(x) => add_factor(factors, *x, times),
        Expr::Sum(parts) => add_forms(core, parts.as_slice(), times, factors),
        Expr::Neg(a) => add_form(core, a.get(), multiple(times, -1), factors),
        Expr::Mul(a, b) => match constant(core, a.get()) {
            Some(k) => add_form(core, b.get(), multiple(times, k), factors),
            None => match constant(core, b.get()) {
                Some(k) => add_form(core, a.get(), multiple(times, k), factors),
                None => Ok(()),
            },
        },
        Expr::Div(_a, _b) => Ok(()),
        Expr::Rem(_a, _b) => Ok(()),
        Expr::Abs(_a) => Ok(()),
        Expr::Min(_parts) => Ok(()),
        Expr::Max(_parts) => Ok(()),
        Expr::At(_table, _parts) => Ok(()),
        Expr::Truth(_c) => Ok(()),
        Expr::Ask(_ask, _x) => Ok(()),
    }
}

/// Adds so many times the linear forms of expressions.
#[cycle(adding)]
fn add_forms(
    core: &Core,
    parts: &[Expr],
    times: i128,
    factors: &mut BTreeMap<u32, i128>,
) -> Result<(), OutOfMemory>
    requires sound { IsSoundTerm core.now.sets (Term.sum (terms_of (map (term_of core.now) parts.now))) }
    requires fits { CanAdd factors.old times (term_magnitude core.now.sets (Term.sum (terms_of (map (term_of core.now) parts.now)))) }
    requires below { AreBelow (length core.now.sets) factors.old }
    ensures below { OnOk result (AreBelow (length core.now.sets) factors.new) }
    ensures factors { OnOk result (Adds factors.old times (coef (Term.sum (terms_of (map (term_of core.now) parts.now)))) factors.new) }
{
    for part in parts {
        add_form(core, part, times, factors)?;
    }
    Ok(())
}
