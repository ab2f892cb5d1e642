//! The parts of the linear form of a difference.
ghost use Rattle.std.specs.Prelude.{◌≡◌, ℕ, ◌≢◌, ◌++◌, ◌∷◌, [], pos, unsigned_abs, neg_ℤ, length, IfOk, OnOk};
ghost use Rattle.opl_expr.specs.Sound.{IsSmall};
ghost use Rattle.opl_range.specs.Between.{between, CanCompare, are_opposite_units};
ghost use Rattle.opl_linear.specs.Linear.{opposite};
ghost use Rattle.opl_linear_filter.specs.Factors.{factor_at, AreBelow};
ghost use Rattle.opl_linear_filter.specs.Parts.{ArePartsBoth, is_short};

use crate::factors::add_form;
use crate::numbers::negated;
use opl_domain::OutOfMemory;
use opl_expr::{Core, Expr};
use opl_list::Seq;
use std::alloc::Global;
use std::collections::BTreeMap;

/// Adds a variable with its factor, and the same with the opposite factor.
fn add(
    parts: &mut Seq<(u32, i128)>,
    opposites: &mut Seq<(u32, i128)>,
    x: u32,
    factor: i128,
) -> Result<(), OutOfMemory>
    requires { IsSmall (unsigned_abs factor) }
    ensures parts { OnOk result (parts.new ≡ parts.old ++ (x, factor) ∷ []) }
    ensures opposites { OnOk result (opposites.new ≡ opposites.old ++ (x, neg_ℤ factor) ∷ []) }
{
    parts.push((x, factor))?;
    opposites.push((x, negated(factor)))?;
    Ok(())
}

/// The variables of a map with their factors other than 0, the last one first, and the same with the opposite factors.
fn listed(
    alloc: Global,
    factors: BTreeMap<u32, i128>,
) -> Result<(Seq<(u32, i128)>, Seq<(u32, i128)>), OutOfMemory>
    requires { (x : ℕ) → IsSmall (unsigned_abs (factor_at factors x)) }
    ensures { IfOk result (λ both. (n : ℕ) → AreBelow n factors → ArePartsBoth (factor_at factors) n both) }
{
    let mut left = factors;
    let mut parts = Seq::new(alloc);
    let mut opposites = Seq::new(alloc);
    while let Some((x, factor)) = left.pop_last() {
        if factor != 0 {
            add(&mut parts, &mut opposites, x, factor)?;
        }
    }
    Ok((parts, opposites))
}

/// The variables of `a` less `b` with their factors, the last one first, and the same with the opposite factors.
pub fn parts_between(
    alloc: Global,
    core: &Core,
    a: &Expr,
    b: &Expr,
) -> Result<(Seq<(u32, i128)>, Seq<(u32, i128)>), OutOfMemory>
    requires { CanCompare core.now a.now b.now }
    ensures { IfOk result (ArePartsBoth (between core.now a.now b.now) (length core.now.sets)) }
{
    let mut factors = BTreeMap::new(alloc);
    add_form(core, a, 1, &mut factors)?;
    add_form(core, b, -1, &mut factors)?;
    listed(alloc, factors)
}

/// Whether two numbers are 1 and -1, in any order.
fn are_opposite_units(x: i128, y: i128) -> bool
    ensures { result ≡ are_opposite_units x y }
{
    x == 1 && y == -1 || x == -1 && y == 1
}

/// Whether there is one part, or there are two with the factors 1 and -1.
pub fn is_short(parts: &[(u32, i128)]) -> bool
    ensures { result ≡ is_short parts.now }
{
    if parts.len() == 1 {
        return true;
    }
    if parts.len() != 2 {
        return false;
    }
    are_opposite_units(parts[0].1, parts[1].1)
}
