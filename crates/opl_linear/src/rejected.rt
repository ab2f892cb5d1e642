//! Whether a family rejects what a linear form is to be.
ghost use Rattle.std.specs.Prelude.{◌≡◌, ◌+◌, unsigned_abs, length};
ghost use Rattle.opl_expr.specs.Sound.{IsSmall};
ghost use Rattle.opl_linear.specs.Linear.{factor_in, NamesOnce, AreAmong, AreFactors, is_above, is_zero, opposite, limit, bulk};
ghost use Rattle.opl_linear.specs.Forms.{rejects};
ghost use Rattle.opl_linear.specs.declared.kind.Kind.TheVariants as kinds;

use crate::at_most::{added, least_sum};
use crate::different::next_open;
use crate::kind::Kind;
use crate::trim::negated;
use opl_domain::View;

/// Whether all values of the parts and the constant are above 0, or, if that is asked, at least 0.
fn is_above<V: View>(parts: &[(u32, i128)], constant: i128, strict: bool, view: &V) -> bool
    requires once { NamesOnce parts.now }
    requires there { AreAmong (length (V.family view.now)) parts.now }
    requires factors { AreFactors parts.now }
    requires fits { IsSmall (unsigned_abs constant + bulk (V.family view.now) parts.now) }
    ensures { result ≡ is_above (factor_in parts.now) (limit strict constant) (V.family view.now) }
{
    let least = added(constant, least_sum(parts, view));
    if strict { least >= 0 } else { least > 0 }
}

/// Whether the parts and the constant have one value, which is 0.
fn is_zero<V: View>(parts: &[(u32, i128)], constant: i128, view: &V) -> bool
    requires once { NamesOnce parts.now }
    requires there { AreAmong (length (V.family view.now)) parts.now }
    requires factors { AreFactors parts.now }
    requires fits { IsSmall (unsigned_abs constant + bulk (V.family view.now) parts.now) }
    ensures { result ≡ is_zero (factor_in parts.now) constant (V.family view.now) }
{
    // No set is empty: a view says so with its number of variables.
    let _vars = view.vars();
    if next_open(parts, 0, view) < parts.len() {
        return false;
    }
    if added(constant, least_sum(parts, view)) != 0 {
        return false;
    }
    true
}

/// Whether 0 is none of the numbers from the least to the greatest value of the parts and the constant. `opposites` are the parts with
/// the opposite factors.
fn misses_zero<V: View>(
    parts: &[(u32, i128)],
    opposites: &[(u32, i128)],
    constant: i128,
    view: &V,
) -> bool
    requires once { NamesOnce parts.now }
    requires there { AreAmong (length (V.family view.now)) parts.now }
    requires factors { AreFactors parts.now }
    requires opposites { opposites.now ≡ opposite parts.now }
    requires fits { IsSmall (unsigned_abs constant + bulk (V.family view.now) parts.now) }
    ensures { result ≡ rejects kinds.Zero (factor_in parts.now) constant (V.family view.now) }
{
    if is_above(parts, constant, false, view) {
        return true;
    }
    is_above(opposites, negated(constant), false, view)
}

/// Whether the family rejects what a form is to be. `opposites` are the parts with the opposite factors.
pub fn is_rejected<V: View>(
    kind: Kind,
    parts: &[(u32, i128)],
    opposites: &[(u32, i128)],
    constant: i128,
    view: &V,
) -> bool
    requires once { NamesOnce parts.now }
    requires there { AreAmong (length (V.family view.now)) parts.now }
    requires factors { AreFactors parts.now }
    requires opposites { opposites.now ≡ opposite parts.now }
    requires fits { IsSmall (unsigned_abs constant + bulk (V.family view.now) parts.now) }
    ensures { result ≡ rejects kind (factor_in parts.now) constant (V.family view.now) }
{
    match kind {
        Kind::AtMost => is_above(parts, constant, false, view),
        Kind::Below => is_above(parts, constant, true, view),
        Kind::Zero => misses_zero(parts, opposites, constant, view),
        Kind::Different => is_zero(parts, constant, view),
    }
}
