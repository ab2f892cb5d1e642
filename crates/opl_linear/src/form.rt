//! The filter of a linear form, by what it is to be.
ghost use Rattle.std.specs.Prelude.{◌≡◌, ◌+◌, unsigned_abs, length};
ghost use Rattle.opl_expr.specs.Sound.{IsSmall};
ghost use Rattle.opl_filter.specs.Filtering.{IsBetween, Filters};
ghost use Rattle.opl_linear.specs.Linear.{factor_in, NamesOnce, AreAmong, AreFactors, opposite, bulk};
ghost use Rattle.opl_linear.specs.Forms.{rejects};
ghost use Rattle.opl_linear.specs.declared.kind.Kind.TheVariants as kinds;

use crate::at_most::filter_at_most;
use crate::different::filter_different;
use crate::equal::filter_both;
use crate::kind::Kind;
use crate::trim::negated;
use opl_domain::Narrow;
use opl_filter::Outcome;

/// Removes the values with which the parts and the constant can't be 0, by the ends of their sum, until the family is stable, or
/// until none within is. `opposites` are the parts with the opposite factors. It takes no memory.
fn filter_zero<N: Narrow>(
    parts: &[(u32, i128)],
    opposites: &[(u32, i128)],
    constant: i128,
    n: &mut N,
) -> Outcome
    requires once { NamesOnce parts.now }
    requires there { AreAmong (length (N.family n.old)) parts.now }
    requires factors { AreFactors parts.now }
    requires opposites { opposites.now ≡ opposite parts.now }
    requires fits { IsSmall (unsigned_abs constant + bulk (N.family n.old) parts.now) }
    ensures between { IsBetween (rejects kinds.Zero (factor_in parts.now) constant) (N.family n.old) (N.family n.new) }
    ensures outcome { Filters (rejects kinds.Zero (factor_in parts.now) constant) (N.family n.old) (N.family n.new) result }
    ensures leads_to { N.leads_to n.old n.new }
{
    filter_both(parts, constant, opposites, negated(constant), n)
}

/// Removes the values with which the parts and the constant can't be what they are to be, until the family is stable, or until
/// none within is. `opposites` are the parts with the opposite factors. It takes no memory.
pub fn filter_form<N: Narrow>(
    kind: Kind,
    parts: &[(u32, i128)],
    opposites: &[(u32, i128)],
    constant: i128,
    n: &mut N,
) -> Outcome
    requires once { NamesOnce parts.now }
    requires there { AreAmong (length (N.family n.old)) parts.now }
    requires factors { AreFactors parts.now }
    requires opposites { opposites.now ≡ opposite parts.now }
    requires fits { IsSmall (unsigned_abs constant + bulk (N.family n.old) parts.now) }
    ensures between { IsBetween (rejects kind (factor_in parts.now) constant) (N.family n.old) (N.family n.new) }
    ensures outcome { Filters (rejects kind (factor_in parts.now) constant) (N.family n.old) (N.family n.new) result }
    ensures leads_to { N.leads_to n.old n.new }
{
    match kind {
        Kind::AtMost => filter_at_most(parts, constant, false, n),
        Kind::Below => filter_at_most(parts, constant, true, n),
        Kind::Zero => filter_zero(parts, opposites, constant, n),
        Kind::Different => filter_different(parts, constant, n),
    }
}
