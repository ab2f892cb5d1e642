//! Parts that have one value.
ghost use Rattle.std.specs.Prelude.{◌≡◌, ◌≢◌, ◌<◌, ℤ, pos, true, length};
ghost use Rattle.opl_domain.specs.Family.{member};
ghost use Rattle.opl_all_different.specs.Parts.{numbers_of, IsThere, HasOnly, FitsWith};
ghost use Rattle.opl_all_different.specs.Singles.{Singles};

use crate::numbers::{added, product};
use crate::part::Part;
use opl_domain::View;

/// Whether a part has one value.
pub fn is_single<V: View>(part: &Part, view: &V) -> bool
    requires { IsThere (length (V.family view.now)) part.now }
    ensures { Singles (V.family view.now) part.now result }
{
    if part.factor == 0 {
        return true;
    }
    if view.min(part.variable) < view.max(part.variable) {
        return false;
    }
    true
}

/// The value of a part that has one.
pub fn value<V: View>(part: &Part, view: &V) -> i128
    requires there { IsThere (length (V.family view.now)) part.now }
    requires single { Singles (V.family view.now) part.now true }
    requires fits { (w : ℤ) → member w (numbers_of (V.family view.now) part.now) ≡ true → FitsWith part.now w }
    ensures { HasOnly (V.family view.now) part.now result }
{
    if part.factor == 0 {
        return part.constant;
    }
    added(part.constant, product(part.factor, view.min(part.variable)))
}
