//! The hulls of the sets of a view.
ghost use Rattle.std.specs.Prelude.{◌≡◌, ◌<◌, true, length};
ghost use Rattle.opl_domain.specs.Family.{hull};
ghost use Rattle.opl_expr.specs.Range.{cell_range};
ghost use Rattle.opl_expr.specs.Sound.{is_there};

use opl_domain::{Interval, View};
use opl_expr::Cell;

/// The interval from the least to the greatest value of variable `x`.
pub fn hull<V: View>(view: &V, x: u32) -> Interval
    requires { x < length (V.family view.now) }
    ensures { result ≡ hull (V.family view.now) x }
{
    Interval::new(view.min(x) as i128, view.max(x) as i128)
}

/// The number that a cell is, or the hull of its variable.
pub fn cell_range<V: View>(cell: Cell, view: &V) -> Interval
    requires { is_there (length (V.family view.now)) cell ≡ true }
    ensures { result ≡ cell_range (V.family view.now) cell }
{
    match cell {
        Cell::Const(k) => Interval::point(k),
        Cell::Var(x) => hull(view, x),
    }
}
