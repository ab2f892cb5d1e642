//! The cells of a table that its last subscript may reach.
ghost use Rattle.std.specs.Prelude.{◌≡◌, ◌+◌, map, length, true};
ghost use Rattle.std.specs.List.{list_all};
ghost use Rattle.opl_domain.specs.Arithmetic.{span_hull};
ghost use Rattle.opl_domain.specs.Family.{Below};
ghost use Rattle.opl_expr.specs.Range.{chosen, cell_range, may_be, rest};
ghost use Rattle.opl_expr.specs.Solutions.{declared};
ghost use Rattle.opl_expr.specs.Sound.{IsSmall, IsSoundTerm, term_magnitude, greatest_abs, is_there};
ghost use Rattle.opl_range.specs.Between.{term_of, linear_of, joined_onto};

use crate::comparisons::may_be;
use crate::hulls::cell_range;
use crate::rows;
use opl_domain::{Interval, View};
use opl_expr::{Cell, Core, Expr};

/// The hull of the cells of a row that the subscript along it may reach, and of what was `found` before; `beside` is what the
/// subscript has beside its variables.
pub fn joined_row<V: View>(
    core: &Core,
    part: &Expr,
    beside: &Option<Interval>,
    dim: &[i128],
    cells: &[Cell],
    found: Option<Interval>,
    view: &V,
) -> Option<Interval>
    requires sound { IsSoundTerm core.now.sets (term_of core.now part.now) }
    requires small { IsSmall (term_magnitude core.now.sets (term_of core.now part.now) + greatest_abs dim.now) }
    requires whole { length cells.now ≡ length dim.now }
    requires there { list_all (is_there (length core.now.sets)) cells.now ≡ true }
    requires within { Below (V.family view.now) (declared core.now) }
    requires beside { beside.now ≡ rest (V.family view.now) (term_of core.now part.now) }
    ensures { result ≡ joined_onto span_hull (map (cell_range (V.family view.now)) (chosen (map (may_be (V.family view.now) (linear_of (V.family view.now) (term_of core.now part.now))) dim.now) cells.now)) found }
{
    let mut joined = found;
    let mut left = dim.len();
    while left > 0 {
        left -= 1;
        if may_be(core, part, rows::copied(beside), dim[left], view) {
            joined = Some(rows::joined(cell_range(cells[left], view), joined));
        }
    }
    joined
}
