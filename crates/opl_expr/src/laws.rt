//! What holds of all ranges. Each law is the contract of a function without effect.
ghost use Rattle.opl_expr.specs.Laws.{Monotony, Singles, NoneRefuted};

/// Over a family within another, the range of an expression or a constraint lies within its range over the other.
pub fn narrower_families_have_narrower_ranges()
    ensures { Monotony }
{}

/// Over single values, the range of an expression is its value, and that of a constraint is 1 or 0 as it holds or not;
/// it is missing exactly where they are undefined.
pub fn ranges_of_single_values_are_values()
    ensures { Singles }
{}

/// A family that has an assignment on which a constraint holds does not refute the constraint.
pub fn what_holds_is_not_refuted()
    ensures { NoneRefuted }
{}
