//! Whether a whole core is sound.
ghost use Rattle.std.specs.Prelude.{◌≡◌, ◌↔◌, true, false};
ghost use Rattle.std.specs.List.{list_all};
ghost use Rattle.opl_expr.specs.Solutions.{goal_term};
ghost use Rattle.opl_trace.specs.Marks.{section};
ghost use Rattle.opl_trace.specs.SoundCores.{IsSoundCore};
ghost use Rattle.opl_sound.specs.Cores.{fits_set, fits_goal, fits_section, fits_core};

use crate::{measures, numbers, steps, variables};
use opl_expr::Core;

/// The most values of one declared set.
const MOST_VALUES: u128 = 1048576;

/// The greatest absolute value of an end of a declared set.
const GREATEST_END: u64 = 1 << 62;

/// Whether the ends of a declared set are small, with not too many values between them.
fn fits_set(ends: &(i64, i64)) -> bool
    ensures { result ≡ fits_set ends.now }
{
    let (lo, hi) = *ends;
    lo.unsigned_abs() <= GREATEST_END
        && (hi.unsigned_abs() <= GREATEST_END && variables::set_size(lo, hi) <= MOST_VALUES)
}

/// Whether it is so with each declared set.
fn fit_sets(sets: &[(i64, i64)]) -> bool
    ensures { result ≡ list_all fits_set sets.now }
{
    for ends in sets {
        if !fits_set(ends) {
            return false;
        }
    }
    true
}

/// Whether twice the magnitude of the objective isn't too great.
fn fits_goal(core: &Core) -> bool
    ensures { result ≡ fits_goal core.now.sets (goal_term core.now) }
{
    match &core.goal {
        None => true,
        Some(goal) => {
            let magnitude = measures::measure(core, false, &goal.value);
            numbers::is_there(numbers::added(magnitude, magnitude))
        }
    }
}

/// Whether the search section is sound, if there is one.
fn fits_section(core: &Core) -> bool
    ensures { result ≡ fits_section core.now.sets (section false core.now) }
{
    match &core.search {
        None => true,
        Some(section) => steps::fits_statement(core, section),
    }
}

/// The same as whether the core is sound, in the order in which it is found out.
pub fn fits_core(core: &Core) -> bool
    ensures { result ≡ fits_core core.now }
{
    core.sets.len() < 1 << 32
        && (fit_sets(core.sets.as_slice())
            && (measures::all_fit(core, false, core.cons.as_slice())
                && (fits_goal(core) && fits_section(core))))
}

/// Whether a core is sound: its declared sets are small, its expressions, constraints and statements name what is there, and
/// no magnitude in it is too great.
pub fn is_sound(core: &Core) -> bool
    ensures { result ≡ true ↔ IsSoundCore core.now }
{
    fits_core(core)
}
