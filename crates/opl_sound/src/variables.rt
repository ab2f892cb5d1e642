//! Magnitudes of variables, of questions on their sets, and of uses of resources.
ghost use Rattle.std.specs.Prelude.{◌≡◌, ◌<◌, max, length, nat_lt, true, []};
ghost use Rattle.opl_domain.specs.Span.{span_size};
ghost use Rattle.opl_expr.specs.declared.forms.Ask.TheVariants.{Size};
ghost use Rattle.opl_expr.specs.Sound.{set_magnitude, var_magnitude};
ghost use Rattle.opl_sound.specs.Measures.{measure_variable, measure_use, measure_uses, fits_capacity, measure_question};

use crate::numbers;
use opl_expr::{Core, Resource, Use};

/// The greatest absolute value of the numbers between two ends, and at least 1.
fn set_magnitude(lo: i64, hi: i64) -> u128
    ensures { result ≡ set_magnitude [] (lo, hi) }
{
    if lo > hi {
        return 1;
    }
    let low = lo.unsigned_abs();
    let high = hi.unsigned_abs();
    let magnitude = if low < high { high } else { low };
    if magnitude < 1 { 1 } else { magnitude as u128 }
}

/// How many numbers are between two ends, and at least 1.
pub fn set_size(lo: i64, hi: i64) -> u128
    ensures { result ≡ max 1 (span_size (record { low = lo; high = hi })) }
{
    if lo > hi {
        return 1;
    }
    (hi as i128 - lo as i128 + 1) as u128
}

/// The magnitude of a variable; none where there is no such variable.
pub fn variable(core: &Core, x: u32) -> Option<u128>
    ensures { result ≡ measure_variable core.now.sets x }
{
    let (lo, hi) = *core.sets.get(x as usize)?;
    numbers::small(set_magnitude(lo, hi))
}

/// The magnitude of a variable; that of 0 where there is no such variable.
pub fn variable_or_zero(core: &Core, x: u32) -> u128
    ensures { result ≡ var_magnitude core.now.sets x }
{
    let sets = core.sets.as_slice();
    let x = x as usize;
    if x < sets.len() {
        let (lo, hi) = sets[x];
        set_magnitude(lo, hi)
    } else {
        1
    }
}

/// The number of values of a variable, and at least 1; none where there is no such variable.
pub fn size(core: &Core, x: u32) -> Option<u128>
    ensures { result ≡ measure_question core.now.sets true Size x }
{
    let (lo, hi) = *core.sets.get(x as usize)?;
    numbers::small(set_size(lo, hi))
}

/// Whether there is such a variable.
pub fn is_variable(core: &Core, x: u32) -> bool
    ensures { result ≡ nat_lt x (length core.now.sets) }
{
    (x as usize) < core.sets.len()
}

/// What a use demands at a time of this absolute value.
fn measure_use(core: &Core, u: &Use, time: u128) -> Option<u128>
    ensures { result ≡ measure_use core.now.sets time u.now }
{
    let start = variable(core, u.start);
    let time = numbers::small(time);
    let end = numbers::added(start, numbers::added(variable(core, u.duration), Some(0)));
    let begins = numbers::is_there(numbers::added(start, time));
    let ends = numbers::is_there(numbers::added(time, end));
    numbers::multiplied(
        numbers::small(u.demand.unsigned_abs()),
        numbers::one_if(begins && ends),
    )
}

/// What uses demand together at a time of this absolute value.
fn measure_uses(core: &Core, uses: &[Use], time: u128) -> Option<u128>
    ensures { result ≡ measure_uses core.now.sets time uses.now }
{
    let mut found = Some(0);
    let mut left = uses.len();
    while left > 0 {
        left -= 1;
        found = numbers::added(measure_use(core, &uses[left], time), found);
    }
    found
}

/// Whether the demands on a resource, at a time of this absolute value, can be compared with its capacity.
pub fn fits_capacity(core: &Core, resource: &Resource, time: u128) -> bool
    ensures { result ≡ fits_capacity core.now.sets time resource.now }
{
    let demands = measure_uses(core, resource.uses.as_slice(), time);
    numbers::is_there(numbers::added(demands, numbers::small(resource.capacity.unsigned_abs())))
}
