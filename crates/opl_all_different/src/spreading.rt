//! Taking the value of one part from all others.
ghost use Rattle.std.specs.Prelude.{◌≡◌, ◌<◌, ◌≢◌, ◌+◌, unsigned_abs, true, length};
ghost use Rattle.opl_domain.specs.Family.{IsFamily};
ghost use Rattle.opl_expr.specs.Sound.{IsSmall};
ghost use Rattle.opl_all_different.specs.Parts.{part_at, AreSeparate, AreFitting, HasOnly};
ghost use Rattle.opl_all_different.specs.Singles.{Singles};
ghost use Rattle.opl_all_different.specs.Spreading.{TakesFrom, Spreads};

use crate::part::Part;
use crate::single::value;
use crate::taking::take;
use opl_domain::Narrow;

/// Takes the value `v` of part `i`, its only one, from part `j`, if that is another one. False comes where `j` has no other value.
fn take_from<N: Narrow>(parts: &[Part], i: usize, j: usize, v: i128, n: &mut N) -> bool
    requires sets { IsFamily (N.family n.old) }
    requires separate { AreSeparate (length (N.family n.old)) parts.now }
    requires first { i < length parts.now }
    requires second { j < length parts.now }
    requires single { HasOnly (N.family n.old) (part_at parts.now i) v }
    requires fits { j ≢ i → IsSmall (unsigned_abs (part_at parts.now j).constant + unsigned_abs v) }
    ensures takes { TakesFrom (N.family n.old) (N.family n.new) parts.now i j v result }
    ensures leads_to { N.leads_to n.old n.new }
{
    if j == i {
        return true;
    }
    take(&parts[j], v, n)
}

/// Takes the value of part `i`, its only one, from all other parts. False comes where one of them has no other value.
pub fn spread<N: Narrow>(parts: &[Part], i: usize, n: &mut N) -> bool
    requires sets { IsFamily (N.family n.old) }
    requires separate { AreSeparate (length (N.family n.old)) parts.now }
    requires fits { AreFitting (N.family n.old) parts.now }
    requires place { i < length parts.now }
    requires single { Singles (N.family n.old) (part_at parts.now i) true }
    ensures spreads { Spreads (N.family n.old) (N.family n.new) parts.now i result }
    ensures leads_to { N.leads_to n.old n.new }
{
    let v = value(&parts[i], &*n);
    for j in 0..parts.len() {
        if !take_from(parts, i, j, v, n) {
            return false;
        }
    }
    true
}
