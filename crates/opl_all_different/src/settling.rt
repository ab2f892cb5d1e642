//! The values of all parts that have one are taken from the others, one part at its turn.
ghost use Rattle.std.specs.Prelude.{◌≡◌, ℕ, ◌<◌, false, length};
ghost use Rattle.opl_domain.specs.Family.{IsFamily};
ghost use Rattle.opl_filter.specs.Filtering.{IsBetween, Filters};
ghost use Rattle.opl_all_different.specs.Parts.{AreSeparate, AreFitting, clashes};
ghost use Rattle.opl_all_different.specs.Spreading.{is_done, IsNextSingle};

use crate::part::Part;
use crate::single::is_single;
use crate::spreading::spread;
use opl_domain::{Narrow, View};
use opl_filter::Outcome;

/// The first part that has one value, and isn't done.
fn next_single<V: View>(parts: &[Part], done: &[bool], view: &V) -> Option<usize>
    requires separate { AreSeparate (length (V.family view.now)) parts.now }
    requires same { length done.now ≡ length parts.now }
    ensures { IsNextSingle (V.family view.now) parts.now done.now result }
{
    for i in 0..parts.len() {
        if !done[i] && is_single(&parts[i], view) {
            return Some(i);
        }
    }
    None
}

/// Takes, at its turn, the value of each part that has one from all others, until no part is left whose value hasn't gone from
/// them, or until two have the same. In `done` nothing may be marked; what it has afterwards says nothing.
pub fn settle<N: Narrow>(parts: &[Part], done: &mut [bool], n: &mut N) -> Outcome
    requires separate { AreSeparate (length (N.family n.old)) parts.now }
    requires fits { AreFitting (N.family n.old) parts.now }
    requires same { length done.old ≡ length parts.now }
    requires none { (i : ℕ) → is_done done.old i ≡ false }
    ensures between { IsBetween (clashes parts.now) (N.family n.old) (N.family n.new) }
    ensures outcome { Filters (clashes parts.now) (N.family n.old) (N.family n.new) result }
    ensures leads_to { N.leads_to n.old n.new }
    ensures same { length done.new ≡ length done.old }
{
    // No set is empty: a view says so with its number of variables.
    let _vars = n.vars();
    loop {
        match next_single(parts, &*done, &*n) {
            None => return Outcome::Stable,
            Some(i) => {
                if !spread(parts, i, n) {
                    return Outcome::Failed;
                }
                done[i] = true;
            }
        }
    }
}
