//! Places of notes for the literals of sums.
ghost use Rattle.std.specs.Prelude.{◌≤◌};
ghost use Rattle.opl_count.specs.Places.{GivesPlacesTo};

use crate::sum::Sum;

/// Gives each literal a place of notes, one behind another, from `first` on, and tells the first place behind them. Where not all of
/// them are before `end`, the literals get none.
pub fn take_places(sum: &mut Sum, first: u32, end: u32) -> u32
    requires { first ≤ end }
    ensures places { GivesPlacesTo sum.old sum.new first result }
    ensures within { result ≤ end }
{
    let literals = sum.costs.literals.len();
    if literals > (end - first) as usize {
        sum.first_place = None;
        return first;
    }
    sum.first_place = Some(first);
    first + literals as u32
}
