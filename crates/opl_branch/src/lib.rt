//! What a search decides by: the next variable without a value, the better of two values, the first of two lists.
#![tactic(auto)]

ghost use Rattle.std.specs.Prelude.{◌≡◌, ◌<◌, ◌^◌, length, Some};
ghost use Rattle.opl_expr.specs.Forms.{Term};
ghost use Rattle.opl_trace.specs.Answers.{is_single};
ghost use Rattle.opl_trace.specs.Objective.{is_better};
ghost use Rattle.opl_branch.specs.Firsts.{IsFirstOpen, AreAmong, IsFirstChoice, IsNextChoice, is_before};

use opl_domain::View;
use opl_expr::Goal;

/// Whether the set of `x` has one value.
fn is_single<V: View>(v: &V, x: u32) -> bool
    ensures { result ≡ is_single (V.family v.now) x }
{
    if x >= v.vars() {
        return false;
    }
    v.size(x) == 1
}

/// The place in the list of the first variable whose set has not one value; None exactly where all have one. It takes no memory.
pub fn first_unbound<V: View>(list: &[u32], v: &V) -> Option<u32>
    requires { length list.now < 2 ^ 32 }
    ensures { IsFirstOpen (V.family v.now) list.now result }
{
    for place in 0..list.len() {
        if !is_single(v, list[place]) {
            return Some(place as u32);
        }
    }
    None
}

/// The first choice of labelling: the first variable of the list whose set has not one value, with the least of its values; None
/// exactly where all have one. It takes no memory.
pub fn first_choice<V: View>(list: &[u32], v: &V) -> Option<(u32, i64)>
    requires few { length list.now < 2 ^ 32 }
    requires among { AreAmong (V.family v.now) list.now }
    ensures { IsFirstChoice (V.family v.now) list.now result }
{
    let place = first_unbound(list, v)?;
    let x = list[place as usize];
    Some((x, v.min(x)))
}

/// The choice behind another one of the same variable: its next value; None exactly where no value is left. It takes no memory.
pub fn next_choice<V: View>(choice: (u32, i64), v: &V) -> Option<(u32, i64)>
    requires { choice.0 < length (V.family v.now) }
    ensures { IsNextChoice (V.family v.now) choice result }
{
    let (x, value) = choice;
    let next = v.next(x, value)?;
    Some((x, next))
}

/// Whether a value of the objective is better than the best so far; than none each value is.
pub fn better(goal: &Goal, value: i128, best: Option<i128>) -> bool
    ensures { (t : Term) → result ≡ is_better (record { is_most = goal.now.maximize; term = t }) (Some value) best }
{
    match best {
        None => true,
        Some(best) => {
            if goal.maximize {
                best < value
            } else {
                value < best
            }
        }
    }
}

/// Whether the first of two lists of equal length comes before the second: at the first place where they differ its number is
/// less.
pub fn before(a: &[i64], b: &[i64]) -> bool
    requires { length a.now ≡ length b.now }
    ensures { result ≡ is_before a.now b.now }
{
    for place in 0..a.len() {
        if a[place] != b[place] {
            return a[place] < b[place];
        }
    }
    false
}
