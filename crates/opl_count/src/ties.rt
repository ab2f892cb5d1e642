//! How literals hang together, by their variables.
ghost use Rattle.std.specs.Prelude.{◌<◌, ◌^◌, length, IfOk};
ghost use Rattle.opl_count.specs.Costs.{weights};
ghost use Rattle.opl_count.specs.Sums.{IsTie, AreTies};
ghost use Rattle.opl_count.specs.Ties.{Shares, Hangs, IsAloneIf, SharesWeight, Reaches};

use crate::sum::{Literal, Tie};
use opl_domain::OutOfMemory;
use opl_list::Seq;
use std::alloc::Global;

/// Whether two lists have a variable in common.
fn shares(xs: &[u32], ys: &[u32]) -> bool
    ensures { Shares xs.now ys.now result }
{
    let mut left = xs.len();
    while left > 0 {
        left -= 1;
        if ys.contains(&xs[left]) {
            return true;
        }
    }
    false
}

/// Whether a literal has a variable of another one.
fn hangs(literals: &[Literal], at: usize, other: usize) -> bool
    requires at { at < length literals.now }
    requires other { other < length literals.now }
    ensures { Hangs literals.now at other result }
{
    if other == at {
        return false;
    }
    shares(
        literals[at].part.variables.as_slice(),
        literals[other].part.variables.as_slice(),
    )
}

/// Whether no other literal has a variable of one.
fn is_alone(literals: &[Literal], at: usize) -> bool
    requires { at < length literals.now }
    ensures { IsAloneIf literals.now at result }
{
    let mut other = 0;
    while other < literals.len() {
        if hangs(literals, at, other) {
            return false;
        }
        other += 1;
    }
    true
}

/// The weight of a literal if it has a variable of another one, or of itself.
fn shared_weight(literals: &[Literal], at: usize, other: usize) -> u128
    requires at { at < length literals.now }
    requires other { other < length literals.now }
    ensures { SharesWeight literals.now at other result }
{
    let xs = literals[at].part.variables.as_slice();
    let ys = literals[other].part.variables.as_slice();
    if shares(xs, ys) {
        literals[other].weight
    } else {
        0
    }
}

/// The weights together of the literals that have a variable of one.
fn reach(literals: &[Literal], at: usize) -> u128
    requires there { at < length literals.now }
    requires fits { weights literals.now < 2 ^ 128 }
    ensures { Reaches literals.now at result }
{
    let mut total = 0;
    let mut left = literals.len();
    while left > 0 {
        left -= 1;
        total += shared_weight(literals, at, left);
    }
    total
}

/// The tie of a literal.
fn tie(literals: &[Literal], at: usize) -> Tie
    requires there { at < length literals.now }
    requires fits { weights literals.now < 2 ^ 128 }
    ensures { IsTie literals.now at result }
{
    if is_alone(literals, at) {
        return Tie {
            reach: literals[at].weight,
            is_alone: true,
        };
    }
    Tie {
        reach: reach(literals, at),
        is_alone: false,
    }
}

/// The ties of literals.
pub fn ties(alloc: Global, literals: &[Literal]) -> Result<Seq<Tie>, OutOfMemory>
    requires { weights literals.now < 2 ^ 128 }
    ensures { IfOk result (AreTies literals.now) }
{
    let mut ties = Seq::new(alloc);
    let mut at = 0;
    while at < literals.len() {
        ties.push(tie(literals, at))?;
        at += 1;
    }
    Ok(ties)
}
