//! The filter of a comparison of sums whose addends are of any form.
ghost use Rattle.std.specs.Prelude.{◌≡◌, ◌<◌, ◌^◌, false, length, IfOk};
ghost use Rattle.opl_domain.specs.Family.{Below};
ghost use Rattle.opl_expr.specs.declared.forms.Cons.TheVariants as constraint;
ghost use Rattle.opl_expr.specs.Forms.{Fact, fact, compared};
ghost use Rattle.opl_expr.specs.Solutions.{declared};
ghost use Rattle.opl_expr.specs.Sound.{IsSoundFact};
ghost use Rattle.opl_filter.specs.Filtering.{refutes, IsBetween, Filters};
ghost use Rattle.opl_range.specs.Between.{term_of, is_pure_between};
ghost use Rattle.opl_addends.specs.Demands.{demand_of};
ghost use Rattle.opl_addends.specs.AddendsFilters.{HasAddends, IsMadeOfAddends, IsMadeForSides, IsAddendsFor, IsAddendsIfAny, IsThereFor};

use crate::apart::are_apart;
use crate::making::{addends_between, mentions};
use crate::rounds::filter_sum;
use crate::sum::{Addend, Demand, Sum};
use opl_domain::{Narrow, OutOfMemory, View};
use opl_expr::{Cons, Core, Expr, Op};
use opl_filter::{Outcome, variables_of};
use opl_list::Seq;
use opl_range::is_linear;
use std::alloc::Global;

/// What the sum of the addends of a comparison is to be.
#[derive(Drop)]
pub struct AddendsFilter {
    sum: Sum,
}

/// Whether two sides are linear.
fn are_linear(core: &Core, a: &Expr, b: &Expr) -> bool
    ensures { result ≡ is_pure_between core.now a.now b.now }
{
    if !is_linear(core, a) {
        return false;
    }
    is_linear(core, b)
}

/// What a comparison demands of the sum of its addends.
fn demand(op: Op) -> Demand
    ensures { result ≡ demand_of op }
{
    match op {
        Op::Eq => Demand::Zero,
        Op::Ne => Demand::Different,
        Op::Lt => Demand::Below,
        Op::Le => Demand::AtMost,
        Op::Gt => Demand::Below,
        Op::Ge => Demand::AtMost,
    }
}

/// The addends of a comparison.
fn addends_of(
    alloc: Global,
    core: &Core,
    op: Op,
    a: &Expr,
    b: &Expr,
) -> Result<Seq<Addend>, OutOfMemory>
    ensures { IfOk result (HasAddends core.now op a.now b.now) }
{
    match op {
        Op::Eq => addends_between(alloc, core, a, b),
        Op::Ne => addends_between(alloc, core, a, b),
        Op::Lt => addends_between(alloc, core, a, b),
        Op::Le => addends_between(alloc, core, a, b),
        Op::Gt => addends_between(alloc, core, b, a),
        Op::Ge => addends_between(alloc, core, b, a),
    }
}

/// The sum of a comparison a side of which isn't linear, if no variable has a factor in two of its addends.
fn sum_of(
    alloc: Global,
    core: &Core,
    c: &Cons,
    op: Op,
    a: &Expr,
    b: &Expr,
) -> Result<Option<Sum>, OutOfMemory>
    requires is { c.now ≡ constraint.Cmp op a.now b.now }
    requires sound { IsSoundFact core.now.sets (compared op (term_of core.now a.now) (term_of core.now b.now)) }
    requires few { length core.now.sets < 2 ^ 32 }
    requires mixed { is_pure_between core.now a.now b.now ≡ false }
    ensures { IfOk result (IsMadeForSides core.now op a.now b.now) }
{
    let addends = addends_of(alloc, core, op, a, b)?;
    let variables = variables_of(alloc, core, c)?;
    let found = mentions(alloc, core, addends.as_slice(), variables.as_slice())?;
    if !are_apart(core, &addends, found.as_slice()) {
        return Ok(None);
    }
    Ok(Some(Sum {
        demand: demand(op),
        addends,
        mentions: found,
    }))
}

/// The filter of a comparison, if a side isn't linear and no variable has a factor in two of its addends.
fn of_comparison(
    alloc: Global,
    core: &Core,
    c: &Cons,
    op: Op,
    a: &Expr,
    b: &Expr,
) -> Result<Option<Sum>, OutOfMemory>
    requires is { c.now ≡ constraint.Cmp op a.now b.now }
    requires sound { IsSoundFact core.now.sets (compared op (term_of core.now a.now) (term_of core.now b.now)) }
    requires few { length core.now.sets < 2 ^ 32 }
    ensures { IfOk result (IsMadeForSides core.now op a.now b.now) }
{
    if are_linear(core, a, b) {
        return Ok(None);
    }
    sum_of(alloc, core, c, op, a, b)
}

impl AddendsFilter {
    /// The filter of a constraint, exactly where that is a comparison with a side that isn't linear, whose sides are built, by
    /// sums and opposites, of addends of which no two have the same variable with a factor. There must be fewer than 2^32 variables.
    pub fn new(alloc: Global, core: &Core, c: &Cons) -> Result<Option<AddendsFilter>, OutOfMemory>
        requires sound { IsSoundFact core.now.sets (fact core.now.tables core.now.resources c.now) }
        requires few { length core.now.sets < 2 ^ 32 }
        ensures filter { IfOk result (IsAddendsIfAny core.now (fact core.now.tables core.now.resources c.now)) }
        ensures kind { IfOk result (IsThereFor core.now c.now) }
    {
        let Cons::Cmp(op, a, b) = c else {
            return Ok(None);
        };
        match of_comparison(alloc, core, c, *op, a.get(), b.get())? {
            None => Ok(None),
            Some(sum) => Ok(Some(AddendsFilter { sum })),
        }
    }

    /// Removes values that the constraint refutes alone at that moment, until the family is stable for it, or until none within
    /// is. All values must be declared. It takes no memory.
    pub fn filter<N: Narrow>(&self, core: &Core, n: &mut N) -> Outcome
        requires made { IsMadeOfAddends core.now self.now }
        requires declared { Below (N.family n.old) (declared core.now) }
        ensures between { (c : Fact) → IsAddendsFor core.now c self.now → IsBetween (refutes c) (N.family n.old) (N.family n.new) }
        ensures outcome { (c : Fact) → IsAddendsFor core.now c self.now → Filters (refutes c) (N.family n.old) (N.family n.new) result }
        ensures leads_to { N.leads_to n.old n.new }
    {
        // No set is empty: a view says so with its number of variables.
        let _vars = n.vars();
        filter_sum(core, &self.sum, n)
    }
}
