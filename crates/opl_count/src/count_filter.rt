//! The filter of a comparison of counting sums.
ghost use Rattle.std.specs.Prelude.{◌≡◌, ◌≤◌, cond, IfOk};
ghost use Rattle.opl_domain.specs.Family.{Below};
ghost use Rattle.opl_expr.specs.Forms.{Fact, fact, compared};
ghost use Rattle.opl_expr.specs.Solutions.{declared};
ghost use Rattle.opl_expr.specs.Sound.{IsSoundFact};
ghost use Rattle.opl_filter.specs.Filtering.{refutes, IsBetween, Filters};
ghost use Rattle.opl_range.specs.Between.{term_of, is_pure_between, CanCompare};
ghost use Rattle.opl_notes.specs.Noted.{Knows, Tells};
ghost use Rattle.opl_count.specs.Places.{means_counts, GivesPlaces};
ghost use Rattle.opl_count.specs.CountFilters.{IsSumIfAny, IsNothing, IsMadeIfAny, IsMadeBothIfAny, IsMadeForSides, IsMadeOfCounts, IsCountFor, IsCountIfAny, IsThereFor};

use crate::filtering::filter_counts;
use crate::places::take_places;
use crate::reading::read;
use crate::sum::{Costs, Sum};
use crate::ties::ties;
use opl_domain::{Narrow, OutOfMemory, View};
use opl_expr::{Cons, Core, Expr, Op};
use opl_filter::Outcome;
use opl_list::Seq;
use opl_notes::Notes;
use opl_range::is_linear;
use std::alloc::Global;

/// Two sums of costs that are both to stay within their room.
#[derive(Drop)]
pub struct CountFilter {
    first: Sum,
    second: Sum,
}

/// Whether two sides are linear.
fn are_linear(core: &Core, a: &Expr, b: &Expr) -> bool
    ensures { result ≡ is_pure_between core.now a.now b.now }
{
    if !is_linear(core, a) {
        return false;
    }
    is_linear(core, b)
}

/// What is paid anyway where a difference is to be below 0, and not at most 0.
fn start(is_strict: bool) -> u128
    ensures { result ≡ cond is_strict 1 0 }
{
    if is_strict { 1 } else { 0 }
}

/// The costs of `a` less `b`, which is to be at most 0, or below 0; none where one doesn't count truths.
fn sum_of(
    alloc: Global,
    core: &Core,
    a: &Expr,
    b: &Expr,
    is_strict: bool,
) -> Result<Option<Sum>, OutOfMemory>
    requires { CanCompare core.now a.now b.now }
    ensures { IfOk result (IsSumIfAny core.now a.now b.now is_strict) }
{
    let mut costs = Costs {
        literals: Seq::new(alloc),
        paid: start(is_strict),
        room: 0,
    };
    if !read(alloc, core, a, false, &mut costs)? {
        return Ok(None);
    }
    if !read(alloc, core, b, true, &mut costs)? {
        return Ok(None);
    }
    let ties = ties(alloc, costs.literals.as_slice())?;
    Ok(Some(Sum {
        costs,
        ties,
        first_place: None,
    }))
}

/// No costs, which are never too great.
fn nothing(alloc: Global) -> Sum
    ensures { IsNothing result }
{
    Sum {
        costs: Costs {
            literals: Seq::new(alloc),
            paid: 0,
            room: 0,
        },
        ties: Seq::new(alloc),
        first_place: None,
    }
}

/// The filter of one sum.
fn of_one(
    alloc: Global,
    core: &Core,
    a: &Expr,
    b: &Expr,
    is_strict: bool,
) -> Result<Option<CountFilter>, OutOfMemory>
    requires { CanCompare core.now a.now b.now }
    ensures { IfOk result (IsMadeIfAny core.now a.now b.now is_strict) }
{
    match sum_of(alloc, core, a, b, is_strict)? {
        None => Ok(None),
        Some(first) => Ok(Some(CountFilter {
            first,
            second: nothing(alloc),
        })),
    }
}

/// The filter of a sum and of its opposite.
fn of_both(
    alloc: Global,
    core: &Core,
    a: &Expr,
    b: &Expr,
) -> Result<Option<CountFilter>, OutOfMemory>
    requires { CanCompare core.now a.now b.now }
    ensures { IfOk result (IsMadeBothIfAny core.now a.now b.now) }
{
    match sum_of(alloc, core, a, b, false)? {
        None => Ok(None),
        Some(first) => match sum_of(alloc, core, b, a, false)? {
            None => Ok(None),
            Some(second) => Ok(Some(CountFilter { first, second })),
        },
    }
}

/// The filter of a comparison, if its sides count truths. It is none for `<>`.
fn of_comparison(
    alloc: Global,
    core: &Core,
    op: Op,
    a: &Expr,
    b: &Expr,
) -> Result<Option<CountFilter>, OutOfMemory>
    requires { IsSoundFact core.now.sets (compared op (term_of core.now a.now) (term_of core.now b.now)) }
    ensures { IfOk result (IsMadeForSides core.now op a.now b.now) }
{
    if are_linear(core, a, b) {
        return Ok(None);
    }
    match op {
        Op::Eq => of_both(alloc, core, a, b),
        Op::Ne => Ok(None),
        Op::Lt => of_one(alloc, core, a, b, true),
        Op::Le => of_one(alloc, core, a, b, false),
        Op::Gt => of_one(alloc, core, b, a, true),
        Op::Ge => of_one(alloc, core, b, a, false),
    }
}

impl CountFilter {
    /// The filter of a constraint, exactly where that is a comparison other than `<>` of sides that count truths: built, by sums and
    /// opposites, of numbers, of truths of comparisons of linear sides or of opposites of such, and of multiples of such truths by
    /// numbers. At least one truth must stand in them.
    pub fn new(alloc: Global, core: &Core, c: &Cons) -> Result<Option<CountFilter>, OutOfMemory>
        requires { IsSoundFact core.now.sets (fact core.now.tables core.now.resources c.now) }
        ensures filter { IfOk result (IsCountIfAny core.now (fact core.now.tables core.now.resources c.now)) }
        ensures kind { IfOk result (IsThereFor core.now c.now) }
    {
        match c {
            Cons::Fixed(_b) => Ok(None),
            Cons::Cmp(op, a, b) => of_comparison(alloc, core, *op, a.get(), b.get()),
            Cons::And(_parts) => Ok(None),
            Cons::Or(_parts) => Ok(None),
            Cons::Imp(_a, _b) => Ok(None),
            Cons::Iff(_a, _b) => Ok(None),
            Cons::Not(_a) => Ok(None),
            Cons::AllDifferent(_parts) => Ok(None),
            Cons::Capacity(_resource, _time) => Ok(None),
            Cons::Bound(_x) => Ok(None),
        }
    }

    /// Gives each literal a place of notes, from `first` on, and tells the first place behind them. Where not all those of a sum are
    /// before `end`, its literals get none.
    pub fn take_places(&mut self, first: u32, end: u32) -> u32
        requires { first ≤ end }
        ensures places { GivesPlaces self.old self.new first result }
        ensures within { result ≤ end }
    {
        let behind = take_places(&mut self.first, first, end);
        take_places(&mut self.second, behind, end)
    }

    /// Removes values that the constraint refutes alone at that moment, until the family is stable for it, or until none within
    /// is. All values must be declared, and the notes right; they are right afterwards. It takes no memory.
    pub fn filter<N: Narrow>(&self, core: &Core, notes: &mut Notes, n: &mut N) -> Outcome
        requires made { IsMadeOfCounts core.now self.now }
        requires declared { Below (N.family n.old) (declared core.now) }
        requires knows { Knows (means_counts core.now self.now) notes.old.top (N.family n.old) }
        ensures between { (c : Fact) → IsCountFor core.now c self.now → IsBetween (refutes c) (N.family n.old) (N.family n.new) }
        ensures outcome { (c : Fact) → IsCountFor core.now c self.now → Filters (refutes c) (N.family n.old) (N.family n.new) result }
        ensures leads_to { N.leads_to n.old n.new }
        ensures tells { Tells (means_counts core.now self.now) notes.old (N.family n.old) notes.new (N.family n.new) }
    {
        // No set is empty: a view says so with its number of variables.
        let _vars = n.vars();
        filter_counts(core, &self.first, &self.second, notes, n)
    }
}
