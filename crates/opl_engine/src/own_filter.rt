//! Filters of their own that some kinds of constraints have.
ghost use Rattle.std.specs.Prelude.{◌≡◌, ℕ, ◌<◌, ◌≤◌, ◌^◌, length, IfOk};
ghost use Rattle.opl_domain.specs.Family.{Below};
ghost use Rattle.opl_expr.specs.declared.model.Core.{Core};
ghost use Rattle.opl_expr.specs.Forms.{Fact, fact};
ghost use Rattle.opl_expr.specs.Solutions.{declared};
ghost use Rattle.opl_expr.specs.Sound.{IsSoundFact};
ghost use Rattle.opl_filter.specs.Filtering.{refutes, IsBetween, Filters};
ghost use Rattle.opl_notes.specs.Noted.{Knows, Tells};
ghost use Rattle.opl_engine.specs.OwnFilters.{means_own, GivesOwnPlaces, IsMadeWith, IsOwnFilter, IsOwnFilterIfAny, IsThereForAddends, IsThereForConnectives, IsThereForCounts, IsThereForDisjunctions, IsThereForDifferences, IsThereForKinds, sees_ends};

use opl_addends::AddendsFilter;
use opl_all_different::DifferentFilter;
use opl_connective::ConnectiveFilter;
use opl_count::CountFilter;
use opl_domain::{Narrow, OutOfMemory};
use opl_expr::{Cons, Core};
use opl_filter::Outcome;
use opl_linear_filter::LinearFilter;
use opl_notes::Notes;
use opl_reify::ReifyFilter;
use std::alloc::Global;

/// The filter of its own that a constraint has. A kind of filter is one more variant, with its arms in `new`, `sees_ends`,
/// `take_places` and `filter`, and in the definitions of what it is made with, of which constraint it is the filter, what it takes notes to mean,
/// and whether ends decide it.
#[derive(Drop)]
pub enum OwnFilter {
    /// That of a comparison of linear sides.
    Linear(LinearFilter),
    /// That of `alldifferent` over linear parts with at most one variable each, no two of them the same.
    Different(DifferentFilter),
    /// That of a disjunction whose parts compare linear sides.
    Reify(ReifyFilter),
    /// That of connectives inside one another over comparisons of linear sides.
    Connective(ConnectiveFilter),
    /// That of a comparison of counting sums.
    Count(CountFilter),
    /// That of any other comparison no two addends of which have the same variable with a factor.
    Addends(AddendsFilter),
}

/// The filter of a comparison with a side that isn't linear, if no variable has a factor in two of its addends.
fn of_addends(alloc: Global, core: &Core, c: &Cons) -> Result<Option<OwnFilter>, OutOfMemory>
    requires sound { IsSoundFact core.now.sets (fact core.now.tables core.now.resources c.now) }
    requires few { length core.now.sets < 2 ^ 32 }
    ensures filter { IfOk result (IsOwnFilterIfAny core.now (fact core.now.tables core.now.resources c.now)) }
    ensures kinds { IfOk result (IsThereForAddends core.now c.now) }
{
    match AddendsFilter::new(alloc, core, c)? {
        None => Ok(None),
        Some(filter) => Ok(Some(OwnFilter::Addends(filter))),
    }
}

/// The filter of a comparison of counting sums, or that of addends of any form, if the constraint is one of these.
fn of_counts(alloc: Global, core: &Core, c: &Cons) -> Result<Option<OwnFilter>, OutOfMemory>
    requires sound { IsSoundFact core.now.sets (fact core.now.tables core.now.resources c.now) }
    requires few { length core.now.sets < 2 ^ 32 }
    ensures filter { IfOk result (IsOwnFilterIfAny core.now (fact core.now.tables core.now.resources c.now)) }
    ensures kinds { IfOk result (IsThereForCounts core.now c.now) }
{
    match CountFilter::new(alloc, core, c)? {
        None => of_addends(alloc, core, c),
        Some(filter) => Ok(Some(OwnFilter::Count(filter))),
    }
}

/// The filter of connectives inside one another, or that of a comparison whose sides aren't linear, if the constraint is one of these.
fn of_connectives(alloc: Global, core: &Core, c: &Cons) -> Result<Option<OwnFilter>, OutOfMemory>
    requires sound { IsSoundFact core.now.sets (fact core.now.tables core.now.resources c.now) }
    requires few { length core.now.sets < 2 ^ 32 }
    ensures filter { IfOk result (IsOwnFilterIfAny core.now (fact core.now.tables core.now.resources c.now)) }
    ensures kinds { IfOk result (IsThereForConnectives core.now c.now) }
{
    match ConnectiveFilter::new(alloc, core, c)? {
        None => of_counts(alloc, core, c),
        Some(filter) => Ok(Some(OwnFilter::Connective(filter))),
    }
}

/// The filter of a disjunction, or that of other connectives or of a comparison whose sides aren't linear, if the constraint is one of
/// these.
fn of_disjunction(alloc: Global, core: &Core, c: &Cons) -> Result<Option<OwnFilter>, OutOfMemory>
    requires sound { IsSoundFact core.now.sets (fact core.now.tables core.now.resources c.now) }
    requires few { length core.now.sets < 2 ^ 32 }
    ensures filter { IfOk result (IsOwnFilterIfAny core.now (fact core.now.tables core.now.resources c.now)) }
    ensures kinds { IfOk result (IsThereForDisjunctions core.now c.now) }
{
    match ReifyFilter::new(alloc, core, c)? {
        None => of_connectives(alloc, core, c),
        Some(filter) => Ok(Some(OwnFilter::Reify(filter))),
    }
}

/// The filter of `alldifferent` over parts of one variable each, or that of connectives or of a comparison whose sides aren't linear, if
/// the constraint is one of these.
fn of_difference(alloc: Global, core: &Core, c: &Cons) -> Result<Option<OwnFilter>, OutOfMemory>
    requires sound { IsSoundFact core.now.sets (fact core.now.tables core.now.resources c.now) }
    requires few { length core.now.sets < 2 ^ 32 }
    ensures filter { IfOk result (IsOwnFilterIfAny core.now (fact core.now.tables core.now.resources c.now)) }
    ensures kinds { IfOk result (IsThereForDifferences core.now c.now) }
{
    match DifferentFilter::new(alloc, core, c)? {
        None => of_disjunction(alloc, core, c),
        Some(filter) => Ok(Some(OwnFilter::Different(filter))),
    }
}

impl OwnFilter {
    /// The filter of a constraint, if its kind has one.
    pub fn new(alloc: Global, core: &Core, c: &Cons) -> Result<Option<OwnFilter>, OutOfMemory>
        requires sound { IsSoundFact core.now.sets (fact core.now.tables core.now.resources c.now) }
        requires few { length core.now.sets < 2 ^ 32 }
        ensures filter { IfOk result (IsOwnFilterIfAny core.now (fact core.now.tables core.now.resources c.now)) }
        ensures kinds { IfOk result (IsThereForKinds core.now c.now) }
    {
        match LinearFilter::new(alloc, core, c)? {
            None => of_difference(alloc, core, c),
            Some(filter) => Ok(Some(OwnFilter::Linear(filter))),
        }
    }

    /// Whether it has anything to remove only after a set has lost its least or greatest value.
    pub fn sees_ends(&self) -> bool
        ensures { result ≡ sees_ends self.now }
    {
        match self {
            OwnFilter::Linear(filter) => filter.sees_ends(),
            OwnFilter::Different(_filter) => true,
            OwnFilter::Reify(filter) => filter.sees_ends(),
            OwnFilter::Connective(filter) => filter.sees_ends(),
            OwnFilter::Count(_filter) => false, // Its truths may be decided by values.
            OwnFilter::Addends(_filter) => false, // So may its addends.
        }
    }

    /// Gives it the places of notes that it wants, from `first` on as far as there are any before `end`, and tells the first place
    /// behind them.
    pub fn take_places(&mut self, first: u32, end: u32) -> u32
        requires { first ≤ end }
        ensures places { GivesOwnPlaces self.old self.new first result }
        ensures within { result ≤ end }
    {
        match self {
            OwnFilter::Linear(_filter) => first,
            OwnFilter::Different(_filter) => first,
            OwnFilter::Reify(_filter) => first,
            OwnFilter::Connective(_filter) => first,
            OwnFilter::Count(filter) => filter.take_places(first, end),
            OwnFilter::Addends(_filter) => first,
        }
    }

    /// Removes values that the constraint refutes alone at that moment, until the family is stable for it, or until none within
    /// is. All values must be declared, and the notes right; they are right afterwards. It takes no memory. The filter stays that of the
    /// same constraints.
    pub fn filter<N: Narrow>(&mut self, core: &Core, notes: &mut Notes, n: &mut N) -> Outcome
        requires made { IsMadeWith core.now self.old }
        requires declared { Below (N.family n.old) (declared core.now) }
        requires knows { Knows (means_own core.now self.old) notes.old.top (N.family n.old) }
        ensures between { (c : Fact) → IsOwnFilter core.now c self.old → IsBetween (refutes c) (N.family n.old) (N.family n.new) }
        ensures outcome { (c : Fact) → IsOwnFilter core.now c self.old → Filters (refutes c) (N.family n.old) (N.family n.new) result }
        ensures leads_to { N.leads_to n.old n.new }
        ensures tells { (c : Fact) → IsOwnFilter core.now c self.old → Tells (means_own core.now self.old) notes.old (N.family n.old) notes.new (N.family n.new) }
        ensures means { (d : Core) (facts : ℕ → Fact) (places : ℕ) → means_own d self.old facts places → means_own d self.new facts places }
        ensures made { (d : Core) → IsMadeWith d self.old → IsMadeWith d self.new }
        ensures constraint { (d : Core) (c : Fact) → IsOwnFilter d c self.old → IsOwnFilter d c self.new }
        ensures ends { sees_ends self.new ≡ sees_ends self.old }
    {
        match self {
            OwnFilter::Linear(filter) => filter.filter(core, n),
            OwnFilter::Different(filter) => filter.filter(core, n),
            OwnFilter::Reify(filter) => filter.filter(core, n),
            OwnFilter::Connective(filter) => filter.filter(core, n),
            OwnFilter::Count(filter) => filter.filter(core, notes, n),
            OwnFilter::Addends(filter) => filter.filter(core, n),
        }
    }
}
