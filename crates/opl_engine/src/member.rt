//! The members of an engine.
ghost use Rattle.std.specs.Prelude.{◌≡◌, ◌≤◌, ℕ, true, Some};
ghost use Rattle.opl_domain.specs.Family.{Below};
ghost use Rattle.opl_expr.specs.Forms.{Fact, fact};
ghost use Rattle.opl_expr.specs.Solutions.{declared};
ghost use Rattle.opl_filter.specs.Mentions.{lists};
ghost use Rattle.opl_filter.specs.Filtering.{refutes, IsBetween, Filters};
ghost use Rattle.opl_trace.specs.Marks.{objective};
ghost use Rattle.opl_trace.specs.Objective.{Objective};
ghost use Rattle.opl_notes.specs.Noted.{Knows, Tells};
ghost use Rattle.opl_engine.specs.OwnFilters.{IsOwnFilterIfAny, KeepsConstraints, sees_ends_if_any, means_if_any, GivesPlacesIfAny};
ghost use Rattle.opl_engine.specs.Members.{bound_fact, fact_of, means_member, names, sees_ends, wakes_on, wakes_by_ends, AreThere, IsListed, IsGoal, IsObjectiveFilterIfAny, IsMember};
ghost use Rattle.opl_engine.specs.Crowds.{IsSameMember, GivesMemberPlaces};

use crate::bound::keep_better;
use crate::own_filter::OwnFilter;
use opl_closure::{Propagator, keep_value};
use opl_domain::Narrow;
use opl_expr::{Cons, Core};
use opl_filter::{Outcome, sweep};
use opl_list::Seq;
use opl_notes::Notes;
use opl_objective_filter::ObjectiveFilter;
use std::rc::Rc;

/// A constraint that an engine filters, by where it comes from. Where its kind has a filter of its own, that stands beside it.
#[derive(Drop)]
pub enum Member {
    /// To be better than a best value, with the variables of the objective, and with its filter where it is linear. Without an
    /// objective, or a best value yet, it asks nothing.
    Bound(Option<i128>, Seq<u32>, Option<ObjectiveFilter>),
    /// A constraint of the core, by its place, with its variables, and with the filter of its own that it may have.
    Declared(u32, Seq<u32>, Option<OwnFilter>),
    /// A constraint that was posted, likewise.
    Posted(Rc<Cons>, Seq<u32>, Option<OwnFilter>),
    /// A variable has a value. After two cuts it is stable for good: it has no variables that wake it.
    Value(u32, i64),
}

impl Member {
    /// The variables that can wake it.
    fn variables(&self) -> &[u32]
        ensures { (x : ℕ) → lists result.now x ≡ names self.now x }
    {
        match self {
            Member::Bound(_best, variables, _form) => variables.as_slice(),
            Member::Declared(_place, variables, _form) => variables.as_slice(),
            Member::Posted(_constraint, variables, _form) => variables.as_slice(),
            Member::Value(_x, _v) => &[],
        }
    }

    /// Whether these wake it by the ends of their sets alone.
    fn sees_ends(&self) -> bool
        ensures { result ≡ sees_ends self.now }
    {
        match self {
            Member::Bound(_best, _variables, form) => form.is_some(),
            Member::Declared(_place, _variables, form) => filter_sees_ends(form),
            Member::Posted(_constraint, _variables, form) => filter_sees_ends(form),
            Member::Value(_x, _v) => false,
        }
    }

    /// The variables that wake it by each value that they lose.
    pub fn wakers(&self) -> &[u32]
        ensures { (x : ℕ) → lists result.now x ≡ wakes_on self.now x }
    {
        if self.sees_ends() {
            return &[];
        }
        self.variables()
    }

    /// The variables that wake it by the ends of their sets alone.
    pub fn end_wakers(&self) -> &[u32]
        ensures { (x : ℕ) → lists result.now x ≡ wakes_by_ends self.now x }
    {
        if self.sees_ends() {
            return self.variables();
        }
        &[]
    }

    /// Gives its filter the places of notes that it wants, from `first` on as far as there are any before `end`, and tells the first
    /// place behind them.
    pub fn take_places(&mut self, first: u32, end: u32) -> u32
        requires { first ≤ end }
        ensures places { GivesMemberPlaces self.old self.new first result }
        ensures within { result ≤ end }
    {
        match self {
            Member::Bound(_best, _variables, _form) => first,
            Member::Declared(_place, _variables, form) => filter_takes_places(form, first, end),
            Member::Posted(_constraint, _variables, form) => filter_takes_places(form, first, end),
            Member::Value(_x, _v) => first,
        }
    }
}

/// Gives a filter, if there is one, the places of notes that it wants, likewise.
fn filter_takes_places(form: &mut Option<OwnFilter>, first: u32, end: u32) -> u32
    requires { first ≤ end }
    ensures places { GivesPlacesIfAny form.old form.new first result }
    ensures within { result ≤ end }
{
    match form {
        None => first,
        Some(filter) => filter.take_places(first, end),
    }
}

/// Whether the ends of sets alone decide what a filter removes, if there is one.
fn filter_sees_ends(form: &Option<OwnFilter>) -> bool
    ensures { result ≡ sees_ends_if_any form.now }
{
    match form {
        None => false,
        Some(filter) => filter.sees_ends(),
    }
}

/// The filter of a constraint that always holds.
fn keep_all<N: Narrow>(n: &mut N) -> Outcome
    ensures between { IsBetween (refutes (Fact.fixed true)) (N.family n.old) (N.family n.new) }
    ensures outcome { Filters (refutes (Fact.fixed true)) (N.family n.old) (N.family n.new) result }
    ensures leads_to { N.leads_to n.old n.new }
{
    // No set is empty: a view says so with its number of variables.
    let _vars = n.vars();
    Outcome::Stable
}

/// The filter of the bound.
fn filter_bound<N: Narrow>(
    core: &Core,
    best: Option<i128>,
    variables: &[u32],
    form: &Option<ObjectiveFilter>,
    n: &mut N,
) -> Outcome
    requires there { AreThere core.now variables.now }
    requires goal { (g : Objective) → objective core.now ≡ Some g → IsGoal core.now g variables.now × IsObjectiveFilterIfAny core.now g form.now }
    requires declared { Below (N.family n.old) (declared core.now) }
    ensures between { IsBetween (refutes (bound_fact (objective core.now) best)) (N.family n.old) (N.family n.new) }
    ensures outcome { Filters (refutes (bound_fact (objective core.now) best)) (N.family n.old) (N.family n.new) result }
    ensures leads_to { N.leads_to n.old n.new }
{
    match best {
        None => keep_all(n),
        Some(best) => match &core.goal {
            None => keep_all(n),
            Some(goal) => keep_better(core, goal, best, variables, form, n),
        },
    }
}

/// The filter of a constraint: its own, if there is one, and else value by value.
fn filter_constraint<N: Narrow>(
    core: &Core,
    c: &Cons,
    variables: &[u32],
    form: &mut Option<OwnFilter>,
    notes: &mut Notes,
    n: &mut N,
) -> Outcome
    requires listed { IsListed core.now (fact core.now.tables core.now.resources c.now) variables.now }
    requires form { IsOwnFilterIfAny core.now (fact core.now.tables core.now.resources c.now) form.old }
    requires declared { Below (N.family n.old) (declared core.now) }
    requires knows { Knows (means_if_any core.now form.old) notes.old.top (N.family n.old) }
    ensures between { IsBetween (refutes (fact core.now.tables core.now.resources c.now)) (N.family n.old) (N.family n.new) }
    ensures outcome { Filters (refutes (fact core.now.tables core.now.resources c.now)) (N.family n.old) (N.family n.new) result }
    ensures leads_to { N.leads_to n.old n.new }
    ensures tells { Tells (means_if_any core.now form.old) notes.old (N.family n.old) notes.new (N.family n.new) }
    ensures form { KeepsConstraints form.old form.new }
{
    match form {
        None => sweep(core, c, variables, n),
        Some(filter) => filter.filter(core, notes, n),
    }
}

/// What a member's filter does.
fn filter_by<N: Narrow>(member: &mut Member, core: &Core, notes: &mut Notes, n: &mut N) -> Outcome
    requires made { IsMember core.now member.old }
    requires declared { Below (N.family n.old) (declared core.now) }
    requires knows { Knows (means_member core.now member.old) notes.old.top (N.family n.old) }
    ensures between { IsBetween (refutes (fact_of core.now member.old)) (N.family n.old) (N.family n.new) }
    ensures outcome { Filters (refutes (fact_of core.now member.old)) (N.family n.old) (N.family n.new) result }
    ensures leads_to { N.leads_to n.old n.new }
    ensures tells { Tells (means_member core.now member.old) notes.old (N.family n.old) notes.new (N.family n.new) }
    ensures same { IsSameMember member.old member.new }
{
    match member {
        Member::Bound(best, variables, form) => {
            filter_bound(core, *best, variables.as_slice(), form, n)
        }
        Member::Declared(place, variables, form) => match core.cons.get(*place as usize) {
            None => keep_all(n),
            Some(c) => filter_constraint(core, c, variables.as_slice(), form, notes, n),
        },
        Member::Posted(c, variables, form) => {
            filter_constraint(core, c, variables.as_slice(), form, notes, n)
        }
        &mut Member::Value(x, v) => keep_value(n, x, v),
    }
}

impl Propagator for Member {
    ghost use Rattle.opl_engine.specs.Members.{fact_of, means_member, wakes_on, wakes_by_ends, IsMember};
    ghost use Rattle.opl_engine.specs.Crowds.{kind_of};
    ghost use Rattle.opl_engine.specs.Resting.{member_rests};

    ghost constraint = { λ s core. fact_of core s };

    ghost is_made_with = { λ s core. IsMember core s };

    ghost means = { λ s core. means_member core s };

    ghost woken_by = { wakes_on };

    ghost woken_by_ends = { wakes_by_ends };

    ghost kind = { kind_of };

    fn filter<N: Narrow>(&mut self, core: &Core, notes: &mut Notes, n: &mut N) -> Outcome {
        filter_by(self, core, notes, n)
    }

    ghost rests = { λ s d F G made wide. member_rests d s F G made wide };
}
