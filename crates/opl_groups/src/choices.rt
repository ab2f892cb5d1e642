//! The choices under groups of parameters for which a condition holds, one after another.
ghost use Rattle.std.specs.Prelude.{[], ◌≡◌, ◌+◌, IfOk, map};
ghost use Rattle.std.specs.Option.{option_copied};
ghost use Rattle.opl_eval.specs.Evaluation as evaluation;
ghost use Rattle.opl_eval.specs.Evaluation.{group_meaning};
ghost use Rattle.opl_eval.specs.Turns.{under};
ghost use Rattle.opl_eval.specs.Visible.{within};
ghost use Rattle.opl_groups.specs.Courses.{ahead_in, pending, still};
ghost use Rattle.opl_groups.specs.Met.{met_under, where_true};
ghost use Rattle.opl_groups.specs.Visits as spec;
ghost use Rattle.opl_groups.specs.Visits.{sees, sees_under};

use crate::course::{Ahead, Names, enter, go_back};
use crate::elements::elements_of;
use crate::scope::Scope;
use opl_eval::{EvalFault, Parameter, Turns, eval_set_under, eval_under, parameters_under};
use opl_list::Boxed;
use opl_term::{GroupTerm, Pattern, SetTerm, Term};
use opl_value::Value;
use std::alloc::{AllocError, Global};

/// Groups of parameters, with or without a condition.
#[derive(Clone, Copy)]
pub(crate) struct Visit<'t> {
    pub(crate) groups: &'t [GroupTerm],
    pub(crate) condition: Option<&'t Term>,
}

/// What a step leads to.
#[derive(Drop)]
pub(crate) enum Progress<'t> {
    On(Ahead<'t>),
    /// A choice for all groups, for which the condition holds.
    Met,
    /// No choice is left.
    Ended,
}

/// The choices of parameters under groups, the first group varying slowest, with the latest of them. The set of each group is found
/// anew for each choice of those before it.
#[derive(Drop)]
pub struct Choices<'t> {
    pub(crate) groups: &'t [GroupTerm],
    pub(crate) condition: Option<&'t Term>,
    pub(crate) turns: Turns<'t>,
    pub(crate) is_begun: bool,
}

impl<'t> Choices<'t> {
    /// The choices under these groups for which the condition holds. It takes no memory.
    #[tactic(auto, unfolding(crate::specs::Visits::behind))]
    pub fn new(
        alloc: Global,
        groups: &'t [GroupTerm],
        condition: &'t Option<Boxed<Term>>,
    ) -> Choices<'t>
        ensures { (env : evaluation.Environment) → spec.behind result env ≡ met_under (map group_meaning groups.now) condition.now env }
    {
        Choices {
            groups,
            condition: term_of(condition),
            turns: Turns::new(alloc),
            is_begun: false,
        }
    }

    /// Goes on to the next choice, if there is one, or tells the first fault of a set or of the condition; behind a fault nothing is
    /// known. The names that are visible outside the groups have to be the same each time. More than 2^64 - 1 steps to one choice
    /// count as want of memory.
    pub fn advance(&mut self, alloc: Global, scope: Scope<'_>) -> Result<bool, EvalFault>
        ensures { spec.Advances (spec.behind self.old (sees scope.entry)) (spec.latest self.new (sees scope.entry)) (spec.behind self.new (sees scope.entry)) result }
    {
        let visit = Visit {
            groups: self.groups,
            condition: self.condition,
        };
        let ahead = start(self.is_begun);
        self.is_begun = true;
        search(alloc, scope, visit, &mut self.turns, ahead)
    }

    /// The parameters that are visible under the latest choice.
    #[tactic(auto, unfolding(crate::specs::Visits::latest))]
    pub fn parameters<'a>(
        &'a self,
        alloc: Global,
        scope: Scope<'a>,
    ) -> Result<Vec<Parameter<'a>>, AllocError>
        ensures { IfOk result (λ all. within scope.entry.environment.now all.items ≡ spec.latest self.now (sees scope.entry)) }
    {
        parameters_under(alloc, scope.environment, scope.parameters, &self.turns)
    }
}

/// What is next before the first choice, and behind one.
fn start<'t>(is_begun: bool) -> Ahead<'t>
    ensures { result ≡ spec.start is_begun }
{
    if is_begun {
        Ahead::Back
    } else {
        Ahead::Groups(0)
    }
}

/// The term of a condition.
fn term_of<'t>(condition: &'t Option<Boxed<Term>>) -> Option<&'t Term>
    ensures { option_copied result ≡ condition.now }
{
    match condition {
        Some(condition) => Some(condition.get()),
        None => None,
    }
}

/// Goes on from what is ahead until a choice is met, and says whether there is one.
fn search<'t>(
    alloc: Global,
    scope: Scope<'_>,
    visit: Visit<'t>,
    turns: &mut Turns<'t>,
    ahead: Ahead<'t>,
) -> Result<bool, EvalFault>
    ensures { spec.Advances (pending (spec.met_at visit.entry) (sees scope.entry) ahead.entry turns.old.chosen.items) (under (sees scope.entry) turns.new.chosen.items) (still (spec.met_at visit.entry) (sees scope.entry) [] turns.new.chosen.items) result }
{
    let mut ahead = ahead;
    for _ in 0..u64::MAX {
        match step(alloc, scope, visit, turns, ahead)? {
            Progress::On(next) => ahead = next,
            Progress::Met => return Ok(true),
            Progress::Ended => return Ok(false),
        }
    }
    Err(EvalFault::OutOfMemory)
}

/// Goes one step on from what is ahead.
fn step<'t>(
    alloc: Global,
    scope: Scope<'_>,
    visit: Visit<'t>,
    turns: &mut Turns<'t>,
    ahead: Ahead<'t>,
) -> Result<Progress<'t>, EvalFault>
    ensures { spec.Steps (spec.met_at visit.entry) (sees scope.entry) (pending (spec.met_at visit.entry) (sees scope.entry) ahead.entry turns.old.chosen.items) turns.new.chosen.items result }
{
    match ahead {
        Ahead::Groups(place) => reach(alloc, scope, visit, &*turns, place),
        Ahead::Patterns(names) => Ok(Progress::On(enter(alloc, turns, names)?)),
        Ahead::Back => match go_back(alloc, turns)? {
            Some(next) => Ok(Progress::On(next)),
            None => Ok(Progress::Ended),
        },
    }
}

/// Goes on from the group at a place under what turns chose, or sees whether the condition holds where there is none.
fn reach<'t>(
    alloc: Global,
    scope: Scope<'_>,
    visit: Visit<'t>,
    turns: &Turns<'t>,
    place: usize,
) -> Result<Progress<'t>, EvalFault>
    ensures { spec.Reaches (spec.met_at visit.entry) (sees_under scope.entry turns.now) (spec.met_at visit.entry place (sees_under scope.entry turns.now)) result }
{
    if place >= visit.groups.len() {
        let is_met = holds(alloc, scope, turns, visit.condition)?;
        return Ok(met(is_met));
    }
    let next = lead(alloc, scope, turns, &visit.groups[place], place + 1)?;
    Ok(Progress::On(next))
}

/// A choice for all groups, where the condition holds.
fn met<'t>(is_met: bool) -> Progress<'t>
    ensures { result ≡ spec.met is_met }
{
    if is_met {
        Progress::Met
    } else {
        Progress::On(Ahead::Back)
    }
}

/// Whether a condition holds, if there is one.
fn holds(
    alloc: Global,
    scope: Scope<'_>,
    turns: &Turns<'_>,
    condition: Option<&Term>,
) -> Result<bool, EvalFault>
    ensures { spec.Decides (where_true (option_copied condition.entry) (sees_under scope.entry turns.now)) (sees_under scope.entry turns.now) result }
{
    match condition {
        None => Ok(true),
        Some(condition) => {
            let value = eval_under(alloc, scope.environment, scope.parameters, turns, condition)?;
            Ok(is_true(&value))
        }
    }
}

/// Whether a value is true.
#[tactic(auto, using(opl_eval::proofs::SetElements::truths_of_variants))]
fn is_true(value: &Value) -> bool
    ensures { result ≡ evaluation.is_true value.now }
{
    match value {
        Value::Bool(holds) => *holds,
        Value::Int(_)
        | Value::Enum(..)
        | Value::Record(_)
        | Value::Set(_)
        | Value::Range(..)
        | Value::Names(_)
        | Value::Array(..) => false,
    }
}

/// Finds the elements of a group, before the group at a place.
fn lead<'t>(
    alloc: Global,
    scope: Scope<'_>,
    turns: &Turns<'_>,
    group: &'t GroupTerm,
    later: usize,
) -> Result<Ahead<'t>, EvalFault>
    ensures { spec.Leads (λ inner. spec.group_met group.now (inner later) (sees_under scope.entry turns.now)) (sees_under scope.entry turns.now) result }
{
    match group {
        GroupTerm::Unordered(patterns, over) => {
            lead_over(alloc, scope, turns, false, patterns.as_slice(), over, later)
        }
        GroupTerm::Ordered(patterns, over) => {
            lead_over(alloc, scope, turns, true, patterns.as_slice(), over, later)
        }
    }
}

/// Finds the elements of a set for patterns, before the group at a place.
fn lead_over<'t>(
    alloc: Global,
    scope: Scope<'_>,
    turns: &Turns<'_>,
    is_ordered: bool,
    patterns: &'t [Pattern],
    over: &SetTerm,
    later: usize,
) -> Result<Ahead<'t>, EvalFault>
    ensures { spec.Leads (λ inner. spec.over_met is_ordered patterns.now over.now (inner later) (sees_under scope.entry turns.now)) (sees_under scope.entry turns.now) result }
{
    let (set, declaration) = eval_set_under(
        alloc,
        scope.environment,
        scope.parameters,
        turns,
        over,
    )?;
    let elements = elements_of(alloc, declaration, set)?;
    Ok(Ahead::Patterns(Names {
        is_ordered,
        patterns,
        elements,
        later,
    }))
}
