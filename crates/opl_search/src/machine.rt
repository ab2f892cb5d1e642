//! A machine: the search of a core, suspended between two solutions.
ghost use Rattle.std.specs.Prelude.{◌≡◌, ◌<◌, ◌≤◌, ◌+◌, ◌∷◌, [], ℕ, ℤ, pos, int_lt, true, length, reverse, slice_index_or, Some, None, cond, IfOk};
ghost use Rattle.std.specs.List.{list_any};
ghost use Rattle.opl_expr.specs.Options.{lift1};
ghost use Rattle.opl_expr.specs.Solutions.{declared};
ghost use Rattle.opl_trace.specs.Marks.{section};
ghost use Rattle.opl_search.specs.States.{beginning};
ghost use Rattle.opl_search.specs.Machines.{Comes, GoesOn, Again, IsFresh, is_first, has_empty_set, CanAsk, Asked, left_in, last_of, count_of};
ghost use Rattle.opl_search.specs.Advance.{seen};
ghost use Rattle.opl_search.specs.declared.machine.Last.TheVariants as last;

use crate::search::{Search, Step1};
use crate::solver::Solver;
use opl_domain::{OutOfMemory, Steps, View};
use opl_expr::Core;
use std::alloc::Global;
use std::marker::Model;
use std::rc::Rc;

/// How a core is searched.
#[derive(Drop, Clone, Copy)]
pub struct Way {
    /// Whether the search section, if there is one, is left out.
    pub default_search: bool,
}

/// What a machine answered last.
#[derive(Drop, Clone, Copy)]
pub enum Last {
    Nothing,
    Solution,
    End,
    Spent,
    OutOfMemory,
}

/// The search of a core, one solution at each call. Between two calls it keeps no solution but the sets of the last one.
#[derive(Drop)]
pub struct Machine<S: Solver> {
    core: Rc<Core>,
    way: Way,
    budget: u64,
    solutions: u128,
    last: Last,
    running: Option<Search<S>>,
}

impl<S: Solver> Model for Machine<S> {
    ghost use Rattle.std.specs.Prelude.{reverse};
    ghost use Rattle.std.specs.Coded.{codes};
    ghost use Rattle.opl_expr.specs.contracts.model.Core as cores;
    ghost use Rattle.opl_expr.specs.Options.{lift1};
    ghost use Rattle.opl_search.specs.Machines.{Searching, searching, IsMachine};
    ghost use Rattle.opl_search.specs.Advance.{seen};

    ghost Value = { Searching };

    ghost coded = { Prim.hlevel (codes, cores.the_row.coded) };

    ghost view = { λ m. searching m.core.value m.way m.budget m.solutions m.last (lift1 (λ s. seen (S.state s.solver) (reverse s.opens.items) s.left) m.running) };

    ghost invariant = { λ m. IsMachine m.core.value m.way m.budget m.solutions m.last (lift1 (λ s. seen (S.state s.solver) (reverse s.opens.items) s.left) m.running) };
}

/// Whether one of some declared sets is empty.
fn has_empty(ends: &[(i64, i64)]) -> bool
    ensures { result ≡ list_any (λ p. int_lt p.1 p.0) ends.now }
{
    for (lo, hi) in ends {
        if *hi < *lo {
            return true;
        }
    }
    false
}

/// Whether some declared set is empty. A core with an empty set has no solution, and no solver.
pub fn has_empty_set(core: &Core) -> bool
    ensures { result ≡ has_empty_set core.now }
{
    has_empty(core.sets.as_slice())
}

/// An answer as the last one.
fn last_of(step: Step1) -> Last
    ensures { result ≡ last_of step }
{
    match step {
        Step1::Solution => Last::Solution,
        Step1::End => Last::End,
        Step1::Spent => Last::Spent,
    }
}

/// How many solutions an answer is.
fn count_of(step: Step1) -> u128
    ensures { result ≡ count_of step }
{
    match step {
        Step1::Solution => 1,
        Step1::End => 0,
        Step1::Spent => 0,
    }
}

/// Goes to the next answer; without sets that is the end.
fn ask<S: Solver>(
    running: &mut Option<Search<S>>,
    begins: bool,
    alloc: Global,
    steps: &mut Steps,
) -> Result<Step1, OutOfMemory>
    requires { CanAsk begins (lift1 (λ s. seen (S.state s.solver) (reverse s.opens.items) s.left) running.old) }
    ensures asked { Asked (lift1 (λ s. seen (S.state s.solver) (reverse s.opens.items) s.left) running.old) begins (lift1 (λ s. seen (S.state s.solver) (reverse s.opens.items) s.left) running.new) result }
    ensures steps { left_in (lift1 (λ s. seen (S.state s.solver) (reverse s.opens.items) s.left) running.new) + steps.new ≤ cond begins 1 0 + left_in (lift1 (λ s. seen (S.state s.solver) (reverse s.opens.items) s.left) running.old) + steps.old }
{
    match running {
        None => Ok(Step1::End),
        Some(search) => {
            let step = search.answer(begins, alloc, steps)?;
            Ok(step)
        }
    }
}

impl<S: Solver> Machine<S> {
    /// A machine before its first call, for a core over which a solver stands as before each search. Where default search is not
    /// asked the core has no search section. It takes no memory.
    pub fn new(alloc: Global, core: Rc<Core>, way: Way, solver: S, budget: u64) -> Machine<S>
        requires way { section way.default_search core.value ≡ None }
        requires begins { S.state solver ≡ beginning core.value }
        ensures { IsFresh core.value way budget result }
    {
        Machine {
            core,
            way,
            budget,
            solutions: 0,
            last: Last::Nothing,
            running: Some(Search::new(alloc, solver, budget)),
        }
    }

    /// A machine before its first call, for a core with an empty set: its first answer is the end. It takes no memory.
    pub fn empty(core: Rc<Core>, way: Way, budget: u64) -> Machine<S>
        requires way { section way.default_search core.value ≡ None }
        requires empty { has_empty_set core.value ≡ true }
        ensures { IsFresh core.value way budget result }
    {
        Machine {
            core,
            way,
            budget,
            solutions: 0,
            last: Last::Nothing,
            running: None,
        }
    }

    /// Goes to the next solution of the trace, or to its end, or to the choice at which as many as the budget have been made.
    /// After the end, after such a choice and after want of memory each call answers the same again. Each choice closes the sets
    /// once, and so does the first call.
    pub fn next(&mut self, alloc: Global, steps: &mut Steps) -> Result<Step1, OutOfMemory>
        ensures comes { GoesOn self.old.last → Comes self.old self.new result }
        ensures again { (GoesOn self.old.last → ⊥) → (self.new ≡ self.old) × Again self.old.last result }
        ensures same { (self.new.core ≡ self.old.core) × (self.new.way ≡ self.old.way) × (self.new.budget ≡ self.old.budget) }
        ensures steps { steps.new + self.old.choices ≤ cond (is_first self.old.last) 1 0 + steps.old + self.new.choices }
    {
        match self.last() {
            Last::Nothing => self.advance(true, alloc, steps),
            Last::Solution => self.advance(false, alloc, steps),
            Last::End => Ok(Step1::End),
            Last::Spent => Ok(Step1::Spent),
            Last::OutOfMemory => Err(OutOfMemory),
        }
    }

    /// The value of `x` in the last answer, which was a solution.
    pub fn value(&self, x: u32) -> i64
        requires last { self.now.last ≡ last.Solution }
        requires variable { x < length (declared self.now.core) }
        ensures { result ≡ slice_index_or self.now.values x (pos 0) }
    {
        match &self.running {
            None => 0,
            Some(search) => search.value(x),
        }
    }

    /// The best value so far.
    pub fn best(&self) -> Option<i128>
        ensures { result ≡ self.now.best }
    {
        match &self.running {
            None => None,
            Some(search) => search.best(),
        }
    }

    /// The core that is searched.
    pub fn core(&self) -> &Core
        ensures { result.now ≡ self.now.core }
    {
        self.core.as_ref()
    }

    /// How many choices have been made.
    pub fn choices(&self) -> u64
        ensures { result ≡ self.now.choices }
    {
        match &self.running {
            None => 0,
            Some(search) => self.budget - search.left,
        }
    }

    /// The last answer.
    fn last(&self) -> Last
        ensures { result ≡ self.now.last }
    {
        self.last
    }

    /// Goes to the next answer, from the beginning or from behind a solution.
    fn advance(
        &mut self,
        begins: bool,
        alloc: Global,
        steps: &mut Steps,
    ) -> Result<Step1, OutOfMemory>
        requires goes_on { GoesOn self.old.last }
        requires begins { begins ≡ is_first self.old.last }
        ensures comes { Comes self.old self.new result }
        ensures same { (self.new.core ≡ self.old.core) × (self.new.way ≡ self.old.way) × (self.new.budget ≡ self.old.budget) }
        ensures steps { steps.new + self.old.choices ≤ cond (is_first self.old.last) 1 0 + steps.old + self.new.choices }
    {
        match ask(&mut self.running, begins, alloc, steps) {
            Ok(step) => {
                self.last = last_of(step);
                self.solutions += count_of(step);
                Ok(step)
            }
            Err(error) => {
                self.last = Last::OutOfMemory;
                Err(error)
            }
        }
    }
}
