//! A search that goes from turn to turn, with the places that it keeps open.
ghost use Rattle.std.specs.Prelude.{◌≡◌, ◌<◌, ◌≤◌, ◌+◌, ◌-◌, ◌∷◌, [], ◌^◌, drop, length, reverse, cond, pos, slice_index_or, IfOk, OnOk, Some, None, true, false};
ghost use Rattle.opl_domain.specs.Family.{set_of};
ghost use Rattle.opl_trace.specs.Answers.{is_single};
ghost use Rattle.opl_trace.specs.Marks.{objective};
ghost use Rattle.opl_trace.specs.Run.{values_of};
ghost use Rattle.opl_steps.specs.Tasks.Task.{values};
ghost use Rattle.opl_turns.specs.Coming.{coming};
ghost use Rattle.opl_turns.specs.Coming as plain;
ghost use Rattle.opl_turns.specs.Covered.{Covers};
ghost use Rattle.opl_turns.specs.Weights.{weight_at, weight_back};
ghost use Rattle.opl_search.specs.States.{State, opened, moment, IsMoment};
ghost use Rattle.opl_search.specs.Tails.{tail_of};
ghost use Rattle.opl_search.specs.Pending.{IsNextValue, ways_of, places, AreOpen, comes, tries, IsTurn, Goes, weight, closings, leaves, answer_of};
ghost use Rattle.opl_search.specs.Advance.{seen, start_of, CanStart, Advances};
ghost use Rattle.opl_search.specs.declared.search.Turn.TheVariants as at;
ghost use Rattle.opl_search.specs.declared.search.Step1.TheVariants as step;

use crate::solver::{Closed, Solver};
use crate::tail::{Tail, label_all};
use opl_domain::{OutOfMemory, Steps, View};
use opl_list::Seq;
use std::alloc::Global;
use std::rc::Rc;

/// An answer of a search.
#[derive(Drop, Clone, Copy)]
pub enum Step1 {
    /// A solution: each variable has one value.
    Solution,
    /// The end: there are no more solutions.
    End,
    /// A choice is due, and as many as the budget allows have been made.
    Spent,
}

/// An open place: the values of a variable after the last one are still to be tried, each before labelling the variables of a
/// list from a place on and what follows that. `level` is how many levels were open before the place.
#[derive(Drop)]
pub struct Open {
    pub level: u64,
    pub variable: u32,
    pub last: i64,
    pub variables: Rc<Seq<u32>>,
    pub place: usize,
    pub rest: Rc<Tail>,
}

/// Where a search is: before the sets of a moment, at a moment, behind a path, or at an answer.
#[derive(Drop)]
pub enum Turn {
    Down(Tail),
    At(Tail),
    Back,
    Done(Step1),
}

/// A search: what it stands on, its open places, and how many choices are left.
#[derive(Drop)]
pub struct Search<S> {
    pub solver: S,
    pub opens: Vec<Open>,
    pub left: u64,
}

impl Turn {
    /// The answer at which a search is, if it is at one.
    fn answer(&self) -> Option<Step1>
        ensures { result ≡ answer_of self.now }
    {
        match self {
            Turn::Down(_tail) => None,
            Turn::At(_tail) => None,
            Turn::Back => None,
            Turn::Done(step) => Some(*step),
        }
    }

    /// Whether it is at an answer.
    fn is_done(&self) -> bool
        ensures none { result ≡ false → answer_of self.now ≡ None }
        ensures some { result ≡ true → answer_of self.now ≡ None → ⊥ }
    {
        match self {
            Turn::Down(_tail) => false,
            Turn::At(_tail) => false,
            Turn::Back => false,
            Turn::Done(_step) => true,
        }
    }
}

/// The next value of `x`: its first, or the one after the last.
fn value_after<V: View>(view: &V, x: u32, last: Option<i64>) -> Option<i64>
    ensures { IsNextValue (set_of (V.family view.now) x) last result }
{
    if x >= view.vars() {
        return None;
    }
    match last {
        None => Some(view.min(x)),
        Some(v) => view.next(x, v),
    }
}

/// Whether the set of `x` has one value.
fn is_single<V: View>(view: &V, x: u32) -> bool
    ensures { result ≡ is_single (V.family view.now) x }
{
    if x >= view.vars() {
        return false;
    }
    view.size(x) == 1
}

impl<S: Solver> Search<S> {
    /// A search that has made no choice. It takes no memory.
    pub fn new(alloc: Global, solver: S, budget: u64) -> Search<S>
        ensures solver { result.solver ≡ solver }
        ensures opens { result.opens.items ≡ [] }
        ensures left { result.left ≡ budget }
    {
        Search {
            solver,
            opens: Vec::new(alloc),
            left: budget,
        }
    }

    /// Takes a choice and opens a level; what is left of the place stays open.
    fn choose(
        &mut self,
        alloc: Global,
        variable: u32,
        last: i64,
        variables: Rc<Seq<u32>>,
        place: usize,
        rest: Rc<Tail>,
    ) -> Result<(), OutOfMemory>
        requires left { 0 < self.old.left }
        requires opens { AreOpen (reverse self.old.opens.items) (length (S.state self.old.solver).levels) (S.state self.old.solver).levels }
        requires covers { Covers (S.state self.old.solver).sets (values (variable ∷ drop place variables.value) ∷ tail_of rest.value) }
        ensures fewer { self.new.left ≤ self.old.left }
        ensures left { OnOk result (self.old.left ≡ self.new.left + 1) }
        ensures state { OnOk result (S.state self.new.solver ≡ opened (S.state self.old.solver)) }
        ensures opens { OnOk result (AreOpen (reverse self.new.opens.items) (length (S.state self.new.solver).levels) (S.state self.new.solver).levels) }
        ensures places { OnOk result (places (reverse self.new.opens.items) (S.state self.new.solver).levels
            ≡ plain.Place.ways (ways_of variable (Some last) (values (drop place variables.value) ∷ tail_of rest.value) (record { sets = (S.state self.old.solver).sets; posted = (S.state self.old.solver).posted })) ∷ places (reverse self.old.opens.items) (S.state self.old.solver).levels) }
    {
        let level = self.solver.count_levels();
        self.solver.open_level(alloc)?;
        self.opens.push(Open {
            level,
            variable,
            last,
            variables,
            place,
            rest,
        })?;
        self.left -= 1;
        Ok(())
    }

    /// Goes on with the values of a variable after the last one.
    fn enter_values(
        &mut self,
        alloc: Global,
        variable: u32,
        last: Option<i64>,
        variables: Rc<Seq<u32>>,
        place: usize,
        rest: Rc<Tail>,
    ) -> Result<Turn, OutOfMemory>
        requires opens { AreOpen (reverse self.old.opens.items) (length (S.state self.old.solver).levels) (S.state self.old.solver).levels }
        requires covers { Covers (S.state self.old.solver).sets (values (variable ∷ drop place variables.value) ∷ tail_of rest.value) }
        ensures fewer { self.new.left ≤ self.old.left }
        ensures goes { IfOk result (Goes (S.state self.old.solver) (tries (S.state self.old.solver) (reverse self.old.opens.items) self.old.left variable last (values (drop place variables.value) ∷ tail_of rest.value)) self.old.left (S.state self.new.solver) (reverse self.new.opens.items) self.new.left) }
        ensures less { IfOk result (λ t. self.new.left ≡ self.old.left → weight (S.state self.new.solver) (reverse self.new.opens.items) self.new.left t ≤ weight_back (places (reverse self.old.opens.items) (S.state self.old.solver).levels) self.old.left) }
        ensures closings { IfOk result (λ t. closings t + self.new.left ≤ self.old.left) }
        ensures leaves { IfOk result (λ t. leaves t + self.new.left ≤ self.old.left) }
    {
        match value_after(&self.solver, variable, last) {
            None => Ok(Turn::Back),
            Some(v) => {
                if self.left == 0 {
                    return Ok(Turn::Done(Step1::Spent));
                }
                let tail = Tail::Label(variables.clone()?, place, rest.clone()?);
                self.choose(alloc, variable, v, variables, place, rest)?;
                self.solver.post_value(alloc, variable, v)?;
                Ok(Turn::Down(tail))
            }
        }
    }

    /// Goes back to the place opened last.
    fn back(&mut self, alloc: Global) -> Result<Turn, OutOfMemory>
        requires opens { AreOpen (reverse self.old.opens.items) (length (S.state self.old.solver).levels) (S.state self.old.solver).levels }
        ensures fewer { self.new.left ≤ self.old.left }
        ensures goes { IfOk result (Goes (S.state self.old.solver) (comes (S.state self.old.solver) (reverse self.old.opens.items) self.old.left at.Back) self.old.left (S.state self.new.solver) (reverse self.new.opens.items) self.new.left) }
        ensures less { IfOk result (λ t. self.new.left ≡ self.old.left → weight (S.state self.new.solver) (reverse self.new.opens.items) self.new.left t < weight (S.state self.old.solver) (reverse self.old.opens.items) self.old.left at.Back) }
        ensures closings { IfOk result (λ t. closings t + self.new.left ≤ self.old.left) }
        ensures leaves { IfOk result (λ t. leaves t + self.new.left ≤ self.old.left) }
    {
        match self.opens.pop() {
            None => Ok(Turn::Done(Step1::End)),
            Some(open) => {
                let Open {
                    level,
                    variable,
                    last,
                    variables,
                    place,
                    rest,
                } = open;
                self.solver.go_back(level);
                let turn = self.enter_values(alloc, variable, Some(last), variables, place, rest)?;
                Ok(turn)
            }
        }
    }

    /// Closes the sets before a moment.
    fn down(&mut self, tail: Tail, steps: &mut Steps) -> Turn
        requires opens { AreOpen (reverse self.old.opens.items) (length (S.state self.old.solver).levels) (S.state self.old.solver).levels }
        requires turn { IsTurn (S.state self.old.solver) (at.Down tail) }
        ensures goes { Goes (S.state self.old.solver) (comes (S.state self.old.solver) (reverse self.old.opens.items) self.old.left (at.Down tail)) self.old.left (S.state self.new.solver) (reverse self.new.opens.items) self.new.left result }
        ensures less { weight (S.state self.new.solver) (reverse self.new.opens.items) self.new.left result < weight (S.state self.old.solver) (reverse self.old.opens.items) self.old.left (at.Down tail) }
        ensures left { self.new.left ≡ self.old.left }
        ensures closings { closings result ≡ 0 }
        ensures leaves { leaves result ≤ 1 }
        ensures steps { steps.new ≤ steps.old + 1 }
    {
        match self.solver.close(steps) {
            Closed::Failed => Turn::Back,
            Closed::Stable => Turn::At(tail),
        }
    }

    /// At a moment, with a value for each variable of a list from a place on.
    fn at_label(
        &mut self,
        alloc: Global,
        variables: Rc<Seq<u32>>,
        place: usize,
        rest: Rc<Tail>,
    ) -> Result<Turn, OutOfMemory>
        requires opens { AreOpen (reverse self.old.opens.items) (length (S.state self.old.solver).levels) (S.state self.old.solver).levels }
        requires moment { IsMoment (S.state self.old.solver) }
        requires covers { Covers (S.state self.old.solver).sets (values (drop place variables.value) ∷ tail_of rest.value) }
        ensures fewer { self.new.left ≤ self.old.left }
        ensures goes { IfOk result (Goes (S.state self.old.solver) (coming (objective (S.state self.old.solver).core) (moment (S.state self.old.solver).core) (plain.Turn.down (values (drop place variables.value) ∷ tail_of rest.value)) (S.state self.old.solver).posted (S.state self.old.solver).best self.old.left (places (reverse self.old.opens.items) (S.state self.old.solver).levels)) self.old.left (S.state self.new.solver) (reverse self.new.opens.items) self.new.left) }
        ensures less { IfOk result (λ t. self.new.left ≡ self.old.left → weight (S.state self.new.solver) (reverse self.new.opens.items) self.new.left t < weight_at (values (drop place variables.value) ∷ tail_of rest.value) (places (reverse self.old.opens.items) (S.state self.old.solver).levels) self.old.left) }
        ensures closings { IfOk result (λ t. closings t + self.new.left ≤ self.old.left) }
        ensures leaves { IfOk result (λ t. leaves t + self.new.left ≤ self.old.left + 1) }
    {
        let all = variables.as_slice();
        if place >= all.len() {
            let tail = rest.copy()?;
            return Ok(Turn::At(tail));
        }
        let x = all[place];
        if is_single(&self.solver, x) {
            return Ok(Turn::At(Tail::Label(variables, place + 1, rest)));
        }
        let turn = self.enter_values(alloc, x, None, variables, place + 1, rest)?;
        Ok(turn)
    }

    /// At the end of the whole: a solution.
    fn finish(&mut self) -> Turn
        requires opens { AreOpen (reverse self.old.opens.items) (length (S.state self.old.solver).levels) (S.state self.old.solver).levels }
        requires moment { IsMoment (S.state self.old.solver) }
        requires covers { Covers (S.state self.old.solver).sets [] }
        ensures goes { Goes (S.state self.old.solver) (coming (objective (S.state self.old.solver).core) (moment (S.state self.old.solver).core) (plain.Turn.down []) (S.state self.old.solver).posted (S.state self.old.solver).best self.old.left (places (reverse self.old.opens.items) (S.state self.old.solver).levels)) self.old.left (S.state self.new.solver) (reverse self.new.opens.items) self.new.left result }
        ensures done { result ≡ at.Done step.Solution }
        ensures left { self.new.left ≡ self.old.left }
    {
        self.solver.improve();
        Turn::Done(Step1::Solution)
    }

    /// At a moment.
    fn at(&mut self, alloc: Global, tail: Tail) -> Result<Turn, OutOfMemory>
        requires opens { AreOpen (reverse self.old.opens.items) (length (S.state self.old.solver).levels) (S.state self.old.solver).levels }
        requires turn { IsTurn (S.state self.old.solver) (at.At tail) }
        ensures fewer { self.new.left ≤ self.old.left }
        ensures goes { IfOk result (Goes (S.state self.old.solver) (comes (S.state self.old.solver) (reverse self.old.opens.items) self.old.left (at.At tail)) self.old.left (S.state self.new.solver) (reverse self.new.opens.items) self.new.left) }
        ensures less { IfOk result (λ t. self.new.left ≡ self.old.left → weight (S.state self.new.solver) (reverse self.new.opens.items) self.new.left t < weight (S.state self.old.solver) (reverse self.old.opens.items) self.old.left (at.At tail)) }
        ensures closings { IfOk result (λ t. closings t + self.new.left ≤ self.old.left) }
        ensures leaves { IfOk result (λ t. leaves t + self.new.left ≤ self.old.left + 1) }
    {
        match tail {
            Tail::End => Ok(self.finish()),
            Tail::Label(variables, place, rest) => {
                let turn = self.at_label(alloc, variables, place, rest)?;
                Ok(turn)
            }
        }
    }

    /// Makes one turn.
    fn turn(&mut self, alloc: Global, turn: Turn, steps: &mut Steps) -> Result<Turn, OutOfMemory>
        requires opens { AreOpen (reverse self.old.opens.items) (length (S.state self.old.solver).levels) (S.state self.old.solver).levels }
        requires none { answer_of turn ≡ None }
        requires turn { IsTurn (S.state self.old.solver) turn }
        ensures fewer { self.new.left ≤ self.old.left }
        ensures goes { IfOk result (Goes (S.state self.old.solver) (comes (S.state self.old.solver) (reverse self.old.opens.items) self.old.left turn) self.old.left (S.state self.new.solver) (reverse self.new.opens.items) self.new.left) }
        ensures less { IfOk result (λ t. self.new.left ≡ self.old.left → answer_of turn ≡ None → weight (S.state self.new.solver) (reverse self.new.opens.items) self.new.left t < weight (S.state self.old.solver) (reverse self.old.opens.items) self.old.left turn) }
        ensures closings { IfOk result (λ t. closings t + self.new.left + steps.new ≤ closings turn + self.old.left + steps.old) }
        ensures steps { self.new.left + steps.new ≤ closings turn + self.old.left + steps.old }
        ensures leaves { IfOk result (λ t. leaves t + self.new.left ≤ leaves turn + self.old.left) }
    {
        match turn {
            Turn::Down(tail) => Ok(self.down(tail, steps)),
            Turn::At(tail) => {
                let next = self.at(alloc, tail)?;
                Ok(next)
            }
            Turn::Back => {
                let next = self.back(alloc)?;
                Ok(next)
            }
            Turn::Done(step) => Ok(Turn::Done(step)),
        }
    }

    /// Makes turns until a choice was made or an answer is there.
    fn path(&mut self, alloc: Global, first: Turn, steps: &mut Steps) -> Result<Turn, OutOfMemory>
        requires opens { AreOpen (reverse self.old.opens.items) (length (S.state self.old.solver).levels) (S.state self.old.solver).levels }
        requires turn { IsTurn (S.state self.old.solver) first }
        requires none { answer_of first ≡ None }
        ensures fewer { self.new.left ≤ self.old.left }
        ensures goes { IfOk result (Goes (S.state self.old.solver) (comes (S.state self.old.solver) (reverse self.old.opens.items) self.old.left first) self.old.left (S.state self.new.solver) (reverse self.new.opens.items) self.new.left) }
        ensures less { IfOk result (λ t. answer_of t ≡ None → self.new.left < self.old.left) }
        ensures closings { IfOk result (λ t. closings t + self.new.left + steps.new ≤ closings first + self.old.left + steps.old) }
        ensures steps { self.new.left + steps.new ≤ closings first + self.old.left + steps.old }
        ensures leaves { IfOk result (λ t. leaves t + self.new.left ≤ leaves first + self.old.left) }
    {
        let left = self.left;
        let mut turn = first;
        while !turn.is_done() {
            turn = self.turn(alloc, turn, steps)?;
            if self.left < left {
                return Ok(turn);
            }
        }
        Ok(turn)
    }

    /// Makes turns until an answer is there.
    pub fn go_on(
        &mut self,
        alloc: Global,
        first: Turn,
        steps: &mut Steps,
    ) -> Result<Step1, OutOfMemory>
        requires opens { AreOpen (reverse self.old.opens.items) (length (S.state self.old.solver).levels) (S.state self.old.solver).levels }
        requires turn { IsTurn (S.state self.old.solver) first }
        requires none { answer_of first ≡ None }
        ensures fewer { self.new.left ≤ self.old.left }
        ensures goes { IfOk result (λ e. Goes (S.state self.old.solver) (comes (S.state self.old.solver) (reverse self.old.opens.items) self.old.left first) self.old.left (S.state self.new.solver) (reverse self.new.opens.items) self.new.left (at.Done e)) }
        ensures steps { self.new.left + steps.new ≤ closings first + self.old.left + steps.old }
        ensures leaves { IfOk result (λ e. leaves (at.Done e) + self.new.left ≤ leaves first + self.old.left) }
    {
        let mut turn = first;
        loop {
            turn = self.path(alloc, turn, steps)?;
            if let Some(step) = turn.answer() {
                return Ok(step);
            }
        }
    }

    /// Where a search is at its first call, and at one that follows a solution.
    fn first(&self, begins: bool, alloc: Global) -> Result<Turn, OutOfMemory>
        requires { CanStart begins (seen (S.state self.now.solver) (reverse self.now.opens.items) self.now.left) }
        ensures none { IfOk result (λ t. answer_of t ≡ None) }
        ensures turn { IfOk result (λ t. IsTurn (S.state self.now.solver) t) }
        ensures comes { IfOk result (λ t. comes (S.state self.now.solver) (reverse self.now.opens.items) self.now.left t ≡ start_of begins (seen (S.state self.now.solver) (reverse self.now.opens.items) self.now.left)) }
        ensures closings { IfOk result (λ t. closings t ≡ cond begins 1 0) }
        ensures leaves { IfOk result (λ t. leaves t ≡ cond begins 1 0) }
    {
        if begins {
            let tail = label_all(alloc, self.solver.vars())?;
            return Ok(Turn::Down(tail));
        }
        Ok(Turn::Back)
    }

    /// Goes to the next answer.
    pub fn answer(
        &mut self,
        begins: bool,
        alloc: Global,
        steps: &mut Steps,
    ) -> Result<Step1, OutOfMemory>
        requires { CanStart begins (seen (S.state self.old.solver) (reverse self.old.opens.items) self.old.left) }
        ensures fewer { self.new.left ≤ self.old.left }
        ensures advances { IfOk result (Advances begins (seen (S.state self.old.solver) (reverse self.old.opens.items) self.old.left) (seen (S.state self.new.solver) (reverse self.new.opens.items) self.new.left)) }
        ensures steps { self.new.left + steps.new ≤ cond begins 1 0 + self.old.left + steps.old }
    {
        let first = self.first(begins, alloc)?;
        let step = self.go_on(alloc, first, steps)?;
        Ok(step)
    }

    /// The least value of `x`.
    pub fn value(&self, x: u32) -> i64
        requires { x < length (S.state self.now.solver).sets }
        ensures { result ≡ slice_index_or (values_of (S.state self.now.solver).sets) x (pos 0) }
    {
        let _vars = self.solver.vars();
        self.solver.min(x)
    }

    /// The best value so far.
    pub fn best(&self) -> Option<i128>
        ensures { result ≡ (S.state self.now.solver).best }
    {
        self.solver.best()
    }
}
