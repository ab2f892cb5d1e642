//! The engine: what is posted level by level, and what it leaves of the sets of variables.
ghost use Rattle.std.specs.Prelude.{◌≡◌, ℕ, List, [], ◌∷◌, ◌++◌, ◌+◌, ◌-◌, ◌^◌, ◌<◌, ◌≤◌, min, true, false, length, take, None, IfOk, OnOk, OnErr};
ghost use Rattle.opl_domain.specs.Family.{Family, Below};
ghost use Rattle.opl_expr.specs.Forms.{fact};
ghost use Rattle.opl_expr.specs.Sound.{IsSoundFact};
ghost use Rattle.opl_expr.specs.Solutions.{declared, base};
ghost use Rattle.opl_trace.specs.Answers.{is_value};
ghost use Rattle.opl_closure.specs.Waits.{waits};
ghost use Rattle.opl_trace.specs.SoundCores.{IsSoundCore};
ghost use Rattle.opl_engine.specs.States.{seen, posted_below, closed_after, CanClose, Closes, Fits, SameBeside};

use crate::base::base_members;
use crate::closed::Closed;
use crate::member::Member;
use crate::members::Members;
use crate::opening::Opening;
use crate::own_filter::OwnFilter;
use opl_domain::{Narrow, OutOfMemory, Steps};
use opl_expr::{Cons, Core};
use opl_filter::{Outcome, variables_of};
use std::alloc::Global;
use std::marker::Model;
use std::rc::Rc;

/// A core, a best value, and constraints that are posted level by level.
#[derive(Drop)]
pub struct Engine {
    core: Rc<Core>,
    best: Option<i128>,
    members: Members,
    openings: Vec<Opening>,
}

impl Model for Engine {
    ghost use Rattle.std.specs.Prelude.{reverse};
    ghost use Rattle.std.specs.Coded.{codes};
    ghost use Rattle.opl_expr.specs.contracts.model.Core as cores;
    ghost use Rattle.opl_engine.specs.contracts.member.Member as kinds;
    ghost use Rattle.opl_engine.specs.States.{Parts};

    ghost Value = { Parts };

    ghost coded = { Prim.hlevel (codes, cores.the_row.coded, kinds.the_row.coded) };

    ghost use Rattle.opl_engine.specs.Engines.{IsEngine};

    ghost view = { λ e. record { core = e.core.value; best = e.best; crowd = e.members; openings = reverse e.openings.items } };

    ghost invariant = { λ e. IsEngine e.core.value e.best e.members (reverse e.openings.items) };
}

/// Whether two best values are the same.
fn same_best(a: Option<i128>, b: Option<i128>) -> bool
    ensures { result ≡ true → a ≡ b }
{
    match (a, b) {
        (None, None) => true,
        (Some(v), Some(w)) => v == w,
        _ => false,
    }
}

/// Leaves the members of a level that is given back, forgets what was noted in it, and lets those wait whom its sets may not suit.
fn give_back(members: &mut Members, opening: Opening, best: Option<i128>)
    requires { (1 ≤ opening.members) × (opening.members ≤ length members.old.members) × (0 < length members.old.notes.below) }
    ensures variables { members.new.variables ≡ members.old.variables }
    ensures members { members.new.members ≡ take opening.members members.old.members }
    ensures notes { members.old.notes.below ≡ members.new.notes.top ∷ members.new.notes.below }
    ensures calm { (i : ℕ) → i + 1 < opening.members → waits members.new.waits (i + 1) ≡ false → opening.calm ≡ true }
    ensures bounded { waits members.new.waits 0 ≡ false → (opening.bounded ≡ true) × (opening.best ≡ best) }
{
    members.close_level();
    members.keep(opening.members);
    if !opening.calm {
        members.wake_everybody();
        return;
    }
    if opening.bounded && same_best(opening.best, best) {
        return;
    }
    members.wake(0);
}

/// How closing ends, by how propagation ends.
fn closed_as(outcome: Outcome) -> Closed
    ensures { result ≡ closed_after outcome }
{
    match outcome {
        Outcome::Stable => Closed::Stable,
        Outcome::Failed => Closed::Failed,
    }
}

impl Engine {
    /// The constraints of a core, no best value and no open level.
    pub fn new(alloc: Global, core: Rc<Core>) -> Result<Engine, OutOfMemory>
        requires { IsSoundCore core.value }
        ensures engine { IfOk result (λ e. ((seen e).core ≡ core.value) × ((seen e).best ≡ None) × ((seen e).posted ≡ base core.value) × ((seen e).levels ≡ [])) }
        ensures fits { IfOk result (λ e. (F : Family) → Below F (declared core.value) → Fits (seen e) F []) }
    {
        let members = base_members(alloc, core.as_ref())?;
        Ok(Engine {
            core,
            best: None,
            members,
            openings: Vec::new(alloc),
        })
    }

    /// Posts a constraint. Where memory is wanting, all stays as it was.
    pub fn post(&mut self, alloc: Global, c: Rc<Cons>) -> Result<(), OutOfMemory>
        requires { IsSoundFact (seen self.old).core.sets (fact (seen self.old).core.tables (seen self.old).core.resources c.value) }
        ensures ok { OnOk result ((seen self.new).posted ≡ (seen self.old).posted ++ fact (seen self.old).core.tables (seen self.old).core.resources c.value ∷ []) }
        ensures err { OnErr result (self.new ≡ self.old) }
        ensures same { SameBeside (seen self.old) (seen self.new) }
        ensures fits { (F : Family) (below : List Family) → Fits (seen self.old) F below → Fits (seen self.new) F below }
    {
        let variables = variables_of(alloc, self.core.as_ref(), c.as_ref())?;
        let form = OwnFilter::new(alloc, self.core.as_ref(), c.as_ref())?;
        let mut member = Member::Posted(c, variables, form);
        // Notes have places for the constraints of the core alone.
        member.take_places(0, 0);
        self.members.add(member)?;
        Ok(())
    }

    /// Posts that `x` has the value `v`. Where memory is wanting, all stays as it was.
    pub fn post_value(&mut self, x: u32, v: i64) -> Result<(), OutOfMemory>
        requires { x < length (seen self.old).core.sets }
        ensures ok { OnOk result ((seen self.new).posted ≡ (seen self.old).posted ++ is_value x v ∷ []) }
        ensures err { OnErr result (self.new ≡ self.old) }
        ensures same { SameBeside (seen self.old) (seen self.new) }
        ensures fits { (F : Family) (below : List Family) → Fits (seen self.old) F below → Fits (seen self.new) F below }
    {
        self.members.add(Member::Value(x, v))?;
        Ok(())
    }

    /// Sets the best value of all levels. It takes no memory.
    pub fn set_best(&mut self, best: Option<i128>)
        ensures best { (seen self.new).best ≡ best }
        ensures core { (seen self.new).core ≡ (seen self.old).core }
        ensures posted { (seen self.new).posted ≡ (seen self.old).posted }
        ensures levels { (seen self.new).levels ≡ (seen self.old).levels }
        ensures fits { (F : Family) (below : List Family) → Fits (seen self.old) F below → Fits (seen self.new) F below }
    {
        self.best = best;
        self.members.set_best(best);
    }

    /// The core.
    pub fn core(&self) -> &Core
        ensures { result.now ≡ (seen self.now).core }
    {
        self.core.as_ref()
    }

    /// The best value.
    pub fn best(&self) -> Option<i128>
        ensures { result ≡ (seen self.now).best }
    {
        self.best
    }

    /// How many levels are open.
    pub fn levels(&self) -> u64
        ensures { result ≡ length (seen self.now).levels }
    {
        self.openings.len() as u64
    }

    /// Opens a level. Where memory is wanting, all stays as it was.
    pub fn open_level(&mut self) -> Result<(), OutOfMemory>
        ensures ok { OnOk result (posted_below (seen self.new) ≡ (seen self.old).posted ∷ posted_below (seen self.old)) }
        ensures err { OnErr result (self.new ≡ self.old) }
        ensures core { (seen self.new).core ≡ (seen self.old).core }
        ensures best { (seen self.new).best ≡ (seen self.old).best }
        ensures posted { (seen self.new).posted ≡ (seen self.old).posted }
        ensures fits { OnOk result ((F : Family) (below : List Family) → Fits (seen self.old) F below → Fits (seen self.new) F (F ∷ below)) }
    {
        let opening = Opening {
            members: self.members.len(),
            calm: self.members.is_calm(),
            bounded: !self.members.waits(0),
            best: self.best,
        };
        self.openings.reserve(1)?;
        self.members.open_level()?;
        self.openings.push_reserved(opening);
        Ok(())
    }

    /// Closes the last open level: what was posted in it is posted no longer. It takes no memory.
    pub fn close_level(&mut self)
        requires { 0 < length (seen self.old).levels }
        ensures posted { posted_below (seen self.old) ≡ (seen self.new).posted ∷ posted_below (seen self.new) }
        ensures core { (seen self.new).core ≡ (seen self.old).core }
        ensures best { (seen self.new).best ≡ (seen self.old).best }
        ensures fits { (F G : Family) (below : List Family) → Fits (seen self.old) F (G ∷ below) → Fits (seen self.new) G below }
    {
        if let Some(opening) = self.openings.pop() {
            give_back(&mut self.members, opening, self.best);
        }
    }

    /// Removes from the sets all values that no family has which is stable for what is posted and for the bound, and counts one
    /// step. The sets must hold each such family within the declared sets, and the engine must fit them. `Stable` comes exactly
    /// where there is a closure, which the sets then are. It takes no memory.
    pub fn close<N: Narrow>(&mut self, store: &mut N, steps: &mut Steps) -> Closed
        requires can { CanClose (seen self.old) (N.family store.old) }
        requires fits { (below : List Family) × Fits (seen self.old) (N.family store.old) below }
        ensures closed { Closes (seen self.old).core (seen self.old).posted (seen self.old).best (N.family store.new) result }
        ensures can { CanClose (seen self.old) (N.family store.new) }
        ensures below { Below (N.family store.new) (N.family store.old) }
        ensures leads_to { N.leads_to store.old store.new }
        ensures same { SameBeside (seen self.old) (seen self.new) }
        ensures posted { (seen self.new).posted ≡ (seen self.old).posted }
        ensures fits { (below : List Family) → Fits (seen self.old) (N.family store.old) below → Fits (seen self.new) (N.family store.new) below }
        ensures steps { steps.new ≡ min (steps.old + 1) (2 ^ 64 - 1) }
    {
        steps.tick();
        // No set is empty: a view says so with its number of variables.
        let _vars = store.vars();
        closed_as(self.members.propagate(self.core.as_ref(), store))
    }
}
