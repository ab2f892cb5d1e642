//! The members of an engine, those who watch variables, and those who wait.
ghost use Rattle.std.specs.Prelude.{◌≡◌, ℕ, ℤ, List, Option, ◌<◌, ◌≤◌, ◌^◌, ◌≢◌, [], ◌∷◌, ◌++◌, true, false, map, take, length, slice_get, slice_set, Some, IfOk, OnOk, OnErr};
ghost use Rattle.opl_domain.specs.Family.{Family, Below};
ghost use Rattle.opl_expr.specs.Solutions.{declared};
ghost use Rattle.opl_trace.specs.Removals.{Kept};
ghost use Rattle.opl_closure.specs.Members.{refutes_one, Each, WaitOrAreStable, Rest, Closes};
ghost use Rattle.opl_closure.specs.Waits.{waits};
ghost use Rattle.opl_notes.specs.Noted.{Knows, Tells};
ghost use Rattle.opl_engine.specs.Crowds.{Keeps, Watches, kind_of, no_notes, GivesAllPlaces, PlacesNotes};
ghost use Rattle.opl_expr.specs.Forms.{Fact};
ghost use Rattle.opl_engine.specs.Members.{fact_of, means_members, names, sees_ends, wakes_on, wakes_by_ends, IsMember};
ghost use Rattle.opl_objective_filter.specs.declared.objective_filter.ObjectiveFilter.{ObjectiveFilter};
ghost use Rattle.opl_engine.specs.declared.member.Member.TheVariants as variant;

use crate::member::Member;
use opl_closure::{Waiting, Watchers, propagate};
use opl_domain::{Narrow, OutOfMemory};
use opl_expr::Core;
use opl_filter::Outcome;
use opl_notes::Notes;
use std::alloc::Global;
use std::marker::Model;

/// Members over some variables, the first of whom is the bound.
#[derive(Drop)]
pub struct Members {
    members: Vec<Member>,
    watchers: Watchers,
    /// Those whom the ends of sets alone wake.
    end_watchers: Watchers,
    waiting: Waiting,
    /// What filters have noted of the sets.
    notes: Notes,
}

impl Model for Members {
    ghost use Rattle.std.specs.Prelude.{length};
    ghost use Rattle.std.specs.Coded.{codes};
    ghost use Rattle.opl_engine.specs.contracts.member.Member as kinds;
    ghost use Rattle.opl_engine.specs.Crowds.{Crowd};

    ghost Value = { Crowd };

    ghost coded = { Prim.hlevel (codes, kinds.the_row.coded) };

    ghost use Rattle.opl_engine.specs.Crowds.{IsCrowd};

    ghost view = { λ m. record { variables = length m.watchers; members = m.members.items; waits = m.waiting; notes = m.notes } };

    ghost invariant = { λ m. IsCrowd m.members.items m.watchers m.end_watchers m.waiting };
}

impl Members {
    /// Nobody, over so many variables.
    pub fn new(alloc: Global, variables: u32) -> Result<Members, OutOfMemory>
        ensures { IfOk result (λ m. m ≡ record { variables = variables; members = []; waits = []; notes = no_notes 0 }) }
    {
        Ok(Members {
            members: Vec::new(alloc),
            watchers: Watchers::new(alloc, variables)?,
            end_watchers: Watchers::new(alloc, variables)?,
            waiting: Waiting::new(alloc),
            notes: Notes::new(alloc, 0)?,
        })
    }

    /// The number of members.
    pub fn len(&self) -> u32
        ensures { result ≡ length self.now.members }
    {
        self.members.len() as u32
    }

    /// One more member, who waits. Where memory is wanting, all stays as it was.
    pub fn add(&mut self, member: Member) -> Result<(), OutOfMemory>
        requires { (x : ℕ) → names member x ≡ true → x < self.old.variables }
        ensures ok { OnOk result (self.new ≡ record self.old { members = self.old.members ++ member ∷ []; waits = self.old.waits ++ true ∷ [] }) }
        ensures err { OnErr result (self.new ≡ self.old) }
        ensures long { length self.old.waits ≡ length self.old.members }
    {
        let place = self.members.len();
        if place >= u32::MAX as usize {
            return Err(OutOfMemory);
        }
        self.members.reserve(1)?;
        enrol(
            &mut self.watchers,
            &mut self.end_watchers,
            &mut self.waiting,
            &member,
            place as u32,
        )?;
        self.members.push_reserved(member);
        Ok(())
    }

    /// Gives each member the places of notes that its filter wants, at which nothing is noted.
    pub fn place_notes(&mut self, alloc: Global) -> Result<(), OutOfMemory>
        ensures { OnOk result (PlacesNotes self.old self.new) }
    {
        let places = take_places(self.members.as_mut_slice());
        self.notes = Notes::new(alloc, places)?;
        Ok(())
    }

    /// Opens a level of notes. Where memory is wanting, all stays as it was.
    pub fn open_level(&mut self) -> Result<(), OutOfMemory>
        ensures ok { OnOk result (self.new ≡ record self.old { notes = record { top = self.old.notes.top; below = self.old.notes.top ∷ self.old.notes.below } }) }
        ensures err { OnErr result (self.new ≡ self.old) }
    {
        self.notes.open_level()
    }

    /// Closes the last open level of notes: what was noted in it is noted no longer. It takes no memory.
    pub fn close_level(&mut self)
        requires { 0 < length self.old.notes.below }
        ensures variables { self.new.variables ≡ self.old.variables }
        ensures members { self.new.members ≡ self.old.members }
        ensures waits { self.new.waits ≡ self.old.waits }
        ensures notes { self.old.notes.below ≡ self.new.notes.top ∷ self.new.notes.below }
    {
        self.notes.close_level();
    }

    /// Lets member `i` wait.
    pub fn wake(&mut self, i: u32)
        requires { i < length self.old.members }
        ensures is { self.new ≡ record self.old { waits = slice_set self.old.waits i true } }
        ensures woken { waits self.new.waits i ≡ true }
    {
        self.waiting.wake(i);
    }

    /// Lets everybody wait.
    pub fn wake_everybody(&mut self)
        ensures variables { self.new.variables ≡ self.old.variables }
        ensures members { self.new.members ≡ self.old.members }
        ensures notes { self.new.notes ≡ self.old.notes }
        ensures woken { (i : ℕ) → i < length self.old.members → waits self.new.waits i ≡ true }
    {
        self.waiting.wake_everybody();
    }

    /// Whether nobody waits but perhaps the first member.
    pub fn is_calm(&self) -> bool
        requires { 0 < length self.now.members }
        ensures { result ≡ true → (i : ℕ) → i ≢ 0 → waits self.now.waits i ≡ false }
    {
        self.waiting.is_calm()
    }

    /// Whether member `i` waits.
    pub fn waits(&self, i: u32) -> bool
        requires { i < length self.now.members }
        ensures { result ≡ waits self.now.waits i }
    {
        self.waiting.waits(i)
    }

    /// The first so many members are left, and none of them waits. It takes no memory.
    pub fn keep(&mut self, members: u32)
        requires { members ≤ length self.old.members }
        ensures variables { self.new.variables ≡ self.old.variables }
        ensures members { self.new.members ≡ take members self.old.members }
        ensures notes { self.new.notes ≡ self.old.notes }
        ensures rest { (i : ℕ) → waits self.new.waits i ≡ false }
    {
        self.members.truncate(members as usize);
        self.waiting.rest(members);
    }

    /// The first member, who is the bound, has another best value, and waits. It takes no memory.
    pub fn set_best(&mut self, best: Option<i128>)
        requires { 0 < length self.old.members }
        ensures variables { self.new.variables ≡ self.old.variables }
        ensures bound { (b : Option ℤ) (xs : List ℕ) (f : Option ObjectiveFilter) → slice_get self.old.members 0 ≡ Some (variant.Bound b xs f) → self.new.members ≡ slice_set self.old.members 0 (variant.Bound best xs f) }
        ensures waits { self.new.waits ≡ slice_set self.old.waits 0 true }
        ensures notes { self.new.notes ≡ self.old.notes }
        ensures long { length self.old.waits ≡ length self.old.members }
    {
        set_bound(&mut self.members[0], best);
        self.waiting.wake(0);
    }

    /// Narrows sets until no member can remove more, or until one fails. Members who don't wait must be stable, and the notes right. It
    /// takes no memory.
    pub fn propagate<N: Narrow>(&mut self, core: &Core, n: &mut N) -> Outcome
        requires made { Each (λ i m. IsMember core.now m) self.old.members }
        requires declared { Below (N.family n.old) (declared core.now) }
        requires wait { WaitOrAreStable (map (fact_of core.now) self.old.members) self.old.waits (N.family n.old) }
        requires knows { Knows (means_members core.now self.old.members) self.old.notes.top (N.family n.old) }
        ensures closes { (D : Family) → Kept (refutes_one (map (fact_of core.now) self.old.members)) D (N.family n.old) → Closes (refutes_one (map (fact_of core.now) self.old.members)) D (N.family n.new) result }
        ensures kept { (D : Family) → Kept (refutes_one (map (fact_of core.now) self.old.members)) D (N.family n.old) → Kept (refutes_one (map (fact_of core.now) self.old.members)) D (N.family n.new) }
        ensures leads_to { N.leads_to n.old n.new }
        ensures variables { self.new.variables ≡ self.old.variables }
        ensures facts { map (fact_of core.now) self.new.members ≡ map (fact_of core.now) self.old.members }
        ensures kinds { map kind_of self.new.members ≡ map kind_of self.old.members }
        ensures made { Each (λ i m. IsMember core.now m) self.new.members }
        ensures wait { WaitOrAreStable (map (fact_of core.now) self.old.members) self.new.waits (N.family n.new) }
        ensures rest { Rest self.new.waits result }
        ensures tells { Tells (means_members core.now self.old.members) self.old.notes (N.family n.old) self.new.notes (N.family n.new) }
        ensures means { (facts : ℕ → Fact) (places : ℕ) → means_members core.now self.old.members facts places → means_members core.now self.new.members facts places }
    {
        // No set is empty: a view says so with its number of variables.
        let _vars = n.vars();
        propagate(
            core,
            self.members.as_mut_slice(),
            &self.watchers,
            &self.end_watchers,
            &mut self.waiting,
            &mut self.notes,
            n,
        )
    }
}

/// Gives each member the places of notes that its filter wants, one behind another, and tells the first place behind them.
fn take_places(members: &mut [Member]) -> u32
    ensures { GivesAllPlaces members.old members.new result }
{
    let mut behind = 0;
    for at in 0..members.len() {
        behind = members[at].take_places(behind, u32::MAX);
    }
    behind
}

/// Lets a new member watch its variables, and wait. Where memory is wanting, it does not wait, and those before it watch what they did.
fn enrol(
    watchers: &mut Watchers,
    end_watchers: &mut Watchers,
    waiting: &mut Waiting,
    member: &Member,
    place: u32,
) -> Result<(), OutOfMemory>
    requires named { (x : ℕ) → names member.now x ≡ true → x < length watchers.old }
    requires alike { length end_watchers.old ≡ length watchers.old }
    requires few { length waiting.old < 2 ^ 32 }
    ensures kept { Keeps place watchers.old watchers.new × Keeps place end_watchers.old end_watchers.new }
    ensures ok { OnOk result (Watches place (wakes_on member.now) watchers.new × Watches place (wakes_by_ends member.now) end_watchers.new × (waiting.new ≡ waiting.old ++ true ∷ [])) }
    ensures err { OnErr result (waiting.new ≡ waiting.old) }
{
    watchers.add(member.wakers(), place)?;
    end_watchers.add(member.end_wakers(), place)?;
    waiting.push()?;
    Ok(())
}

/// Gives a bound another best value.
fn set_bound(member: &mut Member, best: Option<i128>)
    ensures bound { (b : Option ℤ) (xs : List ℕ) (f : Option ObjectiveFilter) → member.old ≡ variant.Bound b xs f → member.new ≡ variant.Bound best xs f }
    ensures woken { (x : ℕ) → names member.new x ≡ names member.old x }
    ensures ends { sees_ends member.new ≡ sees_ends member.old }
{
    if let Member::Bound(old, _variables, _form) = member {
        *old = best;
    }
}
