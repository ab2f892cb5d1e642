//! The members of a core.
ghost use Rattle.std.specs.Prelude.{◌≡◌, List, [], ◌++◌, ◌∷◌, ◌<◌, length, slice_get, IfOk, OnOk, Some};
ghost use Rattle.opl_expr.specs.Forms.{Fact, term, fact};
ghost use Rattle.opl_expr.specs.Forms.Relation.{equal};
ghost use Rattle.opl_expr.specs.Solutions.{facts, base};
ghost use Rattle.opl_trace.specs.SoundCores.{IsSoundCore};
ghost use Rattle.opl_engine.specs.Members.{fact_of, IsMember};
ghost use Rattle.opl_engine.specs.Engines.{IsFirst, IsGrown, IsBase};

use crate::member::Member;
use crate::members::Members;
use crate::own_filter::OwnFilter;
use opl_domain::OutOfMemory;
use opl_expr::{Cons, Core, Goal, Op};
use opl_filter::variables_of;
use opl_list::{Boxed, Seq};
use opl_objective_filter::ObjectiveFilter;
use std::alloc::Global;
use std::rc::Rc;

/// That the objective is defined: it is compared with itself.
fn defined(alloc: Global, core: &Core, goal: &Goal) -> Result<Rc<Cons>, OutOfMemory>
    ensures { IfOk result (λ c. fact core.now.tables core.now.resources c.value ≡ Fact.cmp equal (term core.now.tables core.now.resources goal.now.value) (term core.now.tables core.now.resources goal.now.value)) }
{
    let left = Boxed::new(alloc, goal.value.copy(alloc)?)?;
    let right = Boxed::new(alloc, goal.value.copy(alloc)?)?;
    Ok(Rc::new(alloc, Cons::Cmp(Op::Eq, left, right))?)
}

/// The bound, without a best value.
fn bound_member(alloc: Global, core: &Core) -> Result<Member, OutOfMemory>
    requires { IsSoundCore core.now }
    ensures { IfOk result (IsFirst core.now) }
{
    match &core.goal {
        None => Ok(Member::Bound(None, Seq::new(alloc), None)),
        Some(goal) => {
            let c = defined(alloc, core, goal)?;
            let variables = variables_of(alloc, core, c.as_ref())?;
            let form = ObjectiveFilter::new(alloc, core, goal)?;
            Ok(Member::Bound(None, variables, form))
        }
    }
}

/// The constraint of the core at a place.
fn declared_member(alloc: Global, core: &Core, place: u32) -> Result<Member, OutOfMemory>
    requires sound { IsSoundCore core.now }
    requires place { place < length core.now.cons }
    ensures member { IfOk result (IsMember core.now) }
    ensures fact { IfOk result (λ m. slice_get (facts core.now) place ≡ Some (fact_of core.now m)) }
{
    let c = &core.cons.as_slice()[place as usize];
    let variables = variables_of(alloc, core, c)?;
    let form = OwnFilter::new(alloc, core, c)?;
    Ok(Member::Declared(place, variables, form))
}

/// Adds one member.
fn grow(core: &Core, members: &mut Members, member: Member) -> Result<(), OutOfMemory>
    requires member { IsMember core.now member }
    requires variables { members.old.variables ≡ length core.now.sets }
    ensures { OnOk result ((P : List Fact) → IsGrown core.now P members.old → IsGrown core.now (P ++ fact_of core.now member ∷ []) members.new) }
{
    members.add(member)?;
    Ok(())
}

/// The bound alone.
fn begun(alloc: Global, core: &Core) -> Result<Members, OutOfMemory>
    requires { IsSoundCore core.now }
    ensures { IfOk result (IsGrown core.now []) }
{
    let mut members = Members::new(alloc, core.sets.len() as u32)?;
    members.add(bound_member(alloc, core)?)?;
    Ok(members)
}

/// Adds the constraints of the core.
fn add_declared(alloc: Global, core: &Core, members: &mut Members) -> Result<(), OutOfMemory>
    requires sound { IsSoundCore core.now }
    requires grown { IsGrown core.now [] members.old }
    ensures { OnOk result (IsGrown core.now (facts core.now) members.new) }
{
    if core.cons.len() >= u32::MAX as usize {
        return Err(OutOfMemory);
    }
    for place in 0..core.cons.len() as u32 {
        grow(core, members, declared_member(alloc, core, place)?)?;
    }
    Ok(())
}

/// Adds that the objective is defined, if there is one.
fn add_definedness(alloc: Global, core: &Core, members: &mut Members) -> Result<(), OutOfMemory>
    requires sound { IsSoundCore core.now }
    requires grown { IsGrown core.now (facts core.now) members.old }
    ensures { OnOk result (IsGrown core.now (base core.now) members.new) }
{
    match &core.goal {
        None => Ok(()),
        Some(goal) => {
            let c = defined(alloc, core, goal)?;
            let variables = variables_of(alloc, core, c.as_ref())?;
            let form = OwnFilter::new(alloc, core, c.as_ref())?;
            grow(core, members, Member::Posted(c, variables, form))?;
            Ok(())
        }
    }
}

/// The members of a core, the bound first, all of whom wait.
pub fn base_members(alloc: Global, core: &Core) -> Result<Members, OutOfMemory>
    requires { IsSoundCore core.now }
    ensures { IfOk result (IsBase core.now) }
{
    let mut members = begun(alloc, core)?;
    add_declared(alloc, core, &mut members)?;
    add_definedness(alloc, core, &mut members)?;
    members.place_notes(alloc)?;
    members.wake_everybody();
    Ok(members)
}
