//! The lines of a core's text, and the whole of it.
ghost use Rattle.std.specs.Prelude.{◌≡◌, ◌++◌, IfOk, OnOk, Option};
ghost use Rattle.opl_ground_text.specs.Texts.{constraint_line, constraints_heading, goal_line, ground_text, resource_at, resource_before, resource_of, variable_line, variables_heading};

use crate::forms::{push_cons, push_expr};
use crate::names::{push_ends, push_number, push_resource, push_variable};
use opl_expr::{Cons, Core, Goal, OutOfMemory};
use std::alloc::{AllocError, Global};

/// Adds the first line.
fn push_variables_heading(text: &mut Vec<u8>, core: &Core) -> Result<(), AllocError>
    ensures { OnOk result (text.new.items ≡ text.old.items ++ variables_heading core.now) }
{
    text.extend_from_slice(b"Variables: ")?;
    push_number(text, core.sets.len())?;
    text.extend_from_slice(b"\n")?;
    Ok(())
}

/// Adds the line of a variable: its name and the ends of its declared set.
fn push_variable_line(text: &mut Vec<u8>, core: &Core, number: usize) -> Result<(), AllocError>
    ensures { OnOk result (text.new.items ≡ text.old.items ++ variable_line core.now number) }
{
    let Some((low, high)) = core.sets.get(number) else {
        return Ok(());
    };
    push_variable(text, core, number)?;
    text.extend_from_slice(b" in ")?;
    push_ends(text, *low, *high)?;
    text.extend_from_slice(b"\n")?;
    Ok(())
}

/// Adds the line of the objective, if there is one.
fn push_goal(text: &mut Vec<u8>, core: &Core) -> Result<(), AllocError>
    ensures { OnOk result (text.new.items ≡ text.old.items ++ goal_line core.now core.now.goal) }
{
    let Some(goal) = &core.goal else {
        return Ok(());
    };
    text.extend_from_slice(if goal.maximize {
        b"maximize "
    } else {
        b"minimize "
    })?;
    push_expr(text, core, &goal.value)?;
    text.extend_from_slice(b"\n")?;
    Ok(())
}

/// Adds what stands between variables and constraints.
fn push_constraints_heading(text: &mut Vec<u8>, core: &Core) -> Result<(), AllocError>
    ensures { OnOk result (text.new.items ≡ text.old.items ++ constraints_heading core.now) }
{
    push_goal(text, core)?;
    text.extend_from_slice(b"Constraints: ")?;
    push_number(text, core.cons.len())?;
    text.extend_from_slice(b"\n")?;
    Ok(())
}

/// The resource of a capacity constraint.
#[tactic(auto, using(crate::proofs::Texts::resources))]
fn resource_of(c: &Cons) -> Option<u32>
    ensures { result ≡ resource_of c.now }
{
    match c {
        Cons::Fixed(_) => None,
        Cons::Cmp(..) => None,
        Cons::And(_) => None,
        Cons::Or(_) => None,
        Cons::Imp(..) => None,
        Cons::Iff(..) => None,
        Cons::Not(_) => None,
        Cons::AllDifferent(_) => None,
        Cons::Capacity(resource, _) => Some(*resource),
        Cons::Bound(_) => None,
    }
}

/// The resource of the constraint before this number.
fn resource_before(core: &Core, number: usize) -> Option<u32>
    ensures { result ≡ resource_before core.now.cons number }
{
    if number == 0 {
        return None;
    }
    match core.cons.get(number - 1) {
        None => None,
        Some(c) => resource_of(c),
    }
}

/// Adds the line of a constraint.
fn push_constraint_line(text: &mut Vec<u8>, core: &Core, number: usize) -> Result<(), AllocError>
    ensures { OnOk result (text.new.items ≡ text.old.items ++ constraint_line core.now number) }
{
    let Some(c) = core.cons.get(number) else {
        return Ok(());
    };
    match resource_of(c) {
        None => push_cons(text, core, c)?,
        Some(own) => {
            if resource_before(core, number) == Some(own) {
                return Ok(());
            }
            push_resource(text, core, own)?;
        }
    }
    text.extend_from_slice(b"\n")?;
    Ok(())
}

/// The first line of the text: how many variables there are.
pub fn variables_heading(alloc: Global, core: &Core) -> Result<Vec<u8>, OutOfMemory>
    ensures { IfOk result (λ text. text.items ≡ variables_heading core.now) }
{
    let mut text = Vec::new(alloc);
    push_variables_heading(&mut text, core)?;
    Ok(text)
}

/// The line of the variable with this number: its name and the ends of its declared set, as they were declared.
pub fn variable_line(alloc: Global, core: &Core, number: usize) -> Result<Vec<u8>, OutOfMemory>
    ensures { IfOk result (λ text. text.items ≡ variable_line core.now number) }
{
    let mut text = Vec::new(alloc);
    push_variable_line(&mut text, core, number)?;
    Ok(text)
}

/// What stands between the lines of variables and those of constraints: the objective, if there is one, and how many constraints there are.
pub fn constraints_heading(alloc: Global, core: &Core) -> Result<Vec<u8>, OutOfMemory>
    ensures { IfOk result (λ text. text.items ≡ constraints_heading core.now) }
{
    let mut text = Vec::new(alloc);
    push_constraints_heading(&mut text, core)?;
    Ok(text)
}

/// The line of the constraint with this number. Capacity constraints of one resource that stand behind each other have one line, which comes
/// with the first of them; it is empty for the others.
pub fn constraint_line(alloc: Global, core: &Core, number: usize) -> Result<Vec<u8>, OutOfMemory>
    ensures { IfOk result (λ text. text.items ≡ constraint_line core.now number) }
{
    let mut text = Vec::new(alloc);
    push_constraint_line(&mut text, core, number)?;
    Ok(text)
}

/// The text of a core: the number of variables and a line for each, the objective, the number of constraints and their lines.
pub fn ground_text(alloc: Global, core: &Core) -> Result<Vec<u8>, OutOfMemory>
    ensures { IfOk result (λ text. text.items ≡ ground_text core.now) }
{
    let mut text = Vec::new(alloc);
    push_variables_heading(&mut text, core)?;
    for number in 0..core.sets.len() {
        push_variable_line(&mut text, core, number)?;
    }
    push_constraints_heading(&mut text, core)?;
    for number in 0..core.cons.len() {
        push_constraint_line(&mut text, core, number)?;
    }
    Ok(text)
}
