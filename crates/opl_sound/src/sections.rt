//! Whether the statements of a search section are well made: their constraints, conditions and keys fit, and the elements of a
//! list are ordered alike.
ghost use Rattle.std.specs.Prelude.{◌≡◌, map};
ghost use Rattle.std.specs.List.{list_all};
ghost use Rattle.opl_trace.specs.GroundCores.{is_some_expr, key_fits, are_alike, are_well_made, is_well_made};
ghost use Rattle.opl_sound.specs.Ground.{is_like, element_made};

use crate::fitting;
use opl_expr::{Branch, Core, Expr, Step};

/// The greatest depth of an expression or a constraint.
pub const MOST_DEEP: u32 = 2048;

/// Whether there is a key.
fn has_key(key: &Option<Expr>) -> bool
    ensures { result ≡ is_some_expr key.now }
{
    match key {
        None => false,
        Some(_key) => true,
    }
}

/// Whether a key is not too deep and names no variable, if there is one.
fn key_fits(core: &Core, key: &Option<Expr>) -> bool
    ensures { result ≡ key_fits core.now.tables core.now.resources key.now }
{
    match key {
        None => true,
        Some(key) => fitting::expression_fits(core, true, MOST_DEEP, key),
    }
}

/// Whether an element is ordered so, with a key or without.
#[tactic(auto, using(crate::proofs::StepForms::made))]
fn is_like(core: &Core, rising: bool, has_keys: bool, b: &Branch) -> bool
    ensures { result ≡ is_like rising has_keys (element_made core.now.tables core.now.resources b.now) }
{
    rising == b.rising && has_keys == has_key(&b.key)
}

/// Whether it is so with all elements.
fn are_like(core: &Core, rising: bool, has_keys: bool, elements: &[Branch]) -> bool
    ensures { result ≡ list_all (λ b. is_like rising has_keys (element_made core.now.tables core.now.resources b)) elements.now }
{
    for b in elements {
        if !is_like(core, rising, has_keys, b) {
            return false;
        }
    }
    true
}

/// Whether all elements are ordered alike, and all or none have a key.
fn are_alike(core: &Core, elements: &[Branch]) -> bool
    ensures { result ≡ are_alike (map (element_made core.now.tables core.now.resources) elements.now) }
{
    if elements.is_empty() {
        return true;
    }
    let first = &elements[0];
    are_like(core, first.rising, has_key(&first.key), elements)
}

/// Whether a statement is well made.
#[cycle(sections)]
#[tactic(auto, using(crate::proofs::StepForms::made))]
pub fn is_well_made(core: &Core, s: &Step) -> bool
    ensures { result ≡ is_well_made core.now.tables core.now.resources s.now }
{
    match s {
        Step::Post(c) => fitting::constraint_fits(core, false, MOST_DEEP, c),
        Step::Block(parts) => all_well_made(core, parts.as_slice()),
        Step::Try(parts) => all_well_made(core, parts.as_slice()),
        Step::TryAll(elements) => elements_well_made(core, elements.as_slice()),
        Step::ForAll(elements) => elements_well_made(core, elements.as_slice()),
        Step::Select(elements) => elements_well_made(core, elements.as_slice()),
        Step::Once(s) => is_well_made(core, s.get()),
        Step::While(c, s) => {
            fitting::constraint_fits(core, true, MOST_DEEP, c) && is_well_made(core, s.get())
        }
        Step::If(c, s, t) => {
            fitting::constraint_fits(core, true, MOST_DEEP, c)
                && (is_well_made(core, s.get()) && is_well_made(core, t.get()))
        }
        Step::Generate(_variables) => true,
        Step::Rank(_pairs) => true,
    }
}

/// Whether all statements are well made.
#[cycle(sections)]
fn all_well_made(core: &Core, parts: &[Step]) -> bool
    ensures { result ≡ list_all (is_well_made core.now.tables core.now.resources) parts.now }
{
    for s in parts {
        if !is_well_made(core, s) {
            return false;
        }
    }
    true
}

/// Whether the condition and the key of an element fit, and its body is well made.
#[cycle(sections)]
#[tactic(auto, using(crate::proofs::StepForms::made))]
fn element_well_made(core: &Core, b: &Branch) -> bool
    ensures { result ≡ (element_made core.now.tables core.now.resources b.now).is_well_made }
{
    fitting::constraint_fits(core, true, MOST_DEEP, &b.when)
        && (key_fits(core, &b.key) && is_well_made(core, &b.body))
}

/// Whether it is so with all elements.
#[cycle(sections)]
fn bodies_well_made(core: &Core, elements: &[Branch]) -> bool
    ensures { result ≡ list_all (λ b. (element_made core.now.tables core.now.resources b).is_well_made) elements.now }
{
    for b in elements {
        if !element_well_made(core, b) {
            return false;
        }
    }
    true
}

/// Whether all elements are well made, and alike.
#[cycle(sections)]
#[tactic(auto, using(crate::proofs::StepForms::made))]
fn elements_well_made(core: &Core, elements: &[Branch]) -> bool
    ensures { result ≡ are_well_made (map (element_made core.now.tables core.now.resources) elements.now) }
{
    are_alike(core, elements) && bodies_well_made(core, elements)
}
