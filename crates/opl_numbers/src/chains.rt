//! Chains of parts.
ghost use Rattle.std.specs.Prelude.{◌≡◌, ◌++◌, ◌∷◌, [], IfOk, List, Ok, length, ℕ};
ghost use Rattle.opl_draft.specs.Drafts.Sign.{minus};
ghost use Rattle.opl_form.specs.Nodes as making;
ghost use Rattle.opl_form.specs.Parts.{Form};
ghost use Rattle.opl_nodes.specs.declared.context.Context.{Context as contexts};
ghost use Rattle.opl_nodes.specs.Contexts.{arrays, sets};
ghost use Rattle.opl_nodes.specs.Pieces as pieces;
ghost use Rattle.opl_numbers.specs.Numbers as spec;
ghost use Rattle.opl_numbers.specs.Signs as signs;

use crate::aggregates::{known_sum, sum_node};
use crate::pairs::{divided, left_over, multiplied};
use crate::singles::{negated, number_part};
use opl_nodes::{Context, FormFault, Part, Parts};
use std::alloc::{AllocError, Global};

/// What a step of a chain does.
#[derive(Drop, Clone, Copy)]
pub enum Sign {
    Plus,
    Minus,
    Times,
    Quotient,
    Remainder,
}

/// The one part that there is, as a number.
fn alone(alloc: Global, context: &Context<'_>, at: u32, parts: Parts) -> Result<Part, FormFault>
    requires parts { pieces.AreParts context.now parts }
    requires one { length parts.items ≡ 1 }
    ensures made { (g : Form) (hs : List Form) → pieces.forms parts.items ≡ g ∷ hs → pieces.Makes context.now (making.chained (sets context.now) (arrays context.now) context.now.item at parts.before g hs) result }
    ensures part { IfOk result (λ p. pieces.IsPart context.now p) }
{
    let Parts { items, before, .. } = parts;
    let mut items = items.into_vec();
    let part = items.remove(0);
    number_part(alloc, context, at, before, part)
}

/// The sum of parts, where there is one at least. A part alone stands for itself.
fn chain(alloc: Global, context: &Context<'_>, at: u32, parts: Parts) -> Result<Part, FormFault>
    requires { pieces.AreParts context.now parts }
    ensures made { (g : Form) (hs : List Form) → pieces.forms parts.items ≡ g ∷ hs → pieces.Makes context.now (making.chained (sets context.now) (arrays context.now) context.now.item at parts.before g hs) result }
    ensures part { IfOk result (λ p. pieces.IsPart context.now p) }
{
    let is_alone = parts.items.len() == 1;
    if is_alone {
        return alone(alloc, context, at, parts);
    }
    let are_known = parts.are_known;
    if are_known {
        return known_sum(alloc, context, at, &parts);
    }
    sum_node(alloc, context, at, parts)
}

/// `a + b + ..`, of which there is one part at least. A part alone stands for itself.
pub fn chained(
    alloc: Global,
    context: &Context<'_>,
    at: u32,
    parts: Parts,
) -> Result<Part, FormFault>
    requires { pieces.AreParts context.now parts }
    ensures { (g : Form) (hs : List Form) → pieces.forms parts.items ≡ g ∷ hs → pieces.Makes context.now (making.chained (sets context.now) (arrays context.now) context.now.item at parts.before g hs) result }
{
    chain(alloc, context, at, parts)
}

/// Parts with one more behind them.
fn longer(parts: Parts, part: Part) -> Result<Parts, AllocError>
    ensures items { IfOk result (λ qs. qs.items ≡ parts.items ++ part ∷ []) }
    ensures before { IfOk result (λ qs. qs.before ≡ parts.before) }
    ensures kept { IfOk result (λ qs. (c : contexts) → pieces.AreParts c parts → pieces.IsPart c part → pieces.AreParts c qs) }
{
    let mut parts = parts;
    parts.push(part)?;
    Ok(parts)
}

/// A sum with one operand more.
fn added(parts: Parts, part: Part) -> Result<Parts, FormFault>
    ensures { (c : contexts) (g : Form) (hs : List Form) → pieces.AreParts c parts → pieces.IsPart c part → pieces.forms parts.items ≡ g ∷ hs → spec.MakesParts c parts.before (Ok (g, hs ++ pieces.form part ∷ [])) result }
{
    let found = longer(parts, part)?;
    Ok(found)
}

/// A sum less one operand, which has a place of its own.
fn lessened(
    alloc: Global,
    context: &Context<'_>,
    own: u32,
    parts: Parts,
    part: Part,
) -> Result<Parts, FormFault>
    requires parts { pieces.AreParts context.now parts }
    requires part { pieces.IsPart context.now part }
    ensures { (at : ℕ) (g : Form) (hs : List Form) → pieces.forms parts.items ≡ g ∷ hs → spec.MakesParts context.now parts.before (making.stepped (sets context.now) (arrays context.now) context.now.item minus at own parts.before (g, hs) (pieces.form part)) result }
{
    match negated(alloc, context, own, parts.next, part) {
        Ok(opposite) => added(parts, opposite),
        Err(fault) => Err(fault),
    }
}

/// A first part, and another by a step that is no sum.
fn by_sign(
    alloc: Global,
    context: &Context<'_>,
    sign: Sign,
    at: u32,
    before: u64,
    left: Part,
    right: Part,
) -> Result<Part, FormFault>
    requires left { pieces.IsPart context.now left }
    requires right { pieces.IsPart context.now right }
    ensures { pieces.Makes context.now (making.by_sign (sets context.now) (arrays context.now) context.now.item (signs.sign sign) at before (pieces.form left) (pieces.form right)) result }
{
    match sign {
        Sign::Plus | Sign::Minus | Sign::Times => {
            multiplied(alloc, context, at, before, left, right)
        }
        Sign::Quotient => divided(alloc, context, at, before, left, right),
        Sign::Remainder => left_over(alloc, context, at, before, left, right),
    }
}

/// One part alone, where so many nodes were made before.
fn begun(alloc: Global, before: u64, part: Part) -> Result<Parts, FormFault>
    ensures { (c : contexts) → pieces.IsPart c part → spec.MakesParts c before (Ok (pieces.form part, [])) result }
{
    let none = Parts::new(alloc, before);
    let found = longer(none, part)?;
    Ok(found)
}

/// A first part, and a step that is no sum.
fn factored(
    alloc: Global,
    context: &Context<'_>,
    sign: Sign,
    at: u32,
    before: u64,
    left: Part,
    right: Part,
) -> Result<Parts, FormFault>
    requires left { pieces.IsPart context.now left }
    requires right { pieces.IsPart context.now right }
    ensures { spec.MakesParts context.now before (spec.factored context.now (signs.sign sign) at before (pieces.form left) (pieces.form right)) result }
{
    match by_sign(alloc, context, sign, at, before, left, right) {
        Ok(found) => begun(alloc, before, found),
        Err(fault) => Err(fault),
    }
}

/// The whole of a chain so far, and a step that is no sum.
fn turned(
    alloc: Global,
    context: &Context<'_>,
    sign: Sign,
    at: u32,
    parts: Parts,
    part: Part,
) -> Result<Parts, FormFault>
    requires parts { pieces.AreParts context.now parts }
    requires part { pieces.IsPart context.now part }
    ensures { (g : Form) (hs : List Form) → pieces.forms parts.items ≡ g ∷ hs → spec.MakesParts context.now parts.before (spec.turned context.now (signs.sign sign) at parts.before (g, hs) (pieces.form part)) result }
{
    let before = parts.before;
    match chain(alloc, context, at, parts) {
        Ok(whole) => factored(alloc, context, sign, at, before, whole, part),
        Err(fault) => Err(fault),
    }
}

/// The parts of a sum so far after one more step, whose operand has a place of its own. There is one part at least before it.
pub fn stepped(
    alloc: Global,
    context: &Context<'_>,
    sign: Sign,
    at: u32,
    own: u32,
    parts: Parts,
    part: Part,
) -> Result<Parts, FormFault>
    requires parts { pieces.AreParts context.now parts }
    requires part { pieces.IsPart context.now part }
    ensures { (g : Form) (hs : List Form) → pieces.forms parts.items ≡ g ∷ hs → spec.MakesParts context.now parts.before (making.stepped (sets context.now) (arrays context.now) context.now.item (signs.sign sign) at own parts.before (g, hs) (pieces.form part)) result }
{
    match sign {
        Sign::Plus => added(parts, part),
        Sign::Minus => lessened(alloc, context, own, parts, part),
        Sign::Times | Sign::Quotient | Sign::Remainder => {
            turned(alloc, context, sign, at, parts, part)
        }
    }
}
