//! The parts of a disjunction.
ghost use Rattle.std.specs.Prelude.{◌≡◌, ◌∷◌, [], IfOk, map};
ghost use Rattle.opl_expr.specs.declared.forms.Cons.TheVariants as constraint;
ghost use Rattle.opl_expr.specs.Forms.{Fact, fact, facts_of, compared};
ghost use Rattle.opl_expr.specs.Sound.{IsSoundFact, AreSoundFacts};
ghost use Rattle.opl_range.specs.Between.{term_of};
ghost use Rattle.opl_reify.specs.Parts.{opposite_of, signed, signed_op, IsPartIfAny, AddsPartIfAny, ArePartsIfAny};
ghost use Rattle.opl_reify.specs.Literals.{SidesIfAny, IsLiteralIfAny, IsLiteralIf, AreLiteralsIfAny};

use crate::part::Part;
use opl_domain::OutOfMemory;
use opl_expr::{Cons, Core, Expr, Op};
use opl_filter::variables_of;
use opl_linear_filter::LinearFilter;
use opl_list::{Boxed, Seq};
use std::alloc::Global;

/// How sides compare where they don't so.
fn opposite(op: Op) -> Op
    ensures { result ≡ opposite_of op }
{
    match op {
        Op::Eq => Op::Ne,
        Op::Ne => Op::Eq,
        Op::Lt => Op::Ge,
        Op::Le => Op::Gt,
        Op::Gt => Op::Le,
        Op::Ge => Op::Lt,
    }
}

/// How sides compare, or how they do where they don't compare so.
fn turned(op: Op, is_opposite: bool) -> Op
    ensures { result ≡ signed_op is_opposite op }
{
    if is_opposite { opposite(op) } else { op }
}

/// The comparison of copies of two sides.
fn comparison(alloc: Global, op: Op, a: &Expr, b: &Expr) -> Result<Boxed<Cons>, OutOfMemory>
    ensures { IfOk result (λ c. c ≡ constraint.Cmp op a.now b.now) }
{
    let left = Boxed::new(alloc, a.copy(alloc)?)?;
    let right = Boxed::new(alloc, b.copy(alloc)?)?;
    Ok(Boxed::new(alloc, Cons::Cmp(op, left, right))?)
}

/// The part for a comparison, if its sides are linear.
fn part_of(
    alloc: Global,
    core: &Core,
    op: Op,
    a: &Expr,
    b: &Expr,
) -> Result<Option<Part>, OutOfMemory>
    requires { IsSoundFact core.now.sets (compared op (term_of core.now a.now) (term_of core.now b.now)) }
    ensures part { IfOk result (IsPartIfAny core.now (compared op (term_of core.now a.now) (term_of core.now b.now))) }
    ensures kind { IfOk result (SidesIfAny core.now a.now b.now) }
{
    let constraint = comparison(alloc, op, a, b)?;
    let variables = variables_of(alloc, core, constraint.get())?;
    match LinearFilter::new(alloc, core, constraint.get())? {
        None => Ok(None),
        Some(filter) => Ok(Some(Part {
            constraint,
            variables,
            filter,
        })),
    }
}

/// The part for a constraint, or for its opposite, if it is a comparison of linear sides or the opposite of one.
pub fn literal(
    alloc: Global,
    core: &Core,
    c: &Cons,
    is_opposite: bool,
) -> Result<Option<Part>, OutOfMemory>
    requires { IsSoundFact core.now.sets (fact core.now.tables core.now.resources c.now) }
    ensures part { IfOk result (IsPartIfAny core.now (signed is_opposite (fact core.now.tables core.now.resources c.now))) }
    ensures kind { IfOk result (IsLiteralIfAny core.now c.now) }
{
    match c {
        Cons::Fixed(_b) => Ok(None),
        Cons::Cmp(op, a, b) => part_of(alloc, core, turned(*op, is_opposite), a.get(), b.get()),
        Cons::And(_parts) => Ok(None),
        Cons::Or(_parts) => Ok(None),
        Cons::Imp(_a, _b) => Ok(None),
        Cons::Iff(_a, _b) => Ok(None),
        Cons::Not(a) => literal(alloc, core, a.get(), !is_opposite),
        Cons::AllDifferent(_parts) => Ok(None),
        Cons::Capacity(_resource, _time) => Ok(None),
        Cons::Bound(_x) => Ok(None),
    }
}

/// Adds the part for a constraint, or for its opposite, if there is one, and tells whether there is.
fn add_literal(
    alloc: Global,
    core: &Core,
    c: &Cons,
    is_opposite: bool,
    parts: &mut Seq<Part>,
) -> Result<bool, OutOfMemory>
    requires { IsSoundFact core.now.sets (fact core.now.tables core.now.resources c.now) }
    ensures part { IfOk result (AddsPartIfAny core.now (signed is_opposite (fact core.now.tables core.now.resources c.now)) parts.old parts.new) }
    ensures kind { IfOk result (IsLiteralIf core.now c.now) }
{
    match literal(alloc, core, c, is_opposite)? {
        None => Ok(false),
        Some(part) => {
            parts.push(part)?;
            Ok(true)
        }
    }
}

/// The parts for constraints, if each has one.
pub fn literals(alloc: Global, core: &Core, cs: &[Cons]) -> Result<Option<Seq<Part>>, OutOfMemory>
    requires { AreSoundFacts core.now.sets (facts_of (map (fact core.now.tables core.now.resources) cs.now)) }
    ensures parts { IfOk result (ArePartsIfAny core.now (map (fact core.now.tables core.now.resources) cs.now)) }
    ensures kind { IfOk result (AreLiteralsIfAny core.now cs.now) }
{
    let mut parts = Seq::new(alloc);
    for c in cs {
        if !add_literal(alloc, core, c, false, &mut parts)? {
            return Ok(None);
        }
    }
    Ok(Some(parts))
}

/// The parts for an implication, if its sides have some: the opposite of the first, and the second.
pub fn implied(
    alloc: Global,
    core: &Core,
    a: &Cons,
    b: &Cons,
) -> Result<Option<Seq<Part>>, OutOfMemory>
    requires first { IsSoundFact core.now.sets (fact core.now.tables core.now.resources a.now) }
    requires second { IsSoundFact core.now.sets (fact core.now.tables core.now.resources b.now) }
    ensures parts { IfOk result (ArePartsIfAny core.now (Fact.not (fact core.now.tables core.now.resources a.now) ∷ fact core.now.tables core.now.resources b.now ∷ [])) }
    ensures kind { IfOk result (AreLiteralsIfAny core.now (a.now ∷ b.now ∷ [])) }
{
    let mut parts = Seq::new(alloc);
    if !add_literal(alloc, core, a, true, &mut parts)? {
        return Ok(None);
    }
    if !add_literal(alloc, core, b, false, &mut parts)? {
        return Ok(None);
    }
    Ok(Some(parts))
}
