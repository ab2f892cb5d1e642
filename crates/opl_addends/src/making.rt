//! The addends of two sides, and where their variables stand.
ghost use Rattle.std.specs.Prelude.{◌≡◌, ◌∷◌, [], true, false, map, pos, IfOk};
ghost use Rattle.opl_expr.specs.declared.forms.Cons.TheVariants as constraint;
ghost use Rattle.opl_expr.specs.declared.forms.Expr.TheVariants as expression;
ghost use Rattle.opl_expr.specs.declared.forms.Op.TheVariants as operator;
ghost use Rattle.opl_expr.specs.Forms.{terms_of};
ghost use Rattle.opl_filter.specs.Mentions.{lists};
ghost use Rattle.opl_range.specs.Between.{term_of};
ghost use Rattle.opl_addends.specs.Addends.{addends, all_addends};
ghost use Rattle.opl_addends.specs.Making.{AreNamed, AddsAddends, AllNamed, HasBetween, Notes, IsMentionOf, AreMentionsOf};

use crate::sum::{Addend, Mention};
use opl_domain::OutOfMemory;
use opl_expr::{Cons, Core, Expr, Op};
use opl_filter::variables_of;
use opl_list::{Boxed, Seq};
use std::alloc::Global;

/// A comparison that mentions what an expression does.
fn comparison_with_zero(alloc: Global, e: &Expr) -> Result<Boxed<Cons>, OutOfMemory>
    ensures { IfOk result (λ c. c ≡ constraint.Cmp operator.Le e.now (expression.Const (pos 0))) }
{
    let left = Boxed::new(alloc, e.copy(alloc)?)?;
    let right = Boxed::new(alloc, Expr::Const(0))?;
    Ok(Boxed::new(alloc, Cons::Cmp(Op::Le, left, right))?)
}

/// The variables that an expression mentions.
fn variables_in(alloc: Global, core: &Core, e: &Expr) -> Result<Seq<u32>, OutOfMemory>
    ensures { IfOk result (λ xs. AreNamed xs (term_of core.now e.now)) }
{
    let comparison = comparison_with_zero(alloc, e)?;
    variables_of(alloc, core, comparison.get())
}

/// A copy of an expression.
fn copied(alloc: Global, e: &Expr) -> Result<Boxed<Expr>, OutOfMemory>
    ensures { IfOk result (λ b. b ≡ e.now) }
{
    Ok(Boxed::new(alloc, e.copy(alloc)?)?)
}

/// Adds an expression, or its opposite, at the end.
fn add_one(
    alloc: Global,
    core: &Core,
    e: &Expr,
    is_opposite: bool,
    found: &mut Seq<Addend>,
) -> Result<(), OutOfMemory>
    ensures { IfOk result (λ u. AddsAddends core.now ((is_opposite, term_of core.now e.now) ∷ []) found.old found.new) }
{
    let variables = variables_in(alloc, core, e)?;
    let expression = copied(alloc, e)?;
    found.push(Addend {
        is_opposite,
        expression,
        variables,
    })?;
    Ok(())
}

/// Adds the addends of an expression, or of its opposite, at the end.
#[cycle(making)]
fn add(
    alloc: Global,
    core: &Core,
    e: &Expr,
    is_opposite: bool,
    found: &mut Seq<Addend>,
) -> Result<(), OutOfMemory>
    ensures { IfOk result (λ u. AddsAddends core.now (addends is_opposite (term_of core.now e.now)) found.old found.new) }
{
    match e {
        Expr::Const(_k) => add_one(alloc, core, e, is_opposite, found),
        Expr::Var(_x) => add_one(alloc, core, e, is_opposite, found),
        Expr::Sum(parts) => add_all(alloc, core, parts.as_slice(), is_opposite, found),
        Expr::Neg(a) => add(alloc, core, a.get(), !is_opposite, found),
        Expr::Mul(_a, _b) => add_one(alloc, core, e, is_opposite, found),
        Expr::Div(_a, _b) => add_one(alloc, core, e, is_opposite, found),
        Expr::Rem(_a, _b) => add_one(alloc, core, e, is_opposite, found),
        Expr::Abs(_a) => add_one(alloc, core, e, is_opposite, found),
        Expr::Min(_parts) => add_one(alloc, core, e, is_opposite, found),
        Expr::Max(_parts) => add_one(alloc, core, e, is_opposite, found),
        Expr::At(_table, _parts) => add_one(alloc, core, e, is_opposite, found),
        Expr::Truth(_c) => add_one(alloc, core, e, is_opposite, found),
        Expr::Ask(_ask, _x) => add_one(alloc, core, e, is_opposite, found),
    }
}

/// Adds the addends of the sum of expressions, or of its opposite, at the end.
#[cycle(making)]
fn add_all(
    alloc: Global,
    core: &Core,
    parts: &[Expr],
    is_opposite: bool,
    found: &mut Seq<Addend>,
) -> Result<(), OutOfMemory>
    ensures { IfOk result (λ u. AddsAddends core.now (all_addends is_opposite (terms_of (map (term_of core.now) parts.now))) found.old found.new) }
{
    for part in parts {
        add(alloc, core, part, is_opposite, found)?;
    }
    Ok(())
}

/// The addends of `a` less `b`.
pub fn addends_between(
    alloc: Global,
    core: &Core,
    a: &Expr,
    b: &Expr,
) -> Result<Seq<Addend>, OutOfMemory>
    ensures { IfOk result (HasBetween core.now a.now b.now) }
{
    let mut found = Seq::new(alloc);
    add(alloc, core, a, false, &mut found)?;
    add(alloc, core, b, true, &mut found)?;
    Ok(found)
}

/// Adds the place of an addend at the end, if that mentions a variable.
fn note(
    addend: &Addend,
    at: usize,
    variable: u32,
    places: &mut Seq<usize>,
) -> Result<(), OutOfMemory>
    ensures { IfOk result (λ u. Notes (lists addend.now.variables variable) at places.old places.new) }
{
    if addend.variables.as_slice().contains(&variable) {
        places.push(at)?;
    }
    Ok(())
}

/// The places of the addends that mention a variable.
fn mention(
    alloc: Global,
    core: &Core,
    addends: &[Addend],
    variable: u32,
) -> Result<Mention, OutOfMemory>
    requires { AllNamed core.now addends.now }
    ensures { IfOk result (IsMentionOf core.now addends.now variable) }
{
    let mut places = Seq::new(alloc);
    for at in 0..addends.len() {
        note(&addends[at], at, variable, &mut places)?;
    }
    Ok(Mention { variable, places })
}

/// A mention of each variable.
pub fn mentions(
    alloc: Global,
    core: &Core,
    addends: &[Addend],
    variables: &[u32],
) -> Result<Seq<Mention>, OutOfMemory>
    requires { AllNamed core.now addends.now }
    ensures { IfOk result (AreMentionsOf core.now addends.now variables.now) }
{
    let mut found = Seq::new(alloc);
    for variable in variables {
        let mention = mention(alloc, core, addends, *variable)?;
        found.push(mention)?;
    }
    Ok(found)
}
