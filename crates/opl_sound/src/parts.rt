//! Whether the parts of a core are sound.
ghost use Rattle.std.specs.Prelude.{◌≡◌, ◌↔◌, true, SomeIff};
ghost use Rattle.opl_expr.specs.Forms.{term, fact};
ghost use Rattle.opl_expr.specs.Solutions.{goal_term};
ghost use Rattle.opl_expr.specs.Sound.{term_magnitude, IsSoundTerm, IsSoundFact};
ghost use Rattle.opl_trace.specs.SoundCores.{facts_in, AreSound, IsBest};
ghost use Rattle.opl_trace.specs.SoundCores.{IsSoundCore};

use crate::{measures, numbers};
use opl_expr::{Cons, Core, Expr};

/// The magnitude of an expression: no value of it is greater in absolute value. None comes where the expression isn't sound.
pub fn magnitude(core: &Core, e: &Expr) -> Option<u128>
    ensures { SomeIff result (IsSoundTerm core.now.sets (term core.now.tables core.now.resources e.now)) (term_magnitude core.now.sets (term core.now.tables core.now.resources e.now)) }
{
    measures::measure(core, false, e)
}

/// Whether an expression is sound.
pub fn is_sound_expression(core: &Core, e: &Expr) -> bool
    ensures { result ≡ true ↔ IsSoundTerm core.now.sets (term core.now.tables core.now.resources e.now) }
{
    numbers::is_there(measures::measure(core, false, e))
}

/// Whether a constraint is sound.
pub fn is_sound_constraint(core: &Core, c: &Cons) -> bool
    ensures { result ≡ true ↔ IsSoundFact core.now.sets (fact core.now.tables core.now.resources c.now) }
{
    measures::fits(core, false, c)
}

/// Whether all constraints are sound.
pub fn are_sound(core: &Core, constraints: &[Cons]) -> bool
    ensures { result ≡ true ↔ AreSound core.now (facts_in core.now constraints.now) }
{
    measures::all_fit(core, false, constraints)
}

/// Whether a number is no greater in absolute value than any value of the objective may be.
pub fn can_be_best(core: &Core, best: Option<i128>) -> bool
    requires { IsSoundCore core.now }
    ensures { result ≡ true ↔ IsBest core.now.sets (goal_term core.now) best }
{
    let Some(goal) = &core.goal else {
        return true;
    };
    let Some(best) = best else {
        return true;
    };
    match magnitude(core, &goal.value) {
        None => false,
        Some(magnitude) => best.unsigned_abs() <= magnitude,
    }
}
