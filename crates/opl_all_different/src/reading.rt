//! The parts of `alldifferent`, as its expressions have them.
ghost use Rattle.std.specs.Prelude.{◌≡◌, ◌<◌, ◌^◌, ◌++◌, ◌∷◌, [], List, length, IfOk, OnOk};
ghost use Rattle.opl_expr.specs.Range.{coef};
ghost use Rattle.opl_expr.specs.Sound.{IsSoundTerm};
ghost use Rattle.opl_range.specs.Between.{term_of, IsLastFactor};
ghost use Rattle.opl_all_different.specs.Reading.{IsReadAs, AreSeen, Shares};
ghost use Rattle.opl_all_different.specs.declared.part.Part.{Part};

use crate::part::Part;
use opl_domain::OutOfMemory;
use opl_expr::{Core, Expr};
use opl_linear_filter::constant_part;
use opl_range::{is_linear, last_factor};
use std::collections::HashSet;

/// The last variable below `end` whose factor in an expression isn't 0, with that factor.
fn last_of(core: &Core, e: &Expr, end: u32) -> Option<(u32, i128)>
    requires { IsSoundTerm core.now.sets (term_of core.now e.now) }
    ensures { IsLastFactor (coef (term_of core.now e.now)) end result }
{
    let zero = Expr::Const(0);
    last_factor(core, e, &zero, end)
}

/// An expression as a part, if it is linear and has at most one variable.
pub fn part_of(core: &Core, e: &Expr) -> Option<Part>
    requires sound { IsSoundTerm core.now.sets (term_of core.now e.now) }
    requires few { length core.now.sets < 2 ^ 32 }
    ensures { IsReadAs core.now (term_of core.now e.now) result }
{
    if !is_linear(core, e) {
        return None;
    }
    let constant = constant_part(core, e);
    match last_of(core, e, core.sets.len() as u32) {
        None => Some(Part {
            variable: 0,
            factor: 0,
            constant,
        }),
        Some((variable, factor)) => match last_of(core, e, variable) {
            None => Some(Part {
                variable,
                factor,
                constant,
            }),
            Some(_another) => None,
        },
    }
}

/// Whether the variable of a part is one of those seen, to which it is added.
pub fn shares(seen: &mut HashSet<u32>, part: &Part) -> Result<bool, OutOfMemory>
    ensures shares { IfOk result (λ shared. (ps : List Part) → AreSeen seen.old ps → Shares ps part.now shared) }
    ensures seen { OnOk result ((ps : List Part) → AreSeen seen.old ps → AreSeen seen.new (ps ++ part.now ∷ [])) }
{
    if part.factor == 0 {
        return Ok(false);
    }
    Ok(!seen.insert(part.variable)?)
}
