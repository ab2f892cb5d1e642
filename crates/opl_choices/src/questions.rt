//! Conditions, decided constraints and keys, over the sets of a moment.
ghost use Rattle.std.specs.Prelude.{◌≡◌, ℤ, pos, IfOk, Option};
ghost use Rattle.opl_domain.specs.Family.{Below};
ghost use Rattle.opl_expr.specs.Forms.{term, fact};
ghost use Rattle.opl_expr.specs.Options.{lift1};
ghost use Rattle.opl_expr.specs.Solutions.{declared};
ghost use Rattle.opl_expr.specs.Sound.{IsSoundFact};
ghost use Rattle.opl_trace.specs.Answers.{is_some_point, is_met, is_decided, key_value};
ghost use Rattle.opl_trace.specs.Questions.{IsOpenFact};
ghost use Rattle.opl_trace.specs.SoundCores.{IsOpenKey};

use crate::answers;
use opl_domain::{Interval, View};
use opl_expr::{Cons, Core, Expr, OutOfMemory};
use opl_range::{cons_range, range};
use std::alloc::Global;

/// Whether an interval is there, and has the number `k` alone.
fn is_some_point(range: Option<Interval>, k: i128) -> bool
    ensures { result ≡ is_some_point k range }
{
    match range {
        None => false,
        Some(range) => range.lo() == k && range.hi() == k,
    }
}

/// Whether a condition holds: its range is [1,1] once its questions are answered. Want of memory is an error.
pub fn is_met<V: View>(alloc: Global, core: &Core, view: &V, c: &Cons) -> Result<bool, OutOfMemory>
    requires open { IsOpenFact core.now.sets (fact core.now.tables core.now.resources c.now) }
    requires within { Below (V.family view.now) (declared core.now) }
    ensures { IfOk result (λ b. b ≡ is_met (V.family view.now) (fact core.now.tables core.now.resources c.now)) }
{
    let c = answers::answered(alloc, core, view, c)?;
    let _ = view.vars();
    Ok(is_some_point(cons_range(core, c.get(), view), 1))
}

/// Whether a constraint is decided: its range is [0,0] or [1,1].
pub fn is_decided<V: View>(core: &Core, view: &V, c: &Cons) -> bool
    requires sound { IsSoundFact core.now.sets (fact core.now.tables core.now.resources c.now) }
    requires within { Below (V.family view.now) (declared core.now) }
    ensures { result ≡ is_decided (V.family view.now) (fact core.now.tables core.now.resources c.now) }
{
    let never = is_some_point(cons_range(core, c, view), 0);
    let always = is_some_point(cons_range(core, c, view), 1);
    never || always
}

/// The value of a key; none where there is no key or it is undefined. Want of memory is an error.
pub fn key_value<V: View>(
    alloc: Global,
    core: &Core,
    view: &V,
    key: &Option<Expr>,
) -> Result<Option<i128>, OutOfMemory>
    requires open { IsOpenKey core.now.sets (lift1 (term core.now.tables core.now.resources) key.now) }
    requires within { Below (V.family view.now) (declared core.now) }
    ensures { IfOk result (λ o. o ≡ key_value (V.family view.now) (lift1 (term core.now.tables core.now.resources) key.now)) }
{
    match key {
        None => Ok(None),
        Some(key) => {
            let key = answers::answered_term(alloc, core, view, key)?;
            let _ = view.vars();
            match range(core, key.get(), view) {
                None => Ok(None),
                Some(range) => Ok(Some(range.lo())),
            }
        }
    }
}
