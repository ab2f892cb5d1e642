//! Whether a variable has a factor in more than one addend.
ghost use Rattle.std.specs.Prelude.{◌≡◌, ◌+◌, ◌<◌, ◌^◌, ◌∷◌, [], slice_get};
ghost use Rattle.opl_domain.specs.Arithmetic.{is_nonzero};
ghost use Rattle.opl_expr.specs.Range.{coef};
ghost use Rattle.opl_expr.specs.Sound.{IsSoundTerm};
ghost use Rattle.opl_range.specs.Between.{term_of};
ghost use Rattle.opl_addends.specs.Addends.{plain, plains, listed, picked, with_factor, AreSound};
ghost use Rattle.opl_addends.specs.Sums.{variables};
ghost use Rattle.opl_addends.specs.Apart.{AreNumbered, AreOnceIf};

use crate::sum::{Addend, Mention};
use opl_expr::{Core, Expr};
use opl_list::Seq;
use opl_range::last_factor;

/// Whether a variable has a factor in an expression.
fn has_factor(core: &Core, e: &Expr, x: u32) -> bool
    requires sound { IsSoundTerm core.now.sets (term_of core.now e.now) }
    requires number { x + 1 < 2 ^ 32 }
    ensures { result ≡ is_nonzero (coef (term_of core.now e.now) x) }
{
    let zero = Expr::Const(0);
    match last_factor(core, e, &zero, x + 1) {
        None => false,
        Some((y, _factor)) => x == y,
    }
}

/// 1 where a variable has a factor in an addend, else 0.
fn factor_in(core: &Core, addend: &Addend, x: u32) -> usize
    requires sound { AreSound core.now.sets (plain core.now addend.now ∷ []) }
    requires number { x + 1 < 2 ^ 32 }
    ensures { result ≡ with_factor x (plain core.now addend.now ∷ []) }
{
    if has_factor(core, addend.expression.get(), x) {
        1
    } else {
        0
    }
}

/// The same of the addend at a place; 0 where there is none.
fn factor_at(core: &Core, addends: &Seq<Addend>, at: usize, x: u32) -> usize
    requires sound { AreSound core.now.sets (plains core.now (listed (slice_get addends.now at))) }
    requires number { x + 1 < 2 ^ 32 }
    ensures { result ≡ with_factor x (plains core.now (listed (slice_get addends.now at))) }
{
    match addends.get(at) {
        None => 0,
        Some(addend) => factor_in(core, addend, x),
    }
}

/// In how many of the addends at some places a variable has a factor.
fn factors(core: &Core, addends: &Seq<Addend>, places: &[usize], x: u32) -> usize
    requires sound { AreSound core.now.sets (plains core.now (picked addends.now places.now)) }
    requires number { x + 1 < 2 ^ 32 }
    ensures { result ≡ with_factor x (plains core.now (picked addends.now places.now)) }
{
    let mut total = 0;
    let mut left = places.len();
    while left > 0 {
        left -= 1;
        total += factor_at(core, addends, places[left], x);
    }
    total
}

/// Whether each variable has a factor in at most one of the addends.
pub fn are_apart(core: &Core, addends: &Seq<Addend>, mentions: &[Mention]) -> bool
    requires sound { AreSound core.now.sets (plains core.now addends.now) }
    requires numbers { AreNumbered core.now addends.now mentions.now }
    ensures { AreOnceIf (plains core.now addends.now) (variables mentions.now) result }
{
    for mention in mentions {
        let places = mention.places.as_slice();
        if factors(core, addends, places, mention.variable) > 1 {
            return false;
        }
    }
    true
}
