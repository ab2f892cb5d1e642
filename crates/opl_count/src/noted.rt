//! What is paid with the sets of a view, where notes tell which literals are refuted.
ghost use Rattle.std.specs.Prelude.{◌≡◌, ◌+◌, ◌<◌, ◌^◌, true, length, slice_get, Some};
ghost use Rattle.opl_domain.specs.Family.{Below};
ghost use Rattle.opl_expr.specs.Solutions.{declared};
ghost use Rattle.opl_filter.specs.Filtering.{refutes};
ghost use Rattle.opl_notes.specs.Noted.{is_noted, Knows, Tells};
ghost use Rattle.opl_reify.specs.Parts.{IsPart};
ghost use Rattle.opl_count.specs.declared.sum.Literal.{Literal as Counted};
ghost use Rattle.opl_count.specs.Costs.{fact_of, price, prices, weights, HaveParts};
ghost use Rattle.opl_count.specs.Places.{means_literals, Writes};

use crate::costs::is_refuted;
use crate::sum::Literal;
use opl_domain::View;
use opl_expr::Core;
use opl_notes::Notes;

/// Whether a literal is refuted: as it is noted at a place, or else as the literal tells, which is noted then.
#[inline(always)]
fn is_refuted_at<V: View>(
    core: &Core,
    literal: &Literal,
    place: u32,
    notes: &mut Notes,
    view: &V,
) -> bool
    requires part { IsPart core.now literal.now.part }
    requires within { Below (V.family view.now) (declared core.now) }
    requires place { place < length notes.old.top }
    requires right { is_noted notes.old.top place ≡ true → refutes (fact_of core.now literal.now) (V.family view.now) ≡ true }
    ensures refuted { result ≡ refutes (fact_of core.now literal.now) (V.family view.now) }
    ensures writes { Writes notes.old place result notes.new }
{
    if notes.has(place) {
        return true;
    }
    if !is_refuted(core, literal, view) {
        return false;
    }
    notes.note(place);
    true
}

/// Whether the literal at a place of the list is refuted, by its note if it has a place for one.
#[inline(always)]
pub fn is_refuted_as_noted<V: View>(
    core: &Core,
    literals: &[Literal],
    first_place: Option<u32>,
    at: usize,
    notes: &mut Notes,
    view: &V,
) -> bool
    requires parts { HaveParts core.now literals.now }
    requires there { at < length literals.now }
    requires within { Below (V.family view.now) (declared core.now) }
    requires knows { Knows (means_literals core.now literals.now first_place) notes.old.top (V.family view.now) }
    ensures refuted { (l : Counted) → slice_get literals.now at ≡ Some l → result ≡ refutes (fact_of core.now l) (V.family view.now) }
    ensures tells { Tells (means_literals core.now literals.now first_place) notes.old (V.family view.now) notes.new (V.family view.now) }
{
    match first_place {
        None => is_refuted(core, &literals[at], view),
        Some(first) => is_refuted_at(core, &literals[at], first + at as u32, notes, view),
    }
}

/// What is paid for the literal at a place of the list.
#[inline(always)]
fn price_as_noted<V: View>(
    core: &Core,
    literals: &[Literal],
    first_place: Option<u32>,
    at: usize,
    notes: &mut Notes,
    view: &V,
) -> u128
    requires parts { HaveParts core.now literals.now }
    requires there { at < length literals.now }
    requires within { Below (V.family view.now) (declared core.now) }
    requires knows { Knows (means_literals core.now literals.now first_place) notes.old.top (V.family view.now) }
    ensures price { (l : Counted) → slice_get literals.now at ≡ Some l → result ≡ price core.now (V.family view.now) l }
    ensures tells { Tells (means_literals core.now literals.now first_place) notes.old (V.family view.now) notes.new (V.family view.now) }
{
    if is_refuted_as_noted(core, literals, first_place, at, notes, view) {
        literals[at].weight
    } else {
        0
    }
}

/// What is paid together.
pub fn cost_as_noted<V: View>(
    core: &Core,
    literals: &[Literal],
    first_place: Option<u32>,
    paid: u128,
    notes: &mut Notes,
    view: &V,
) -> u128
    requires parts { HaveParts core.now literals.now }
    requires fits { paid + weights literals.now < 2 ^ 128 }
    requires within { Below (V.family view.now) (declared core.now) }
    requires knows { Knows (means_literals core.now literals.now first_place) notes.old.top (V.family view.now) }
    ensures cost { result ≡ paid + prices core.now (V.family view.now) literals.now }
    ensures tells { Tells (means_literals core.now literals.now first_place) notes.old (V.family view.now) notes.new (V.family view.now) }
{
    let mut total = paid;
    let mut left = literals.len();
    while left > 0 {
        left -= 1;
        total += price_as_noted(core, literals, first_place, left, notes, view);
    }
    total
}
