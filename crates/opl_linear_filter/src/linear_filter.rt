//! The filter of a comparison whose sides are linear.
ghost use Rattle.std.specs.Prelude.{◌≡◌, true, IfOk};
ghost use Rattle.opl_domain.specs.Family.{Below};
ghost use Rattle.opl_expr.specs.Forms.{Fact, fact, compared};
ghost use Rattle.opl_expr.specs.Range.{pure};
ghost use Rattle.opl_expr.specs.Solutions.{declared};
ghost use Rattle.opl_expr.specs.Sound.{IsSoundFact};
ghost use Rattle.opl_filter.specs.Filtering.{refutes, IsBetween, Filters};
ghost use Rattle.opl_range.specs.Between.{term_of, CanCompare};
ghost use Rattle.opl_linear_filter.specs.Ends.{sees_ends};
ghost use Rattle.opl_linear_filter.specs.LinearForms.{IsMade, IsDifference, IsFilterOf, IsMadeForSides, IsFilterIfAny, IsThereFor, DecidesByValues};

use crate::constant::constant_part;
use crate::numbers::less;
use crate::parts::{is_short, parts_between};
use crate::short::{filter_short, has_zero};
use opl_domain::{Narrow, OutOfMemory, View};
use opl_expr::{Cons, Core, Expr, Op};
use opl_filter::Outcome;
use opl_linear::{Kind, filter_form, is_rejected};
use opl_list::Seq;
use opl_range::is_linear;
use std::alloc::Global;

/// The linear form of the difference of two sides, and what it is to be: the sum of some variables, each once with its factor,
/// and a constant.
#[derive(Drop)]
pub struct LinearFilter {
    kind: Kind,
    parts: Seq<(u32, i128)>,
    /// The same variables with the opposite factors.
    opposites: Seq<(u32, i128)>,
    constant: i128,
}

/// The form of `a` less `b`, which is to be as `kind` says.
fn difference(
    alloc: Global,
    core: &Core,
    kind: Kind,
    a: &Expr,
    b: &Expr,
) -> Result<LinearFilter, OutOfMemory>
    requires sound { CanCompare core.now a.now b.now }
    requires first { pure (term_of core.now a.now) ≡ true }
    requires second { pure (term_of core.now b.now) ≡ true }
    ensures { IfOk result (IsDifference core.now kind (term_of core.now a.now) (term_of core.now b.now)) }
{
    let (parts, opposites) = parts_between(alloc, core, a, b)?;
    let constant = less(constant_part(core, a), constant_part(core, b));
    Ok(LinearFilter {
        kind,
        parts,
        opposites,
        constant,
    })
}

/// The filter of a comparison, if its sides are linear.
fn of_comparison(
    alloc: Global,
    core: &Core,
    op: Op,
    a: &Expr,
    b: &Expr,
) -> Result<Option<LinearFilter>, OutOfMemory>
    requires { IsSoundFact core.now.sets (compared op (term_of core.now a.now) (term_of core.now b.now)) }
    ensures { IfOk result (IsMadeForSides core.now op (term_of core.now a.now) (term_of core.now b.now)) }
{
    if !is_linear(core, a) || !is_linear(core, b) {
        return Ok(None);
    }
    match op {
        Op::Eq => Ok(Some(difference(alloc, core, Kind::Zero, a, b)?)),
        Op::Ne => Ok(Some(difference(alloc, core, Kind::Different, a, b)?)),
        Op::Lt => Ok(Some(difference(alloc, core, Kind::Below, a, b)?)),
        Op::Le => Ok(Some(difference(alloc, core, Kind::AtMost, a, b)?)),
        Op::Gt => Ok(Some(difference(alloc, core, Kind::Below, b, a)?)),
        Op::Ge => Ok(Some(difference(alloc, core, Kind::AtMost, b, a)?)),
    }
}

impl LinearFilter {
    /// The filter of a constraint, exactly where that is a comparison of linear sides.
    pub fn new(alloc: Global, core: &Core, c: &Cons) -> Result<Option<LinearFilter>, OutOfMemory>
        requires { IsSoundFact core.now.sets (fact core.now.tables core.now.resources c.now) }
        ensures filter { IfOk result (IsFilterIfAny core.now (fact core.now.tables core.now.resources c.now)) }
        ensures kind { IfOk result (IsThereFor core.now c.now) }
    {
        match c {
            Cons::Fixed(_b) => Ok(None),
            Cons::Cmp(op, a, b) => of_comparison(alloc, core, *op, a.get(), b.get()),
            Cons::And(_parts) => Ok(None),
            Cons::Or(_parts) => Ok(None),
            Cons::Imp(_a, _b) => Ok(None),
            Cons::Iff(_a, _b) => Ok(None),
            Cons::Not(_a) => Ok(None),
            Cons::AllDifferent(_parts) => Ok(None),
            Cons::Capacity(_resource, _time) => Ok(None),
            Cons::Bound(_x) => Ok(None),
        }
    }

    /// Whether the form is to be 0, and its values decide that.
    fn is_by_values(&self) -> bool
        ensures { DecidesByValues self.now result }
    {
        match self.kind {
            Kind::AtMost => false,
            Kind::Below => false,
            Kind::Zero => is_short(self.parts.as_slice()),
            Kind::Different => false,
        }
    }

    /// Whether it has anything to remove only after a set has lost its least or greatest value.
    pub fn sees_ends(&self) -> bool
        ensures { result ≡ sees_ends self.now }
    {
        match self.kind {
            Kind::AtMost => true,
            Kind::Below => true,
            Kind::Zero => !is_short(self.parts.as_slice()),
            Kind::Different => true,
        }
    }

    /// Whether the family refutes the constraint. All values must be declared.
    pub fn is_refuted<V: View>(&self, core: &Core, view: &V) -> bool
        requires made { IsMade core.now self.now }
        requires declared { Below (V.family view.now) (declared core.now) }
        ensures { (c : Fact) → IsFilterOf core.now c self.now → result ≡ refutes c (V.family view.now) }
    {
        // No set is empty: a view says so with its number of variables.
        let _vars = view.vars();
        if self.is_by_values() {
            return !has_zero(self.parts.as_slice(), self.constant, view);
        }
        is_rejected(
            self.kind,
            self.parts.as_slice(),
            self.opposites.as_slice(),
            self.constant,
            view,
        )
    }

    /// Removes values that the constraint refutes alone at that moment, until the family is stable for it, or until none within
    /// is. All values must be declared. It takes no memory.
    pub fn filter<N: Narrow>(&self, core: &Core, n: &mut N) -> Outcome
        requires made { IsMade core.now self.now }
        requires declared { Below (N.family n.old) (declared core.now) }
        ensures between { (c : Fact) → IsFilterOf core.now c self.now → IsBetween (refutes c) (N.family n.old) (N.family n.new) }
        ensures outcome { (c : Fact) → IsFilterOf core.now c self.now → Filters (refutes c) (N.family n.old) (N.family n.new) result }
        ensures leads_to { N.leads_to n.old n.new }
    {
        // No set is empty: a view says so with its number of variables.
        let _vars = n.vars();
        if self.is_by_values() {
            return filter_short(core, self.parts.as_slice(), self.constant, n);
        }
        filter_form(
            self.kind,
            self.parts.as_slice(),
            self.opposites.as_slice(),
            self.constant,
            n,
        )
    }
}
