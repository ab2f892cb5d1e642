//! Where decision variables are named.
ghost use Rattle.std.specs.Prelude.{◌≡◌, ◌||◌, map};
ghost use Rattle.std.specs.Option.{option_map};
ghost use Rattle.opl_declared.specs.Kept.{names_in};
ghost use Rattle.opl_meaning.specs.Runs as spec;

use crate::declared::Declared;
use opl_list::Boxed;
use opl_term::{GroupTerm, SetTerm, Step, Term};

/// Whether a name is that of a decision variable.
#[tactic(auto, unfolding(crate::specs::Kept::names_in))]
fn is_variable(declared: &Declared<'_>, name: &[u8]) -> bool
    ensures { result ≡ spec.is_among (names_in declared.now).all name.now }
{
    declared.names.contains(name)
}

/// Whether a decision variable is named in a term. It takes no memory.
#[tactic(auto, using(opl_meaning::proofs::Named::mentions))]
#[cycle(mentions)]
pub fn is_mentioned(declared: &Declared<'_>, term: &Term) -> bool
    ensures { result ≡ (spec.use_of (names_in declared.now) term.now).is_mentioned }
{
    match term {
        Term::Number(..) => false,
        Term::Named(_, name) => is_variable(declared, name.as_slice()),
        Term::Bracket(_, inner) => is_mentioned(declared, inner.get()),
        Term::Negative(_, operand) => is_mentioned(declared, operand.get()),
        Term::Chain(_, first, steps) => {
            is_mentioned(declared, first.get()) || in_steps(declared, steps.as_slice())
        }
        Term::Related(_, left, _, right) => {
            is_mentioned(declared, left.get()) || is_mentioned(declared, right.get())
        }
        Term::Member(_, value, over) => is_mentioned(declared, value.get())
            || in_set(declared, over),
        Term::Equivalent(_, terms) => in_terms(declared, terms.as_slice()),
        Term::Implied(_, premise, conclusion) => {
            is_mentioned(declared, premise.get()) || is_mentioned(declared, conclusion.get())
        }
        Term::Or(_, terms) => in_terms(declared, terms.as_slice()),
        Term::And(_, terms) => in_terms(declared, terms.as_slice()),
        Term::Not(_, operand) => is_mentioned(declared, operand.get()),
        Term::Aggregate(_, _, groups, condition, body) => {
            in_groups(declared, groups.as_slice())
                || in_condition(declared, condition)
                || is_mentioned(declared, body.get())
        }
        Term::Call(_, _, operand) => is_mentioned(declared, operand.get()),
        Term::AllDifferent(_, array) => is_mentioned(declared, array.get()),
        Term::Question(_, _, operand) => is_mentioned(declared, operand.get()),
        Term::Element(_, base, subscripts) => {
            is_mentioned(declared, base.get()) || in_terms(declared, subscripts.as_slice())
        }
        Term::Fields(_, record, _) => is_mentioned(declared, record.get()),
        Term::Record(_, terms) => in_terms(declared, terms.as_slice()),
        Term::Listed(_, terms) => in_terms(declared, terms.as_slice()),
        Term::Described(_, body, groups, condition) => {
            let by_groups = in_groups(declared, groups.as_slice());
            let by_condition = in_condition(declared, condition);
            one_of(by_groups, by_condition, is_mentioned(declared, body.get()))
        }
        Term::Array(_, terms) => in_terms(declared, terms.as_slice()),
        Term::KeyedArray(_, keys, cells) => {
            in_terms(declared, keys.as_slice()) || in_terms(declared, cells.as_slice())
        }
    }
}

/// Whether one of three holds.
fn one_of(first: bool, second: bool, third: bool) -> bool
    ensures { result ≡ ((first || second) || third) }
{
    first || second || third
}

/// Whether one is named in these terms.
#[cycle(mentions)]
fn in_terms(declared: &Declared<'_>, terms: &[Term]) -> bool
    ensures { result ≡ spec.any_mentioned (map (spec.use_of (names_in declared.now)) terms.now) }
{
    for term in terms {
        if is_mentioned(declared, term) {
            return true;
        }
    }
    false
}

/// Whether one is named in these steps of a chain.
#[cycle(mentions)]
fn in_steps(declared: &Declared<'_>, steps: &[Step]) -> bool
    ensures { result ≡ spec.any (map (spec.step_use (names_in declared.now)) steps.now) }
{
    for step in steps {
        if in_step(declared, step) {
            return true;
        }
    }
    false
}

/// Whether one is named in a step of a chain.
#[tactic(auto, using(opl_meaning::proofs::Named::mentions))]
#[cycle(mentions)]
fn in_step(declared: &Declared<'_>, step: &Step) -> bool
    ensures { result ≡ spec.step_use (names_in declared.now) step.now }
{
    match step {
        Step::Plus(operand) => is_mentioned(declared, operand),
        Step::Minus(operand) => is_mentioned(declared, operand),
        Step::Times(operand) => is_mentioned(declared, operand),
        Step::Quotient(operand) => is_mentioned(declared, operand),
        Step::Remainder(operand) => is_mentioned(declared, operand),
    }
}

/// Whether one is named in a set.
#[tactic(auto, using(opl_meaning::proofs::Named::mentions))]
#[cycle(mentions)]
fn in_set(declared: &Declared<'_>, set: &SetTerm) -> bool
    ensures { result ≡ spec.set_use (names_in declared.now) set.now }
{
    match set {
        SetTerm::Whole(term) => is_mentioned(declared, term.get()),
        SetTerm::Between(low, high) => {
            is_mentioned(declared, low.get()) || is_mentioned(declared, high.get())
        }
    }
}

/// Whether one is named in the sets of these groups of parameters.
#[cycle(mentions)]
fn in_groups(declared: &Declared<'_>, groups: &[GroupTerm]) -> bool
    ensures { result ≡ spec.any (map (spec.group_use (names_in declared.now)) groups.now) }
{
    for group in groups {
        if in_group(declared, group) {
            return true;
        }
    }
    false
}

/// Whether one is named in the set of a group of parameters.
#[tactic(auto, using(opl_meaning::proofs::Named::mentions))]
#[cycle(mentions)]
fn in_group(declared: &Declared<'_>, group: &GroupTerm) -> bool
    ensures { result ≡ spec.group_use (names_in declared.now) group.now }
{
    match group {
        GroupTerm::Unordered(_, over) => in_set(declared, over),
        GroupTerm::Ordered(_, over) => in_set(declared, over),
    }
}

/// Whether one is named in a condition, if there is one.
#[cycle(mentions)]
fn in_condition(declared: &Declared<'_>, condition: &Option<Boxed<Term>>) -> bool
    ensures { result ≡ spec.mentioned_or (option_map (spec.use_of (names_in declared.now)) condition.now) }
{
    match condition {
        None => false,
        Some(condition) => is_mentioned(declared, condition.get()),
    }
}
