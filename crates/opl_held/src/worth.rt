//! What expressions come to under an assignment, part by part: what names no decision variable is evaluated, all else comes of its parts.
ghost use Rattle.std.specs.Prelude.{◌≡◌, ◌||◌, [], Ok, map, not};
ghost use Rattle.opl_eval.specs.Arithmetic as arithmetic;
ghost use Rattle.opl_eval.specs.Arithmetic.{then};
ghost use Rattle.opl_eval.specs.Compare as compare;
ghost use Rattle.opl_eval.specs.Evaluation.{found, group_meaning, integer, is_true};
ghost use Rattle.opl_eval.specs.Visible.{Gives};
ghost use Rattle.opl_draft.specs.Drafts.{Draft, array_at, steps_of};
ghost use Rattle.opl_draft.specs.Forms.{array_in};
ghost use Rattle.opl_draft.specs.Unrolled.{called};
ghost use Rattle.opl_groups.specs.Met.{met_under};
ghost use Rattle.opl_groups.specs.Visits.{latest, sees};
ghost use Rattle.opl_nodes.specs.Contexts.{arrays};
ghost use Rattle.opl_unfolding.specs.Unrolling.{live_draft, value_draft};
ghost use Rattle.opl_making.specs.Sites as sites;
ghost use Rattle.opl_held.specs.Gathered as gathering;
ghost use Rattle.opl_held.specs.Outcomes.{both, changed, told};
ghost use Rattle.opl_held.specs.Signs as signs;
ghost use Rattle.opl_held.specs.Sourced as spec;
ghost use Rattle.opl_held.specs.Worth as parts;

use crate::arrays;
use crate::combine::{compared, implied, negated, opposite, unsigned};
use crate::connective::{Connective, met, start, truth};
use crate::names::{difference, named};
use crate::outcome::Outcome;
use crate::sign::Sign;
use crate::sum::{Sum, begun, ended, stepped};
use crate::total::{gathered, nothing};
use opl_declared::is_mentioned;
use opl_eval::{EvalFault, eval};
use opl_groups::{Choices, Scope};
use opl_list::Boxed;
use opl_making::{Site, array_number};
use opl_term::{GroupTerm, Step, Term};
use opl_tree::{AggregateOp, CallOp, Relation};
use opl_value::Value;
use std::alloc::Global;

/// What an expression comes to under an assignment, or its first fault without variables. The nesting of the expression is the depth of
/// the recursion.
#[cycle(worths)]
pub(crate) fn worth(
    alloc: Global,
    site: Site<'_>,
    scope: Scope<'_>,
    values: &[i64],
    term: &Term,
) -> Result<Outcome<Value>, EvalFault>
    requires { sites.IsSite site scope.environment.now }
    ensures { Gives (λ part. part) (spec.term_worth site.entry scope.entry values.now term.now) result }
{
    opl_unfolding::laws::live_drafts();
    opl_unfolding::laws::value_drafts();
    if is_mentioned(site.declared, term) {
        live_worth(alloc, site, scope, values, term)
    } else {
        evaluated(alloc, site, scope, values, term)
    }
}

/// What an expression that names no decision variable comes to.
fn evaluated(
    alloc: Global,
    site: Site<'_>,
    scope: Scope<'_>,
    values: &[i64],
    term: &Term,
) -> Result<Outcome<Value>, EvalFault>
    ensures { Gives (λ part. part) (spec.worth_at site.entry values.now (value_draft (sites.items site.entry) (sites.names site.entry) term.now (sees scope.entry))) result }
{
    match eval(alloc, scope.environment, scope.parameters, term) {
        Ok(value) => Ok(Outcome::Fixed(value)),
        Err(fault) => Err(fault),
    }
}

/// What an expression in which a decision variable is named comes to.
#[tactic(auto, using(opl_eval::proofs::Weights::weights))]
#[cycle(worths)]
fn live_worth(
    alloc: Global,
    site: Site<'_>,
    scope: Scope<'_>,
    values: &[i64],
    term: &Term,
) -> Result<Outcome<Value>, EvalFault>
    requires { sites.IsSite site scope.environment.now }
    ensures { Gives (λ part. part) (spec.worth_at site.entry values.now (live_draft (sites.items site.entry) (sites.names site.entry) term.now (sees scope.entry))) result }
{
    opl_unfolding::laws::bodies_by_choice();
    match term {
        Term::Number(_, number) => Ok(Outcome::Fixed(Value::Int(*number))),
        Term::Named(_, name) => named(alloc, site, scope, values, name.as_slice()),
        Term::Bracket(_, inner) => worth(alloc, site, scope, values, inner.get()),
        Term::Negative(at, inner) => negative(alloc, site, scope, values, *at, inner.get()),
        Term::Chain(at, first, steps) => {
            chain(
                alloc,
                site,
                scope,
                values,
                *at,
                first.get(),
                steps.as_slice(),
            )
        }
        Term::Related(_, left, relation, right) => {
            comparison(
                alloc,
                site,
                scope,
                values,
                left.get(),
                *relation,
                right.get(),
            )
        }
        Term::Equivalent(_, terms) => {
            connected(
                alloc,
                site,
                scope,
                values,
                Connective::Equivalent,
                terms.as_slice(),
            )
        }
        Term::Implied(_, premise, conclusion) => {
            implication(alloc, site, scope, values, premise.get(), conclusion.get())
        }
        Term::Or(_, terms) => {
            connected(alloc, site, scope, values, Connective::Or, terms.as_slice())
        }
        Term::And(_, terms) => {
            connected(
                alloc,
                site,
                scope,
                values,
                Connective::And,
                terms.as_slice(),
            )
        }
        Term::Not(_, inner) => negation(alloc, site, scope, values, inner.get()),
        Term::Aggregate(at, operation, groups, condition, body) => {
            aggregate(
                alloc,
                site,
                scope,
                values,
                *at,
                *operation,
                groups.as_slice(),
                condition,
                body.get(),
            )
        }
        Term::Call(at, operation, inner) => {
            call(alloc, site, scope, values, *at, *operation, inner.get())
        }
        Term::AllDifferent(_, array) => difference(alloc, site, scope, values, array.get()),
        Term::Element(at, base, subscripts) => {
            element(
                alloc,
                site,
                scope,
                values,
                *at,
                base.get(),
                subscripts.as_slice(),
            )
        }
        Term::Member(..)
        | Term::Question(..)
        | Term::Fields(..)
        | Term::Record(..)
        | Term::Listed(..)
        | Term::Described(..)
        | Term::Array(..)
        | Term::KeyedArray(..) => Ok(Outcome::Fixed(Value::Int(0))),
    }
}

// ---- numbers

/// `- a`
#[cycle(worths)]
fn negative(
    alloc: Global,
    site: Site<'_>,
    scope: Scope<'_>,
    values: &[i64],
    at: u32,
    inner: &Term,
) -> Result<Outcome<Value>, EvalFault>
    requires { sites.IsSite site scope.environment.now }
    ensures { Gives (λ part. part) (then (spec.term_worth site.entry scope.entry values.now inner.now) (λ o. told (changed (λ v. integer (arithmetic.negative at (compare.number v))) o))) result }
{
    match worth(alloc, site, scope, values, inner) {
        Ok(part) => negated(at, part),
        Err(fault) => Err(fault),
    }
}

/// `abs(a)`; `card(S)` is of data alone.
#[cycle(worths)]
fn call(
    alloc: Global,
    site: Site<'_>,
    scope: Scope<'_>,
    values: &[i64],
    at: u32,
    operation: CallOp,
    inner: &Term,
) -> Result<Outcome<Value>, EvalFault>
    requires { sites.IsSite site scope.environment.now }
    ensures { Gives (λ part. part) (spec.worth_at site.entry values.now (called operation at (sites.draft site.entry scope.entry inner.now))) result }
{
    match operation {
        CallOp::Absolute => absolute(alloc, site, scope, values, at, inner),
        CallOp::Cardinality => Ok(Outcome::Fixed(Value::Int(0))),
    }
}

/// `abs(a)`
#[cycle(worths)]
fn absolute(
    alloc: Global,
    site: Site<'_>,
    scope: Scope<'_>,
    values: &[i64],
    at: u32,
    inner: &Term,
) -> Result<Outcome<Value>, EvalFault>
    requires { sites.IsSite site scope.environment.now }
    ensures { Gives (λ part. part) (then (spec.term_worth site.entry scope.entry values.now inner.now) (λ o. told (changed (λ v. integer (arithmetic.absolute at (compare.number v))) o))) result }
{
    match worth(alloc, site, scope, values, inner) {
        Ok(part) => unsigned(at, part),
        Err(fault) => Err(fault),
    }
}

/// `a + b - ..` and the like.
#[cycle(worths)]
fn chain(
    alloc: Global,
    site: Site<'_>,
    scope: Scope<'_>,
    values: &[i64],
    at: u32,
    first: &Term,
    steps: &[Step],
) -> Result<Outcome<Value>, EvalFault>
    requires { sites.IsSite site scope.environment.now }
    ensures { Gives (λ part. part) (spec.worth_at site.entry values.now (Draft.chain at (sites.draft site.entry scope.entry first.now) (steps_of (sites.step_drafts site.entry scope.entry steps.now)))) result }
{
    match worth(alloc, site, scope, values, first) {
        Ok(part) => chain_from(alloc, site, scope, values, at, begun(part), steps),
        Err(fault) => Err(fault),
    }
}

/// What a sum comes to behind the steps of a chain.
#[cycle(worths)]
fn chain_from(
    alloc: Global,
    site: Site<'_>,
    scope: Scope<'_>,
    values: &[i64],
    at: u32,
    sum: Sum,
    steps: &[Step],
) -> Result<Outcome<Value>, EvalFault>
    requires { sites.IsSite site scope.environment.now }
    ensures { Gives (λ part. part) (then (spec.steps_behind site.entry scope.entry values.now at sum steps.now) (λ s. found (changed Value.Int) (told s))) result }
{
    match steps_taken(alloc, site, scope, values, at, sum, steps) {
        Ok(sum) => ended(sum),
        Err(fault) => Err(fault),
    }
}

/// A sum behind the steps of a chain.
#[tactic(auto, using(opl_eval::proofs::Weights::weights_of_lists))]
#[cycle(worths)]
fn steps_taken(
    alloc: Global,
    site: Site<'_>,
    scope: Scope<'_>,
    values: &[i64],
    at: u32,
    sum: Sum,
    steps: &[Step],
) -> Result<Sum, EvalFault>
    requires { sites.IsSite site scope.environment.now }
    ensures { Gives (λ sum. sum) (spec.steps_behind site.entry scope.entry values.now at sum steps.now) result }
{
    let mut sum = sum;
    for step in steps {
        match step_taken(alloc, site, scope, values, at, sum, step) {
            Ok(next) => sum = next,
            Err(fault) => return Err(fault),
        }
    }
    Ok(sum)
}

/// A sum behind one step more.
#[tactic(auto, using(opl_eval::proofs::Weights::weights_of_steps))]
#[cycle(worths)]
fn step_taken(
    alloc: Global,
    site: Site<'_>,
    scope: Scope<'_>,
    values: &[i64],
    at: u32,
    sum: Sum,
    step: &Step,
) -> Result<Sum, EvalFault>
    requires { sites.IsSite site scope.environment.now }
    ensures { Gives (λ sum. sum) (spec.step_behind site.entry scope.entry values.now at sum step.now) result }
{
    opl_unfolding::laws::drafts_of_steps();
    match step {
        Step::Plus(inner) => signed_step(alloc, site, scope, values, at, Sign::Plus, sum, inner),
        Step::Minus(inner) => {
            signed_step(alloc, site, scope, values, at, Sign::Minus, sum, inner)
        }
        Step::Times(inner) => {
            signed_step(alloc, site, scope, values, at, Sign::Times, sum, inner)
        }
        Step::Quotient(inner) => {
            signed_step(alloc, site, scope, values, at, Sign::Quotient, sum, inner)
        }
        Step::Remainder(inner) => {
            signed_step(alloc, site, scope, values, at, Sign::Remainder, sum, inner)
        }
    }
}

/// The same by what the step does, and its operand.
#[cycle(worths)]
fn signed_step(
    alloc: Global,
    site: Site<'_>,
    scope: Scope<'_>,
    values: &[i64],
    at: u32,
    sign: Sign,
    sum: Sum,
    inner: &Term,
) -> Result<Sum, EvalFault>
    requires { sites.IsSite site scope.environment.now }
    ensures { Gives (λ sum. sum) (then (spec.term_worth site.entry scope.entry values.now inner.now) (λ o. parts.stepped at (signs.sign sign) sum o)) result }
{
    match worth(alloc, site, scope, values, inner) {
        Ok(part) => stepped(at, sign, sum, part),
        Err(fault) => Err(fault),
    }
}

/// `a = b` and the like.
#[cycle(worths)]
fn comparison(
    alloc: Global,
    site: Site<'_>,
    scope: Scope<'_>,
    values: &[i64],
    left: &Term,
    relation: Relation,
    right: &Term,
) -> Result<Outcome<Value>, EvalFault>
    requires { sites.IsSite site scope.environment.now }
    ensures { Gives (λ part. part) (then (spec.term_worth site.entry scope.entry values.now left.now) (λ o. found (λ p. changed (λ p. Value.Bool (compare.relates relation p.0 p.1)) (both o p)) (spec.term_worth site.entry scope.entry values.now right.now))) result }
{
    match worth(alloc, site, scope, values, left) {
        Ok(part) => compared_to(alloc, site, scope, values, part, relation, right),
        Err(fault) => Err(fault),
    }
}

/// A part compared with an expression.
#[cycle(worths)]
fn compared_to(
    alloc: Global,
    site: Site<'_>,
    scope: Scope<'_>,
    values: &[i64],
    left: Outcome<Value>,
    relation: Relation,
    right: &Term,
) -> Result<Outcome<Value>, EvalFault>
    requires { sites.IsSite site scope.environment.now }
    ensures { Gives (λ part. part) (found (λ p. changed (λ p. Value.Bool (compare.relates relation p.0 p.1)) (both left p)) (spec.term_worth site.entry scope.entry values.now right.now)) result }
{
    match worth(alloc, site, scope, values, right) {
        Ok(part) => Ok(compared(relation, left, part)),
        Err(fault) => Err(fault),
    }
}

// ---- truths

/// `a => b`
#[cycle(worths)]
fn implication(
    alloc: Global,
    site: Site<'_>,
    scope: Scope<'_>,
    values: &[i64],
    premise: &Term,
    conclusion: &Term,
) -> Result<Outcome<Value>, EvalFault>
    requires { sites.IsSite site scope.environment.now }
    ensures { Gives (λ part. part) (then (spec.term_worth site.entry scope.entry values.now premise.now) (λ o. found (λ p. changed (λ p. Value.Bool (not (is_true p.0) || is_true p.1)) (both o p)) (spec.term_worth site.entry scope.entry values.now conclusion.now))) result }
{
    match worth(alloc, site, scope, values, premise) {
        Ok(part) => implied_by(alloc, site, scope, values, part, conclusion),
        Err(fault) => Err(fault),
    }
}

/// `a => b` where the premise is there.
#[cycle(worths)]
fn implied_by(
    alloc: Global,
    site: Site<'_>,
    scope: Scope<'_>,
    values: &[i64],
    premise: Outcome<Value>,
    conclusion: &Term,
) -> Result<Outcome<Value>, EvalFault>
    requires { sites.IsSite site scope.environment.now }
    ensures { Gives (λ part. part) (found (λ p. changed (λ p. Value.Bool (not (is_true p.0) || is_true p.1)) (both premise p)) (spec.term_worth site.entry scope.entry values.now conclusion.now)) result }
{
    match worth(alloc, site, scope, values, conclusion) {
        Ok(part) => Ok(implied(premise, part)),
        Err(fault) => Err(fault),
    }
}

/// `not a`
#[cycle(worths)]
fn negation(
    alloc: Global,
    site: Site<'_>,
    scope: Scope<'_>,
    values: &[i64],
    inner: &Term,
) -> Result<Outcome<Value>, EvalFault>
    requires { sites.IsSite site scope.environment.now }
    ensures { Gives (λ part. part) (found (changed (λ v. Value.Bool (not (is_true v)))) (spec.term_worth site.entry scope.entry values.now inner.now)) result }
{
    match worth(alloc, site, scope, values, inner) {
        Ok(part) => Ok(opposite(part)),
        Err(fault) => Err(fault),
    }
}

/// `a <=> b <=> ..`, `a \/ b \/ ..`, `a & b & ..`
#[cycle(worths)]
fn connected(
    alloc: Global,
    site: Site<'_>,
    scope: Scope<'_>,
    values: &[i64],
    connective: Connective,
    terms: &[Term],
) -> Result<Outcome<Value>, EvalFault>
    requires { sites.IsSite site scope.environment.now }
    ensures { Gives (λ part. part) (found (changed Value.Bool) (spec.terms_behind site.entry scope.entry values.now (gathering.met connective) (Outcome.Fixed (gathering.start connective)) terms.now)) result }
{
    match truths(alloc, site, scope, values, connective, terms) {
        Ok(holds) => Ok(truth(holds)),
        Err(fault) => Err(fault),
    }
}

/// The truths of expressions put together.
#[tactic(auto, using(opl_eval::proofs::Weights::weights_of_lists))]
#[cycle(worths)]
fn truths(
    alloc: Global,
    site: Site<'_>,
    scope: Scope<'_>,
    values: &[i64],
    connective: Connective,
    terms: &[Term],
) -> Result<Outcome<bool>, EvalFault>
    requires { sites.IsSite site scope.environment.now }
    ensures { Gives (λ holds. holds) (spec.terms_behind site.entry scope.entry values.now (gathering.met connective) (Outcome.Fixed (gathering.start connective)) terms.now) result }
{
    let mut so_far = Outcome::Fixed(start(connective));
    for term in terms {
        match worth(alloc, site, scope, values, term) {
            Ok(part) => so_far = met(connective, so_far, part),
            Err(fault) => return Err(fault),
        }
    }
    Ok(so_far)
}

// ---- several

/// `sum (GROUPS : c) a` and the like.
#[cycle(worths)]
fn aggregate(
    alloc: Global,
    site: Site<'_>,
    scope: Scope<'_>,
    values: &[i64],
    at: u32,
    operation: AggregateOp,
    groups: &[GroupTerm],
    condition: &Option<Boxed<Term>>,
    body: &Term,
) -> Result<Outcome<Value>, EvalFault>
    requires { sites.IsSite site scope.environment.now }
    ensures { Gives (λ part. part) (then (spec.bodies_behind site.entry values.now operation at (Outcome.Fixed (gathering.nothing operation at)) body.now (met_under (map group_meaning groups.now) condition.now (sees scope.entry))) (λ s. found (changed Value.Int) (told s))) result }
{
    match bodies(
        alloc, site, scope, values, at, operation, groups, condition, body,
    ) {
        Ok(total) => ended(total),
        Err(fault) => Err(fault),
    }
}

/// The bodies of an aggregate put together, under one choice of its groups after another. More than 2^64 - 1 of them count as want of
/// memory.
#[cycle(worths)]
fn bodies(
    alloc: Global,
    site: Site<'_>,
    scope: Scope<'_>,
    values: &[i64],
    at: u32,
    operation: AggregateOp,
    groups: &[GroupTerm],
    condition: &Option<Boxed<Term>>,
    body: &Term,
) -> Result<Sum, EvalFault>
    requires { sites.IsSite site scope.environment.now }
    ensures { Gives (λ sum. sum) (spec.bodies_behind site.entry values.now operation at (Outcome.Fixed (gathering.nothing operation at)) body.now (met_under (map group_meaning groups.now) condition.now (sees scope.entry))) result }
{
    let mut choices = Choices::new(alloc, groups, condition);
    let mut total = Outcome::Fixed(nothing(operation, at));
    for _ in 0..u64::MAX {
        let is_met = choices.advance(alloc, scope)?;
        if !is_met {
            return Ok(total);
        }
        match body_worth(alloc, site, scope, values, &choices, body) {
            Ok(part) => total = gathered(operation, at, total, part),
            Err(fault) => return Err(fault),
        }
    }
    Err(EvalFault::OutOfMemory)
}

/// The body of an aggregate under the latest of its choices.
#[cycle(worths)]
fn body_worth(
    alloc: Global,
    site: Site<'_>,
    scope: Scope<'_>,
    values: &[i64],
    choices: &Choices<'_>,
    body: &Term,
) -> Result<Outcome<Value>, EvalFault>
    requires { sites.IsSite site scope.environment.now }
    ensures { Gives (λ part. part) (spec.body_worth site.entry values.now body.now (latest choices.now (sees scope.entry))) result }
{
    let parameters = (&*choices).parameters(alloc, scope)?;
    let inner = Scope {
        environment: scope.environment,
        parameters: parameters.as_slice(),
    };
    worth(alloc, site, inner, values, body)
}

/// Expressions one after another.
#[tactic(auto, using(opl_eval::proofs::Weights::weights_of_lists))]
#[cycle(worths)]
fn each(
    alloc: Global,
    site: Site<'_>,
    scope: Scope<'_>,
    values: &[i64],
    terms: &[Term],
) -> Result<Vec<Outcome<Value>>, EvalFault>
    requires { sites.IsSite site scope.environment.now }
    ensures { Gives (λ found. found.items) (spec.terms_behind site.entry scope.entry values.now gathering.longer [] terms.now) result }
{
    let mut found = Vec::new(alloc);
    for term in terms {
        match worth(alloc, site, scope, values, term) {
            Ok(part) => found.push(part)?,
            Err(fault) => return Err(fault),
        }
    }
    Ok(found)
}

/// `a[b,..]`
#[cycle(worths)]
fn element(
    alloc: Global,
    site: Site<'_>,
    scope: Scope<'_>,
    values: &[i64],
    at: u32,
    base: &Term,
    subscripts: &[Term],
) -> Result<Outcome<Value>, EvalFault>
    requires { sites.IsSite site scope.environment.now }
    ensures { Gives (λ part. part) (then (spec.terms_behind site.entry scope.entry values.now gathering.longer [] subscripts.now) (parts.indexed [] values.now at (array_at (arrays site.entry.context.now) [] (array_in (sites.items site.entry) (sites.names site.entry) base.now (sees scope.entry))))) result }
{
    let array = array_number(site, scope, base)?;
    match each(alloc, site, scope, values, subscripts) {
        Ok(found) => { arrays::element(alloc, at, site.context, array, found.as_slice(), values) }
        Err(fault) => Err(fault),
    }
}
