//! Forms of terms, made part by part.
ghost use Rattle.std.specs.Prelude.{◌≡◌, ◌∷◌, [], Ok, map};
ghost use Rattle.opl_draft.specs.Drafts.{Draft};
ghost use Rattle.opl_draft.specs.Drafts as drafts;
ghost use Rattle.opl_draft.specs.Forms.{array_in};
ghost use Rattle.opl_draft.specs.Unrolled.{called};
ghost use Rattle.opl_eval.specs.Evaluation.{group_meaning};
ghost use Rattle.opl_form.specs.Nodes as nodes;
ghost use Rattle.opl_form.specs.Nodes.{next};
ghost use Rattle.opl_groups.specs.Met.{met_under};
ghost use Rattle.opl_groups.specs.Visits.{latest, sees};
ghost use Rattle.opl_nodes.specs.Contexts.{arrays, sets};
ghost use Rattle.opl_nodes.specs.Pieces.{AreParts, IsPart, Makes, form, forms};
ghost use Rattle.opl_numbers.specs.Signs as signs;
ghost use Rattle.opl_unfolding.specs.Onto.{onto};
ghost use Rattle.opl_unfolding.specs.Unrolling.{body_met, live_draft};
ghost use Rattle.opl_making.specs.Sites as spec;

use crate::names::{difference, named_part};
use opl_declared::is_mentioned;
use opl_elements::{compared, indexed};
use opl_groups::{Choices, Scope};
use opl_list::Boxed;
use opl_making::{
    Site, array_number, draft_place, nodes_behind, nothing_part, places_of, pushed, value_part,
};
use opl_nodes::{FormFault, Part, Parts, operand, truth_node, value_node};
use opl_numbers::{Sign, absolute, aggregated, chained, negated, stepped};
use opl_term::{GroupTerm, Step, Term};
use opl_tree::{AggregateOp, CallOp, Relation};
use opl_truths::{all_hold, implied, one_holds, opposite, same, truth_part};
use opl_value::Value;
use std::alloc::Global;

/// The form of an expression, where so many nodes were made before it, or the first fault. The nesting of the expression is the depth of
/// the recursion.
#[cycle(making)]
pub fn make(
    alloc: Global,
    site: Site<'_>,
    scope: Scope<'_>,
    term: &Term,
    before: u64,
) -> Result<Part, FormFault>
    requires { spec.IsSite site scope.environment.now }
    ensures { Makes site.entry.context.now (spec.maker site.entry before (spec.draft site.entry scope.entry term.now)) result }
{
    opl_unfolding::laws::live_drafts();
    opl_unfolding::laws::value_drafts();
    if is_mentioned(site.declared, term) {
        live_part(alloc, site, scope, term, before)
    } else {
        value_part(alloc, site, scope, term, before)
    }
}

/// The form of an expression in which a decision variable is named.
#[tactic(auto, using(opl_eval::proofs::Weights::weights))]
#[cycle(making)]
fn live_part(
    alloc: Global,
    site: Site<'_>,
    scope: Scope<'_>,
    term: &Term,
    before: u64,
) -> Result<Part, FormFault>
    requires { spec.IsSite site scope.environment.now }
    ensures { Makes site.entry.context.now (spec.maker site.entry before (live_draft (spec.items site.entry) (spec.names site.entry) term.now (sees scope.entry))) result }
{
    opl_unfolding::laws::made_onto();
    opl_unfolding::laws::aggregates_by_choice();
    match term {
        Term::Number(at, number) => {
            value_node(alloc, site.context, *at, before, Value::Int(*number))
        }
        Term::Named(at, name) => named_part(alloc, site, scope, *at, name.as_slice(), before),
        Term::Bracket(_, inner) => make(alloc, site, scope, inner.get(), before),
        Term::Negative(at, inner) => { negative_part(alloc, site, scope, *at, inner.get(), before) }
        Term::Chain(at, first, steps) => {
            chain_part(
                alloc,
                site,
                scope,
                *at,
                first.get(),
                steps.as_slice(),
                before,
            )
        }
        Term::Related(at, left, relation, right) => {
            comparison(
                alloc,
                site,
                scope,
                *at,
                left.get(),
                *relation,
                right.get(),
                before,
            )
        }
        Term::Equivalent(_, terms) => { equivalence(alloc, site, scope, terms.as_slice(), before) }
        Term::Implied(_, premise, conclusion) => {
            implication(alloc, site, scope, premise.get(), conclusion.get(), before)
        }
        Term::Or(_, terms) => disjunction(alloc, site, scope, terms.as_slice(), before),
        Term::And(_, terms) => conjunction(alloc, site, scope, terms.as_slice(), before),
        Term::Not(_, inner) => negation(alloc, site, scope, inner.get(), before),
        Term::Aggregate(at, operation, groups, condition, body) => {
            aggregate(
                alloc,
                site,
                scope,
                *at,
                *operation,
                groups.as_slice(),
                condition,
                body.get(),
                before,
            )
        }
        Term::Call(at, operation, inner) => {
            call(alloc, site, scope, *at, *operation, inner.get(), before)
        }
        Term::AllDifferent(at, array) => {
            difference(alloc, site, scope, *at, array.get(), before)
        }
        Term::Element(at, base, subscripts) => {
            element(
                alloc,
                site,
                scope,
                *at,
                base.get(),
                subscripts.as_slice(),
                before,
            )
        }
        Term::Member(..)
        | Term::Question(..)
        | Term::Fields(..)
        | Term::Record(..)
        | Term::Listed(..)
        | Term::Described(..)
        | Term::Array(..)
        | Term::KeyedArray(..) => nothing_part(alloc, site, 0, before),
    }
}

// ---- numbers

/// The form of an expression in an arithmetic place.
#[cycle(making)]
fn operand_part(
    alloc: Global,
    site: Site<'_>,
    scope: Scope<'_>,
    term: &Term,
    before: u64,
) -> Result<Part, FormFault>
    requires { spec.IsSite site scope.environment.now }
    ensures { Makes site.entry.context.now (spec.operand_maker site.entry before (spec.draft site.entry scope.entry term.now)) result }
{
    let at = draft_place(site.declared, term);
    match make(alloc, site, scope, term, before) {
        Ok(part) => operand(site.context, at, before, part),
        Err(fault) => Err(fault),
    }
}

/// `- a`
#[cycle(making)]
fn negative_part(
    alloc: Global,
    site: Site<'_>,
    scope: Scope<'_>,
    at: u32,
    inner: &Term,
    before: u64,
) -> Result<Part, FormFault>
    requires { spec.IsSite site scope.environment.now }
    ensures { Makes site.entry.context.now (spec.maker site.entry before (Draft.negated at (spec.draft site.entry scope.entry inner.now))) result }
{
    match operand_part(alloc, site, scope, inner, before) {
        Ok(part) => negated(alloc, site.context, at, before, part),
        Err(fault) => Err(fault),
    }
}

/// `abs(a)`; `card(S)` is of data alone.
#[cycle(making)]
fn call(
    alloc: Global,
    site: Site<'_>,
    scope: Scope<'_>,
    at: u32,
    operation: CallOp,
    inner: &Term,
    before: u64,
) -> Result<Part, FormFault>
    requires { spec.IsSite site scope.environment.now }
    ensures { Makes site.entry.context.now (spec.maker site.entry before (called operation at (spec.draft site.entry scope.entry inner.now))) result }
{
    match operation {
        CallOp::Absolute => absolute_part(alloc, site, scope, at, inner, before),
        CallOp::Cardinality => nothing_part(alloc, site, at, before),
    }
}

/// `abs(a)`
#[cycle(making)]
fn absolute_part(
    alloc: Global,
    site: Site<'_>,
    scope: Scope<'_>,
    at: u32,
    inner: &Term,
    before: u64,
) -> Result<Part, FormFault>
    requires { spec.IsSite site scope.environment.now }
    ensures { Makes site.entry.context.now (spec.maker site.entry before (Draft.absolute at (spec.draft site.entry scope.entry inner.now))) result }
{
    match operand_part(alloc, site, scope, inner, before) {
        Ok(part) => absolute(alloc, site.context, at, before, part),
        Err(fault) => Err(fault),
    }
}

/// `a + b - ..` and the like.
#[cycle(making)]
fn chain_part(
    alloc: Global,
    site: Site<'_>,
    scope: Scope<'_>,
    at: u32,
    first: &Term,
    steps: &[Step],
    before: u64,
) -> Result<Part, FormFault>
    requires { spec.IsSite site scope.environment.now }
    ensures { Makes site.entry.context.now (spec.maker site.entry before (Draft.chain at (spec.draft site.entry scope.entry first.now) (drafts.steps_of (spec.step_drafts site.entry scope.entry steps.now)))) result }
{
    match first_part(alloc, site, scope, first, before) {
        Ok(parts) => chain_from(alloc, site, scope, at, steps, parts),
        Err(fault) => Err(fault),
    }
}

/// An expression in an arithmetic place as the first of parts.
#[cycle(making)]
fn first_part(
    alloc: Global,
    site: Site<'_>,
    scope: Scope<'_>,
    term: &Term,
    before: u64,
) -> Result<Parts, FormFault>
    requires { spec.IsSite site scope.environment.now }
    ensures { spec.MakesForms site.entry.context.now before (next (spec.operand_maker site.entry before (spec.draft site.entry scope.entry term.now)) (λ g. Ok (g ∷ []))) result }
{
    match operand_part(alloc, site, scope, term, before) {
        Ok(part) => pushed(Parts::new(alloc, before), part),
        Err(fault) => Err(fault),
    }
}

/// The sum that parts are behind the steps of a chain.
#[cycle(making)]
fn chain_from(
    alloc: Global,
    site: Site<'_>,
    scope: Scope<'_>,
    at: u32,
    steps: &[Step],
    parts: Parts,
) -> Result<Part, FormFault>
    requires site { spec.IsSite site scope.environment.now }
    requires parts { AreParts site.context.now parts }
    requires some { spec.AreSome parts }
    ensures { (sum : nodes.Parts) → forms parts.items ≡ sum.0 ∷ sum.1 → Makes site.entry.context.now (next (spec.steps_maker site.entry at parts.before sum (spec.step_drafts site.entry scope.entry steps.now)) (λ ps. nodes.chained (sets site.entry.context.now) (arrays site.entry.context.now) site.entry.context.now.item at parts.before ps.0 ps.1)) result }
{
    match steps_taken(alloc, site, scope, at, steps, parts) {
        Ok(parts) => chained(alloc, site.context, at, parts),
        Err(fault) => Err(fault),
    }
}

/// The parts of a sum behind the steps of a chain.
#[tactic(auto, using(opl_eval::proofs::Weights::weights_of_lists))]
#[cycle(making)]
fn steps_taken(
    alloc: Global,
    site: Site<'_>,
    scope: Scope<'_>,
    at: u32,
    steps: &[Step],
    parts: Parts,
) -> Result<Parts, FormFault>
    requires site { spec.IsSite site scope.environment.now }
    requires parts { AreParts site.context.now parts }
    requires some { spec.AreSome parts }
    ensures { (sum : nodes.Parts) → forms parts.items ≡ sum.0 ∷ sum.1 → spec.MakesSum site.entry.context.now parts.before (spec.steps_maker site.entry at parts.before sum (spec.step_drafts site.entry scope.entry steps.now)) result }
{
    let mut parts = parts;
    for step in steps {
        match step_taken(alloc, site, scope, at, step, parts) {
            Ok(next) => parts = next,
            Err(fault) => return Err(fault),
        }
    }
    Ok(parts)
}

/// The parts of a sum behind one step more.
#[tactic(auto, using(opl_eval::proofs::Weights::weights_of_steps))]
#[cycle(making)]
fn step_taken(
    alloc: Global,
    site: Site<'_>,
    scope: Scope<'_>,
    at: u32,
    step: &Step,
    parts: Parts,
) -> Result<Parts, FormFault>
    requires site { spec.IsSite site scope.environment.now }
    requires parts { AreParts site.context.now parts }
    ensures { (sum : nodes.Parts) → forms parts.items ≡ sum.0 ∷ sum.1 → spec.MakesSum site.entry.context.now parts.before (spec.step_maker site.entry at parts.before sum (spec.step_draft site.entry scope.entry step.now)) result }
{
    opl_unfolding::laws::drafts_of_steps();
    match step {
        Step::Plus(inner) => signed_step(alloc, site, scope, at, Sign::Plus, inner, parts),
        Step::Minus(inner) => signed_step(alloc, site, scope, at, Sign::Minus, inner, parts),
        Step::Times(inner) => signed_step(alloc, site, scope, at, Sign::Times, inner, parts),
        Step::Quotient(inner) => {
            signed_step(alloc, site, scope, at, Sign::Quotient, inner, parts)
        }
        Step::Remainder(inner) => {
            signed_step(alloc, site, scope, at, Sign::Remainder, inner, parts)
        }
    }
}

/// The same by what the step does, and its operand.
#[cycle(making)]
fn signed_step(
    alloc: Global,
    site: Site<'_>,
    scope: Scope<'_>,
    at: u32,
    sign: Sign,
    inner: &Term,
    parts: Parts,
) -> Result<Parts, FormFault>
    requires site { spec.IsSite site scope.environment.now }
    requires parts { AreParts site.context.now parts }
    ensures { (sum : nodes.Parts) → forms parts.items ≡ sum.0 ∷ sum.1 → spec.MakesSum site.entry.context.now parts.before (spec.step_maker site.entry at parts.before sum (record { sign = signs.sign sign; operand = spec.draft site.entry scope.entry inner.now })) result }
{
    let own = draft_place(site.declared, inner);
    match operand_part(alloc, site, scope, inner, parts.next) {
        Ok(part) => stepped(alloc, site.context, sign, at, own, parts, part),
        Err(fault) => Err(fault),
    }
}

/// `a = b` and the like.
#[cycle(making)]
fn comparison(
    alloc: Global,
    site: Site<'_>,
    scope: Scope<'_>,
    at: u32,
    left: &Term,
    relation: Relation,
    right: &Term,
    before: u64,
) -> Result<Part, FormFault>
    requires { spec.IsSite site scope.environment.now }
    ensures { Makes site.entry.context.now (spec.maker site.entry before (Draft.related at relation (spec.draft site.entry scope.entry left.now) (spec.draft site.entry scope.entry right.now))) result }
{
    match operand_part(alloc, site, scope, left, before) {
        Ok(part) => compared_to(alloc, site, scope, at, part, relation, right, before),
        Err(fault) => Err(fault),
    }
}

/// A part compared with an expression.
#[cycle(making)]
fn compared_to(
    alloc: Global,
    site: Site<'_>,
    scope: Scope<'_>,
    at: u32,
    left: Part,
    relation: Relation,
    right: &Term,
    before: u64,
) -> Result<Part, FormFault>
    requires site { spec.IsSite site scope.environment.now }
    requires left { IsPart site.context.now left }
    ensures { Makes site.entry.context.now (spec.compared_maker site.entry at before relation (form left) (spec.draft site.entry scope.entry right.now)) result }
{
    let reached = nodes_behind(before, &left)?;
    match operand_part(alloc, site, scope, right, reached) {
        Ok(part) => compared(alloc, site.context, at, before, relation, left, part),
        Err(fault) => Err(fault),
    }
}

// ---- truths

/// An expression as a truth.
#[cycle(making)]
pub fn make_truth(
    alloc: Global,
    site: Site<'_>,
    scope: Scope<'_>,
    term: &Term,
    before: u64,
) -> Result<Part, FormFault>
    requires { spec.IsSite site scope.environment.now }
    ensures { Makes site.entry.context.now (spec.truth_maker site.entry before (spec.draft site.entry scope.entry term.now)) result }
{
    match make(alloc, site, scope, term, before) {
        Ok(part) => truth_part(alloc, site.context, before, part),
        Err(fault) => Err(fault),
    }
}

/// `a <=> b <=> ..`
#[tactic(auto, using(opl_eval::proofs::Weights::weights_of_lists))]
#[cycle(making)]
fn equivalence(
    alloc: Global,
    site: Site<'_>,
    scope: Scope<'_>,
    terms: &[Term],
    before: u64,
) -> Result<Part, FormFault>
    requires { spec.IsSite site scope.environment.now }
    ensures { Makes site.entry.context.now (spec.first_maker site.entry before (spec.drafts site.entry scope.entry terms.now)) result }
{
    match terms.split_first() {
        None => truth_node(alloc, site.context, before, true),
        Some((first, others)) => same_from(alloc, site, scope, first, others, before),
    }
}

/// The same of a first expression and others.
#[cycle(making)]
fn same_from(
    alloc: Global,
    site: Site<'_>,
    scope: Scope<'_>,
    first: &Term,
    others: &[Term],
    before: u64,
) -> Result<Part, FormFault>
    requires { spec.IsSite site scope.environment.now }
    ensures { Makes site.entry.context.now (spec.first_maker site.entry before (spec.draft site.entry scope.entry first.now ∷ spec.drafts site.entry scope.entry others.now)) result }
{
    match make_truth(alloc, site, scope, first, before) {
        Ok(part) => same_as_all(alloc, site, scope, part, others, before),
        Err(fault) => Err(fault),
    }
}

/// Whether a part is as the first expression, what comes of that as the second, and so on.
#[tactic(auto, using(opl_eval::proofs::Weights::weights_of_lists))]
#[cycle(making)]
fn same_as_all(
    alloc: Global,
    site: Site<'_>,
    scope: Scope<'_>,
    part: Part,
    terms: &[Term],
    before: u64,
) -> Result<Part, FormFault>
    requires site { spec.IsSite site scope.environment.now }
    requires part { IsPart site.context.now part }
    ensures { Makes site.entry.context.now (spec.same_maker site.entry before (form part) (spec.drafts site.entry scope.entry terms.now)) result }
{
    let mut part = part;
    for term in terms {
        match same_as(alloc, site, scope, part, term, before) {
            Ok(next) => part = next,
            Err(fault) => return Err(fault),
        }
    }
    Ok(part)
}

/// Whether a part is as an expression.
#[cycle(making)]
fn same_as(
    alloc: Global,
    site: Site<'_>,
    scope: Scope<'_>,
    part: Part,
    term: &Term,
    before: u64,
) -> Result<Part, FormFault>
    requires site { spec.IsSite site scope.environment.now }
    requires part { IsPart site.context.now part }
    ensures { Makes site.entry.context.now (spec.same_step site.entry before (form part) (spec.draft site.entry scope.entry term.now)) result }
{
    let reached = nodes_behind(before, &part)?;
    match make(alloc, site, scope, term, reached) {
        Ok(other) => same(alloc, site.context, before, part, other),
        Err(fault) => Err(fault),
    }
}

/// `a => b`
#[cycle(making)]
fn implication(
    alloc: Global,
    site: Site<'_>,
    scope: Scope<'_>,
    premise: &Term,
    conclusion: &Term,
    before: u64,
) -> Result<Part, FormFault>
    requires { spec.IsSite site scope.environment.now }
    ensures { Makes site.entry.context.now (next (spec.maker site.entry before (spec.draft site.entry scope.entry premise.now)) (λ g. spec.implied_maker site.entry before g (spec.draft site.entry scope.entry conclusion.now))) result }
{
    match make(alloc, site, scope, premise, before) {
        Ok(part) => implied_by(alloc, site, scope, part, conclusion, before),
        Err(fault) => Err(fault),
    }
}

/// `a => b` where the premise is made.
#[cycle(making)]
fn implied_by(
    alloc: Global,
    site: Site<'_>,
    scope: Scope<'_>,
    premise: Part,
    conclusion: &Term,
    before: u64,
) -> Result<Part, FormFault>
    requires site { spec.IsSite site scope.environment.now }
    requires premise { IsPart site.context.now premise }
    ensures { Makes site.entry.context.now (spec.implied_maker site.entry before (form premise) (spec.draft site.entry scope.entry conclusion.now)) result }
{
    let reached = nodes_behind(before, &premise)?;
    match make(alloc, site, scope, conclusion, reached) {
        Ok(part) => implied(alloc, site.context, before, premise, part),
        Err(fault) => Err(fault),
    }
}

/// `not a`
#[cycle(making)]
fn negation(
    alloc: Global,
    site: Site<'_>,
    scope: Scope<'_>,
    inner: &Term,
    before: u64,
) -> Result<Part, FormFault>
    requires { spec.IsSite site scope.environment.now }
    ensures { Makes site.entry.context.now (next (spec.maker site.entry before (spec.draft site.entry scope.entry inner.now)) (λ g. nodes.opposite site.entry.context.now.item before g)) result }
{
    match make(alloc, site, scope, inner, before) {
        Ok(part) => opposite(alloc, site.context, before, part),
        Err(fault) => Err(fault),
    }
}

/// `a \/ b \/ ..`
#[cycle(making)]
fn disjunction(
    alloc: Global,
    site: Site<'_>,
    scope: Scope<'_>,
    terms: &[Term],
    before: u64,
) -> Result<Part, FormFault>
    requires { spec.IsSite site scope.environment.now }
    ensures { Makes site.entry.context.now (next (onto (spec.maker site.entry) before [] (spec.drafts site.entry scope.entry terms.now)) (λ gs. nodes.one_holds site.entry.context.now.item before gs)) result }
{
    match parts_of(alloc, site, scope, terms, before) {
        Ok(parts) => one_holds(alloc, site.context, parts),
        Err(fault) => Err(fault),
    }
}

/// `a & b & ..`
#[cycle(making)]
fn conjunction(
    alloc: Global,
    site: Site<'_>,
    scope: Scope<'_>,
    terms: &[Term],
    before: u64,
) -> Result<Part, FormFault>
    requires { spec.IsSite site scope.environment.now }
    ensures { Makes site.entry.context.now (next (onto (spec.maker site.entry) before [] (spec.drafts site.entry scope.entry terms.now)) (λ gs. nodes.all_hold site.entry.context.now.item before gs)) result }
{
    match parts_of(alloc, site, scope, terms, before) {
        Ok(parts) => all_hold(alloc, site.context, parts),
        Err(fault) => Err(fault),
    }
}

// ---- several

/// The forms of expressions, one after another.
#[tactic(auto, using(opl_eval::proofs::Weights::weights_of_lists))]
#[cycle(making)]
fn parts_of(
    alloc: Global,
    site: Site<'_>,
    scope: Scope<'_>,
    terms: &[Term],
    before: u64,
) -> Result<Parts, FormFault>
    requires { spec.IsSite site scope.environment.now }
    ensures { spec.MakesForms site.entry.context.now before (onto (spec.maker site.entry) before [] (spec.drafts site.entry scope.entry terms.now)) result }
{
    let mut parts = Parts::new(alloc, before);
    for term in terms {
        match with_part(alloc, site, scope, term, parts) {
            Ok(next) => parts = next,
            Err(fault) => return Err(fault),
        }
    }
    Ok(parts)
}

/// Parts, and an expression behind them.
#[cycle(making)]
fn with_part(
    alloc: Global,
    site: Site<'_>,
    scope: Scope<'_>,
    term: &Term,
    parts: Parts,
) -> Result<Parts, FormFault>
    requires site { spec.IsSite site scope.environment.now }
    requires parts { AreParts site.context.now parts }
    ensures { spec.MakesForms site.entry.context.now parts.before (spec.behind (forms parts.items) (spec.maker site.entry (spec.reached parts) (spec.draft site.entry scope.entry term.now))) result }
{
    match make(alloc, site, scope, term, parts.next) {
        Ok(part) => pushed(parts, part),
        Err(fault) => Err(fault),
    }
}

/// Parts, and an expression in an arithmetic place behind them.
#[cycle(making)]
fn with_operand(
    alloc: Global,
    site: Site<'_>,
    scope: Scope<'_>,
    term: &Term,
    parts: Parts,
) -> Result<Parts, FormFault>
    requires site { spec.IsSite site scope.environment.now }
    requires parts { AreParts site.context.now parts }
    ensures { spec.MakesForms site.entry.context.now parts.before (spec.behind (forms parts.items) (spec.operand_maker site.entry (spec.reached parts) (spec.draft site.entry scope.entry term.now))) result }
{
    match operand_part(alloc, site, scope, term, parts.next) {
        Ok(part) => pushed(parts, part),
        Err(fault) => Err(fault),
    }
}

/// `sum (GROUPS : c) a` and the like. Each body becomes a part at once.
#[cycle(making)]
fn aggregate(
    alloc: Global,
    site: Site<'_>,
    scope: Scope<'_>,
    at: u32,
    operation: AggregateOp,
    groups: &[GroupTerm],
    condition: &Option<Boxed<Term>>,
    body: &Term,
    before: u64,
) -> Result<Part, FormFault>
    requires { spec.IsSite site scope.environment.now }
    ensures { Makes site.entry.context.now (next (onto (spec.operand_maker site.entry) before [] (map (body_met (spec.items site.entry) (spec.names site.entry) body.now) (met_under (map group_meaning groups.now) condition.now (sees scope.entry)))) (λ gs. nodes.aggregated (sets site.entry.context.now) (arrays site.entry.context.now) site.entry.context.now.item operation at before gs)) result }
{
    match bodies(alloc, site, scope, groups, condition, body, before) {
        Ok(parts) => aggregated(alloc, site.context, operation, at, parts),
        Err(fault) => Err(fault),
    }
}

/// The bodies of an aggregate under the choices of its groups, one after another. More than 2^64 - 1 of them count as want of memory.
#[cycle(making)]
fn bodies(
    alloc: Global,
    site: Site<'_>,
    scope: Scope<'_>,
    groups: &[GroupTerm],
    condition: &Option<Boxed<Term>>,
    body: &Term,
    before: u64,
) -> Result<Parts, FormFault>
    requires { spec.IsSite site scope.environment.now }
    ensures { spec.MakesForms site.entry.context.now before (onto (spec.operand_maker site.entry) before [] (map (body_met (spec.items site.entry) (spec.names site.entry) body.now) (met_under (map group_meaning groups.now) condition.now (sees scope.entry)))) result }
{
    let mut choices = Choices::new(alloc, groups, condition);
    let mut parts = Parts::new(alloc, before);
    for _ in 0..u64::MAX {
        let is_met = choices.advance(alloc, scope)?;
        if !is_met {
            return Ok(parts);
        }
        match with_body(alloc, site, scope, &choices, body, parts) {
            Ok(next) => parts = next,
            Err(fault) => return Err(fault),
        }
    }
    Err(FormFault::OutOfMemory)
}

/// Parts, and the body of an aggregate under the latest of its choices behind them.
#[cycle(making)]
fn with_body(
    alloc: Global,
    site: Site<'_>,
    scope: Scope<'_>,
    choices: &Choices<'_>,
    body: &Term,
    parts: Parts,
) -> Result<Parts, FormFault>
    requires site { spec.IsSite site scope.environment.now }
    requires parts { AreParts site.context.now parts }
    ensures { spec.MakesForms site.entry.context.now parts.before (spec.behind (forms parts.items) (spec.operand_maker site.entry (spec.reached parts) (spec.draft_under site.entry body.now (latest choices.now (sees scope.entry))))) result }
{
    let parameters = (&*choices).parameters(alloc, scope)?;
    let inner = Scope {
        environment: scope.environment,
        parameters: parameters.as_slice(),
    };
    with_operand(alloc, site, inner, body, parts)
}

/// `a[b,..]`
#[cycle(making)]
fn element(
    alloc: Global,
    site: Site<'_>,
    scope: Scope<'_>,
    at: u32,
    base: &Term,
    subscripts: &[Term],
    before: u64,
) -> Result<Part, FormFault>
    requires { spec.IsSite site scope.environment.now }
    ensures { Makes site.entry.context.now (next (onto (spec.maker site.entry) before [] (spec.drafts site.entry scope.entry subscripts.now)) (λ gs. spec.element_maker site.entry at before (array_in (spec.items site.entry) (spec.names site.entry) base.now (sees scope.entry)) (spec.drafts site.entry scope.entry subscripts.now) gs)) result }
{
    let array = array_number(site, scope, base)?;
    let places = places_of(alloc, site.declared, subscripts)?;
    match parts_of(alloc, site, scope, subscripts, before) {
        Ok(parts) => indexed(alloc, site.context, at, array, places.as_slice(), parts),
        Err(fault) => Err(fault),
    }
}
