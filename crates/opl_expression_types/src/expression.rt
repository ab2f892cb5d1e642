//! The types of expressions.
ghost use Rattle.std.specs.Prelude.{◌≡◌, ◌↔◌, ◌∷◌, ◌++◌, [], IsTrue, Err, Ok, map};
ghost use Rattle.std.specs.Option.{option_map};
ghost use Rattle.opl_tree.specs.declared.expression.CompareTree.TheViews.{out-ParamsTree};
ghost use Rattle.opl_type_rules.specs.Expressions as spec;
ghost use Rattle.opl_type_rules.specs.Forms.{forms_of, pairs_of};
ghost use Rattle.opl_type_rules.specs.Forms as form;
ghost use Rattle.opl_type_rules.specs.Expressions.Need.{nothing, data_alone};
ghost use Rattle.opl_type_rules.specs.Forms.Form.{described};
ghost use Rattle.opl_type_rules.specs.Scope.{and_then, with_values};
ghost use Rattle.opl_type_rules.specs.Steps as step;
ghost use Rattle.opl_type_rules.specs.Types.{is_set, sort};
ghost use Rattle.opl_type_rules.specs.Types.Sort.{anything};
ghost use Rattle.opl_type_rules.specs.declared.fault.TypeFault.TheVariants.{OutOfMemory};
ghost use Rattle.opl_type_rules.specs.Values.{Does, Gives, chained, need_of, node_of, range_of, within};
ghost use Rattle.opl_expression_types.specs.Values.{opened_in};

use crate::parts::{
    add_condition, add_part, data_number_of, first_part, part_of, shown, signed, summed,
};
use crate::pattern::{all_fresh, bind_pattern, unknown_params};
use opl_list::{Boxed, Seq};
use opl_tree::{
    AddStep, AddTree, AndTree, CallOp, CompareTree, ExprTree, GroupTree, ImpTree, KeyedTree,
    LastStep, MulStep, MulTree, NegTree, OpenTree, OrTree, ParamsTree, PatternTree, PostTree,
    PrimTree, SetTree, SignTree, SubscriptsTree, SuffixTree,
};
use opl_type_rules::chain::{Chain, bare, begun, ended, extended};
use opl_type_rules::fault::TypeFault;
use opl_type_rules::kind::Ty;
use opl_type_rules::names::{Locals, Names, copied};
use opl_type_rules::node::{Need, Node};
use opl_type_rules::rules::{
    Range, all_different, append, arithmetic, between, bracketed, connected, element, field,
    kinds_in, listed, member, misplaced, named, number, number_of, one, question, related, row,
    size_of, two, whole,
};
use std::alloc::Global;

/// `a <=> b <=> ..`
#[tactic(auto, using(opl_type_rules::proofs::Forms::expr_forms, crate::proofs::Typing::rules_of_forms, crate::proofs::Typing::rules_of_parts))]
#[cycle(expressions)]
pub fn expr(
    alloc: Global,
    model: &Names<'_>,
    locals: &Locals,
    t: &ExprTree,
) -> Result<Node, TypeFault>
    ensures { Gives node_of (spec.typing (within model.now locals.now) (form.form_expr t.now)) result }
{
    let first = imp(alloc, model, locals, &t.first)?;
    if t.rest.is_empty() {
        return Ok(first);
    }
    let parts = imps(alloc, model, locals, first, t.rest.as_slice())?;
    connected(alloc, t.at, parts)
}

/// The first part, and the others behind it.
#[cycle(expressions)]
#[tactic(auto, using(crate::proofs::Typing::rules_of_parts))]
fn imps(
    alloc: Global,
    model: &Names<'_>,
    locals: &Locals,
    first: Node,
    rest: &[ImpTree],
) -> Result<Seq<Node>, TypeFault>
    ensures { Gives (map node_of) (and_then (spec.part (node_of first)) (λ n. and_then (spec.typed_parts (within model.now locals.now) (forms_of (map form.form_imp rest.now))) (λ ns. Ok (n ∷ ns)))) result }
{
    let mut found = first_part(alloc, first)?;
    for t in rest {
        add_part(&mut found, imp(alloc, model, locals, t))?;
    }
    Ok(found)
}

/// `a => b`
#[tactic(auto, using(opl_type_rules::proofs::Forms::imp_forms, crate::proofs::Typing::rules_of_forms, crate::proofs::Typing::rules_of_parts))]
#[cycle(expressions)]
pub(crate) fn imp(
    alloc: Global,
    model: &Names<'_>,
    locals: &Locals,
    t: &ImpTree,
) -> Result<Node, TypeFault>
    ensures { Gives node_of (spec.typing (within model.now locals.now) (form.form_imp t.now)) result }
{
    let premise = or(alloc, model, locals, &t.premise)?;
    match &t.conclusion {
        None => Ok(premise),
        Some(conclusion) => {
            let premise = premise.part()?;
            let conclusion = part_of(imp(alloc, model, locals, conclusion.get()))?;
            connected(alloc, t.at, two(alloc, premise, conclusion)?)
        }
    }
}

/// `a \/ b \/ ..`
#[tactic(auto, using(opl_type_rules::proofs::Forms::or_forms, crate::proofs::Typing::rules_of_forms, crate::proofs::Typing::rules_of_parts))]
#[cycle(expressions)]
pub(crate) fn or(
    alloc: Global,
    model: &Names<'_>,
    locals: &Locals,
    t: &OrTree,
) -> Result<Node, TypeFault>
    ensures { Gives node_of (spec.typing (within model.now locals.now) (form.form_or t.now)) result }
{
    let first = and(alloc, model, locals, &t.first)?;
    if t.rest.is_empty() {
        return Ok(first);
    }
    let parts = ands(alloc, model, locals, first, t.rest.as_slice())?;
    connected(alloc, t.at, parts)
}

/// The first part, and the others behind it.
#[cycle(expressions)]
#[tactic(auto, using(crate::proofs::Typing::rules_of_parts))]
fn ands(
    alloc: Global,
    model: &Names<'_>,
    locals: &Locals,
    first: Node,
    rest: &[AndTree],
) -> Result<Seq<Node>, TypeFault>
    ensures { Gives (map node_of) (and_then (spec.part (node_of first)) (λ n. and_then (spec.typed_parts (within model.now locals.now) (forms_of (map form.form_and rest.now))) (λ ns. Ok (n ∷ ns)))) result }
{
    let mut found = first_part(alloc, first)?;
    for t in rest {
        add_part(&mut found, and(alloc, model, locals, t))?;
    }
    Ok(found)
}

/// `a & b & ..`
#[tactic(auto, using(opl_type_rules::proofs::Forms::and_forms, crate::proofs::Typing::rules_of_forms, crate::proofs::Typing::rules_of_parts))]
#[cycle(expressions)]
pub(crate) fn and(
    alloc: Global,
    model: &Names<'_>,
    locals: &Locals,
    t: &AndTree,
) -> Result<Node, TypeFault>
    ensures { Gives node_of (spec.typing (within model.now locals.now) (form.form_and t.now)) result }
{
    let first = neg(alloc, model, locals, &t.first)?;
    if t.rest.is_empty() {
        return Ok(first);
    }
    let parts = negs(alloc, model, locals, first, t.rest.as_slice())?;
    connected(alloc, t.at, parts)
}

/// The first part, and the others behind it.
#[cycle(expressions)]
#[tactic(auto, using(crate::proofs::Typing::rules_of_parts))]
fn negs(
    alloc: Global,
    model: &Names<'_>,
    locals: &Locals,
    first: Node,
    rest: &[NegTree],
) -> Result<Seq<Node>, TypeFault>
    ensures { Gives (map node_of) (and_then (spec.part (node_of first)) (λ n. and_then (spec.typed_parts (within model.now locals.now) (forms_of (map form.form_neg rest.now))) (λ ns. Ok (n ∷ ns)))) result }
{
    let mut found = first_part(alloc, first)?;
    for t in rest {
        add_part(&mut found, neg(alloc, model, locals, t))?;
    }
    Ok(found)
}

/// `not a`, or a comparison
#[tactic(auto, using(opl_type_rules::proofs::Forms::neg_forms, crate::proofs::Typing::rules_of_forms, crate::proofs::Typing::rules_of_parts))]
#[cycle(expressions)]
pub(crate) fn neg(
    alloc: Global,
    model: &Names<'_>,
    locals: &Locals,
    t: &NegTree,
) -> Result<Node, TypeFault>
    ensures { Gives node_of (spec.typing (within model.now locals.now) (form.form_neg t.now)) result }
{
    match t {
        NegTree::Not(at, inner) => {
            let inner = part_of(neg(alloc, model, locals, inner.get()))?;
            connected(alloc, *at, one(alloc, inner)?)
        }
        NegTree::Compare(inner) => compare(alloc, model, locals, inner),
    }
}

/// a comparison, or one side alone
#[tactic(auto, using(opl_type_rules::proofs::Forms::compare_forms, crate::proofs::Typing::rules_of_forms, crate::proofs::Typing::rules_of_parts))]
#[cycle(expressions)]
pub(crate) fn compare(
    alloc: Global,
    model: &Names<'_>,
    locals: &Locals,
    t: &CompareTree,
) -> Result<Node, TypeFault>
    ensures { Gives node_of (spec.typing (within model.now locals.now) (form.form_compare t.now)) result }
{
    match t {
        CompareTree::Single(_, only) => add(alloc, model, locals, only.get()),
        CompareTree::Related(at, left, relation, right) => {
            let left = part_of(add(alloc, model, locals, left.get()))?;
            let right = part_of(add(alloc, model, locals, right.get()))?;
            related(alloc, model, *at, *relation, left, right)
        }
        CompareTree::Member(at, value, over) => {
            let value = part_of(add(alloc, model, locals, value.get()))?;
            let over = set_of_member(alloc, model, locals, over.get())?;
            member(alloc, model, *at, value, over)
        }
    }
}

/// `a + b - ..`
#[tactic(auto, using(opl_type_rules::proofs::Forms::add_forms, crate::proofs::Typing::rules_of_forms, crate::proofs::Typing::rules_of_parts))]
#[cycle(expressions)]
pub fn add(
    alloc: Global,
    model: &Names<'_>,
    locals: &Locals,
    t: &AddTree,
) -> Result<Node, TypeFault>
    ensures { Gives node_of (spec.typing (within model.now locals.now) (form.form_add t.now)) result }
{
    let first = mul(alloc, model, locals, &t.first)?;
    if t.rest.is_empty() {
        return Ok(first);
    }
    let parts = add_steps(alloc, model, locals, first, t.rest.as_slice())?;
    arithmetic(alloc, t.at, parts)
}

/// The first part, and the others behind it.
#[cycle(expressions)]
#[tactic(auto, using(crate::proofs::Typing::rules_of_parts))]
fn add_steps(
    alloc: Global,
    model: &Names<'_>,
    locals: &Locals,
    first: Node,
    rest: &[AddStep],
) -> Result<Seq<Node>, TypeFault>
    ensures { Gives (map node_of) (and_then (spec.part (node_of first)) (λ n. and_then (spec.typed_parts (within model.now locals.now) (forms_of (map form.form_add_step rest.now))) (λ ns. Ok (n ∷ ns)))) result }
{
    let mut found = first_part(alloc, first)?;
    for t in rest {
        add_part(&mut found, add_step(alloc, model, locals, t))?;
    }
    Ok(found)
}

/// a part of a sum
#[tactic(auto, using(opl_type_rules::proofs::Forms::add_step_forms))]
#[cycle(expressions)]
pub(crate) fn add_step(
    alloc: Global,
    model: &Names<'_>,
    locals: &Locals,
    t: &AddStep,
) -> Result<Node, TypeFault>
    ensures { Gives node_of (spec.typing (within model.now locals.now) (form.form_add_step t.now)) result }
{
    mul(alloc, model, locals, &t.term)
}

/// `a * b div ..`
#[tactic(auto, using(opl_type_rules::proofs::Forms::mul_forms, crate::proofs::Typing::rules_of_forms, crate::proofs::Typing::rules_of_parts))]
#[cycle(expressions)]
pub(crate) fn mul(
    alloc: Global,
    model: &Names<'_>,
    locals: &Locals,
    t: &MulTree,
) -> Result<Node, TypeFault>
    ensures { Gives node_of (spec.typing (within model.now locals.now) (form.form_mul t.now)) result }
{
    match t {
        MulTree::Opened(inner) => open(alloc, model, locals, inner),
        MulTree::Product(at, first, steps, last) => {
            let first = sign(alloc, model, locals, first)?;
            if is_alone(steps.as_slice(), last) {
                return Ok(first);
            }
            let parts = mul_steps(alloc, model, locals, first, steps.as_slice())?;
            match last {
                None => arithmetic(alloc, *at, parts),
                Some(last) => {
                    let all = with_last(alloc, model, locals, parts, last)?;
                    arithmetic(alloc, *at, all)
                }
            }
        }
    }
}

/// Whether no factor stands behind the first.
fn is_alone(steps: &[MulStep], last: &Option<LastStep>) -> bool
    ensures { IsTrue result ↔ (map form.form_mul_step steps.now ++ form.or_none (option_map form.form_last_step last.now) ≡ []) }
{
    match last {
        None => steps.is_empty(),
        Some(_) => false,
    }
}

/// The last factor, behind the others.
#[cycle(expressions)]
fn with_last(
    alloc: Global,
    model: &Names<'_>,
    locals: &Locals,
    parts: Seq<Node>,
    last: &LastStep,
) -> Result<Seq<Node>, TypeFault>
    ensures { Gives (map node_of) (and_then (spec.typed_parts (within model.now locals.now) (forms_of (form.form_last_step last.now ∷ []))) (λ ns. Ok (map node_of parts ++ ns))) result }
{
    let mut all = parts;
    add_part(&mut all, open(alloc, model, locals, &last.factor))?;
    Ok(all)
}

/// The first part, and the others behind it.
#[cycle(expressions)]
#[tactic(auto, using(crate::proofs::Typing::rules_of_parts))]
fn mul_steps(
    alloc: Global,
    model: &Names<'_>,
    locals: &Locals,
    first: Node,
    rest: &[MulStep],
) -> Result<Seq<Node>, TypeFault>
    ensures { Gives (map node_of) (and_then (spec.part (node_of first)) (λ n. and_then (spec.typed_parts (within model.now locals.now) (forms_of (map form.form_mul_step rest.now))) (λ ns. Ok (n ∷ ns)))) result }
{
    let mut found = first_part(alloc, first)?;
    for t in rest {
        add_part(&mut found, mul_step(alloc, model, locals, t))?;
    }
    Ok(found)
}

/// a factor of a product
#[tactic(auto, using(opl_type_rules::proofs::Forms::mul_step_forms))]
#[cycle(expressions)]
pub(crate) fn mul_step(
    alloc: Global,
    model: &Names<'_>,
    locals: &Locals,
    t: &MulStep,
) -> Result<Node, TypeFault>
    ensures { Gives node_of (spec.typing (within model.now locals.now) (form.form_mul_step t.now)) result }
{
    sign(alloc, model, locals, &t.factor)
}

/// `sum (PARAMS) a` and the like, with signs in front
#[tactic(auto, using(opl_type_rules::proofs::Forms::open_forms, crate::proofs::Typing::rules_of_forms, crate::proofs::Typing::rules_of_parts))]
#[cycle(expressions)]
pub(crate) fn open(
    alloc: Global,
    model: &Names<'_>,
    locals: &Locals,
    t: &OpenTree,
) -> Result<Node, TypeFault>
    ensures { Gives node_of (spec.typing (within model.now locals.now) (form.form_open t.now)) result }
{
    match t {
        OpenTree::NegativeOpen(at, inner) => {
            signed(alloc, *at, open(alloc, model, locals, inner.get()))
        }
        OpenTree::Aggregate(at, _, params, body) => {
            let opened = open_params(alloc, model, locals, Need::DataAlone, params.get())?;
            summed(
                alloc,
                *at,
                mul(alloc, model, &opened.locals, body.get()),
                opened.kinds,
            )
        }
    }
}

/// `- a`
#[tactic(auto, using(opl_type_rules::proofs::Forms::sign_forms, crate::proofs::Typing::rules_of_forms, crate::proofs::Typing::rules_of_parts))]
#[cycle(expressions)]
pub(crate) fn sign(
    alloc: Global,
    model: &Names<'_>,
    locals: &Locals,
    t: &SignTree,
) -> Result<Node, TypeFault>
    ensures { Gives node_of (spec.typing (within model.now locals.now) (form.form_sign t.now)) result }
{
    match t {
        SignTree::Negative(at, inner) => {
            signed(alloc, *at, sign(alloc, model, locals, inner.get()))
        }
        SignTree::Postfix(inner) => post(alloc, model, locals, inner),
    }
}

/// a primary with subscripts and fields behind it
#[tactic(auto, using(opl_type_rules::proofs::Forms::post_forms))]
#[cycle(expressions)]
pub fn post(
    alloc: Global,
    model: &Names<'_>,
    locals: &Locals,
    t: &PostTree,
) -> Result<Node, TypeFault>
    ensures { Gives node_of (spec.typing (within model.now locals.now) (form.form_post t.now)) result }
{
    let first = prim(alloc, model, locals, &t.prim)?;
    let mut chain = begun(alloc, first);
    for suffix in t.suffixes.as_slice() {
        let Chain {
            last,
            before,
            behind,
        } = chain;
        let base = bare(alloc, last).part()?;
        let next = with_suffix(alloc, model, locals, t.at, base, suffix)?;
        chain = extended(alloc, before, behind, next)?;
    }
    ended(chain)
}

/// An expression with subscripts, or a field, behind it.
#[cycle(expressions)]
#[tactic(auto, using(opl_type_rules::proofs::Forms::suffix_forms))]
fn with_suffix(
    alloc: Global,
    model: &Names<'_>,
    locals: &Locals,
    at: u32,
    base: Node,
    suffix: &SuffixTree,
) -> Result<Node, TypeFault>
    ensures { Gives node_of (step.suffix_node (within model.now locals.now) at (node_of base) (form.form_suffix suffix.now)) result }
{
    match suffix {
        SuffixTree::Subscripts(t) => {
            let parts = subscripts(alloc, model, locals, t)?;
            element(alloc, model, at, base, parts)
        }
        SuffixTree::Field(_, name) => field(alloc, model, at, base, name),
    }
}

/// The subscripts of an element.
#[cycle(expressions)]
#[tactic(auto, using(opl_type_rules::proofs::Forms::subscripts_forms))]
pub fn subscripts(
    alloc: Global,
    model: &Names<'_>,
    locals: &Locals,
    t: &SubscriptsTree,
) -> Result<Seq<Node>, TypeFault>
    ensures { Gives (map node_of) (spec.typed_parts (within model.now locals.now) (forms_of (form.form_subscripts t.now))) result }
{
    let first = add(alloc, model, locals, t.first.get())?;
    adds(alloc, model, locals, first, t.rest.as_slice())
}

/// The first part, and the others behind it.
#[cycle(expressions)]
#[tactic(auto, using(crate::proofs::Typing::rules_of_parts))]
fn adds(
    alloc: Global,
    model: &Names<'_>,
    locals: &Locals,
    first: Node,
    rest: &[AddTree],
) -> Result<Seq<Node>, TypeFault>
    ensures { Gives (map node_of) (and_then (spec.part (node_of first)) (λ n. and_then (spec.typed_parts (within model.now locals.now) (forms_of (map form.form_add rest.now))) (λ ns. Ok (n ∷ ns)))) result }
{
    let mut found = first_part(alloc, first)?;
    for t in rest {
        add_part(&mut found, add(alloc, model, locals, t))?;
    }
    Ok(found)
}

/// Parts in their order.
#[cycle(expressions)]
#[tactic(auto, using(crate::proofs::Typing::rules_of_parts))]
pub(crate) fn all_adds(
    alloc: Global,
    model: &Names<'_>,
    locals: &Locals,
    parts: &[AddTree],
) -> Result<Seq<Node>, TypeFault>
    ensures { Gives (map node_of) (spec.typed_parts (within model.now locals.now) (forms_of (map form.form_add parts.now))) result }
{
    let mut found = Seq::new(alloc);
    for t in parts {
        add_part(&mut found, add(alloc, model, locals, t))?;
    }
    Ok(found)
}

/// Keys and values in their order.
#[cycle(expressions)]
#[tactic(auto, using(opl_type_rules::proofs::Forms::keyed_forms, crate::proofs::Typing::rules_of_pairs))]
fn pairs(
    alloc: Global,
    model: &Names<'_>,
    locals: &Locals,
    parts: &[KeyedTree],
) -> Result<Seq<Node>, TypeFault>
    ensures { Gives (map node_of) (spec.typed_pairs (within model.now locals.now) (pairs_of (map form.form_keyed parts.now))) result }
{
    let mut found = Seq::new(alloc);
    for t in parts {
        add_part(&mut found, add(alloc, model, locals, &t.key))?;
        add_part(&mut found, add(alloc, model, locals, &t.value))?;
    }
    Ok(found)
}

/// The set behind `in`: its expressions, and the type of its elements if it is one.
#[cycle(expressions)]
#[tactic(auto, using(opl_type_rules::proofs::Forms::set_forms, crate::proofs::Typing::rules_of_sets))]
fn set_of_member(
    alloc: Global,
    model: &Names<'_>,
    locals: &Locals,
    t: &SetTree,
) -> Result<Range, TypeFault>
    ensures { Gives range_of (spec.typed_set nothing spec.any_type (within model.now locals.now) (form.form_set t.now)) result }
{
    match &t.high {
        None => {
            let only = part_of(add(alloc, model, locals, &t.low))?;
            whole(alloc, only)
        }
        Some(high) => {
            let low = data_number_of(add(alloc, model, locals, &t.low))?;
            let high = data_number_of(add(alloc, model, locals, high.get()))?;
            between(alloc, low, high)
        }
    }
}

/// The set that parameters or a dimension range over.
#[cycle(expressions)]
#[tactic(auto, using(opl_type_rules::proofs::Forms::set_forms, crate::proofs::Typing::rules_of_sets))]
pub fn set(
    alloc: Global,
    model: &Names<'_>,
    locals: &Locals,
    t: &SetTree,
) -> Result<Range, TypeFault>
    ensures { Gives range_of (spec.typed_set data_alone is_set (within model.now locals.now) (form.form_set t.now)) result }
{
    match &t.high {
        None => {
            let only = add(alloc, model, locals, &t.low)?;
            let is_set = only.ty.get().is_set();
            whole(alloc, only.settled(Need::DataAlone, is_set)?)
        }
        Some(high) => {
            let low = data_number_of(add(alloc, model, locals, &t.low))?;
            let high = data_number_of(add(alloc, model, locals, high.get()))?;
            between(alloc, low, high)
        }
    }
}

/// Whether it is memory that failed.
fn is_memory(fault: &TypeFault) -> bool
    ensures { IsTrue result ↔ (fault.now ≡ OutOfMemory) }
{
    match fault {
        TypeFault::OutOfMemory => true,
        TypeFault::Unknown(_)
        | TypeFault::Duplicate(_)
        | TypeFault::Mismatch(_)
        | TypeFault::NotData(_) => false,
    }
}

/// `{e | p}` where `p` has a fault: one of `e` comes before it, for which the names of `p` may be anything.
#[cycle(expressions)]
fn wrongly_described(
    alloc: Global,
    model: &Names<'_>,
    locals: &Locals,
    value: &AddTree,
    params: &ParamsTree,
    fault: TypeFault,
) -> Result<Node, TypeFault>
    ensures { Gives node_of (and_then (and_then (spec.typing (with_values (spec.names_of_params (form.form_params params.now)) (map (λ n. anything) (spec.names_of_params (form.form_params params.now))) (within model.now locals.now)) (form.form_add value.now)) spec.part) (λ n. Err fault)) result }
{
    let unknown = unknown_params(alloc, model, locals, params)?;
    part_of(add(alloc, model, &unknown, value))?;
    Err(fault)
}

/// `{e | p}`, once `p` is opened or has a fault.
#[cycle(expressions)]
fn described_set(
    alloc: Global,
    model: &Names<'_>,
    locals: &Locals,
    at: u32,
    value: &AddTree,
    params: &ParamsTree,
    opened: Result<Opened, TypeFault>,
) -> Result<Node, TypeFault>
    requires { Gives (opened_in model.now) (spec.open_params data_alone (within model.now locals.now) (form.form_params params.now)) opened }
    ensures { Gives node_of (spec.typing (within model.now locals.now) (described at (form.form_add value.now) (form.form_params params.now))) result }
{
    match opened {
        Ok(opened) => {
            shown(
                alloc,
                at,
                add(alloc, model, &opened.locals, value),
                opened.kinds,
            )
        }
        Err(fault) => {
            if is_memory(&fault) {
                return Err(fault);
            }
            wrongly_described(alloc, model, locals, value, params, fault)
        }
    }
}

/// `abs(a)` and `card(S)`
fn called(alloc: Global, at: u32, op: CallOp, argument: Node) -> Result<Node, TypeFault>
    ensures { Gives node_of (Ok (step.called op at (node_of argument))) result }
{
    match op {
        CallOp::Absolute => number_of(alloc, at, argument),
        CallOp::Cardinality => size_of(alloc, at, argument),
    }
}

/// what an expression begins with
#[tactic(auto, using(opl_type_rules::proofs::Forms::prim_forms, crate::proofs::Typing::rules_of_forms, crate::proofs::Typing::rules_of_parts))]
#[cycle(expressions)]
pub(crate) fn prim(
    alloc: Global,
    model: &Names<'_>,
    locals: &Locals,
    t: &PrimTree,
) -> Result<Node, TypeFault>
    ensures { Gives node_of (spec.typing (within model.now locals.now) (form.form_prim t.now)) result }
{
    match t {
        PrimTree::Number(at, _) => number(alloc, *at),
        PrimTree::Named(name) => named(alloc, model, locals, name),
        PrimTree::Bracket(at, inner) => {
            let inner = part_of(expr(alloc, model, locals, inner.get()))?;
            bracketed(alloc, *at, inner)
        }
        PrimTree::Record(at, first, rest) => {
            let first = add(alloc, model, locals, first.get())?;
            let parts = adds(alloc, model, locals, first, rest.as_slice())?;
            row(alloc, *at, parts)
        }
        PrimTree::Listed(at, elements) => {
            let parts = all_adds(alloc, model, locals, elements.as_slice())?;
            listed(alloc, model, *at, parts)
        }
        PrimTree::Described(at, value, params) => {
            let opened = open_params(alloc, model, locals, Need::DataAlone, params.get());
            described_set(alloc, model, locals, *at, value.get(), params.get(), opened)
        }
        PrimTree::Array(at, elements) => {
            let parts = all_adds(alloc, model, locals, elements.as_slice())?;
            misplaced(alloc, *at, parts)
        }
        PrimTree::KeyedArray(at, elements) => {
            let parts = pairs(alloc, model, locals, elements.as_slice())?;
            misplaced(alloc, *at, parts)
        }
        PrimTree::Call(at, op, argument) => {
            let argument = part_of(expr(alloc, model, locals, argument.get()))?;
            called(alloc, *at, *op, argument)
        }
        PrimTree::AllDifferent(at, argument) => {
            let argument = part_of(add(alloc, model, locals, argument.get()))?;
            all_different(alloc, *at, argument)
        }
        PrimTree::Question(at, op, argument) => {
            let argument = part_of(post(alloc, model, locals, argument.get()))?;
            question(alloc, model, *at, *op, argument)
        }
    }
}

/// The names that parameters add to those outside, with the types of the expressions in them.
#[derive(Drop)]
pub struct Opened {
    pub locals: Locals,
    pub kinds: Seq<Ty>,
}

/// The type of the elements of a set, which may be anything where it has none.
#[tactic(auto, using(opl_type_rules::proofs::Sorts::sorts))]
fn or_anything(alloc: Global, element: Option<Boxed<Ty>>) -> Result<Boxed<Ty>, TypeFault>
    ensures { Does (λ r. sort r ≡ spec.or_anything (option_map sort element)) result }
{
    match element {
        Some(ty) => Ok(ty),
        None => Ok(Boxed::new(alloc, Ty::Any)?),
    }
}

/// The names of the patterns of a group.
fn bind_patterns(
    alloc: Global,
    model: &Names<'_>,
    locals: &mut Locals,
    element: &Ty,
    first: &PatternTree,
    rest: &[PatternTree],
) -> Result<(), TypeFault>
    ensures { Gives (λ u. within model.now locals.new) (spec.bind_patterns (within model.now locals.old) (sort element.now) (first.now ∷ rest.now)) result }
{
    bind_pattern(alloc, model, locals, element, first)?;
    for pattern in rest {
        bind_pattern(alloc, model, locals, element, pattern)?;
    }
    Ok(())
}

/// The parameters of a group, added to those before.
#[cycle(expressions)]
#[tactic(auto, using(opl_type_rules::proofs::Forms::group_forms))]
fn open_group(
    alloc: Global,
    model: &Names<'_>,
    opened: &mut Opened,
    t: &GroupTree,
) -> Result<(), TypeFault>
    ensures { Gives (λ u. opened_in model.now opened.new) (step.open_one (opened_in model.now opened.old) (form.form_group t.now)) result }
{
    all_fresh(alloc, model, &opened.locals, &t.first, t.rest.as_slice())?;
    let over = set(alloc, model, &opened.locals, &t.set)?;
    let Range { nodes, element } = over;
    let element = or_anything(alloc, element)?;
    append(&mut opened.kinds, kinds_in(alloc, nodes)?)?;
    bind_patterns(
        alloc,
        model,
        &mut opened.locals,
        element.get(),
        &t.first,
        t.rest.as_slice(),
    )?;
    Ok(())
}

/// The groups of parameters, inside those of `locals`.
#[cycle(expressions)]
fn open_groups(
    alloc: Global,
    model: &Names<'_>,
    locals: &Locals,
    t: &ParamsTree,
) -> Result<Opened, TypeFault>
    ensures { Gives (opened_in model.now) (spec.open_groups (within model.now locals.now) (form.groups_of (form.form_group (out-ParamsTree t.now).first ∷ map form.form_group_step (out-ParamsTree t.now).rest))) result }
{
    let mut opened = Opened {
        locals: copied(alloc, locals)?,
        kinds: Seq::new(alloc),
    };
    open_group(alloc, model, &mut opened, &t.first)?;
    for step in t.rest.as_slice() {
        open_group(alloc, model, &mut opened, &step.group)?;
    }
    Ok(opened)
}

/// Parameters inside those of `locals`. Their condition meets the need.
#[cycle(expressions)]
#[tactic(auto, using(opl_type_rules::proofs::Forms::params_forms))]
pub fn open_params(
    alloc: Global,
    model: &Names<'_>,
    locals: &Locals,
    need: Need,
    t: &ParamsTree,
) -> Result<Opened, TypeFault>
    ensures { Gives (opened_in model.now) (spec.open_params (need_of need) (within model.now locals.now) (form.form_params t.now)) result }
{
    let mut opened = open_groups(alloc, model, locals, t)?;
    match &t.condition {
        None => Ok(opened),
        Some(condition) => {
            add_condition(
                &mut opened.kinds,
                need,
                expr(alloc, model, &opened.locals, condition.get()),
            )?;
            Ok(opened)
        }
    }
}
