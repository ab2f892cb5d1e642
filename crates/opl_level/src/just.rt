//! Phrases that are just a name, or just a prim with its suffixes.
ghost use Rattle.std.specs.Prelude.{◌≡◌, None};
ghost use Rattle.opl_grammar.specs.Just as just;

use opl_let_go::LetGo;
use opl_tree::{
    AddTree, AndTree, CompareTree, ExprTree, ImpTree, MulTree, NameTree, NegTree, OrTree, PostTree,
    PrimTree, SetTree, SignTree,
};

/// Nothing, in place of what is more than was asked for. So the type that is let go of is a parameter, and each such place
/// is short to prove.
fn no_more<T: LetGo, U>(value: T) -> Option<U>
    ensures { result ≡ None }
{
    value.let_go();
    None
}

/// A value without what stands beside it.
fn without<T, U: LetGo>(value: T, beside: U) -> T
    ensures { result ≡ value }
{
    beside.let_go();
    value
}

/// A factor without a sign.
#[tactic(auto, unfolding(opl_grammar::specs::Just::post_of_sign))]
fn post_of_sign(t: SignTree) -> Option<PostTree>
    ensures { result ≡ just.post_of_sign t }
{
    match t {
        SignTree::Postfix(inner) => Some(inner),
        SignTree::Negative(_, inner) => no_more(inner),
    }
}

/// A product of one factor.
#[tactic(auto, unfolding(opl_grammar::specs::Just::post_of_mul))]
fn post_of_mul(t: MulTree) -> Option<PostTree>
    ensures { result ≡ just.post_of_mul t }
{
    match t {
        MulTree::Product(_, first, steps, last) => {
            if steps.is_empty() && last.is_none() {
                post_of_sign(without(first, (steps, last)))
            } else {
                no_more((first, steps, last))
            }
        }
        MulTree::Opened(inner) => no_more(inner),
    }
}

/// A sum of one product.
#[tactic(auto, unfolding(opl_grammar::specs::Just::post_of_add))]
fn post_of_add(t: AddTree) -> Option<PostTree>
    ensures { result ≡ just.post_of_add t }
{
    let AddTree {
        at: _at,
        first,
        rest,
    } = t;
    if rest.is_empty() {
        post_of_mul(without(first, rest))
    } else {
        no_more((first, rest))
    }
}

/// A comparison of nothing.
#[tactic(auto, unfolding(opl_grammar::specs::Just::post_of_compare))]
fn post_of_compare(t: CompareTree) -> Option<PostTree>
    ensures { result ≡ just.post_of_compare t }
{
    match t {
        CompareTree::Single(_, inner) => post_of_add(inner.into_inner()),
        CompareTree::Related(_, left, _, right) => no_more((left, right)),
        CompareTree::Member(_, left, set) => no_more((left, set)),
    }
}

/// What is not negated.
#[tactic(auto, unfolding(opl_grammar::specs::Just::post_of_neg))]
fn post_of_neg(t: NegTree) -> Option<PostTree>
    ensures { result ≡ just.post_of_neg t }
{
    match t {
        NegTree::Compare(inner) => post_of_compare(inner),
        NegTree::Not(_, inner) => no_more(inner),
    }
}

/// What stands without `&`.
#[tactic(auto, unfolding(opl_grammar::specs::Just::post_of_and))]
fn post_of_and(t: AndTree) -> Option<PostTree>
    ensures { result ≡ just.post_of_and t }
{
    let AndTree {
        at: _at,
        first,
        rest,
    } = t;
    if rest.is_empty() {
        post_of_neg(without(first, rest))
    } else {
        no_more((first, rest))
    }
}

/// What stands without `\/`.
#[tactic(auto, unfolding(opl_grammar::specs::Just::post_of_or))]
fn post_of_or(t: OrTree) -> Option<PostTree>
    ensures { result ≡ just.post_of_or t }
{
    let OrTree {
        at: _at,
        first,
        rest,
    } = t;
    if rest.is_empty() {
        post_of_and(without(first, rest))
    } else {
        no_more((first, rest))
    }
}

/// What stands without `=>`.
#[tactic(auto, unfolding(opl_grammar::specs::Just::post_of_imp))]
fn post_of_imp(t: ImpTree) -> Option<PostTree>
    ensures { result ≡ just.post_of_imp t }
{
    let ImpTree {
        at: _at,
        premise,
        conclusion,
    } = t;
    match conclusion {
        None => post_of_or(premise),
        Some(conclusion) => no_more((premise, conclusion)),
    }
}

/// The prim with its suffixes that an expression is, if it is no more.
#[tactic(auto, unfolding(opl_grammar::specs::Just::post_of))]
pub fn into_post(t: ExprTree) -> Option<PostTree>
    ensures { result ≡ just.post_of t }
{
    let ExprTree {
        at: _at,
        first,
        rest,
    } = t;
    if rest.is_empty() {
        post_of_imp(without(first, rest))
    } else {
        no_more((first, rest))
    }
}

/// The name that a prim is.
#[tactic(auto, unfolding(opl_grammar::specs::Just::name_of_prim))]
fn name_of_prim(t: PrimTree) -> Option<NameTree>
    ensures { result ≡ just.name_of_prim t }
{
    match t {
        PrimTree::Named(inner) => Some(inner),
        other => no_more(other),
    }
}

/// A prim without suffixes.
#[tactic(auto, unfolding(opl_grammar::specs::Just::name_of_post))]
fn name_of_post(t: PostTree) -> Option<NameTree>
    ensures { result ≡ just.name_of_post t }
{
    let PostTree {
        at: _at,
        prim,
        suffixes,
    } = t;
    if suffixes.is_empty() {
        name_of_prim(without(prim, suffixes))
    } else {
        no_more((prim, suffixes))
    }
}

/// The name that what was found is.
fn name_of_found(found: Option<PostTree>) -> Option<NameTree>
    ensures { result ≡ just.name_of_found found }
{
    match found {
        Some(inner) => name_of_post(inner),
        None => None,
    }
}

/// The name that a set is, if it is no more.
#[tactic(auto, unfolding(opl_grammar::specs::Just::name_of))]
pub fn into_name(t: SetTree) -> Option<NameTree>
    ensures { result ≡ just.name_of t }
{
    let SetTree { at: _at, low, high } = t;
    match high {
        None => name_of_found(post_of_add(low)),
        Some(high) => no_more((low, high)),
    }
}
