//! Expressions that are the cells of an array and nothing else.
ghost use Rattle.std.specs.Prelude.{◌≡◌};
ghost use Rattle.opl_expression_types.specs.Cells as step;
ghost use Rattle.opl_type_rules.specs.Forms.{form_add, form_mul, form_open, form_post, form_prim, form_sign};

use opl_tree::{
    AddStep, AddTree, KeyedTree, LastStep, MulStep, MulTree, OpenTree, PostTree, PrimTree,
    SignTree, SuffixTree,
};

/// The cells of an array.
pub enum Cells<'a> {
    /// `[ADD, ADD, ..]`
    Listed(&'a [AddTree]),
    /// `#[ADD:ADD, ADD:ADD, ..]#`
    Keyed(&'a [KeyedTree]),
    /// It is something else.
    Other,
}

/// The cells that an expression is, if it is such.
#[tactic(auto, using(opl_type_rules::proofs::Forms::prim_forms, crate::proofs::ArrayCells::calls_held))]
fn cells_of_prim(t: &PrimTree) -> Cells<'_>
    ensures { step.held_in result ≡ step.held (form_prim t.now) }
{
    match t {
        PrimTree::Array(_, cells) => Cells::Listed(cells.as_slice()),
        PrimTree::KeyedArray(_, cells) => Cells::Keyed(cells.as_slice()),
        PrimTree::Number(..)
        | PrimTree::Named(_)
        | PrimTree::Bracket(..)
        | PrimTree::Record(..)
        | PrimTree::Listed(..)
        | PrimTree::Described(..)
        | PrimTree::Call(..)
        | PrimTree::AllDifferent(..)
        | PrimTree::Question(..) => Cells::Other,
    }
}

/// The same of one with suffixes.
fn cells_of_suffixed<'a>(t: &'a PrimTree, suffixes: &[SuffixTree]) -> Cells<'a>
    ensures { step.held_in result ≡ step.alone (form_prim t.now) suffixes.now }
{
    match suffixes.split_first() {
        Some(_) => Cells::Other,
        None => cells_of_prim(t),
    }
}

/// The same of one with its suffixes.
#[tactic(auto, using(crate::proofs::ArrayCells::posts))]
fn cells_of_post(t: &PostTree) -> Cells<'_>
    ensures { step.held_in result ≡ step.held (form_post t.now) }
{
    cells_of_suffixed(&t.prim, t.suffixes.as_slice())
}

/// The same of one with its sign.
#[tactic(auto, using(opl_type_rules::proofs::Forms::sign_forms))]
fn cells_of_sign(t: &SignTree) -> Cells<'_>
    ensures { step.held_in result ≡ step.held (form_sign t.now) }
{
    match t {
        SignTree::Postfix(inner) => cells_of_post(inner),
        SignTree::Negative(..) => Cells::Other,
    }
}

/// An expression that is open to its right is no array of cells.
#[tactic(auto, using(opl_type_rules::proofs::Forms::open_forms))]
fn cells_of_open(t: &OpenTree) -> Cells<'_>
    ensures { step.held_in result ≡ step.held (form_open t.now) }
{
    match t {
        OpenTree::NegativeOpen(..) | OpenTree::Aggregate(..) => Cells::Other,
    }
}

/// The same of a product.
fn cells_of_product<'a>(head: &'a SignTree, steps: &[MulStep], last: &Option<LastStep>) -> Cells<'a>
    ensures { step.held_in result ≡ step.alone_or (form_sign head.now) steps.now last.now }
{
    match steps.split_first() {
        Some(_) => Cells::Other,
        None => match last {
            Some(_) => Cells::Other,
            None => cells_of_sign(head),
        },
    }
}

/// The same of one operand of a sum.
#[tactic(auto, using(crate::proofs::ArrayCells::muls_held))]
fn cells_of_mul(t: &MulTree) -> Cells<'_>
    ensures { step.held_in result ≡ step.held (form_mul t.now) }
{
    match t {
        MulTree::Opened(inner) => cells_of_open(inner),
        MulTree::Product(_, head, steps, last) => cells_of_product(head, steps.as_slice(), last),
    }
}

/// The same of a sum.
fn cells_of_sum<'a>(first: &'a MulTree, rest: &[AddStep]) -> Cells<'a>
    ensures { step.held_in result ≡ step.alone (form_mul first.now) rest.now }
{
    match rest.split_first() {
        Some(_) => Cells::Other,
        None => cells_of_mul(first),
    }
}

/// The cells that an expression is, if it is such.
#[tactic(auto, using(crate::proofs::ArrayCells::adds))]
pub fn cells_of(t: &AddTree) -> Cells<'_>
    ensures { step.held_in result ≡ step.held (form_add t.now) }
{
    cells_of_sum(&t.first, t.rest.as_slice())
}
