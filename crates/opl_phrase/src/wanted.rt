//! What is wanted behind a token that opens a level, and what was found there.
use opl_grammar::{Braced, Operand};
use opl_list::{Boxed, Seq};
use opl_tree::{
    AddTree, DimTree, ExprTree, FieldTree, ImpTree, KeyedTree, MulTree, NameTree, NegTree,
    OrderedParamsTree, ParamsTree, PostTree, TypeTree,
};

/// What is wanted behind a token that opens a level: a field of the rules.
#[derive(Clone, Copy)]
pub enum Wanted {
    Expr,
    Add,
    Post,
    Params,
    Ordered,
    Ends,
    Imp,
    Neg,
    Operand,
    Aggregate,
    Adds,
    Listed,
    Keyed,
    Braced,
    Names,
    Type,
    Fields,
    Dims,
}

/// What was found there.
pub enum Found {
    Expr(Boxed<ExprTree>),
    Add(Boxed<AddTree>),
    Post(Boxed<PostTree>),
    Params(Boxed<ParamsTree>),
    Ordered(Boxed<OrderedParamsTree>),
    Ends(Boxed<AddTree>, Option<Boxed<AddTree>>),
    Imp(Boxed<ImpTree>),
    Neg(NegTree),
    Operand(Operand),
    Aggregate(Boxed<ParamsTree>, Boxed<MulTree>),
    Adds(Boxed<AddTree>, Seq<AddTree>),
    Listed(Seq<AddTree>),
    Keyed(Seq<KeyedTree>),
    Braced(Braced),
    Names(NameTree, Seq<NameTree>),
    Type(TypeTree),
    Fields(Boxed<FieldTree>, Seq<FieldTree>),
    Dims(Boxed<DimTree>, Seq<DimTree>),
}
