//! The trees of expressions, of the sets and of the parameters in them.
use opl_list::{Boxed, Seq};
use opl_token::Name;

/// A name where it is written.
#[derive(Drop)]
pub struct NameTree {
    pub at: u32,
    pub text: Name,
}

/// `IMP <=> IMP <=> ..`
#[derive(Drop)]
#[cycle(expressions)]
pub struct ExprTree {
    pub at: u32,
    pub first: ImpTree,
    pub rest: Seq<ImpTree>,
}

/// `OR`, or `OR => IMP`
#[derive(Drop)]
#[cycle(expressions)]
pub struct ImpTree {
    pub at: u32,
    pub premise: OrTree,
    pub conclusion: Option<Boxed<ImpTree>>,
}

/// `AND \/ AND \/ ..`
#[derive(Drop)]
#[cycle(expressions)]
pub struct OrTree {
    pub at: u32,
    pub first: AndTree,
    pub rest: Seq<AndTree>,
}

/// `NEG & NEG & ..`
#[derive(Drop)]
#[cycle(expressions)]
pub struct AndTree {
    pub at: u32,
    pub first: NegTree,
    pub rest: Seq<NegTree>,
}

/// `not NEG`, or a comparison
#[derive(Drop)]
#[cycle(expressions)]
pub enum NegTree {
    Not(u32, Boxed<NegTree>),
    Compare(CompareTree),
}

/// `ADD`, `ADD RELATION ADD`, or `ADD in SET`
#[derive(Drop)]
#[cycle(expressions)]
pub enum CompareTree {
    Single(u32, Boxed<AddTree>),
    Related(u32, Boxed<AddTree>, Relation, Boxed<AddTree>),
    Member(u32, Boxed<AddTree>, Boxed<SetTree>),
}

/// `MUL + MUL - ..`
#[derive(Drop)]
#[cycle(expressions)]
pub struct AddTree {
    pub at: u32,
    pub first: MulTree,
    pub rest: Seq<AddStep>,
}

/// `+ MUL` or `- MUL`
#[derive(Drop)]
#[cycle(expressions)]
pub struct AddStep {
    pub op: AddOp,
    pub term: MulTree,
}

/// `OPEN`, or `SIGN * SIGN div ..` with or without a last `* OPEN`
#[derive(Drop)]
#[cycle(expressions)]
pub enum MulTree {
    Opened(OpenTree),
    Product(u32, SignTree, Seq<MulStep>, Option<LastStep>),
}

/// `* SIGN`, `div SIGN` or `mod SIGN`
#[derive(Drop)]
#[cycle(expressions)]
pub struct MulStep {
    pub op: MulOp,
    pub factor: SignTree,
}

/// `* OPEN`, `div OPEN` or `mod OPEN`
#[derive(Drop)]
#[cycle(expressions)]
pub struct LastStep {
    pub op: MulOp,
    pub factor: OpenTree,
}

/// `- OPEN`, or `sum (PARAMS) MUL` and the like
#[derive(Drop)]
#[cycle(expressions)]
pub enum OpenTree {
    NegativeOpen(u32, Boxed<OpenTree>),
    Aggregate(u32, AggregateOp, Boxed<ParamsTree>, Boxed<MulTree>),
}

/// `- SIGN`, or a postfix expression
#[derive(Drop)]
#[cycle(expressions)]
pub enum SignTree {
    Negative(u32, Boxed<SignTree>),
    Postfix(PostTree),
}

/// `PRIM` with subscripts and fields behind it
#[derive(Drop)]
#[cycle(expressions)]
pub struct PostTree {
    pub at: u32,
    pub prim: PrimTree,
    pub suffixes: Seq<SuffixTree>,
}

/// `[ADD, ADD, ..]` or `.NAME`, where the name may be any word
#[derive(Drop)]
#[cycle(expressions)]
pub enum SuffixTree {
    Subscripts(SubscriptsTree),
    Field(u32, NameTree),
}

/// `[ADD, ADD, ..]`
#[derive(Drop)]
#[cycle(expressions)]
pub struct SubscriptsTree {
    pub at: u32,
    pub first: Boxed<AddTree>,
    pub rest: Seq<AddTree>,
}

/// What an expression begins with.
#[derive(Drop)]
#[cycle(expressions)]
pub enum PrimTree {
    Number(u32, i128),
    Named(NameTree),
    /// `(EXPR)`
    Bracket(u32, Boxed<ExprTree>),
    /// `<ADD, ADD, ..>`
    Record(u32, Boxed<AddTree>, Seq<AddTree>),
    /// `{ADD, ADD, ..}`
    Listed(u32, Seq<AddTree>),
    /// `{ADD | PARAMS}`
    Described(u32, Boxed<AddTree>, Boxed<ParamsTree>),
    /// `[ADD, ADD, ..]`
    Array(u32, Seq<AddTree>),
    /// `#[ADD:ADD, ADD:ADD, ..]#`
    KeyedArray(u32, Seq<KeyedTree>),
    /// `abs(EXPR)` or `card(EXPR)`
    Call(u32, CallOp, Boxed<ExprTree>),
    /// `alldifferent(ADD)`
    AllDifferent(u32, Boxed<AddTree>),
    /// `dsize(POST)` and the like
    Question(u32, QuestionOp, Boxed<PostTree>),
}

/// `ADD:ADD`
#[derive(Drop)]
#[cycle(expressions)]
pub struct KeyedTree {
    pub key: AddTree,
    pub value: AddTree,
}

/// `ADD` or `ADD..ADD`
#[derive(Drop)]
#[cycle(expressions)]
pub struct SetTree {
    pub at: u32,
    pub low: AddTree,
    pub high: Option<Boxed<AddTree>>,
}

/// `GROUP, GROUP & ..`, with or without `: EXPR`
#[derive(Drop)]
#[cycle(expressions)]
pub struct ParamsTree {
    pub at: u32,
    pub first: GroupTree,
    pub rest: Seq<GroupStep>,
    pub condition: Option<Boxed<ExprTree>>,
}

/// `, GROUP` or `& GROUP`
#[derive(Drop)]
#[cycle(expressions)]
pub struct GroupStep {
    pub separator: GroupSeparator,
    pub group: GroupTree,
}

/// `PATTERN, PATTERN, .. in SET`, with or without `ordered` before it
#[derive(Drop)]
#[cycle(expressions)]
pub struct GroupTree {
    pub at: u32,
    pub is_ordered: bool,
    pub first: PatternTree,
    pub rest: Seq<PatternTree>,
    pub set: SetTree,
}

/// `NAME` or `<NAME, NAME, ..>`
#[derive(Drop)]
pub enum PatternTree {
    Single(NameTree),
    Record(u32, NameTree, Seq<NameTree>),
}

/// The sign of a comparison.
#[derive(Clone, Copy)]
pub enum Relation {
    /// `=`
    Equal,
    /// `<>`
    NotEqual,
    /// `<`
    Less,
    /// `<=`
    LessOrEqual,
    /// `>`
    Greater,
    /// `>=`
    GreaterOrEqual,
}

/// The sign of a sum's step.
#[derive(Clone, Copy)]
pub enum AddOp {
    /// `+`
    Plus,
    /// `-`
    Minus,
}

/// The sign of a product's step.
#[derive(Clone, Copy)]
pub enum MulOp {
    /// `*`
    Times,
    /// `div`
    Quotient,
    /// `mod`
    Remainder,
}

/// The word of an aggregate.
#[derive(Clone, Copy)]
pub enum AggregateOp {
    /// `sum`
    Sum,
    /// `prod`
    Product,
    /// `min`
    Min,
    /// `max`
    Max,
}

/// A function of one expression.
#[derive(Clone, Copy)]
pub enum CallOp {
    /// `abs`
    Absolute,
    /// `card`
    Cardinality,
}

/// A question on the set of a variable.
#[derive(Clone, Copy)]
pub enum QuestionOp {
    /// `dsize`
    Size,
    /// `dmin`
    Least,
    /// `dmax`
    Greatest,
    /// `bound`
    Bound,
}

/// What stands between two groups of parameters.
#[derive(Clone, Copy)]
pub enum GroupSeparator {
    /// `,`
    Comma,
    /// `&`
    Ampersand,
}
