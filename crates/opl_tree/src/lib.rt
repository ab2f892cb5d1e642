//! The trees of models: one type per rule of the grammar, with the place of each node.
#![tactic(auto)]

mod declaration;
mod expression;
mod fault;
mod instruction;
mod keyword;
pub mod laws;
mod model;
mod search;

pub use declaration::{
    ActivityTree, BoundsTree, DataDeclTree, DeclTree, DimTree, DimsTree, DiscreteTree,
    EnumNamesTree, EnumTree, FieldTree, InitialTree, RangeTree, ScheduleEnd, ScheduleTree,
    StructTree, TypeTree, UnaryTree, VariableTree, VariableTypeTree,
};
pub use expression::{
    AddOp, AddStep, AddTree, AggregateOp, AndTree, CallOp, CompareTree, ExprTree, GroupSeparator,
    GroupStep, GroupTree, ImpTree, KeyedTree, LastStep, MulOp, MulStep, MulTree, NameTree, NegTree,
    OpenTree, OrTree, ParamsTree, PatternTree, PostTree, PrimTree, QuestionOp, Relation, SetTree,
    SignTree, SubscriptsTree, SuffixTree,
};
pub use fault::SyntaxFault;
pub use instruction::{BlockTree, InstrTree, ItemTree, ItemsTree, Optimum, RequiresTree};
pub use keyword::{KEYWORDS, Keyword, keyword_of};
pub use model::{MAX_NESTING, ModelTree};
pub use opl_list::{Boxed, Seq};
pub use opl_token::Name;
pub use search::{
    BranchOp, LabelOp, OrderTree, OrderedParamsTree, SearchBlockTree, SearchTree, StatementTree,
    StatementsTree,
};
