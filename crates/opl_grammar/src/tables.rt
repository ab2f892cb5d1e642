//! The operators of the grammar, and the tokens that its phrases begin with.
ghost use Rattle.std.specs.Prelude.{◌≡◌};
ghost use Rattle.opl_grammar.specs.Input.{sign_seen, word_seen};
ghost use Rattle.opl_grammar.specs.Tables as spec;
ghost use Rattle.opl_grammar.specs.Tables.{through, begins};

use crate::look::Look;
use opl_token::Sign;
use opl_tree::{
    AddOp, AggregateOp, BranchOp, CallOp, GroupSeparator, Keyword, LabelOp, MulOp, Optimum,
    QuestionOp, Relation, ScheduleEnd,
};

/// The relation that is seen.
pub fn relation(look: Look) -> Option<Relation>
    ensures { result ≡ through spec.relation_of (sign_seen look) }
{
    match look {
        Look::Sign(Sign::Equal) => Some(Relation::Equal),
        Look::Sign(Sign::NotEqual) => Some(Relation::NotEqual),
        Look::Sign(Sign::Less) => Some(Relation::Less),
        Look::Sign(Sign::LessOrEqual) => Some(Relation::LessOrEqual),
        Look::Sign(Sign::Greater) => Some(Relation::Greater),
        Look::Sign(Sign::GreaterOrEqual) => Some(Relation::GreaterOrEqual),
        _ => None,
    }
}

/// The operator of a sum that is seen.
pub fn add_op(look: Look) -> Option<AddOp>
    ensures { result ≡ through spec.add_op_of (sign_seen look) }
{
    match look {
        Look::Sign(Sign::Plus) => Some(AddOp::Plus),
        Look::Sign(Sign::Minus) => Some(AddOp::Minus),
        _ => None,
    }
}

/// The operator of a product that is seen.
pub fn mul_op(look: Look) -> Option<MulOp>
    ensures { result ≡ spec.mul_op_seen look }
{
    match look {
        Look::Sign(Sign::Times) => Some(MulOp::Times),
        Look::Word(Keyword::Div) => Some(MulOp::Quotient),
        Look::Word(Keyword::Mod) => Some(MulOp::Remainder),
        _ => None,
    }
}

/// The aggregate whose word is seen.
pub fn aggregate_op(look: Look) -> Option<AggregateOp>
    ensures { result ≡ through spec.aggregate_of (word_seen look) }
{
    match look {
        Look::Word(Keyword::Sum) => Some(AggregateOp::Sum),
        Look::Word(Keyword::Prod) => Some(AggregateOp::Product),
        Look::Word(Keyword::Min) => Some(AggregateOp::Min),
        Look::Word(Keyword::Max) => Some(AggregateOp::Max),
        _ => None,
    }
}

/// The function whose word is seen.
pub fn call_op(look: Look) -> Option<CallOp>
    ensures { result ≡ through spec.call_of (word_seen look) }
{
    match look {
        Look::Word(Keyword::Abs) => Some(CallOp::Absolute),
        Look::Word(Keyword::Card) => Some(CallOp::Cardinality),
        _ => None,
    }
}

/// The question whose word is seen.
pub fn question_op(look: Look) -> Option<QuestionOp>
    ensures { result ≡ through spec.question_of (word_seen look) }
{
    match look {
        Look::Word(Keyword::DSize) => Some(QuestionOp::Size),
        Look::Word(Keyword::DMin) => Some(QuestionOp::Least),
        Look::Word(Keyword::DMax) => Some(QuestionOp::Greatest),
        Look::Word(Keyword::Bound) => Some(QuestionOp::Bound),
        _ => None,
    }
}

/// What stands between groups of parameters, if it is seen.
pub fn separator(look: Look) -> Option<GroupSeparator>
    ensures { result ≡ through spec.separator_of (sign_seen look) }
{
    match look {
        Look::Sign(Sign::Comma) => Some(GroupSeparator::Comma),
        Look::Sign(Sign::And) => Some(GroupSeparator::Ampersand),
        _ => None,
    }
}

/// The order whose word is seen: whether the least key comes first.
pub fn direction(look: Look) -> Option<bool>
    ensures { result ≡ through spec.direction_of (word_seen look) }
{
    match look {
        Look::Word(Keyword::Increasing) => Some(true),
        Look::Word(Keyword::Decreasing) => Some(false),
        _ => None,
    }
}

/// The end of the schedule whose word is seen.
pub fn schedule_end(look: Look) -> Option<ScheduleEnd>
    ensures { result ≡ through spec.schedule_end_of (word_seen look) }
{
    match look {
        Look::Word(Keyword::ScheduleOrigin) => Some(ScheduleEnd::Origin),
        Look::Word(Keyword::ScheduleHorizon) => Some(ScheduleEnd::Horizon),
        _ => None,
    }
}

/// The optimum whose word is seen.
pub fn optimum(look: Look) -> Option<Optimum>
    ensures { result ≡ through spec.optimum_of (word_seen look) }
{
    match look {
        Look::Word(Keyword::Minimize) => Some(Optimum::Least),
        Look::Word(Keyword::Maximize) => Some(Optimum::Greatest),
        _ => None,
    }
}

/// The statement with parameters whose word is seen.
pub fn branch_op(look: Look) -> Option<BranchOp>
    ensures { result ≡ through spec.branch_of (word_seen look) }
{
    match look {
        Look::Word(Keyword::TryAll) => Some(BranchOp::TryAll),
        Look::Word(Keyword::ForAll) => Some(BranchOp::ForAll),
        Look::Word(Keyword::Select) => Some(BranchOp::Select),
        _ => None,
    }
}

/// The statement that decides a whole item whose word is seen.
pub fn label_op(look: Look) -> Option<LabelOp>
    ensures { result ≡ through spec.label_of (word_seen look) }
{
    match look {
        Look::Word(Keyword::Generate) => Some(LabelOp::Generate),
        Look::Word(Keyword::Rank) => Some(LabelOp::Rank),
        _ => None,
    }
}

/// Whether a sum begins with this sign.
fn sign_starts(sign: Sign) -> bool
    ensures { result ≡ spec.sign_starts sign }
{
    matches!(
        sign,
        Sign::OpenParenthesis
            | Sign::Less
            | Sign::OpenBrace
            | Sign::OpenBracket
            | Sign::OpenAssociation
            | Sign::Minus
    )
}

/// Whether a sum begins with this word.
fn word_starts_add(word: Keyword) -> bool
    ensures { result ≡ spec.word_starts_add word }
{
    matches!(
        word,
        Keyword::Abs
            | Keyword::AllDifferent
            | Keyword::Bound
            | Keyword::Card
            | Keyword::DMax
            | Keyword::DMin
            | Keyword::DSize
            | Keyword::Max
            | Keyword::Min
            | Keyword::Prod
            | Keyword::Sum
    )
}

/// Whether an item begins with this word.
fn word_starts_item(word: Keyword) -> bool
    ensures { result ≡ spec.word_starts_item word }
{
    match word {
        Keyword::ForAll | Keyword::If | Keyword::Not => true,
        _ => word_starts_add(word),
    }
}

/// Whether a statement begins with this word.
fn word_starts_statement(word: Keyword) -> bool
    ensures { result ≡ spec.word_starts_statement word }
{
    match word {
        Keyword::Try
        | Keyword::TryAll
        | Keyword::ForAll
        | Keyword::Select
        | Keyword::Once
        | Keyword::While
        | Keyword::If
        | Keyword::Generate
        | Keyword::Rank
        | Keyword::Not => true,
        _ => word_starts_add(word),
    }
}

/// Whether a sum begins with what is seen.
pub fn starts_add(look: Look) -> bool
    ensures { result ≡ begins spec.sign_starts spec.word_starts_add look }
{
    match look {
        Look::Sign(sign) => sign_starts(sign),
        Look::Word(word) => word_starts_add(word),
        Look::Name | Look::Number => true,
        Look::Nothing | Look::Other => false,
    }
}

/// Whether an item begins with what is seen.
pub fn starts_item(look: Look) -> bool
    ensures { result ≡ begins spec.sign_starts spec.word_starts_item look }
{
    match look {
        Look::Sign(sign) => sign_starts(sign),
        Look::Word(word) => word_starts_item(word),
        Look::Name | Look::Number => true,
        Look::Nothing | Look::Other => false,
    }
}

/// Whether a statement begins with what is seen.
pub fn starts_statement(look: Look) -> bool
    ensures { result ≡ begins spec.sign_starts spec.word_starts_statement look }
{
    match look {
        Look::Sign(sign) => sign_starts(sign),
        Look::Word(word) => word_starts_statement(word),
        Look::Name | Look::Number => true,
        Look::Nothing | Look::Other => false,
    }
}

/// Whether a type begins with what is seen.
pub fn starts_type(look: Look) -> bool
    ensures { result ≡ spec.type_begins look }
{
    matches!(
        look,
        Look::Name | Look::Word(Keyword::Int) | Look::Sign(Sign::OpenBrace)
    )
}

/// Whether a declaration begins with this word.
fn word_starts_decl(word: Keyword) -> bool
    ensures { result ≡ spec.word_starts_decl word }
{
    matches!(
        word,
        Keyword::Activity
            | Keyword::DiscreteResource
            | Keyword::Enum
            | Keyword::Int
            | Keyword::Range
            | Keyword::ScheduleHorizon
            | Keyword::ScheduleOrigin
            | Keyword::Struct
            | Keyword::UnaryResource
            | Keyword::Var
    )
}

/// Whether a declaration begins with what is seen.
pub fn starts_decl(look: Look) -> bool
    ensures { result ≡ spec.decl_begins look }
{
    match look {
        Look::Name | Look::Sign(Sign::OpenBrace) => true,
        Look::Word(word) => word_starts_decl(word),
        _ => false,
    }
}
