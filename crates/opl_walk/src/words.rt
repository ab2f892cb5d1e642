//! The words and signs of what the trees have as cases.
ghost use Rattle.std.specs.Prelude.{◌≡◌};
ghost use Rattle.opl_tree.specs.Marks as marks;

use opl_token::Sign;
use opl_tree::{
    AddOp, AggregateOp, BranchOp, CallOp, GroupSeparator, Keyword, LabelOp, Optimum, QuestionOp,
    Relation, ScheduleEnd,
};

/// The sign of a comparison.
pub(crate) fn relation_sign(relation: Relation) -> Sign
    ensures { result ≡ marks.relation_sign relation }
{
    match relation {
        Relation::Equal => Sign::Equal,
        Relation::NotEqual => Sign::NotEqual,
        Relation::Less => Sign::Less,
        Relation::LessOrEqual => Sign::LessOrEqual,
        Relation::Greater => Sign::Greater,
        Relation::GreaterOrEqual => Sign::GreaterOrEqual,
    }
}

/// The sign of a step of a sum.
pub(crate) fn add_sign(op: AddOp) -> Sign
    ensures { result ≡ marks.add_sign op }
{
    match op {
        AddOp::Plus => Sign::Plus,
        AddOp::Minus => Sign::Minus,
    }
}

/// The word of an aggregate.
pub(crate) fn aggregate_word(op: AggregateOp) -> Keyword
    ensures { result ≡ marks.aggregate_word op }
{
    match op {
        AggregateOp::Sum => Keyword::Sum,
        AggregateOp::Product => Keyword::Prod,
        AggregateOp::Min => Keyword::Min,
        AggregateOp::Max => Keyword::Max,
    }
}

/// The word of a function.
pub(crate) fn call_word(op: CallOp) -> Keyword
    ensures { result ≡ marks.call_word op }
{
    match op {
        CallOp::Absolute => Keyword::Abs,
        CallOp::Cardinality => Keyword::Card,
    }
}

/// The word of a question.
pub(crate) fn question_word(op: QuestionOp) -> Keyword
    ensures { result ≡ marks.question_word op }
{
    match op {
        QuestionOp::Size => Keyword::DSize,
        QuestionOp::Least => Keyword::DMin,
        QuestionOp::Greatest => Keyword::DMax,
        QuestionOp::Bound => Keyword::Bound,
    }
}

/// What stands between two groups.
pub(crate) fn separator_sign(separator: GroupSeparator) -> Sign
    ensures { result ≡ marks.separator_sign separator }
{
    match separator {
        GroupSeparator::Comma => Sign::Comma,
        GroupSeparator::Ampersand => Sign::And,
    }
}

/// The word of an end of the schedule.
pub(crate) fn schedule_word(end: ScheduleEnd) -> Keyword
    ensures { result ≡ marks.schedule_word end }
{
    match end {
        ScheduleEnd::Origin => Keyword::ScheduleOrigin,
        ScheduleEnd::Horizon => Keyword::ScheduleHorizon,
    }
}

/// The word of an objective.
pub(crate) fn optimum_word(optimum: Optimum) -> Keyword
    ensures { result ≡ marks.optimum_word optimum }
{
    match optimum {
        Optimum::Least => Keyword::Minimize,
        Optimum::Greatest => Keyword::Maximize,
    }
}

/// The word of a statement with parameters.
pub(crate) fn branch_word(op: BranchOp) -> Keyword
    ensures { result ≡ marks.branch_word op }
{
    match op {
        BranchOp::TryAll => Keyword::TryAll,
        BranchOp::ForAll => Keyword::ForAll,
        BranchOp::Select => Keyword::Select,
    }
}

/// The word of a statement on a whole item.
pub(crate) fn label_word(op: LabelOp) -> Keyword
    ensures { result ≡ marks.label_word op }
{
    match op {
        LabelOp::Generate => Keyword::Generate,
        LabelOp::Rank => Keyword::Rank,
    }
}

/// The word of an order.
pub(crate) fn direction_word(is_increasing: bool) -> Keyword
    ensures { result ≡ marks.direction_word is_increasing }
{
    if is_increasing {
        Keyword::Increasing
    } else {
        Keyword::Decreasing
    }
}
