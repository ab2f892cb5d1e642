//! Laws of the definitions, as contracts of functions without effect.
ghost use Rattle.opl_not_data.specs.Laws.{MentionsAreKnown, NotDataIsExact, NotDataIsFirst, NotDataIsFirstOfParameters, NotDataIsFirstOfSets, NotDataIsMentioned, NotDataIsMentionedThere};

/// Typing knows of each expression whether a decision variable or an activity stands in it, other than in a question, and whether a question does.
pub fn mentions_are_known()
    ensures { MentionsAreKnown }
{}

/// Where data is needed, an expression whose parts have types is refused as no data exactly where it mentions a decision variable, an activity or a question.
pub fn not_data_is_exact()
    ensures { NotDataIsExact }
{}

/// An expression that mentions no decision variable, no activity and no question is never refused as no data, in no part of it.
pub fn not_data_is_mentioned()
    ensures { NotDataIsMentioned }
{}

/// Where an expression is refused as no data, at the place that is told an expression in it begins that mentions a decision variable, an activity or a question.
pub fn not_data_is_mentioned_there()
    ensures { NotDataIsMentionedThere }
{}

/// Of an expression in its place, typing answers that something is no data exactly where it comes first to an expression that is no data and stands where data is needed, and finds no
/// other fault before: at the place where that expression begins.
pub fn not_data_is_first()
    ensures { NotDataIsFirst }
{}

/// The same of sets, behind `in` and of groups of parameters.
pub fn not_data_is_first_of_sets()
    ensures { NotDataIsFirstOfSets }
{}

/// The same of parameters and their condition.
pub fn not_data_is_first_of_parameters()
    ensures { NotDataIsFirstOfParameters }
{}
