//! The words of the language itself, which no name may be.
ghost use Rattle.opl_tree.specs.Keywords as spec;
ghost use Rattle.std.specs.Prelude.{◌≡◌};

/// A word that a rule of the grammar names: of models, of data files or of scripts.
#[derive(Clone, Copy)]
pub enum Keyword {
    /// `Activity`
    Activity,
    /// `DiscreteResource`
    DiscreteResource,
    /// `Model`
    Model,
    /// `UnaryResource`
    UnaryResource,
    /// `abs`
    Abs,
    /// `alldifferent`
    AllDifferent,
    /// `bound`
    Bound,
    /// `by`
    By,
    /// `card`
    Card,
    /// `cout`
    COut,
    /// `decreasing`
    Decreasing,
    /// `div`
    Div,
    /// `dmax`
    DMax,
    /// `dmin`
    DMin,
    /// `do`
    Do,
    /// `dsize`
    DSize,
    /// `else`
    Else,
    /// `endif`
    EndIf,
    /// `endl`
    EndLine,
    /// `endtry`
    EndTry,
    /// `enum`
    Enum,
    /// `forall`
    ForAll,
    /// `generate`
    Generate,
    /// `if`
    If,
    /// `in`
    In,
    /// `increasing`
    Increasing,
    /// `int`
    Int,
    /// `max`
    Max,
    /// `maximize`
    Maximize,
    /// `min`
    Min,
    /// `minimize`
    Minimize,
    /// `mod`
    Mod,
    /// `not`
    Not,
    /// `once`
    Once,
    /// `ordered`
    Ordered,
    /// `precedes`
    Precedes,
    /// `prod`
    Prod,
    /// `range`
    Range,
    /// `rank`
    Rank,
    /// `requires`
    Requires,
    /// `scheduleHorizon`
    ScheduleHorizon,
    /// `scheduleOrigin`
    ScheduleOrigin,
    /// `search`
    Search,
    /// `select`
    Select,
    /// `solve`
    Solve,
    /// `struct`
    Struct,
    /// `subject`
    Subject,
    /// `sum`
    Sum,
    /// `then`
    Then,
    /// `to`
    To,
    /// `try`
    Try,
    /// `tryall`
    TryAll,
    /// `var`
    Var,
    /// `while`
    While,
}

/// The words of the language.
pub static KEYWORDS: [Keyword; 54] = [
    Keyword::Activity,
    Keyword::DiscreteResource,
    Keyword::Model,
    Keyword::UnaryResource,
    Keyword::Abs,
    Keyword::AllDifferent,
    Keyword::Bound,
    Keyword::By,
    Keyword::Card,
    Keyword::COut,
    Keyword::Decreasing,
    Keyword::Div,
    Keyword::DMax,
    Keyword::DMin,
    Keyword::Do,
    Keyword::DSize,
    Keyword::Else,
    Keyword::EndIf,
    Keyword::EndLine,
    Keyword::EndTry,
    Keyword::Enum,
    Keyword::ForAll,
    Keyword::Generate,
    Keyword::If,
    Keyword::In,
    Keyword::Increasing,
    Keyword::Int,
    Keyword::Max,
    Keyword::Maximize,
    Keyword::Min,
    Keyword::Minimize,
    Keyword::Mod,
    Keyword::Not,
    Keyword::Once,
    Keyword::Ordered,
    Keyword::Precedes,
    Keyword::Prod,
    Keyword::Range,
    Keyword::Rank,
    Keyword::Requires,
    Keyword::ScheduleHorizon,
    Keyword::ScheduleOrigin,
    Keyword::Search,
    Keyword::Select,
    Keyword::Solve,
    Keyword::Struct,
    Keyword::Subject,
    Keyword::Sum,
    Keyword::Then,
    Keyword::To,
    Keyword::Try,
    Keyword::TryAll,
    Keyword::Var,
    Keyword::While,
];

impl Keyword {
    /// The bytes of the word.
    pub fn text(self) -> &'static [u8]
        ensures { result.now ≡ spec.keyword_text self }
    {
        match self {
            Keyword::Activity => b"Activity",
            Keyword::DiscreteResource => b"DiscreteResource",
            Keyword::Model => b"Model",
            Keyword::UnaryResource => b"UnaryResource",
            Keyword::Abs => b"abs",
            Keyword::AllDifferent => b"alldifferent",
            Keyword::Bound => b"bound",
            Keyword::By => b"by",
            Keyword::Card => b"card",
            Keyword::COut => b"cout",
            Keyword::Decreasing => b"decreasing",
            Keyword::Div => b"div",
            Keyword::DMax => b"dmax",
            Keyword::DMin => b"dmin",
            Keyword::Do => b"do",
            Keyword::DSize => b"dsize",
            Keyword::Else => b"else",
            Keyword::EndIf => b"endif",
            Keyword::EndLine => b"endl",
            Keyword::EndTry => b"endtry",
            Keyword::Enum => b"enum",
            Keyword::ForAll => b"forall",
            Keyword::Generate => b"generate",
            Keyword::If => b"if",
            Keyword::In => b"in",
            Keyword::Increasing => b"increasing",
            Keyword::Int => b"int",
            Keyword::Max => b"max",
            Keyword::Maximize => b"maximize",
            Keyword::Min => b"min",
            Keyword::Minimize => b"minimize",
            Keyword::Mod => b"mod",
            Keyword::Not => b"not",
            Keyword::Once => b"once",
            Keyword::Ordered => b"ordered",
            Keyword::Precedes => b"precedes",
            Keyword::Prod => b"prod",
            Keyword::Range => b"range",
            Keyword::Rank => b"rank",
            Keyword::Requires => b"requires",
            Keyword::ScheduleHorizon => b"scheduleHorizon",
            Keyword::ScheduleOrigin => b"scheduleOrigin",
            Keyword::Search => b"search",
            Keyword::Select => b"select",
            Keyword::Solve => b"solve",
            Keyword::Struct => b"struct",
            Keyword::Subject => b"subject",
            Keyword::Sum => b"sum",
            Keyword::Then => b"then",
            Keyword::To => b"to",
            Keyword::Try => b"try",
            Keyword::TryAll => b"tryall",
            Keyword::Var => b"var",
            Keyword::While => b"while",
        }
    }
}

/// The word of the language with these bytes, if there is one.
#[tactic(auto, unfolding(crate::specs::Keywords::keyword_of))]
pub fn keyword_of(word: &[u8]) -> Option<Keyword>
    ensures { result ≡ spec.keyword_of word.now }
{
    KEYWORDS
        .iter()
        .copied()
        .find(|keyword| word == keyword.text())
}
