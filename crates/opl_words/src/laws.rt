//! What holds of the words of calls, whichever they are.
ghost use Rattle.opl_words.specs.Laws.{BudgetsAlike, ExamplesHold, FilesAlone, LimitsAlike};

/// Each example asks for what it says.
pub fn examples_hold()
    ensures { ExamplesHold }
{}

/// `solve` with files alone is the request for all solutions, with the default budget.
pub fn files_alone()
    ensures { FilesAlone }
{}

/// `--budget=N` is `--budget N`.
pub fn budgets_alike()
    ensures { BudgetsAlike }
{}

/// `--limit=N` is `--limit N`.
pub fn limits_alike()
    ensures { LimitsAlike }
{}
