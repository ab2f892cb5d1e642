//! What holds of all ranges. Each law is the contract of a function without effect.
ghost use Rattle.opl_range.specs.Answers.{EachAnswerComes};
ghost use Rattle.opl_range.specs.Magnitudes.{RangesAreSmall};

/// No range of an expression leaves its magnitude, with any part of its linear form, and the range of a constraint is a truth.
pub fn ranges_are_small()
    ensures { RangesAreSmall }
{}

/// Each kind of answer comes: of expressions numbers and none, of constraints true, false and none, refuted and not.
pub fn each_answer_comes()
    ensures { EachAnswerComes }
{}
