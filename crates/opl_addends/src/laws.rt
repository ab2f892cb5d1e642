//! Laws of addends. Each law is the contract of a function without effect.
ghost use Rattle.opl_addends.specs.Laws.{AddendsDecide, SumsSplit, OthersStay};

/// The sum of the ranges of its addends decides a comparison, where no variable has a factor in two of them and a side isn't linear.
pub fn addends_decide()
    ensures { AddendsDecide }
{}

/// The sum of the ranges of addends is that of those which mention a variable and of the others.
pub fn sums_split()
    ensures { SumsSplit }
{}

/// With another set for one variable, the sum of the ranges of those which don't mention it stays.
pub fn others_stay()
    ensures { OthersStay }
{}
