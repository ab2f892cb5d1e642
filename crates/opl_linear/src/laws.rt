//! Laws of comparisons whose sides are linear. Each law is the contract of a function without effect.
ghost use Rattle.opl_linear.specs.Laws.{ComparisonsByForms, ComparisonsFilter, EqualByValues};

/// What a family refutes of a comparison of linear sides is told by the factors and the constant of their difference.
pub fn comparisons_by_forms()
    ensures { ComparisonsByForms }
{}

/// Where an equality has one variable, or two with the factors 1 and -1, it is decided by their values.
pub fn equal_by_values()
    ensures { EqualByValues }
{}

/// A filter of the linear form is a filter of its comparison.
pub fn comparisons_filter()
    ensures { ComparisonsFilter }
{}
