//! Laws of the definitions, as contracts of functions without effect.
ghost use Rattle.opl_clean.specs.Laws.{DataNamesNone, ItemsNameNone, ModelNamesNone, ParamsNameNone, VariablesDecide};

/// An expression with types in which a decision variable is named is no data, in a scope in which these variables are visible, outside a search section.
pub fn variables_decide()
    ensures { VariablesDecide }
{}

/// An expression that typing accepts where data is needed names no decision variable.
pub fn data_names_none()
    ensures { DataNamesNone }
{}

/// Parameters that typing accepts where data is needed name no decision variable in their sets and in their condition, and the variables are visible within them
/// as they are outside.
pub fn params_name_none()
    ensures { ParamsNameNone }
{}

/// Where the items of a model have types, the parameters of `forall` and the conditions of `if` name no decision variable.
pub fn items_name_none()
    ensures { ItemsNameNone }
{}

/// So it is in a model that has types: the decision variables are those of its declarations.
pub fn model_names_none()
    ensures { ModelNamesNone }
{}
