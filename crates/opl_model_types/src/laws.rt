//! Laws of typing, as contracts of functions without effect.
ghost use Rattle.opl_model_types.specs.Laws.{DeclsDeclareOnce, DimsDeclareOnce, ModelIsDeclared, NamesAreDeclared, NeverMemory, NoFault, OneFault, OneList, ParamsDeclareOnce, TypedIsDeclared};

/// A model has the types of its expressions in one way at most.
pub fn one_list()
    ensures { OneList }
{}

/// A model whose expressions have types has no fault.
pub fn none_faulty()
    ensures { NoFault }
{}

/// A model has one first fault at most.
pub fn one_fault()
    ensures { OneFault }
{}

/// Want of memory is never a fault of a model.
pub fn never_memory()
    ensures { NeverMemory }
{}

/// Where no two visible declarations have one name, a name that typing accepts has exactly one of them, and the type that
/// it gives.
pub fn names_are_declared()
    ensures { NamesAreDeclared }
{}

/// No two declarations of a model declare one name.
pub fn decls_declare_once()
    ensures { DeclsDeclareOnce }
{}

/// Nor do the dimensions of an item.
pub fn dims_declare_once()
    ensures { DimsDeclareOnce }
{}

/// Nor do parameters.
pub fn params_declare_once()
    ensures { ParamsDeclareOnce }
{}

/// So each name in an expression that typing accepts, its parameters being visible inside it, has exactly one declaration.
pub fn typed_is_declared()
    ensures { TypedIsDeclared }
{}

/// And in a model with types, each name that is used has exactly one visible declaration: in declarations, items, statements
/// and the objective; a name that stands for a type has that of a type.
pub fn model_is_declared()
    ensures { ModelIsDeclared }
{}
