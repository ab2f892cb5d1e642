//! Laws of the relation, as contracts of functions without effect.
ghost use Rattle.opl_typed_model.specs.Laws.{DeclsComplete, DeclsSound, InstrComplete, InstrSound, ModelComplete, ModelSound, NotDataIsFirstOfModels, SearchComplete, SearchSound};

/// Where typing accepts a declaration, the relation has it, with the scope that typing lets it leave.
pub fn decls_sound()
    ensures { DeclsSound }
{}

/// Where the relation has a declaration, typing accepts it, and lets it leave that scope.
pub fn decls_complete()
    ensures { DeclsComplete }
{}

/// Where typing accepts an instruction, its objective and its items have types.
pub fn instr_sound()
    ensures { InstrSound }
{}

/// And the other way round.
pub fn instr_complete()
    ensures { InstrComplete }
{}

/// Where typing accepts a search section, its statements have types.
pub fn search_sound()
    ensures { SearchSound }
{}

/// And the other way round.
pub fn search_complete()
    ensures { SearchComplete }
{}

/// Where typing accepts a model, each of its declarations has types in the scope of those before it, and its instruction and its search
/// section in the scope of all of them.
pub fn model_sound()
    ensures { ModelSound }
{}

/// And the other way round: so typing accepts exactly the models that have types.
pub fn model_complete()
    ensures { ModelComplete }
{}

/// Typing refuses a model as no data exactly where it comes first to an expression that is no data and stands where data is needed, and finds no other fault before: at the place where that
/// expression begins.
pub fn not_data_is_first_of_models()
    ensures { NotDataIsFirstOfModels }
{}
