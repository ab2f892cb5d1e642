//! Laws of the faults of grounding, as contracts of functions without effect.
ghost use Rattle.opl_faults.specs.Laws.{FormsNeverMemory, GoalsNeverMemory};

/// Want of memory is no fault of the constraints of a model.
pub fn forms_never_memory()
    ensures { FormsNeverMemory }
{
    opl_draft::laws::unrolled_by_form();
    opl_draft::laws::step_by_form();
}

/// Want of memory is no fault of the objective of a model.
pub fn goals_never_memory()
    ensures { GoalsNeverMemory }
{
    opl_draft::laws::unrolled_by_form();
    opl_draft::laws::step_by_form();
}
