//! The law of the definitions, as the contract of a function without effect.
ghost use Rattle.opl_tool.specs.Laws.{OneOutcome};

/// Whatever the words and the files are, they come to one outcome and to no other: a task, or a first fault.
pub fn one_outcome()
    ensures { OneOutcome }
{
    opl_faults::laws::forms_never_memory();
    opl_faults::laws::goals_never_memory();
}
