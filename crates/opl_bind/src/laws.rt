//! Laws of the data values of a model, as contracts of functions without effect.
ghost use Rattle.opl_bind.specs.Laws.{ArraysAreFilled, NeverMemory};

/// Each declared array has as many cells as its index space has keys.
#[tactic(auto, using(crate::proofs::FilledArrays::arrays_filled))]
pub fn arrays_are_filled()
    ensures { ArraysAreFilled }
{}

/// Want of memory is never a fault of the data of a model, nor of an expression in it: they come to values or to another fault.
#[tactic(auto, using(crate::proofs::NoMemoryBind::never_memory))]
pub fn never_memory()
    ensures { NeverMemory }
{}
