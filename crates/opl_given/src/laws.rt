//! Laws of the values of data files, as contracts of functions without effect.
ghost use Rattle.opl_given.specs.Laws.{CellsFillTheSpace};

/// An array that is given has as many cells as its index space has keys.
#[tactic(auto, using(crate::proofs::CellLaws::cells_fill))]
pub fn cells_fill_the_space()
    ensures { CellsFillTheSpace }
{}
