//! Showing one solution.
ghost use Rattle.opl_show.specs.Readings.{names_of};
ghost use Rattle.opl_show.specs.Texts.{solution_text as the_solution_text};
ghost use Rattle.opl_solve.specs.Printing.{Prints};

use crate::print::print;
use opl_list::Seq;
use opl_meaning::VariableItem;
use opl_outside::{OutsideError, Sink};
use opl_show::{Last, solution_text};
use std::alloc::Global;

/// Which solutions are to be shown.
#[derive(Clone, Copy)]
pub struct Showing {
    /// How many solutions are searched for; without a limit all.
    pub limit: Option<u64>,
    /// Whether each solution is shown, as it is found, or the last one alone.
    pub is_each: bool,
}

/// What was shown.
#[derive(Clone, Copy)]
pub struct Shown {
    /// How many solutions.
    pub solutions: u64,
    /// How the search ended.
    pub last: Last,
}

/// Shows a solution with this number, and the value that the objective has under it, if there is one.
pub fn show<O: Sink>(
    alloc: Global,
    out: &mut O,
    number: u64,
    enumerations: &[Seq<&[u8]>],
    items: &[VariableItem],
    numbers: &[i128],
    value: Option<i128>,
) -> Result<(), OutsideError>
    ensures { Prints (the_solution_text (names_of enumerations.now) items.now number numbers.now value) (O.written out.old) (O.written out.new) (O.faults out.old) (O.faults out.new) result }
{
    let text = solution_text(alloc, number, enumerations, items, numbers, value)?;
    print(alloc, out, text.as_slice())
}
