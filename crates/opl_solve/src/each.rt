//! Showing each solution that a machine finds, as it is found.
ghost use Rattle.std.specs.Prelude.{◌≡◌, IfOk, OnOk, length};
ghost use Rattle.opl_expr.specs.Solutions.{declared};
ghost use Rattle.opl_search.specs.Machines.{trace_of};
ghost use Rattle.opl_search.specs.declared.machine.Last.TheVariants as at;
ghost use Rattle.opl_show.specs.Readings.{names_of};
ghost use Rattle.opl_show.specs.Texts.{solution_text as the_solution_text};
ghost use Rattle.opl_solve.specs.Answers.{IsBefore};
ghost use Rattle.opl_solve.specs.Printing.{Prints};
ghost use Rattle.opl_solve.specs.Texts.{best_of, choices_made, count_from, ending, found, solution_texts};
ghost use Rattle.opl_trace.specs.Marks.{objective};

use crate::numbers::numbers;
use crate::show::{Shown, show};
use crate::turn::turn;
use opl_domain::Steps;
use opl_list::Seq;
use opl_meaning::VariableItem;
use opl_outside::{OutsideError, Sink};
use opl_search::{Machine, Solver};
use std::alloc::Global;

/// Shows the last answer, which was a solution, with this number.
fn show_answer<O: Sink, S: Solver>(
    alloc: Global,
    out: &mut O,
    number: u64,
    enumerations: &[Seq<&[u8]>],
    items: &[VariableItem],
    machine: &Machine<S>,
) -> Result<(), OutsideError>
    requires last { machine.now.last ≡ at.Solution }
    requires long { length machine.now.values ≡ length (declared machine.now.core) }
    ensures { Prints (the_solution_text (names_of enumerations.now) items.now number machine.now.values machine.now.best) (O.written out.old) (O.written out.new) (O.faults out.old) (O.faults out.new) result }
{
    let numbers = numbers(alloc, machine)?;
    show(
        alloc,
        out,
        number,
        enumerations,
        items,
        numbers.as_slice(),
        machine.best(),
    )
}

/// Shows each solution that a machine finds, up to a limit. More than 2^64 - 2 answers count as want of memory.
pub fn show_each<O: Sink, S: Solver>(
    alloc: Global,
    out: &mut O,
    enumerations: &[Seq<&[u8]>],
    items: &[VariableItem],
    machine: &mut Machine<S>,
    limit: Option<u64>,
) -> Result<Shown, OutsideError>
    requires { IsBefore machine.old }
    ensures prints { Prints (solution_texts (objective machine.old.core) (names_of enumerations.now) items.now 0 (found limit (trace_of machine.old))) (O.written out.old) (O.written out.new) (O.faults out.old) (O.faults out.new) result }
    ensures shown { IfOk result (λ shown. (shown.solutions ≡ count_from 0 (found limit (trace_of machine.old))) × (shown.last ≡ ending limit (trace_of machine.old))) }
    ensures choices { OnOk result (machine.new.choices ≡ choices_made limit (trace_of machine.old)) }
    ensures best { OnOk result (machine.new.best ≡ best_of (objective machine.old.core) (found limit (trace_of machine.old))) }
{
    let mut steps = Steps::new();
    let mut shown: u64 = 0;
    for so_far in 0..u64::MAX {
        match turn(alloc, machine, limit, so_far, &mut steps)? {
            None => {
                shown = shown.saturating_add(1);
                show_answer(alloc, out, shown, enumerations, items, &*machine)?;
            }
            Some(last) => {
                return Ok(Shown {
                    solutions: shown,
                    last,
                });
            }
        }
    }
    Err(OutsideError::OutOfMemory)
}
