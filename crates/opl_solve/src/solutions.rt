//! What a machine finds and the closing lines on a sink.
ghost use Rattle.std.specs.Prelude.{◌≡◌, IfOk, OnOk, length};
ghost use Rattle.opl_expr.specs.Solutions.{declared};
ghost use Rattle.opl_meaning.specs.Variables.{sets_of};
ghost use Rattle.opl_search.specs.Machines.{trace_of};
ghost use Rattle.opl_show.specs.Readings.{names_of};
ghost use Rattle.opl_show.specs.Texts.{closing as the_closing};
ghost use Rattle.opl_solve.specs.Answers.{IsBefore};
ghost use Rattle.opl_solve.specs.Printing.{Prints};
ghost use Rattle.opl_solve.specs.Texts.{best_of, choices_made, count_from, ending, found, search_text, shown_of, solution_texts};
ghost use Rattle.opl_trace.specs.Marks.{objective};

use crate::each::show_each;
use crate::latest::show_last;
use crate::print::print;
use crate::show::{Showing, Shown};
use opl_list::Seq;
use opl_meaning::VariableItem;
use opl_outside::{OutsideError, Sink};
use opl_search::{Machine, Solver};
use opl_show::closing;
use std::alloc::Global;

/// Puts the closing lines.
fn close<O: Sink>(
    alloc: Global,
    out: &mut O,
    shown: Shown,
    choices: u64,
    best: Option<i128>,
) -> Result<(), OutsideError>
    ensures { Prints (the_closing shown.solutions choices best shown.last) (O.written out.old) (O.written out.new) (O.faults out.old) (O.faults out.new) result }
{
    let text = closing(alloc, shown.solutions, choices, best, shown.last)?;
    print(alloc, out, text.as_slice())
}

/// Shows the solutions that a machine finds, as they are to be shown.
fn show_found<O: Sink, S: Solver>(
    alloc: Global,
    out: &mut O,
    enumerations: &[Seq<&[u8]>],
    items: &[VariableItem],
    machine: &mut Machine<S>,
    showing: Showing,
) -> Result<Shown, OutsideError>
    requires { IsBefore machine.old }
    ensures prints { Prints (solution_texts (objective machine.old.core) (names_of enumerations.now) items.now 0 (shown_of showing (trace_of machine.old))) (O.written out.old) (O.written out.new) (O.faults out.old) (O.faults out.new) result }
    ensures shown { IfOk result (λ shown. (shown.solutions ≡ count_from 0 (shown_of showing (trace_of machine.old))) × (shown.last ≡ ending showing.limit (trace_of machine.old))) }
    ensures choices { OnOk result (machine.new.choices ≡ choices_made showing.limit (trace_of machine.old)) }
    ensures best { OnOk result (machine.new.best ≡ best_of (objective machine.old.core) (found showing.limit (trace_of machine.old))) }
{
    if showing.is_each {
        show_each(alloc, out, enumerations, items, machine, showing.limit)
    } else {
        show_last(alloc, out, enumerations, items, machine, showing.limit)
    }
}

/// Shows what a machine finds, and the closing lines.
fn show_search<O: Sink, S: Solver>(
    alloc: Global,
    out: &mut O,
    enumerations: &[Seq<&[u8]>],
    items: &[VariableItem],
    machine: &mut Machine<S>,
    showing: Showing,
) -> Result<Shown, OutsideError>
    requires { IsBefore machine.old }
    ensures prints { Prints (search_text (objective machine.old.core) (names_of enumerations.now) items.now showing (trace_of machine.old)) (O.written out.old) (O.written out.new) (O.faults out.old) (O.faults out.new) result }
    ensures shown { IfOk result (λ shown. (shown.solutions ≡ count_from 0 (shown_of showing (trace_of machine.old))) × (shown.last ≡ ending showing.limit (trace_of machine.old))) }
{
    let shown = show_found(alloc, out, enumerations, items, machine, showing)?;
    close(alloc, out, shown, machine.choices(), machine.best())?;
    Ok(shown)
}

/// Shows on `out` the solutions that a machine before its first call finds, up to the limit, if there is one: each in one piece as
/// soon as it is found, or the last one alone when the search has ended; and then the closing lines as one piece. The answer is how
/// many solutions are shown, and how the search ended; at its limit nothing further is searched. The machine searches a core with a
/// variable for each declared set of `items`. A fault of `out` and want of memory end it, and a front of the text is written then.
pub fn solve<O: Sink, S: Solver + Drop>(
    alloc: Global,
    out: &mut O,
    enumerations: &[Seq<&[u8]>],
    items: &[VariableItem],
    machine: Machine<S>,
    showing: Showing,
) -> Result<Shown, OutsideError>
    requires fresh { IsBefore machine }
    requires variables { length (sets_of items.now) ≡ length (declared machine.core) }
    ensures prints { Prints (search_text (objective machine.core) (names_of enumerations.now) items.now showing (trace_of machine)) (O.written out.old) (O.written out.new) (O.faults out.old) (O.faults out.new) result }
    ensures shown { IfOk result (λ shown. (shown.solutions ≡ count_from 0 (shown_of showing (trace_of machine))) × (shown.last ≡ ending showing.limit (trace_of machine))) }
{
    let mut machine = machine;
    show_search(alloc, out, enumerations, items, &mut machine, showing)
}
