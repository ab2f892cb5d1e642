//! The closing lines of a search of which no solution is shown.
ghost use Rattle.std.specs.Prelude.{◌≡◌, ◌++◌, None, true, IfErr, IfOk, OnOk};
ghost use Rattle.opl_outside.specs.declared.error.OutsideError.TheVariants.{OutOfMemory};
ghost use Rattle.opl_search.specs.Machines.{trace_of};
ghost use Rattle.opl_show.specs.Texts.{closing as the_closing};
ghost use Rattle.opl_solve.specs.Answers.{IsBefore};
ghost use Rattle.opl_solve.specs.Printing.{Prints};
ghost use Rattle.opl_solve.specs.Texts.{best_of, choices_made, closing_of, count_from, ending, found};
ghost use Rattle.opl_trace.specs.Marks.{objective};

use crate::print::print;
use crate::show::Shown;
use crate::turn::turn;
use opl_domain::Steps;
use opl_outside::{OutsideError, Sink};
use opl_search::{Machine, Solver};
use opl_show::closing;
use std::alloc::Global;

/// How many solutions a machine finds, and how its search ends. More than 2^64 - 2 answers count as want of memory.
fn count<S: Solver>(alloc: Global, machine: &mut Machine<S>) -> Result<Shown, OutsideError>
    requires { IsBefore machine.old }
    ensures shown { IfOk result (λ shown. (shown.solutions ≡ count_from 0 (found None (trace_of machine.old))) × (shown.last ≡ ending None (trace_of machine.old))) }
    ensures choices { OnOk result (machine.new.choices ≡ choices_made None (trace_of machine.old)) }
    ensures best { OnOk result (machine.new.best ≡ best_of (objective machine.old.core) (found None (trace_of machine.old))) }
    ensures fault { IfErr result (λ fault. fault ≡ OutOfMemory) }
{
    let mut steps = Steps::new();
    let mut solutions: u64 = 0;
    for so_far in 0..u64::MAX {
        match turn(alloc, machine, None, so_far, &mut steps)? {
            None => solutions = solutions.saturating_add(1),
            Some(last) => return Ok(Shown { solutions, last }),
        }
    }
    Err(OutsideError::OutOfMemory)
}

/// Puts on `out` as one piece a text and, behind it, the closing lines of all that a machine before its first call finds; none of the
/// solutions is shown. The answer is how many there are, and how the search ended. A fault of `out` and want of memory end it, and a
/// front of the text is written then.
pub fn summarize<O: Sink, S: Solver + Drop>(
    alloc: Global,
    out: &mut O,
    head: &[u8],
    machine: Machine<S>,
) -> Result<Shown, OutsideError>
    requires { IsBefore machine }
    ensures prints { Prints (head.now ++ closing_of (objective machine.core) (record { limit = None; is_each = true }) (trace_of machine)) (O.written out.old) (O.written out.new) (O.faults out.old) (O.faults out.new) result }
    ensures shown { IfOk result (λ shown. (shown.solutions ≡ count_from 0 (found None (trace_of machine))) × (shown.last ≡ ending None (trace_of machine))) }
{
    let mut machine = machine;
    let shown = count(alloc, &mut machine)?;
    print_summary(alloc, out, head, shown, machine.choices(), machine.best())
}

/// Puts a text and the closing lines as one piece.
fn print_summary<O: Sink>(
    alloc: Global,
    out: &mut O,
    head: &[u8],
    shown: Shown,
    choices: u64,
    best: Option<i128>,
) -> Result<Shown, OutsideError>
    ensures prints { Prints (head.now ++ the_closing shown.solutions choices best shown.last) (O.written out.old) (O.written out.new) (O.faults out.old) (O.faults out.new) result }
    ensures same { IfOk result (λ r. r ≡ shown) }
{
    let mut text = Vec::from_slice(alloc, head)?;
    let lines = closing(alloc, shown.solutions, choices, best, shown.last)?;
    text.extend_from_slice(lines.as_slice())?;
    print(alloc, out, text.as_slice())?;
    Ok(shown)
}
