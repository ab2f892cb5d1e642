//! Showing the last solution that a machine finds, when the search has ended.
ghost use Rattle.std.specs.Prelude.{◌≡◌, IfErr, IfOk, None, OnOk, Option};
ghost use Rattle.opl_expr.specs.Options.{lift1};
ghost use Rattle.opl_outside.specs.declared.error.OutsideError.TheVariants.{OutOfMemory};
ghost use Rattle.opl_search.specs.Machines.{trace_of};
ghost use Rattle.opl_show.specs.Readings.{names_of};
ghost use Rattle.opl_solve.specs.Answers.{IsBefore};
ghost use Rattle.opl_solve.specs.Printing.{Prints};
ghost use Rattle.opl_solve.specs.Texts.{alone, best_of, choices_made, count_from, ending, found, last_from, solution_texts, value_of};
ghost use Rattle.opl_trace.specs.Marks.{objective};
ghost use Rattle.opl_trace.specs.Objective.{Objective};

use crate::numbers::numbers;
use crate::show::{Shown, show};
use crate::turn::turn;
use opl_domain::Steps;
use opl_list::Seq;
use opl_meaning::VariableItem;
use opl_outside::{OutsideError, Sink};
use opl_search::{Machine, Solver};
use opl_show::Last;
use std::alloc::Global;

/// The last solution of a search, if there was one, and how the search ended.
#[derive(Drop)]
struct Latest {
    values: Option<Vec<i128>>,
    last: Last,
}

/// The last solution that a machine finds, up to a limit. No other one is kept. More than 2^64 - 2 answers count as want of memory.
fn find_last<S: Solver>(
    alloc: Global,
    machine: &mut Machine<S>,
    limit: Option<u64>,
) -> Result<Latest, OutsideError>
    requires { IsBefore machine.old }
    ensures found { IfOk result (λ latest. (lift1 (λ v. v.items) latest.values ≡ last_from None (found limit (trace_of machine.old))) × (latest.last ≡ ending limit (trace_of machine.old))) }
    ensures choices { OnOk result (machine.new.choices ≡ choices_made limit (trace_of machine.old)) }
    ensures best { OnOk result (machine.new.best ≡ best_of (objective machine.old.core) (found limit (trace_of machine.old))) }
    ensures fault { IfErr result (λ fault. fault ≡ OutOfMemory) }
{
    let mut steps = Steps::new();
    let mut values = None;
    for so_far in 0..u64::MAX {
        match turn(alloc, machine, limit, so_far, &mut steps)? {
            None => values = Some(numbers(alloc, &*machine)?),
            Some(last) => return Ok(Latest { values, last }),
        }
    }
    Err(OutsideError::OutOfMemory)
}

/// Shows a solution, if there is one, as the only one; the answer is how many are shown.
fn show_alone<O: Sink>(
    alloc: Global,
    out: &mut O,
    enumerations: &[Seq<&[u8]>],
    items: &[VariableItem],
    values: &Option<Vec<i128>>,
    value: Option<i128>,
) -> Result<u64, OutsideError>
    ensures prints { (goal : Option Objective) → value ≡ value_of goal (lift1 (λ v. v.items) values.now) → Prints (solution_texts goal (names_of enumerations.now) items.now 0 (alone (lift1 (λ v. v.items) values.now))) (O.written out.old) (O.written out.new) (O.faults out.old) (O.faults out.new) result }
    ensures count { IfOk result (λ count. count ≡ count_from 0 (alone (lift1 (λ v. v.items) values.now))) }
{
    match values {
        Some(values) => {
            show(alloc, out, 1, enumerations, items, values.as_slice(), value)?;
            Ok(1)
        }
        None => Ok(0),
    }
}

/// Shows the last solution that a machine finds, up to a limit, when the search has ended. More than 2^64 - 2 answers count as want
/// of memory.
pub fn show_last<O: Sink, S: Solver>(
    alloc: Global,
    out: &mut O,
    enumerations: &[Seq<&[u8]>],
    items: &[VariableItem],
    machine: &mut Machine<S>,
    limit: Option<u64>,
) -> Result<Shown, OutsideError>
    requires { IsBefore machine.old }
    ensures prints { Prints (solution_texts (objective machine.old.core) (names_of enumerations.now) items.now 0 (alone (last_from None (found limit (trace_of machine.old))))) (O.written out.old) (O.written out.new) (O.faults out.old) (O.faults out.new) result }
    ensures shown { IfOk result (λ shown. (shown.solutions ≡ count_from 0 (alone (last_from None (found limit (trace_of machine.old))))) × (shown.last ≡ ending limit (trace_of machine.old))) }
    ensures choices { OnOk result (machine.new.choices ≡ choices_made limit (trace_of machine.old)) }
    ensures best { OnOk result (machine.new.best ≡ best_of (objective machine.old.core) (found limit (trace_of machine.old))) }
{
    let latest = find_last(alloc, machine, limit)?;
    let solutions = show_alone(
        alloc,
        out,
        enumerations,
        items,
        &latest.values,
        machine.best(),
    )?;
    Ok(Shown {
        solutions,
        last: latest.last,
    })
}
