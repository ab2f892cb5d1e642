//! Printing what a call is to print.
ghost use Rattle.std.specs.Prelude.{◌≡◌, ◌++◌, false, ℕ, List, None, Option, length, IfOk};
ghost use Rattle.opl_expr.specs.Solutions.{declared};
ghost use Rattle.opl_generate.specs.Texts as made;
ghost use Rattle.opl_ground_text.specs.Texts as texts;
ghost use Rattle.opl_meaning.specs.Variables.{sets_of};
ghost use Rattle.opl_search.specs.Machines as machines;
ghost use Rattle.opl_solve.specs.Answers.{IsBefore};
ghost use Rattle.opl_solve.specs.Printing.{Prints};
ghost use Rattle.opl_solve.specs.Texts.{count_from, ending, shown_of};
ghost use Rattle.opl_trace.specs.GroundCores.{IsGroundCore};
ghost use Rattle.opl_trace.specs.Marks.{core_trace, section};
ghost use Rattle.opl_trace.specs.Run.{Out};
ghost use Rattle.opl_words.specs.Requests.{default_budget};
ghost use Rattle.opl_prepare.specs.Prepared.{enumerations_in};
ghost use Rattle.opl_tool.specs.declared.answer.Answer.TheVariants as answers;
ghost use Rattle.opl_tool.specs.Printed.{IsThrough, PrintsStop, Reaches, ended_with};
ghost use Rattle.opl_tool.specs.Tasks.{command_answer, command_text, made_text, showing_of as the_showing, trace_answer};

use crate::ended::Ended;
use opl_domain::OutOfMemory;
use opl_expr::Core;
use opl_files::Stop;
use opl_generate::head_text;
use opl_ground_text::{constraints_heading, ground_text, variables_heading};
use opl_outside::{OutsideError, Sink};
use opl_prepare::Problem;
use opl_search::{Machine, Way};
use opl_show::Last;
use opl_solve::{Showing, Shown, solve, summarize};
use opl_solver::{Pair, search};
use opl_words::{Command, DEFAULT_BUDGET, Generated, Searching};
use std::alloc::Global;

/// How a search ends that was not cut, where so many solutions are shown.
fn ended_with(solutions: u64) -> Ended
    ensures { result ≡ ended_with solutions }
{
    if solutions == 0 {
        Ended::NoSolution
    } else {
        Ended::Done
    }
}

/// How a search ends that was shown.
fn ended(shown: Shown) -> Result<Ended, Stop>
    ensures through { IsThrough result }
    ensures answers { (showing : Showing) (out : Out) → shown.solutions ≡ count_from 0 (shown_of showing out) → shown.last ≡ ending showing.limit out → Reaches (trace_answer showing.limit out) result }
{
    match shown.last {
        Last::Spent => Err(Stop::Spent),
        Last::End => Ok(ended_with(shown.solutions)),
        Last::Limit => Ok(ended_with(shown.solutions)),
    }
}

/// How printing what a search finds ends.
fn ended_as(shown: Result<Shown, OutsideError>) -> Result<Ended, Stop>
    ensures prints { (text : List ℕ) (old new : Option (List ℕ)) (before now : ℕ) → Prints text old new before now shown → PrintsStop text old new before now result }
    ensures answers { (showing : Showing) (out : Out) → IfOk shown (λ shown. (shown.solutions ≡ count_from 0 (shown_of showing out)) × (shown.last ≡ ending showing.limit out)) → Reaches (trace_answer showing.limit out) result }
{
    match shown {
        Ok(shown) => ended(shown),
        Err(OutsideError::Failed) => Err(Stop::WriteFault),
        Err(OutsideError::OutOfMemory) => Err(Stop::OutOfMemory),
    }
}

/// Which solutions are shown of a core's search: each, as it is found, where the core has no objective or those that improve are
/// asked for; else the last alone.
fn showing_of(searching: Searching, core: &Core) -> Showing
    ensures { result ≡ the_showing searching core.now }
{
    Showing {
        limit: searching.limit,
        is_each: searching.is_improving || core.goal.is_none(),
    }
}

/// A machine that searches the core of a problem.
fn machine_of(
    alloc: Global,
    problem: &Problem<'_>,
    budget: u64,
) -> Result<Machine<Pair>, OutOfMemory>
    requires ground { IsGroundCore problem.now.core.value }
    requires plain { section false problem.now.core.value ≡ None }
    ensures { IfOk result (λ machine. IsBefore machine × (machine.core ≡ problem.now.core.value) × (machines.trace_of machine ≡ core_trace false problem.now.core.value budget)) }
{
    let core = problem.core.clone()?;
    let way = Way {
        default_search: false,
    };
    search(alloc, core, way, budget)
}

/// Prints the solutions that a search finds.
fn print_solutions<O: Sink>(
    alloc: Global,
    out: &mut O,
    problem: &Problem<'_>,
    searching: Searching,
) -> Result<Ended, Stop>
    requires ground { IsGroundCore problem.now.core.value }
    requires plain { section false problem.now.core.value ≡ None }
    requires as_many { length (sets_of problem.now.variables) ≡ length (declared problem.now.core.value) }
    ensures prints { PrintsStop (command_text (Command.Solve searching) (enumerations_in problem.now) problem.now.variables problem.now.core.value) (O.written out.old) (O.written out.new) (O.faults out.old) (O.faults out.new) result }
    ensures answers { Reaches (command_answer (Command.Solve searching) problem.now.core.value) result }
{
    match machine_of(alloc, problem, searching.budget) {
        Ok(machine) => ended_as(solve(
            alloc,
            out,
            problem.enumerations.as_slice(),
            problem.variables.as_slice(),
            machine,
            showing_of(searching, problem.core.as_ref()),
        )),
        Err(_) => Err(Stop::OutOfMemory),
    }
}

/// Puts a text as one piece.
pub fn print_text<O: Sink>(alloc: Global, out: &mut O, text: &[u8]) -> Result<Ended, Stop>
    ensures prints { PrintsStop text.now (O.written out.old) (O.written out.new) (O.faults out.old) (O.faults out.new) result }
    ensures answers { Reaches answers.Done result }
{
    match out.put(alloc, text) {
        Ok(()) => Ok(Ended::Done),
        Err(OutsideError::Failed) => Err(Stop::WriteFault),
        Err(OutsideError::OutOfMemory) => Err(Stop::OutOfMemory),
    }
}

/// Prints the text of a core.
fn print_core<O: Sink>(alloc: Global, out: &mut O, core: &Core) -> Result<Ended, Stop>
    ensures prints { PrintsStop (texts.ground_text core.now) (O.written out.old) (O.written out.new) (O.faults out.old) (O.faults out.new) result }
    ensures answers { Reaches answers.Done result }
{
    match ground_text(alloc, core) {
        Ok(text) => print_text(alloc, out, text.as_slice()),
        Err(_) => Err(Stop::OutOfMemory),
    }
}

/// Prints what a command is to print of a problem.
pub fn print<O: Sink>(
    alloc: Global,
    out: &mut O,
    command: Command,
    problem: &Problem<'_>,
) -> Result<Ended, Stop>
    requires ground { IsGroundCore problem.now.core.value }
    requires plain { section false problem.now.core.value ≡ None }
    requires as_many { length (sets_of problem.now.variables) ≡ length (declared problem.now.core.value) }
    ensures prints { PrintsStop (command_text command (enumerations_in problem.now) problem.now.variables problem.now.core.value) (O.written out.old) (O.written out.new) (O.faults out.old) (O.faults out.new) result }
    ensures answers { Reaches (command_answer command problem.now.core.value) result }
{
    match command {
        Command::Solve(searching) => print_solutions(alloc, out, problem, searching),
        Command::Ground => print_core(alloc, out, problem.core.as_ref()),
    }
}

/// What stands before the closing lines of a summary.
fn summary_head(alloc: Global, generated: Generated, core: &Core) -> Result<Vec<u8>, OutOfMemory>
    ensures { IfOk result (λ text. text.items ≡ made.head_text generated ++ texts.variables_heading core.now ++ texts.constraints_heading core.now) }
{
    let mut text = head_text(alloc, &generated)?;
    let variables = variables_heading(alloc, core)?;
    text.extend_from_slice(variables.as_slice())?;
    let constraints = constraints_heading(alloc, core)?;
    text.extend_from_slice(constraints.as_slice())?;
    Ok(text)
}

/// What stands before a made model's closing lines, and a machine that searches its core.
fn summary_parts(
    alloc: Global,
    generated: Generated,
    problem: &Problem<'_>,
) -> Result<(Vec<u8>, Machine<Pair>), OutOfMemory>
    requires ground { IsGroundCore problem.now.core.value }
    requires plain { section false problem.now.core.value ≡ None }
    ensures { IfOk result (λ parts. (parts.0.items ≡ made.head_text generated ++ texts.variables_heading problem.now.core.value ++ texts.constraints_heading problem.now.core.value) × IsBefore parts.1 × (parts.1.core ≡ problem.now.core.value) × (machines.trace_of parts.1 ≡ core_trace false problem.now.core.value default_budget)) }
{
    let head = summary_head(alloc, generated, problem.core.as_ref())?;
    let machine = machine_of(alloc, problem, DEFAULT_BUDGET)?;
    Ok((head, machine))
}

/// Searches a made model, and prints the summary.
pub fn print_summary<O: Sink>(
    alloc: Global,
    out: &mut O,
    generated: Generated,
    problem: &Problem<'_>,
) -> Result<Ended, Stop>
    requires ground { IsGroundCore problem.now.core.value }
    requires plain { section false problem.now.core.value ≡ None }
    ensures prints { PrintsStop (made_text generated problem.now.core.value) (O.written out.old) (O.written out.new) (O.faults out.old) (O.faults out.new) result }
    ensures answers { Reaches (trace_answer None (core_trace false problem.now.core.value default_budget)) result }
{
    match summary_parts(alloc, generated, problem) {
        Ok((head, machine)) => ended_as(summarize(alloc, out, head.as_slice(), machine)),
        Err(_) => Err(Stop::OutOfMemory),
    }
}
