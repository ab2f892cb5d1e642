//! The marks of a whole search.
ghost use Rattle.std.specs.Prelude.{◌≡◌, None, IfOk};
ghost use Rattle.opl_expr.specs.Solutions.{base};
ghost use Rattle.opl_trace.specs.Marks.{section, core_marks};
ghost use Rattle.opl_trace.specs.SoundCores.{IsSoundCore};
ghost use Rattle.opl_reference_labelling.specs.Outcomes.{marks_in, outcome};
ghost use Rattle.opl_reference_search.specs.declared.task.End.TheVariants.{Whole};
ghost use Rattle.opl_reference_search.specs.Sound.{AreSoundTasks};
ghost use Rattle.opl_reference_search.specs.Tasks.{doing, tasks_in};
ghost use Rattle.opl_reference_search.specs.Whole.{whole};

use crate::run::run;
use crate::task::{End, Task, one_before};
use opl_expr::{Core, OutOfMemory};
use opl_list::Seq;
use opl_reference_labelling::{Mark, Outcome, Ranges, Search, base, variables};
use std::alloc::Global;

/// What a search has to do: its section, unless default search is asked, and then a value for each variable.
fn whole<'a>(
    alloc: Global,
    core: &'a Core,
    default: bool,
    variables: &'a [u32],
) -> Result<Seq<Task<'a>>, OutOfMemory>
    ensures { IfOk result (λ ts. tasks_in core.now ts ≡ whole (section default core.now) variables.now) }
{
    let mut labels = Seq::new(alloc);
    labels.push(Task::Label(variables))?;
    if default {
        return Ok(labels);
    }
    match &core.search {
        None => Ok(labels),
        Some(step) => one_before(alloc, Task::Perform(step), labels.as_slice()),
    }
}

/// What tasks make from the constraints of a core.
fn made_of<R: Ranges>(
    alloc: Global,
    search: &Search<'_, R>,
    tasks: &[Task<'_>],
    budget: u64,
) -> Result<Outcome, OutOfMemory>
    requires core { IsSoundCore search.now.core.now }
    requires tasks { AreSoundTasks search.now.core.now.sets (tasks_in search.now.core.now tasks.now) }
    ensures { IfOk result (λ o. outcome search.now.core.now o ≡ doing search.now.core.now Whole (tasks_in search.now.core.now tasks.now) (base search.now.core.now) None budget) }
{
    let base = base(alloc, search.core)?;
    run(
        alloc,
        search,
        tasks,
        End::Whole,
        base.as_slice(),
        None,
        budget,
    )
}

/// The marks of a core's search with `budget` choices: of its section and default labelling, or of default search alone where
/// that is asked.
pub fn marks<R: Ranges>(
    alloc: Global,
    ranges: &R,
    core: &Core,
    default: bool,
    budget: u64,
) -> Result<Seq<Mark>, OutOfMemory>
    requires { IsSoundCore core.now }
    ensures { IfOk result (λ ms. marks_in core.now ms ≡ core_marks default core.now budget) }
{
    let search = Search { ranges, core };
    let variables = variables(alloc, core.sets.len() as u32)?;
    let tasks = whole(alloc, core, default, variables.as_slice())?;
    let outcome = made_of(alloc, &search, tasks.as_slice(), budget)?;
    outcome.into_marks(core)
}
