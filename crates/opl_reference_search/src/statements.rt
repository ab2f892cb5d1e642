//! What a statement does at a moment.
ghost use Rattle.std.specs.Prelude.{◌≡◌, ◌∷◌, [], ◌++◌, cond, map, length, IfOk};
ghost use Rattle.opl_domain.specs.Family.{Below};
ghost use Rattle.opl_expr.specs.Forms.{fact};
ghost use Rattle.opl_expr.specs.Solutions.{declared};
ghost use Rattle.opl_trace.specs.Answers.{answered, is_met};
ghost use Rattle.opl_trace.specs.Elements.{ordered, taken};
ghost use Rattle.opl_trace.specs.SoundCores.{facts_in};
ghost use Rattle.opl_trace.specs.Questions.{IsOpenFact};
ghost use Rattle.opl_trace.specs.SoundCores.{IsSoundStatement};
ghost use Rattle.opl_steps.specs.Tasks.Task.{act, elements};
ghost use Rattle.opl_steps.specs.Steps.{on, bodies_then, first_then, performed};
ghost use Rattle.opl_steps.specs.Steps.Next.{go, choose, commit};
ghost use Rattle.opl_choices.specs.Branches.{AreSoundElements};
ghost use Rattle.opl_choices.specs.Branches.{element, statement_in};
ghost use Rattle.opl_reference_search.specs.Tasks.{task_of, tasks_in, acts};
ghost use Rattle.opl_reference_search.specs.Steps.{way_of, next_of};

use crate::elements::{ordered, taken};
use crate::next::{Next, Way};
use crate::task::{Task, before, one_before, steps_before};
use opl_choices::{answered, is_met, place};
use opl_expr::{Branch, Cons, Core, OutOfMemory, Step};
use opl_list::{Boxed, Seq};
use opl_reference_labelling::{Ranges, Search, copies};
use opl_trace::Sets;
use std::alloc::Global;

/// The path goes on with the same constraints and one more task.
pub fn with_task<'a>(
    alloc: Global,
    core: &Core,
    task: Task<'a>,
    others: &[Task<'a>],
    posted: &[Cons],
) -> Result<Way<'a>, OutOfMemory>
    ensures { IfOk result (λ w. way_of core.now w ≡ on (facts_in core.now posted.now) (tasks_in core.now (task.entry ∷ others.now))) }
{
    let posted = copies(alloc, posted)?;
    let tasks = one_before(alloc, task, others)?;
    Ok(Way {
        label: None,
        posted,
        tasks,
    })
}

/// The path goes on with the other tasks, and with these constraints.
pub fn without_task<'a>(
    alloc: Global,
    core: &Core,
    others: &[Task<'a>],
    posted: &[Cons],
) -> Result<Way<'a>, OutOfMemory>
    ensures { IfOk result (λ w. way_of core.now w ≡ on (facts_in core.now posted.now) (tasks_in core.now others.now)) }
{
    let posted = copies(alloc, posted)?;
    let tasks = before(alloc, Seq::new(alloc), others)?;
    Ok(Way {
        label: None,
        posted,
        tasks,
    })
}

/// What comes next is one more task.
pub fn go_with_task<'a>(
    alloc: Global,
    core: &Core,
    task: Task<'a>,
    others: &[Task<'a>],
    posted: &[Cons],
) -> Result<Next<'a>, OutOfMemory>
    ensures { IfOk result (λ n. next_of core.now n ≡ go (on (facts_in core.now posted.now) (tasks_in core.now (task.entry ∷ others.now)))) }
{
    let way = with_task(alloc, core, task, others, posted)?;
    Ok(Next::Go(way))
}

/// What comes next are the other tasks.
pub fn go_without_task<'a>(
    alloc: Global,
    core: &Core,
    others: &[Task<'a>],
    posted: &[Cons],
) -> Result<Next<'a>, OutOfMemory>
    ensures { IfOk result (λ n. next_of core.now n ≡ go (on (facts_in core.now posted.now) (tasks_in core.now others.now))) }
{
    let way = without_task(alloc, core, others, posted)?;
    Ok(Next::Go(way))
}

/// Copies of constraints, and one more behind them.
pub fn one_more(alloc: Global, posted: &[Cons], c: Boxed<Cons>) -> Result<Seq<Cons>, OutOfMemory>
    ensures { IfOk result (λ cs. cs ≡ posted.now ++ c ∷ []) }
{
    let mut more = copies(alloc, posted)?;
    more.push(c.into_inner())?;
    Ok(more)
}

/// A constraint is posted, with its questions answered.
fn post<'a>(
    alloc: Global,
    core: &Core,
    sets: &Sets,
    c: &Cons,
    others: &[Task<'a>],
    posted: &[Cons],
) -> Result<Next<'a>, OutOfMemory>
    ensures { IfOk result (λ n. next_of core.now n ≡ go (on (facts_in core.now posted.now ++ answered sets.now (fact core.now.tables core.now.resources c.now) ∷ []) (tasks_in core.now others.now))) }
{
    let known = answered(alloc, core, sets, c)?;
    let more = one_more(alloc, posted, known)?;
    let tasks = before(alloc, Seq::new(alloc), others)?;
    Ok(Next::Go(Way {
        label: None,
        posted: more,
        tasks,
    }))
}

/// The statements one after another.
fn block<'a>(
    alloc: Global,
    core: &Core,
    steps: &'a [Step],
    others: &[Task<'a>],
    posted: &[Cons],
) -> Result<Next<'a>, OutOfMemory>
    ensures { IfOk result (λ n. next_of core.now n ≡ go (on (facts_in core.now posted.now) (acts core.now steps.now ++ tasks_in core.now others.now))) }
{
    let posted = copies(alloc, posted)?;
    let tasks = steps_before(alloc, core, steps, others)?;
    Ok(Next::Go(Way {
        label: None,
        posted,
        tasks,
    }))
}

/// Each statement as an alternative.
fn each_step<'a>(
    alloc: Global,
    core: &Core,
    steps: &'a [Step],
    others: &[Task<'a>],
    posted: &[Cons],
) -> Result<Next<'a>, OutOfMemory>
    ensures { IfOk result (λ n. next_of core.now n ≡ choose (map (λ s. on (facts_in core.now posted.now) (act (statement_in core.now s) ∷ tasks_in core.now others.now)) steps.now)) }
{
    let mut ways = Seq::new(alloc);
    for step in steps {
        ways.push(with_task(alloc, core, Task::Perform(step), others, posted)?)?;
    }
    Ok(Next::Choose(ways))
}

/// The body of each element as an alternative.
fn each_body<'a>(
    alloc: Global,
    core: &Core,
    elements: &[&'a Branch],
    others: &[Task<'a>],
    posted: &[Cons],
) -> Result<Next<'a>, OutOfMemory>
    ensures { IfOk result (λ n. next_of core.now n ≡ choose (bodies_then (facts_in core.now posted.now) (map (λ e. element core.now e.now) elements.now) (tasks_in core.now others.now))) }
{
    let mut ways = Seq::new(alloc);
    for element in elements {
        ways.push(with_task(alloc, core, Task::Perform(&element.body), others, posted)?)?;
    }
    Ok(Next::Choose(ways))
}

/// The body of the first element by its key, if there is one.
fn first_body<'a, R: Ranges>(
    alloc: Global,
    search: &Search<'_, R>,
    sets: &Sets,
    elements: &[&'a Branch],
    others: &[Task<'a>],
    posted: &[Cons],
) -> Result<Next<'a>, OutOfMemory>
    requires sound { AreSoundElements search.now.core.now.sets (map (λ e. element search.now.core.now e.now) elements.now) }
    requires within { Below sets.now (declared search.now.core.now) }
    ensures { IfOk result (λ n. next_of search.now.core.now n ≡ first_then sets.now (facts_in search.now.core.now posted.now) (map (λ e. element search.now.core.now e.now) elements.now) (tasks_in search.now.core.now others.now)) }
{
    if elements.is_empty() {
        return Ok(Next::Nothing);
    }
    let at = place(alloc, search.core, sets, elements)?;
    let way = with_task(
        alloc,
        search.core,
        Task::Perform(&elements[at].body),
        others,
        posted,
    )?;
    Ok(Next::Go(way))
}

/// The bodies of the elements that meet their conditions, as alternatives by their keys.
fn every_body<'a>(
    alloc: Global,
    core: &Core,
    sets: &Sets,
    elements: &'a [Branch],
    others: &[Task<'a>],
    posted: &[Cons],
) -> Result<Next<'a>, OutOfMemory>
    requires sound { AreSoundElements core.now.sets (map (element core.now) elements.now) }
    requires within { Below sets.now (declared core.now) }
    ensures { IfOk result (λ n. next_of core.now n ≡ choose (bodies_then (facts_in core.now posted.now) (ordered sets.now (length (taken sets.now (map (element core.now) elements.now))) (taken sets.now (map (element core.now) elements.now))) (tasks_in core.now others.now))) }
{
    let found = ordered(alloc, core, sets, elements)?;
    let next = each_body(alloc, core, found.as_slice(), others, posted)?;
    Ok(next)
}

/// The elements that meet their conditions are to be visited.
fn every_visit<'a>(
    alloc: Global,
    core: &Core,
    sets: &Sets,
    branches: &'a [Branch],
    others: &[Task<'a>],
    posted: &[Cons],
) -> Result<Next<'a>, OutOfMemory>
    requires sound { AreSoundElements core.now.sets (map (element core.now) branches.now) }
    requires within { Below sets.now (declared core.now) }
    ensures { IfOk result (λ n. next_of core.now n ≡ go (on (facts_in core.now posted.now) (elements (taken sets.now (map (element core.now) branches.now)) ∷ tasks_in core.now others.now))) }
{
    let found = taken(alloc, core, sets, branches)?;
    let next = go_with_task(alloc, core, Task::Visit(found), others, posted)?;
    Ok(next)
}

/// The body of the first by its key of the elements that meet their conditions, if there is one.
fn one_body<'a, R: Ranges>(
    alloc: Global,
    search: &Search<'_, R>,
    sets: &Sets,
    elements: &'a [Branch],
    others: &[Task<'a>],
    posted: &[Cons],
) -> Result<Next<'a>, OutOfMemory>
    requires sound { AreSoundElements search.now.core.now.sets (map (element search.now.core.now) elements.now) }
    requires within { Below sets.now (declared search.now.core.now) }
    ensures { IfOk result (λ n. next_of search.now.core.now n ≡ first_then sets.now (facts_in search.now.core.now posted.now) (taken sets.now (map (element search.now.core.now) elements.now)) (tasks_in search.now.core.now others.now)) }
{
    let found = taken(alloc, search.core, sets, elements)?;
    let next = first_body(alloc, search, sets, found.as_slice(), others, posted)?;
    Ok(next)
}

/// A statement under `once`, and then the other tasks.
fn once<'a>(
    alloc: Global,
    core: &Core,
    body: &'a Step,
    others: &[Task<'a>],
) -> Result<Next<'a>, OutOfMemory>
    ensures { IfOk result (λ n. next_of core.now n ≡ commit (statement_in core.now body.now) (tasks_in core.now others.now)) }
{
    let tasks = before(alloc, Seq::new(alloc), others)?;
    Ok(Next::Commit(body, tasks))
}

/// One of two statements, by a condition.
fn decide<'a, R: Ranges>(
    alloc: Global,
    search: &Search<'_, R>,
    sets: &Sets,
    c: &Cons,
    then: &'a Step,
    or: &'a Step,
    others: &[Task<'a>],
    posted: &[Cons],
) -> Result<Next<'a>, OutOfMemory>
    requires open { IsOpenFact search.now.core.now.sets (fact search.now.core.now.tables search.now.core.now.resources c.now) }
    requires within { Below sets.now (declared search.now.core.now) }
    ensures { IfOk result (λ n. next_of search.now.core.now n ≡ go (on (facts_in search.now.core.now posted.now) (act (cond (is_met sets.now (fact search.now.core.now.tables search.now.core.now.resources c.now)) (statement_in search.now.core.now then.now) (statement_in search.now.core.now or.now)) ∷ tasks_in search.now.core.now others.now))) }
{
    let is_then = is_met(alloc, search.core, sets, c)?;
    let body = if is_then { then } else { or };
    let next = go_with_task(alloc, search.core, Task::Perform(body), others, posted)?;
    Ok(next)
}

/// What a statement does with the sets of a moment, and then the other tasks.
pub fn perform<'a, R: Ranges>(
    alloc: Global,
    search: &Search<'_, R>,
    sets: &Sets,
    step: &'a Step,
    others: &[Task<'a>],
    posted: &[Cons],
    left: u64,
) -> Result<Next<'a>, OutOfMemory>
    requires sound { IsSoundStatement search.now.core.now.sets (statement_in search.now.core.now step.now) }
    requires within { Below sets.now (declared search.now.core.now) }
    ensures { IfOk result (λ n. next_of search.now.core.now n ≡ performed sets.now (facts_in search.now.core.now posted.now) left (statement_in search.now.core.now step.now) (tasks_in search.now.core.now others.now)) }
{
    let core = search.core;
    match step {
        Step::Post(c) => post(alloc, core, sets, c, others, posted),
        Step::Block(steps) => block(alloc, core, steps.as_slice(), others, posted),
        Step::Try(steps) => each_step(alloc, core, steps.as_slice(), others, posted),
        Step::TryAll(elements) => {
            every_body(alloc, core, sets, elements.as_slice(), others, posted)
        }
        Step::ForAll(elements) => {
            every_visit(alloc, core, sets, elements.as_slice(), others, posted)
        }
        Step::Select(elements) => {
            one_body(alloc, search, sets, elements.as_slice(), others, posted)
        }
        Step::Once(body) => once(alloc, core, body.get(), others),
        Step::While(c, body) => {
            let task = Task::Loop(left, c, body.get());
            go_with_task(alloc, core, task, others, posted)
        }
        Step::If(c, then, or) => {
            decide(alloc, search, sets, c, then.get(), or.get(), others, posted)
        }
        Step::Generate(variables) => {
            let task = Task::Label(variables.as_slice());
            go_with_task(alloc, core, task, others, posted)
        }
        Step::Rank(pairs) => {
            let task = Task::Rank(pairs.as_slice());
            go_with_task(alloc, core, task, others, posted)
        }
    }
}
