//! What the first of some tasks does at a moment.
ghost use Rattle.std.specs.Prelude.{◌≡◌, ◌∷◌, [], ◌++◌, ◌<◌, ◌^◌, ◌||◌, suc, map, length, IfOk};
ghost use Rattle.opl_domain.specs.Family.{Below, set_of};
ghost use Rattle.opl_expr.specs.Forms.{fact};
ghost use Rattle.opl_expr.specs.Solutions.{declared};
ghost use Rattle.opl_trace.specs.Answers.{is_decided, precedes};
ghost use Rattle.opl_trace.specs.SoundCores.{facts_in};
ghost use Rattle.opl_trace.specs.SoundCores.{IsSoundCore, AreThere, ArePairs};
ghost use Rattle.opl_trace.specs.Questions.{IsOpenFact};
ghost use Rattle.opl_steps.specs.Tasks.Task.{act, values, orders, elements};
ghost use Rattle.opl_steps.specs.Steps.{on, on_value, both_then, turned, looped, labelled, ranked, visited, next_step};
ghost use Rattle.opl_steps.specs.Steps.Next.{go, choose};
ghost use Rattle.opl_choices.specs.Branches.{AreSoundElements};
ghost use Rattle.opl_reference_search.specs.Sound.{AreSoundTasks};
ghost use Rattle.opl_choices.specs.Branches.{element, statement_in};
ghost use Rattle.opl_reference_search.specs.Tasks.{tasks_in};
ghost use Rattle.opl_reference_search.specs.Steps.{way_of, ways_in, next_of};

use crate::next::{Next, Way};
use crate::statements::{go_with_task, go_without_task, one_more, perform, with_task};
use crate::task::{Task, one_before};
use opl_choices::{is_decided, is_met, is_single, place, without};
use opl_domain::View;
use opl_expr::{Branch, Cons, Core, Expr, Op, OutOfMemory, Step};
use opl_list::{Boxed, Seq};
use opl_reference_labelling::{Ranges, Search, with_value};
use opl_trace::Sets;
use std::alloc::Global;

/// The values of the set of a variable, rising.
fn values_of(alloc: Global, sets: &Sets, x: u32) -> Result<Seq<i64>, OutOfMemory>
    requires { x < length sets.now }
    ensures { IfOk result (λ vs. vs ≡ set_of sets.now x) }
{
    let _ = sets.vars();
    let mut values = Seq::new(alloc);
    let mut next = Some(sets.min(x));
    while let Some(v) = next {
        values.push(v)?;
        next = sets.next(x, v);
    }
    Ok(values)
}

/// Variable `x` has the value `v`, and then the other variables have theirs.
fn valued<'a>(
    alloc: Global,
    core: &Core,
    x: u32,
    v: i64,
    variables: &'a [u32],
    others: &[Task<'a>],
    posted: &[Cons],
) -> Result<Way<'a>, OutOfMemory>
    ensures { IfOk result (λ w. way_of core.now w ≡ on_value x v (facts_in core.now posted.now) (values variables.now ∷ tasks_in core.now others.now)) }
{
    let posted = with_value(alloc, core, posted, x, v)?;
    let tasks = one_before(alloc, Task::Label(variables), others)?;
    Ok(Way {
        label: Some((x, v)),
        posted,
        tasks,
    })
}

/// Each value of variable `x` as an alternative.
fn each_value<'a>(
    alloc: Global,
    core: &Core,
    x: u32,
    choices: &[i64],
    variables: &'a [u32],
    others: &[Task<'a>],
    posted: &[Cons],
) -> Result<Seq<Way<'a>>, OutOfMemory>
    ensures { IfOk result (λ ws. ways_in core.now ws ≡ map (λ v. on_value x v (facts_in core.now posted.now) (values variables.now ∷ tasks_in core.now others.now)) choices.now) }
{
    let mut ways = Seq::new(alloc);
    for v in choices {
        ways.push(valued(alloc, core, x, *v, variables, others, posted)?)?;
    }
    Ok(ways)
}

/// A value for variable `x`, and then one for each of the other variables.
fn choose_value<'a>(
    alloc: Global,
    core: &Core,
    sets: &Sets,
    x: u32,
    variables: &'a [u32],
    others: &[Task<'a>],
    posted: &[Cons],
) -> Result<Next<'a>, OutOfMemory>
    requires { x < length sets.now }
    ensures { IfOk result (λ n. next_of core.now n ≡ choose (map (λ v. on_value x v (facts_in core.now posted.now) (values variables.now ∷ tasks_in core.now others.now)) (set_of sets.now x))) }
{
    let choices = values_of(alloc, sets, x)?;
    let ways = each_value(
        alloc,
        core,
        x,
        choices.as_slice(),
        variables,
        others,
        posted,
    )?;
    Ok(Next::Choose(ways))
}

/// A value for each variable.
fn label<'a>(
    alloc: Global,
    core: &Core,
    sets: &Sets,
    variables: &'a [u32],
    others: &[Task<'a>],
    posted: &[Cons],
) -> Result<Next<'a>, OutOfMemory>
    requires there { AreThere core.now.sets variables.now }
    requires within { Below sets.now (declared core.now) }
    ensures { IfOk result (λ n. next_of core.now n ≡ labelled sets.now (facts_in core.now posted.now) variables.now (tasks_in core.now others.now)) }
{
    match variables.split_first() {
        None => go_without_task(alloc, core, others, posted),
        Some((x, variables)) => {
            if is_single(sets, *x) {
                go_with_task(alloc, core, Task::Label(variables), others, posted)
            } else {
                choose_value(alloc, core, sets, *x, variables, others, posted)
            }
        }
    }
}

/// The activity that starts at variable `x` ends by the time at which the one that starts at `y` does.
fn precedes(alloc: Global, core: &Core, x: u32, y: u32) -> Result<Boxed<Cons>, OutOfMemory>
    requires { suc x < 2 ^ 32 }
    ensures { IfOk result (λ c. fact core.now.tables core.now.resources c ≡ precedes x y) }
{
    let mut parts = Seq::new(alloc);
    parts.push(Expr::Var(x))?;
    parts.push(Expr::Var(x + 1))?;
    let end = Boxed::new(alloc, Expr::Sum(parts))?;
    let start = Boxed::new(alloc, Expr::Var(y))?;
    let order = Boxed::new(alloc, Cons::Cmp(Op::Le, end, start))?;
    Ok(order)
}

/// Two activities in this order, and then an order for the other pairs.
fn ordered_pair<'a>(
    alloc: Global,
    core: &Core,
    x: u32,
    y: u32,
    pairs: &'a [(u32, u32)],
    others: &[Task<'a>],
    posted: &[Cons],
) -> Result<Way<'a>, OutOfMemory>
    requires { suc x < 2 ^ 32 }
    ensures { IfOk result (λ w. way_of core.now w ≡ on (facts_in core.now posted.now ++ precedes x y ∷ []) (orders pairs.now ∷ tasks_in core.now others.now)) }
{
    let order = precedes(alloc, core, x, y)?;
    let more = one_more(alloc, posted, order)?;
    let tasks = one_before(alloc, Task::Rank(pairs), others)?;
    Ok(Way {
        label: None,
        posted: more,
        tasks,
    })
}

/// Whether the order of two activities is decided.
fn is_settled<R: Ranges>(
    alloc: Global,
    search: &Search<'_, R>,
    sets: &Sets,
    x: u32,
    y: u32,
) -> Result<bool, OutOfMemory>
    requires core { IsSoundCore search.now.core.now }
    requires there { (suc x < length search.now.core.now.sets) × (suc y < length search.now.core.now.sets) }
    requires within { Below sets.now (declared search.now.core.now) }
    ensures { IfOk result (λ b. b ≡ is_decided sets.now (precedes x y)) }
{
    let order = precedes(alloc, search.core, x, y)?;
    Ok(is_decided(search.core, sets, order.get()))
}

/// Whether one of the two orders of two activities is decided.
fn is_either_settled<R: Ranges>(
    alloc: Global,
    search: &Search<'_, R>,
    sets: &Sets,
    x: u32,
    y: u32,
) -> Result<bool, OutOfMemory>
    requires core { IsSoundCore search.now.core.now }
    requires there { (suc x < length search.now.core.now.sets) × (suc y < length search.now.core.now.sets) }
    requires within { Below sets.now (declared search.now.core.now) }
    ensures { IfOk result (λ b. b ≡ (is_decided sets.now (precedes x y) || is_decided sets.now (precedes y x))) }
{
    if is_settled(alloc, search, sets, x, y)? {
        Ok(true)
    } else {
        is_settled(alloc, search, sets, y, x)
    }
}

/// Both orders of two activities as alternatives.
fn both_orders<'a>(
    alloc: Global,
    core: &Core,
    x: u32,
    y: u32,
    pairs: &'a [(u32, u32)],
    others: &[Task<'a>],
    posted: &[Cons],
) -> Result<Next<'a>, OutOfMemory>
    requires { (suc x < 2 ^ 32) × (suc y < 2 ^ 32) }
    ensures { IfOk result (λ n. next_of core.now n ≡ both_then (facts_in core.now posted.now) (x, y) pairs.now (tasks_in core.now others.now)) }
{
    let mut ways = Seq::new(alloc);
    ways.push(ordered_pair(alloc, core, x, y, pairs, others, posted)?)?;
    ways.push(ordered_pair(alloc, core, y, x, pairs, others, posted)?)?;
    Ok(Next::Choose(ways))
}

/// An order for each pair.
fn rank<'a, R: Ranges>(
    alloc: Global,
    search: &Search<'_, R>,
    sets: &Sets,
    pairs: &'a [(u32, u32)],
    others: &[Task<'a>],
    posted: &[Cons],
) -> Result<Next<'a>, OutOfMemory>
    requires core { IsSoundCore search.now.core.now }
    requires there { ArePairs search.now.core.now.sets pairs.now }
    requires within { Below sets.now (declared search.now.core.now) }
    ensures { IfOk result (λ n. next_of search.now.core.now n ≡ ranked sets.now (facts_in search.now.core.now posted.now) pairs.now (tasks_in search.now.core.now others.now)) }
{
    let core = search.core;
    match pairs.split_first() {
        None => go_without_task(alloc, core, others, posted),
        Some(((x, y), pairs)) => {
            if is_either_settled(alloc, search, sets, *x, *y)? {
                go_with_task(alloc, core, Task::Rank(pairs), others, posted)
            } else {
                both_orders(alloc, core, *x, *y, pairs, others, posted)
            }
        }
    }
}

/// The body of an element, and then the others.
fn visit_one<'a>(
    alloc: Global,
    core: &Core,
    first: &'a Branch,
    left: Seq<&'a Branch>,
    others: &[Task<'a>],
    posted: &[Cons],
) -> Result<Next<'a>, OutOfMemory>
    ensures { IfOk result (λ n. next_of core.now n ≡ go (on (facts_in core.now posted.now) (act (statement_in core.now first.now.body) ∷ elements (map (λ e. element core.now e.now) left.entry) ∷ tasks_in core.now others.now))) }
{
    let rest = one_before(alloc, Task::Visit(left), others)?;
    go_with_task(
        alloc,
        core,
        Task::Perform(&first.body),
        rest.as_slice(),
        posted,
    )
}

/// The first element by its key, and then the others.
fn visit<'a, R: Ranges>(
    alloc: Global,
    search: &Search<'_, R>,
    sets: &Sets,
    elements: &[&'a Branch],
    others: &[Task<'a>],
    posted: &[Cons],
) -> Result<Next<'a>, OutOfMemory>
    requires sound { AreSoundElements search.now.core.now.sets (map (λ e. element search.now.core.now e.now) elements.now) }
    requires within { Below sets.now (declared search.now.core.now) }
    ensures { IfOk result (λ n. next_of search.now.core.now n ≡ visited sets.now (facts_in search.now.core.now posted.now) (map (λ e. element search.now.core.now e.now) elements.now) (tasks_in search.now.core.now others.now)) }
{
    let core = search.core;
    if elements.is_empty() {
        return go_without_task(alloc, core, others, posted);
    }
    let at = place(alloc, core, sets, elements)?;
    let left = without(alloc, elements, at)?;
    visit_one(alloc, core, elements[at], left, others, posted)
}

/// One more turn of a loop, if one is left.
fn turn<'a>(
    alloc: Global,
    core: &Core,
    turns: u64,
    c: &'a Cons,
    body: &'a Step,
    others: &[Task<'a>],
    posted: &[Cons],
) -> Result<Next<'a>, OutOfMemory>
    ensures { IfOk result (λ n. next_of core.now n ≡ turned (facts_in core.now posted.now) turns (fact core.now.tables core.now.resources c.now) (statement_in core.now body.now) (tasks_in core.now others.now)) }
{
    if turns == 0 {
        return Ok(Next::Spent);
    }
    let rest = one_before(alloc, Task::Loop(turns - 1, c, body), others)?;
    let mut ways = Seq::new(alloc);
    ways.push(with_task(alloc, core, Task::Perform(body), rest.as_slice(), posted)?)?;
    Ok(Next::Choose(ways))
}

/// A statement as long as a condition holds.
fn again<'a, R: Ranges>(
    alloc: Global,
    search: &Search<'_, R>,
    sets: &Sets,
    turns: u64,
    c: &'a Cons,
    body: &'a Step,
    others: &[Task<'a>],
    posted: &[Cons],
) -> Result<Next<'a>, OutOfMemory>
    requires open { IsOpenFact search.now.core.now.sets (fact search.now.core.now.tables search.now.core.now.resources c.now) }
    requires within { Below sets.now (declared search.now.core.now) }
    ensures { IfOk result (λ n. next_of search.now.core.now n ≡ looped sets.now (facts_in search.now.core.now posted.now) turns (fact search.now.core.now.tables search.now.core.now.resources c.now) (statement_in search.now.core.now body.now) (tasks_in search.now.core.now others.now)) }
{
    if is_met(alloc, search.core, sets, c)? {
        turn(alloc, search.core, turns, c, body, others, posted)
    } else {
        go_without_task(alloc, search.core, others, posted)
    }
}

/// What the first task does with the sets of a moment.
pub fn next_step<'a, R: Ranges>(
    alloc: Global,
    search: &Search<'_, R>,
    sets: &Sets,
    tasks: &[Task<'a>],
    posted: &[Cons],
    left: u64,
) -> Result<Next<'a>, OutOfMemory>
    requires core { IsSoundCore search.now.core.now }
    requires sound { AreSoundTasks search.now.core.now.sets (tasks_in search.now.core.now tasks.now) }
    requires within { Below sets.now (declared search.now.core.now) }
    ensures { IfOk result (λ n. next_of search.now.core.now n ≡ next_step sets.now (facts_in search.now.core.now posted.now) left (tasks_in search.now.core.now tasks.now)) }
{
    let core = search.core;
    match tasks.split_first() {
        None => Ok(Next::Finished),
        Some((task, others)) => match task {
            Task::Perform(step) => perform(alloc, search, sets, step, others, posted, left),
            Task::Label(variables) => label(alloc, core, sets, variables, others, posted),
            Task::Rank(pairs) => rank(alloc, search, sets, pairs, others, posted),
            Task::Visit(elements) => {
                visit(alloc, search, sets, elements.as_slice(), others, posted)
            }
            Task::Loop(turns, c, body) => {
                again(alloc, search, sets, *turns, c, body, others, posted)
            }
        },
    }
}
