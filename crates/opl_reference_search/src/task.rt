//! What a search still has to do.
ghost use Rattle.std.specs.Prelude.{◌≡◌, ◌++◌, ◌∷◌, IfOk};
ghost use Rattle.opl_reference_search.specs.Tasks.{acts, tasks_in};

use opl_expr::{Branch, Cons, Core, OutOfMemory, Step};
use opl_list::Seq;
use std::alloc::Global;

/// What ends a list of tasks.
#[derive(Drop, Clone, Copy)]
pub enum End {
    /// A solution: the list is all that the search does.
    Whole,
    /// A Leaf: the list is what stands under `once`.
    Inner,
}

/// A part of what is to be done.
#[derive(Drop)]
pub enum Task<'a> {
    /// A statement.
    Perform(&'a Step),
    /// A value for each variable, in order.
    Label(&'a [u32]),
    /// An order for each pair of start variables.
    Rank(&'a [(u32, u32)]),
    /// The bodies of the elements; each element is chosen when it is reached.
    Visit(Seq<&'a Branch>),
    /// A statement as long as a condition holds, and so many times at most.
    Loop(u64, &'a Cons, &'a Step),
}

impl<'a> Task<'a> {
    /// An equal task.
    pub fn copy(&self, alloc: Global) -> Result<Task<'a>, OutOfMemory>
        ensures { IfOk result (λ t. t ≡ self.now) }
    {
        match self {
            Task::Perform(step) => Ok(Task::Perform(*step)),
            Task::Label(variables) => Ok(Task::Label(*variables)),
            Task::Rank(pairs) => Ok(Task::Rank(*pairs)),
            Task::Visit(elements) => Ok(Task::Visit(Seq::from_slice(alloc, elements.as_slice())?)),
            Task::Loop(turns, condition, body) => Ok(Task::Loop(*turns, *condition, *body)),
        }
    }
}

/// Tasks, and copies of others behind them.
pub fn before<'a>(
    alloc: Global,
    first: Seq<Task<'a>>,
    others: &[Task<'a>],
) -> Result<Seq<Task<'a>>, OutOfMemory>
    ensures { IfOk result (λ ts. ts ≡ first.entry ++ others.now) }
{
    let mut tasks = first;
    for task in others {
        tasks.push(task.copy(alloc)?)?;
    }
    Ok(tasks)
}

/// A task, and copies of others behind it.
pub fn one_before<'a>(
    alloc: Global,
    task: Task<'a>,
    others: &[Task<'a>],
) -> Result<Seq<Task<'a>>, OutOfMemory>
    ensures { IfOk result (λ ts. ts ≡ task.entry ∷ others.now) }
{
    let mut first = Seq::new(alloc);
    first.push(task)?;
    let tasks = before(alloc, first, others)?;
    Ok(tasks)
}

/// Statements in their order, and copies of tasks behind them.
pub fn steps_before<'a>(
    alloc: Global,
    core: &Core,
    steps: &'a [Step],
    others: &[Task<'a>],
) -> Result<Seq<Task<'a>>, OutOfMemory>
    ensures { IfOk result (λ ts. tasks_in core.now ts ≡ acts core.now steps.now ++ tasks_in core.now others.now) }
{
    let mut first = Seq::new(alloc);
    for step in steps {
        first.push(Task::Perform(step))?;
    }
    let tasks = before(alloc, first, others)?;
    Ok(tasks)
}
