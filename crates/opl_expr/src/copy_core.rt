//! Copies of statements and of whole cores. What is copied stands in a box until no step is left that can fail.
ghost use Rattle.std.specs.Prelude.{◌≡◌, IfOk};

use crate::copy::{boxed, constraints};
use crate::forms::{Cons, Expr};
use crate::model::{Core, Goal};
use crate::search::{Branch, Step};
use crate::tables::{Resource, Table};
use opl_domain::OutOfMemory;
use opl_list::{Boxed, Seq};
use opl_token::Name;
use std::alloc::Global;

/// Copies of statements, in their order.
#[cycle(step_copies)]
fn steps(alloc: Global, parts: &[Step]) -> Result<Seq<Step>, OutOfMemory>
    ensures { IfOk result (λ r. r ≡ parts.now) }
{
    let mut copies = Seq::new(alloc);
    for part in parts {
        copies.push(part.boxed_copy(alloc)?.into_inner())?;
    }
    Ok(copies)
}

/// Copies of alternatives, in their order.
#[cycle(step_copies)]
fn branches(alloc: Global, parts: &[Branch]) -> Result<Seq<Branch>, OutOfMemory>
    ensures { IfOk result (λ r. r ≡ parts.now) }
{
    let mut copies = Seq::new(alloc);
    for part in parts {
        copies.push(part.boxed_copy(alloc)?.into_inner())?;
    }
    Ok(copies)
}

/// A copy of an expression that may be missing.
fn optional_expression(alloc: Global, e: &Option<Expr>) -> Result<Option<Expr>, OutOfMemory>
    ensures { IfOk result (λ r. r ≡ e.now) }
{
    match e {
        None => Ok(None),
        Some(e) => Ok(Some(e.copy(alloc)?)),
    }
}

/// An alternative of its parts.
fn branch_of(when: Boxed<Cons>, key: Boxed<Option<Expr>>, rising: bool, body: Boxed<Step>) -> Branch
    ensures { result ≡ record { when = when; key = key; rising = rising; body = body } }
{
    Branch {
        when: when.into_inner(),
        key: key.into_inner(),
        rising,
        body: body.into_inner(),
    }
}

impl Branch {
    /// An equal alternative, in a box.
    #[cycle(step_copies)]
    fn boxed_copy(&self, alloc: Global) -> Result<Boxed<Branch>, OutOfMemory>
        ensures { IfOk result (λ r. r ≡ self.now) }
    {
        let when = boxed(alloc, self.when.copy(alloc)?)?;
        let key = boxed(alloc, optional_expression(alloc, &self.key)?)?;
        let body = self.body.boxed_copy(alloc)?;
        boxed(alloc, branch_of(when, key, self.rising, body))
    }

    /// An equal alternative.
    pub fn copy(&self, alloc: Global) -> Result<Branch, OutOfMemory>
        ensures { IfOk result (λ r. r ≡ self.now) }
    {
        Ok(self.boxed_copy(alloc)?.into_inner())
    }
}

impl Step {
    /// An equal statement, in a box.
    #[cycle(step_copies)]
    fn boxed_copy(&self, alloc: Global) -> Result<Boxed<Step>, OutOfMemory>
        ensures { IfOk result (λ r. r ≡ self.now) }
    {
        match self {
            Step::Post(c) => boxed(alloc, Step::Post(c.copy(alloc)?)),
            Step::Block(parts) => boxed(alloc, Step::Block(steps(alloc, parts.as_slice())?)),
            Step::Try(parts) => boxed(alloc, Step::Try(steps(alloc, parts.as_slice())?)),
            Step::TryAll(elements) => {
                boxed(alloc, Step::TryAll(branches(alloc, elements.as_slice())?))
            }
            Step::ForAll(elements) => {
                boxed(alloc, Step::ForAll(branches(alloc, elements.as_slice())?))
            }
            Step::Select(elements) => {
                boxed(alloc, Step::Select(branches(alloc, elements.as_slice())?))
            }
            Step::Once(s) => boxed(alloc, Step::Once(s.get().boxed_copy(alloc)?)),
            Step::While(c, s) => {
                let body = s.get().boxed_copy(alloc)?;
                boxed(alloc, Step::While(c.copy(alloc)?, body))
            }
            Step::If(c, s, t) => {
                let yes = s.get().boxed_copy(alloc)?;
                let no = t.get().boxed_copy(alloc)?;
                boxed(alloc, Step::If(c.copy(alloc)?, yes, no))
            }
            Step::Generate(variables) => boxed(
                alloc,
                Step::Generate(Seq::from_slice(alloc, variables.as_slice())?),
            ),
            Step::Rank(pairs) => {
                boxed(alloc, Step::Rank(Seq::from_slice(alloc, pairs.as_slice())?))
            }
        }
    }

    /// An equal statement.
    pub fn copy(&self, alloc: Global) -> Result<Step, OutOfMemory>
        ensures { IfOk result (λ r. r ≡ self.now) }
    {
        Ok(self.boxed_copy(alloc)?.into_inner())
    }
}

/// A copy of a name.
fn name(alloc: Global, text: &Name) -> Result<Name, OutOfMemory>
    ensures { IfOk result (λ r. r ≡ text.now) }
{
    Ok(Seq::from_slice(alloc, text.as_slice())?)
}

/// Copies of names, in their order.
fn names(alloc: Global, texts: &[Name]) -> Result<Seq<Name>, OutOfMemory>
    ensures { IfOk result (λ r. r ≡ texts.now) }
{
    let mut copies = Seq::new(alloc);
    for text in texts {
        copies.push(name(alloc, text)?)?;
    }
    Ok(copies)
}

/// Copies of the indices of dimensions, in their order.
fn dimensions(alloc: Global, dims: &[Seq<i128>]) -> Result<Seq<Seq<i128>>, OutOfMemory>
    ensures { IfOk result (λ r. r ≡ dims.now) }
{
    let mut copies = Seq::new(alloc);
    for dim in dims {
        copies.push(Seq::from_slice(alloc, dim.as_slice())?)?;
    }
    Ok(copies)
}

impl Table {
    /// An equal table.
    pub fn copy(&self, alloc: Global) -> Result<Table, OutOfMemory>
        ensures { IfOk result (λ r. r ≡ self.now) }
    {
        Ok(Table {
            name: name(alloc, &self.name)?,
            dims: dimensions(alloc, self.dims.as_slice())?,
            cells: Seq::from_slice(alloc, self.cells.as_slice())?,
        })
    }
}

/// Copies of tables, in their order.
fn tables(alloc: Global, parts: &[Table]) -> Result<Seq<Table>, OutOfMemory>
    ensures { IfOk result (λ r. r ≡ parts.now) }
{
    let mut copies = Seq::new(alloc);
    for part in parts {
        copies.push(part.copy(alloc)?)?;
    }
    Ok(copies)
}

impl Resource {
    /// An equal resource.
    pub fn copy(&self, alloc: Global) -> Result<Resource, OutOfMemory>
        ensures { IfOk result (λ r. r ≡ self.now) }
    {
        Ok(Resource {
            name: name(alloc, &self.name)?,
            capacity: self.capacity,
            from: self.from,
            to: self.to,
            uses: Seq::from_slice(alloc, self.uses.as_slice())?,
        })
    }
}

/// Copies of resources, in their order.
fn resources(alloc: Global, parts: &[Resource]) -> Result<Seq<Resource>, OutOfMemory>
    ensures { IfOk result (λ r. r ≡ parts.now) }
{
    let mut copies = Seq::new(alloc);
    for part in parts {
        copies.push(part.copy(alloc)?)?;
    }
    Ok(copies)
}

impl Goal {
    /// An equal objective.
    pub fn copy(&self, alloc: Global) -> Result<Goal, OutOfMemory>
        ensures { IfOk result (λ r. r ≡ self.now) }
    {
        Ok(Goal {
            maximize: self.maximize,
            value: self.value.copy(alloc)?,
        })
    }
}

/// A copy of an objective that may be missing.
fn optional_goal(alloc: Global, goal: &Option<Goal>) -> Result<Option<Goal>, OutOfMemory>
    ensures { IfOk result (λ r. r ≡ goal.now) }
{
    match goal {
        None => Ok(None),
        Some(goal) => Ok(Some(goal.copy(alloc)?)),
    }
}

/// A copy of a search section that may be missing.
fn optional_step(alloc: Global, step: &Option<Step>) -> Result<Option<Step>, OutOfMemory>
    ensures { IfOk result (λ r. r ≡ step.now) }
{
    match step {
        None => Ok(None),
        Some(step) => Ok(Some(step.copy(alloc)?)),
    }
}

impl Core {
    /// An equal core.
    pub fn copy(&self, alloc: Global) -> Result<Core, OutOfMemory>
        ensures { IfOk result (λ r. r ≡ self.now) }
    {
        let names = names(alloc, self.names.as_slice())?;
        let sets = Seq::from_slice(alloc, self.sets.as_slice())?;
        let tables = tables(alloc, self.tables.as_slice())?;
        let resources = resources(alloc, self.resources.as_slice())?;
        let cons = constraints(alloc, self.cons.as_slice())?;
        let goal = boxed(alloc, optional_goal(alloc, &self.goal)?)?;
        let search = optional_step(alloc, &self.search)?;
        Ok(Core {
            names,
            sets,
            tables,
            resources,
            cons,
            goal: goal.into_inner(),
            search,
        })
    }
}
