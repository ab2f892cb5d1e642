//! Ground models that are read line by line.
//!
//! `set LOW HIGH` declares one more variable, `sets COUNT LOW HIGH` so many alike, and `name` one more name than there are
//! variables. `constraint TEXT`, `least TEXT`, `greatest TEXT` and `search WORDS` are the
//! other parts. `table INDICES / INDICES : CELLS` is a table, whose cells are numbers and letters of variables, and
//! `resource CAPACITY FROM TO : DEMAND START DURATION / ..` a resource with its uses.
use crate::reader::{constraint, expression, variable};
use crate::section::section;
use opl_expr::{Cell, Cons, Core, Goal, Resource, Step, Table, Use};
use opl_list::Seq;
use std::alloc::{AllocError, Global};

/// The parts of a model that were read. The last objective and the last section count.
#[derive(Drop)]
pub struct Parts {
    alloc: Global,
    names: Seq<Seq<u8>>,
    sets: Seq<(i64, i64)>,
    tables: Seq<Table>,
    resources: Seq<Resource>,
    cons: Seq<Cons>,
    goals: Seq<Goal>,
    sections: Seq<Step>,
}

/// A number that is written, or 0 where none is.
pub fn number(text: &str) -> i64 {
    text.parse::<i64>().unwrap_or(0)
}

/// What stands before and behind a sign; the whole text, where the sign is not there.
pub fn halves<'t>(text: &'t str, sign: &str) -> (&'t str, &'t str) {
    text.split_once(sign).unwrap_or((text, ""))
}

/// The variable of a word, if it is a letter of one.
fn variable_of(word: &str) -> Option<u32> {
    match word.as_bytes() {
        [letter] => variable(*letter),
        _ => None,
    }
}

/// The cell that a word stands for: the variable of a letter, or a number.
fn cell(word: &str) -> Cell {
    match variable_of(word) {
        Some(x) => Cell::Var(x),
        None => Cell::Const(number(word) as i128),
    }
}

/// The numbers of a text.
fn numbers(alloc: Global, text: &str) -> Result<Seq<i128>, AllocError> {
    let mut numbers = Seq::new(alloc);
    for word in text.split_whitespace() {
        numbers.push(number(word) as i128)?;
    }
    Ok(numbers)
}

/// Adds what was read to a list.
fn add<T: Drop>(list: &mut Seq<T>, read: Result<T, AllocError>) -> Result<(), AllocError> {
    match read {
        Err(e) => Err(e),
        Ok(item) => list.push(item),
    }
}

/// The indices of each dimension.
fn dimensions(alloc: Global, text: &str) -> Result<Seq<Seq<i128>>, AllocError> {
    let mut dims = Seq::new(alloc);
    for indices in text.split(" / ") {
        add(&mut dims, numbers(alloc, indices))?;
    }
    Ok(dims)
}

/// The cells of a text.
fn cells(alloc: Global, text: &str) -> Result<Seq<Cell>, AllocError> {
    let mut cells = Seq::new(alloc);
    for word in text.split_whitespace() {
        cells.push(cell(word))?;
    }
    Ok(cells)
}

/// The use of a text.
fn one_use(text: &str) -> Use {
    let (demand, variables) = halves(text, " ");
    let (start, duration) = halves(variables, " ");
    Use {
        demand: number(demand) as i128,
        start: variable_of(start).unwrap_or(0),
        duration: variable_of(duration).unwrap_or(0),
    }
}

/// The uses of a text.
fn uses(alloc: Global, text: &str) -> Result<Seq<Use>, AllocError> {
    let mut uses = Seq::new(alloc);
    for written in text.split(" / ") {
        uses.push(one_use(written))?;
    }
    Ok(uses)
}

impl Parts {
    /// No parts.
    pub fn new(alloc: Global) -> Parts {
        Parts {
            alloc,
            names: Seq::new(alloc),
            sets: Seq::new(alloc),
            tables: Seq::new(alloc),
            resources: Seq::new(alloc),
            cons: Seq::new(alloc),
            goals: Seq::new(alloc),
            sections: Seq::new(alloc),
        }
    }

    fn name(&mut self) -> Result<(), AllocError> {
        self.names.push(Seq::new(self.alloc))
    }

    fn set(&mut self, text: &str) -> Result<(), AllocError> {
        let (low, high) = halves(text, " ");
        self.sets.push((number(low), number(high)))?;
        self.name()
    }

    fn sets(&mut self, text: &str) -> Result<(), AllocError> {
        let (count, ends) = halves(text, " ");
        for _ in 0..number(count) {
            self.set(ends)?;
        }
        Ok(())
    }

    /// A table with these dimensions, whose cells are still to be read.
    fn add_table(&mut self, dims: Seq<Seq<i128>>, written: &str) -> Result<(), AllocError> {
        match cells(self.alloc, written) {
            Err(e) => Err(e),
            Ok(cells) => self.tables.push(Table {
                name: Seq::new(self.alloc),
                dims,
                cells,
            }),
        }
    }

    fn table(&mut self, text: &str) -> Result<(), AllocError> {
        let (indices, written) = halves(text, " : ");
        match dimensions(self.alloc, indices) {
            Err(e) => Err(e),
            Ok(dims) => self.add_table(dims, written),
        }
    }

    fn resource(&mut self, text: &str) -> Result<(), AllocError> {
        let (limits, written) = halves(text, " : ");
        let (capacity, times) = halves(limits, " ");
        let (from, to) = halves(times, " ");
        match uses(self.alloc, written) {
            Err(e) => Err(e),
            Ok(uses) => self.resources.push(Resource {
                name: Seq::new(self.alloc),
                capacity: number(capacity) as i128,
                from: number(from),
                to: number(to),
                uses,
            }),
        }
    }

    fn constraint(&mut self, text: &str) -> Result<(), AllocError> {
        match constraint(self.alloc, text) {
            Err(e) => Err(e),
            Ok(None) => Ok(()),
            Ok(Some(c)) => self.cons.push(c.into_inner()),
        }
    }

    fn goal(&mut self, maximize: bool, text: &str) -> Result<(), AllocError> {
        match expression(self.alloc, text) {
            Err(e) => Err(e),
            Ok(None) => Ok(()),
            Ok(Some(value)) => self.goals.push(Goal {
                maximize,
                value: value.into_inner(),
            }),
        }
    }

    fn section(&mut self, text: &str) -> Result<(), AllocError> {
        match section(self.alloc, text) {
            Err(e) => Err(e),
            Ok(None) => Ok(()),
            Ok(Some(step)) => self.sections.push(step.into_inner()),
        }
    }

    /// Reads a line. One that is no part of a model tells nothing.
    pub fn read(&mut self, line: &str) -> Result<(), AllocError> {
        let (word, text) = line.split_once(" ").unwrap_or(("", ""));
        match word {
            "name" => self.name(),
            "set" => self.set(text),
            "sets" => self.sets(text),
            "table" => self.table(text),
            "resource" => self.resource(text),
            "constraint" => self.constraint(text),
            "least" => self.goal(false, text),
            "greatest" => self.goal(true, text),
            "search" => self.section(text),
            _ => Ok(()),
        }
    }

    /// The model of the parts.
    pub fn into_core(self) -> Core {
        let Parts {
            alloc: _,
            names,
            sets,
            tables,
            resources,
            cons,
            goals,
            sections,
        } = self;
        let mut goals = goals.into_vec();
        let mut sections = sections.into_vec();
        Core {
            names,
            sets,
            tables,
            resources,
            cons,
            goal: goals.pop(),
            search: sections.pop(),
        }
    }
}
