//! Cores that are made in code.
use opl_expr::{Cell, Cons, Core, Expr, Goal, Op, Table};
use opl_list::{Boxed, Seq};
use std::alloc::{AllocError, Global};
use std::rc::Rc;

/// The numbers 0 to 9 in some order.
const DIGITS: [i128; 10] = [3, 0, 7, 4, 1, 8, 5, 2, 9, 6];

/// What is said of each two variables of a core.
#[derive(Clone, Copy)]
enum Pairs {
    /// Two queens stand in different rows and diagonals.
    Apart,
    /// They differ.
    Differ,
    /// Their distance differs from all behind it.
    Distances,
}

/// The parts of a core, as they are made.
#[derive(Drop)]
struct Made {
    alloc: Global,
    names: Seq<Seq<u8>>,
    sets: Seq<(i64, i64)>,
    tables: Seq<Table>,
    cons: Seq<Cons>,
    goals: Seq<Goal>,
}

/// A variable.
fn variable(alloc: Global, x: u32) -> Result<Boxed<Expr>, AllocError> {
    Boxed::new(alloc, Expr::Var(x))
}

/// A number.
fn constant(alloc: Global, k: i128) -> Result<Boxed<Expr>, AllocError> {
    Boxed::new(alloc, Expr::Const(k))
}

/// A variable and a number.
fn shifted(alloc: Global, x: u32, k: i128) -> Result<Boxed<Expr>, AllocError> {
    let mut parts = Seq::new(alloc);
    parts.push(Expr::Var(x))?;
    parts.push(Expr::Const(k))?;
    Boxed::new(alloc, Expr::Sum(parts))
}

/// The sum of two variables.
fn sum_of(alloc: Global, x: u32, y: u32) -> Result<Boxed<Expr>, AllocError> {
    let mut parts = Seq::new(alloc);
    parts.push(Expr::Var(x))?;
    parts.push(Expr::Var(y))?;
    Boxed::new(alloc, Expr::Sum(parts))
}

/// By how much one variable is above another.
fn difference(alloc: Global, x: u32, y: u32) -> Result<Boxed<Expr>, AllocError> {
    let below = variable(alloc, y)?;
    let mut parts = Seq::new(alloc);
    parts.push(Expr::Neg(below))?;
    parts.push(Expr::Var(x))?;
    Boxed::new(alloc, Expr::Sum(parts))
}

/// The cell of table 0 at a subscript.
fn cell_at(alloc: Global, subscript: Boxed<Expr>) -> Result<Boxed<Expr>, AllocError> {
    let mut subscripts = Seq::new(alloc);
    subscripts.push(subscript.into_inner())?;
    Boxed::new(alloc, Expr::At(0, subscripts))
}

/// A cell at a cell at a variable, so many times.
fn cell_in(alloc: Global, depth: u32) -> Result<Boxed<Expr>, AllocError> {
    let mut cell = variable(alloc, 0)?;
    for _ in 0..depth {
        cell = cell_at(alloc, cell)?;
    }
    Ok(cell)
}

/// A table of ten cells.
fn digits(alloc: Global) -> Result<Table, AllocError> {
    let mut indices = Seq::new(alloc);
    let mut cells = Seq::new(alloc);
    for (index, cell) in DIGITS.iter().enumerate() {
        indices.push(index as i128)?;
        cells.push(Cell::Const(*cell))?;
    }
    let mut dims = Seq::new(alloc);
    dims.push(indices)?;
    Ok(Table {
        name: Seq::new(alloc),
        dims,
        cells,
    })
}

impl Made {
    fn new(alloc: Global) -> Made {
        Made {
            alloc,
            names: Seq::new(alloc),
            sets: Seq::new(alloc),
            tables: Seq::new(alloc),
            cons: Seq::new(alloc),
            goals: Seq::new(alloc),
        }
    }

    /// So many variables with the same values.
    fn variables(&mut self, count: u32, low: i64, high: i64) -> Result<(), AllocError> {
        for _ in 0..count {
            self.names.push(Seq::new(self.alloc))?;
            self.sets.push((low, high))?;
        }
        Ok(())
    }

    /// A comparison.
    fn compare(&mut self, op: Op, a: Boxed<Expr>, b: Boxed<Expr>) -> Result<(), AllocError> {
        self.cons.push(Cons::Cmp(op, a, b))
    }

    /// Two variables, each with a number, differ.
    fn shifted_apart(&mut self, i: u32, a: i128, j: u32, b: i128) -> Result<(), AllocError> {
        let x = shifted(self.alloc, i, a)?;
        let y = shifted(self.alloc, j, b)?;
        self.compare(Op::Ne, x, y)
    }

    /// Two queens stand in different rows and diagonals.
    fn apart(&mut self, i: u32, j: u32) -> Result<(), AllocError> {
        self.ordered(Op::Ne, i, j)?;
        self.shifted_apart(i, i as i128, j, j as i128)?;
        self.shifted_apart(i, -(i as i128), j, -(j as i128))
    }

    /// A variable is in an order with another.
    fn ordered(&mut self, op: Op, i: u32, j: u32) -> Result<(), AllocError> {
        let x = variable(self.alloc, i)?;
        let y = variable(self.alloc, j)?;
        self.compare(op, x, y)
    }

    /// Each variable is in an order with the next.
    fn all_ordered(&mut self, op: Op, count: u32) -> Result<(), AllocError> {
        for i in 1..count {
            self.ordered(op, i - 1, i)?;
        }
        Ok(())
    }

    /// Two distances between marks differ.
    fn distances(&mut self, i: u32, j: u32, k: u32, l: u32) -> Result<(), AllocError> {
        let x = difference(self.alloc, j, i)?;
        let y = difference(self.alloc, l, k)?;
        self.compare(Op::Ne, x, y)
    }

    /// The distance of two marks differs from all behind it.
    fn distance(&mut self, count: u32, i: u32, j: u32) -> Result<(), AllocError> {
        for k in i..count {
            for l in k..count {
                if k < l && (k > i || l > j) {
                    self.distances(i, j, k, l)?;
                }
            }
        }
        Ok(())
    }

    /// What is said of two of so many variables.
    fn pair(&mut self, pairs: Pairs, count: u32, i: u32, j: u32) -> Result<(), AllocError> {
        match pairs {
            Pairs::Apart => self.apart(i, j),
            Pairs::Differ => self.ordered(Op::Ne, i, j),
            Pairs::Distances => self.distance(count, i, j),
        }
    }

    /// What is said of each two of so many variables.
    fn all_pairs(&mut self, pairs: Pairs, count: u32) -> Result<(), AllocError> {
        for i in 0..count {
            for j in i..count {
                if i < j {
                    self.pair(pairs, count, i, j)?;
                }
            }
        }
        Ok(())
    }

    /// So many variables with values from 1 on, and what is said of each two of them.
    fn board(&mut self, pairs: Pairs, count: u32, most: u32) -> Result<(), AllocError> {
        self.variables(count, 1, most as i64)?;
        self.all_pairs(pairs, count)
    }

    fn chain(&mut self, count: u32) -> Result<(), AllocError> {
        self.variables(count, 0, 1)?;
        self.all_ordered(Op::Le, count)
    }

    /// The first variable is zero.
    fn from_zero(&mut self) -> Result<(), AllocError> {
        let first = variable(self.alloc, 0)?;
        let zero = constant(self.alloc, 0)?;
        self.compare(Op::Eq, first, zero)
    }

    fn golomb(&mut self, count: u32) -> Result<(), AllocError> {
        let longest = (count as i64).saturating_mul(count as i64);
        self.variables(count, 0, longest)?;
        self.from_zero()?;
        self.all_ordered(Op::Lt, count)?;
        self.all_pairs(Pairs::Distances, count)?;
        self.goals.push(Goal {
            maximize: false,
            value: Expr::Var(count.saturating_sub(1)),
        })
    }

    /// The sum of two variables is at most a number.
    fn sum_at_most(&mut self, x: u32, y: u32, most: i128) -> Result<(), AllocError> {
        let sum = sum_of(self.alloc, x, y)?;
        let limit = constant(self.alloc, most)?;
        self.compare(Op::Le, sum, limit)
    }

    /// Two numbers whose sum is at most their greatest value: the greatest sum.
    fn sums(&mut self, most: u32) -> Result<(), AllocError> {
        self.variables(2, 0, most as i64)?;
        self.sum_at_most(0, 1, most as i128)?;
        let sum = sum_of(self.alloc, 0, 1)?;
        self.goals.push(Goal {
            maximize: true,
            value: sum.into_inner(),
        })
    }

    /// One comparison, of the first and the last variable.
    fn comparison(&mut self, count: u32) -> Result<(), AllocError> {
        self.variables(count, 0, 9)?;
        self.sum_at_most(0, count.saturating_sub(1), 9)
    }

    /// Adds the table of ten cells.
    fn table(&mut self) -> Result<(), AllocError> {
        match digits(self.alloc) {
            Ok(table) => self.tables.push(table),
            Err(e) => Err(e),
        }
    }

    /// A cell at a cell at a variable, so many times, is another variable.
    fn nested(&mut self, depth: u32) -> Result<(), AllocError> {
        self.variables(2, 0, 9)?;
        self.table()?;
        let cell = cell_in(self.alloc, depth)?;
        let value = variable(self.alloc, 1)?;
        self.compare(Op::Eq, cell, value)
    }

    /// The parts of a core of a kind.
    fn grow(&mut self, kind: &str, size: u32) -> Result<(), AllocError> {
        match kind {
            "queens" => self.board(Pairs::Apart, size, size),
            "pigeons" => self.board(Pairs::Differ, size.saturating_add(1), size),
            "chain" => self.chain(size),
            "golomb" => self.golomb(size),
            "sums" => self.sums(size),
            "bits" => self.variables(size, 0, 1),
            "comparison" => self.comparison(size),
            "nested" => self.nested(size),
            "empty" => self.variables(size, 1, 0),
            _ => Ok(()),
        }
    }

    /// The core of the parts.
    fn into_core(self) -> Core {
        let Made {
            alloc,
            names,
            sets,
            tables,
            cons,
            goals,
        } = self;
        let mut goals = goals.into_vec();
        Core {
            names,
            sets,
            tables,
            resources: Seq::new(alloc),
            cons,
            goal: goals.pop(),
            search: None,
        }
    }
}

/// A core of a kind: `queens` on a board, `pigeons` in one hole too few, a `chain` of variables with two values each, and the
/// shortest ruler with so many marks whose distances differ, `golomb`; the greatest of the `sums` of two numbers; `bits` without a
/// constraint; one `comparison` of the first and the last of so many variables, and one of a cell whose subscripts are `nested` so
/// deep; variables with `empty` sets. A core of another kind has no variables.
pub fn core_of(alloc: Global, kind: &str, size: u32) -> Result<Rc<Core>, AllocError> {
    let mut made = Made::new(alloc);
    match made.grow(kind, size) {
        Ok(()) => Ok(Rc::new(alloc, made.into_core())?),
        Err(e) => Err(e),
    }
}
