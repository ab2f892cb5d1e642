//! Ground forms that are read from short texts, operands first: `xy+2=` is `x + y = 2`.
//!
//! The letters `x y z w b u` are the variables 0 to 5, and a digit is a number. Of the two operands before them, `+ * / %`
//! are the sum, the product, the quotient and the remainder, `= ! < l > g` the comparisons `= <> < <= > >=`, and `&  v i e`
//! the constraints that both hold, one holds, the first implies the second, and both hold alike. `_` changes the sign,
//! `|` is the absolute value, `t` the truth of a constraint as a number, `~` its opposite; `T` and `F` are fixed. A digit
//! and one of `S m M D` make the sum, the least, the greatest, and the being different of so many operands, with `A` and
//! `O` all or some of so many constraints hold. `r` and `q` are the cells of the tables 0 and 1 at one and at two
//! subscripts, `k` the capacity of resource 0 at the time that is its operand. `n`, `L` and `G` ask for the number of
//! values, the least and the greatest one of the variable before them, `B` whether it has one value.
use opl_expr::{Ask, Cons, Expr, Op};
use opl_list::{Boxed, Seq};
use std::alloc::{AllocError, Global};

/// What is read and isn't yet a part of another form.
#[derive(Drop)]
struct Reader {
    alloc: Global,
    terms: Vec<Boxed<Expr>>,
    facts: Vec<Boxed<Cons>>,
}

/// Puts a form on a stack; false where there is none.
pub fn keep<T: Drop>(
    alloc: Global,
    stack: &mut Vec<Boxed<T>>,
    form: Option<T>,
) -> Result<bool, AllocError> {
    match form {
        None => Ok(false),
        Some(form) => {
            stack.push(Boxed::new(alloc, form)?)?;
            Ok(true)
        }
    }
}

/// The last two of a stack.
pub fn two<T: Drop>(stack: &mut Vec<Boxed<T>>) -> Option<(Boxed<T>, Boxed<T>)> {
    match (stack.pop(), stack.pop()) {
        (Some(second), Some(first)) => Some((first, second)),
        _ => None,
    }
}

/// So many of a stack, the last ones; none where no number is told, or there are fewer.
pub fn last<T: Drop>(
    alloc: Global,
    stack: &mut Vec<Boxed<T>>,
    count: Option<i128>,
) -> Result<Option<Seq<T>>, AllocError> {
    let Some(count) = count else {
        return Ok(None);
    };
    let mut parts = Vec::new(alloc);
    for _ in 0..count {
        match stack.pop() {
            None => return Ok(None),
            Some(part) => parts.push(part.into_inner())?,
        }
    }
    parts.reverse();
    Ok(Some(Seq::from_vec(parts)))
}

/// The variable of a letter.
pub fn variable(sign: u8) -> Option<u32> {
    match sign {
        b'x' => Some(0),
        b'y' => Some(1),
        b'z' => Some(2),
        b'w' => Some(3),
        b'b' => Some(4),
        b'u' => Some(5),
        _ => None,
    }
}

/// The comparison that a sign stands for.
fn comparison(sign: u8) -> Option<Op> {
    match sign {
        b'=' => Some(Op::Eq),
        b'!' => Some(Op::Ne),
        b'<' => Some(Op::Lt),
        b'l' => Some(Op::Le),
        b'>' => Some(Op::Gt),
        b'g' => Some(Op::Ge),
        _ => None,
    }
}

/// The product, the quotient or the remainder of two expressions.
fn of_two(sign: u8, first: Boxed<Expr>, second: Boxed<Expr>) -> Expr {
    match sign {
        b'*' => Expr::Mul(first, second),
        b'/' => Expr::Div(first, second),
        _ => Expr::Rem(first, second),
    }
}

/// An expression of several, or of subscripts.
fn of_several(sign: u8, parts: Seq<Expr>) -> Expr {
    match sign {
        b'm' => Expr::Min(parts),
        b'M' => Expr::Max(parts),
        b'r' => Expr::At(0, parts),
        b'q' => Expr::At(1, parts),
        _ => Expr::Sum(parts),
    }
}

/// The question that a sign asks of a variable.
fn question(sign: u8, x: u32) -> Expr {
    match sign {
        b'n' => Expr::Ask(Ask::Size, x),
        b'L' => Expr::Ask(Ask::Least, x),
        _ => Expr::Ask(Ask::Greatest, x),
    }
}

impl Reader {
    /// Nothing is read.
    fn new(alloc: Global) -> Reader {
        Reader {
            alloc,
            terms: Vec::new(alloc),
            facts: Vec::new(alloc),
        }
    }

    /// The number that was read last.
    fn count(&mut self) -> Option<i128> {
        match self.terms.pop() {
            None => None,
            Some(last) => match last.get() {
                Expr::Const(k) => Some(*k),
                _ => None,
            },
        }
    }

    /// The variable that was read last.
    fn named(&mut self) -> Option<u32> {
        match self.terms.pop() {
            None => None,
            Some(last) => match last.get() {
                Expr::Var(x) => Some(*x),
                _ => None,
            },
        }
    }

    /// The expression that a sign makes of what was read last; none where it makes none, or that is too little.
    fn term(&mut self, sign: u8) -> Option<Expr> {
        match sign {
            b'0'..=b'9' => Some(Expr::Const((sign - b'0') as i128)),
            b'*' | b'/' | b'%' => match two(&mut self.terms) {
                None => None,
                Some((first, second)) => Some(of_two(sign, first, second)),
            },
            b'_' | b'|' => match self.terms.pop() {
                None => None,
                Some(part) if sign == b'_' => Some(Expr::Neg(part)),
                Some(part) => Some(Expr::Abs(part)),
            },
            b't' => match self.facts.pop() {
                None => None,
                Some(part) => Some(Expr::Truth(part)),
            },
            b'n' | b'L' | b'G' => match self.named() {
                None => None,
                Some(x) => Some(question(sign, x)),
            },
            _ => match variable(sign) {
                None => None,
                Some(x) => Some(Expr::Var(x)),
            },
        }
    }

    /// The constraint that a sign makes of what was read last; none where that is too little.
    fn fact(&mut self, sign: u8) -> Option<Cons> {
        match sign {
            b'T' => Some(Cons::Fixed(true)),
            b'F' => Some(Cons::Fixed(false)),
            b'i' | b'e' => match two(&mut self.facts) {
                None => None,
                Some((first, second)) if sign == b'i' => Some(Cons::Imp(first, second)),
                Some((first, second)) => Some(Cons::Iff(first, second)),
            },
            b'~' => match self.facts.pop() {
                None => None,
                Some(part) => Some(Cons::Not(part)),
            },
            b'k' => match self.count() {
                Some(0) => Some(Cons::Capacity(0, 0)),
                Some(1) => Some(Cons::Capacity(0, 1)),
                Some(2) => Some(Cons::Capacity(0, 2)),
                Some(3) => Some(Cons::Capacity(0, 3)),
                _ => None,
            },
            _ => match self.named() {
                None => None,
                Some(x) => Some(Cons::Bound(x)),
            },
        }
    }

    /// A comparison of the last two expressions.
    fn compared(&mut self, op: Op) -> Option<Cons> {
        match two(&mut self.terms) {
            None => None,
            Some((first, second)) => Some(Cons::Cmp(op, first, second)),
        }
    }

    /// Reads a sign that makes something of so many expressions.
    fn of_terms(&mut self, sign: u8, count: Option<i128>) -> Result<bool, AllocError> {
        match last(self.alloc, &mut self.terms, count) {
            Err(e) => Err(e),
            Ok(None) => Ok(false),
            Ok(Some(parts)) if sign == b'D' => {
                keep(self.alloc, &mut self.facts, Some(Cons::AllDifferent(parts)))
            }
            Ok(Some(parts)) => keep(self.alloc, &mut self.terms, Some(of_several(sign, parts))),
        }
    }

    /// All, or some, of so many constraints hold.
    fn of_facts(&mut self, all: bool, count: Option<i128>) -> Result<bool, AllocError> {
        match last(self.alloc, &mut self.facts, count) {
            Err(e) => Err(e),
            Ok(None) => Ok(false),
            Ok(Some(parts)) if all => keep(self.alloc, &mut self.facts, Some(Cons::And(parts))),
            Ok(Some(parts)) => keep(self.alloc, &mut self.facts, Some(Cons::Or(parts))),
        }
    }

    /// Reads a sign; false where there is no such sign, or too little before it.
    fn read(&mut self, sign: u8) -> Result<bool, AllocError> {
        match sign {
            b'+' | b'q' => self.of_terms(sign, Some(2)),
            b'r' => self.of_terms(sign, Some(1)),
            b'S' | b'm' | b'M' | b'D' => {
                let count = self.count();
                self.of_terms(sign, count)
            }
            b'&' | b'v' => self.of_facts(sign == b'&', Some(2)),
            b'A' | b'O' => {
                let count = self.count();
                self.of_facts(sign == b'A', count)
            }
            b'T' | b'F' | b'i' | b'e' | b'~' | b'k' | b'B' => {
                let fact = self.fact(sign);
                keep(self.alloc, &mut self.facts, fact)
            }
            _ => match comparison(sign) {
                Some(op) => {
                    let fact = self.compared(op);
                    keep(self.alloc, &mut self.facts, fact)
                }
                None => {
                    let term = self.term(sign);
                    keep(self.alloc, &mut self.terms, term)
                }
            },
        }
    }

    /// Reads a text; false where it is no such text.
    fn read_all(&mut self, text: &str) -> Result<bool, AllocError> {
        for sign in text.as_bytes() {
            if !self.read(*sign)? {
                return Ok(false);
            }
        }
        Ok(true)
    }
}

/// The expression of a text.
pub fn expression(alloc: Global, text: &str) -> Result<Option<Boxed<Expr>>, AllocError> {
    let mut reader = Reader::new(alloc);
    match reader.read_all(text) {
        Err(e) => Err(e),
        Ok(whole) if whole && reader.terms.len() == 1 && reader.facts.is_empty() => Ok(
            reader.terms.pop(),
        ),
        Ok(_) => Ok(None),
    }
}

/// The constraint of a text.
pub fn constraint(alloc: Global, text: &str) -> Result<Option<Boxed<Cons>>, AllocError> {
    let mut reader = Reader::new(alloc);
    match reader.read_all(text) {
        Err(e) => Err(e),
        Ok(whole) if whole && reader.terms.is_empty() && reader.facts.len() == 1 => Ok(
            reader.facts.pop(),
        ),
        Ok(_) => Ok(None),
    }
}
