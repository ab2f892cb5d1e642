//! Search sections that are read from words, parts first.
//!
//! `post:TEXT` posts a constraint; `block:N` and `try:N` take the last N statements, `once` the last one, `while:TEXT` too,
//! and `if:TEXT` the last two. `branch:TEXT:KEY:ORDER` makes the last statement an element with a condition, a key, which is
//! `-` where there is none, and the order, `up` or `down`; `tryall:N`, `forall:N` and `select:N` take the last N elements.
//! `generate:LETTERS` labels variables, and `rank:LETTERS` orders pairs of them.
use crate::model::halves;
use crate::reader::{constraint, expression, keep, last, two, variable};
use opl_expr::{Branch, Cons, Expr, Step};
use opl_list::{Boxed, Seq};
use std::alloc::{AllocError, Global};

/// What is read and isn't yet a part of another statement.
#[derive(Drop)]
struct Reader {
    alloc: Global,
    steps: Vec<Boxed<Step>>,
    branches: Vec<Boxed<Branch>>,
}

/// The key in a box that may be empty.
fn unboxed(key: Option<Boxed<Expr>>) -> Option<Expr> {
    match key {
        None => None,
        Some(key) => Some(key.into_inner()),
    }
}

/// An element of its parts.
fn element(when: Boxed<Cons>, key: Option<Boxed<Expr>>, rising: bool, body: Boxed<Step>) -> Branch {
    Branch {
        when: when.into_inner(),
        key: unboxed(key),
        rising,
        body: body.into_inner(),
    }
}

/// Statements one after another, or as alternatives.
fn of_steps(word: &str, parts: Seq<Step>) -> Step {
    match word {
        "block" => Step::Block(parts),
        _ => Step::Try(parts),
    }
}

/// A statement of elements.
fn of_branches(word: &str, elements: Seq<Branch>) -> Step {
    match word {
        "tryall" => Step::TryAll(elements),
        "forall" => Step::ForAll(elements),
        _ => Step::Select(elements),
    }
}

/// The variables of letters.
fn variables(alloc: Global, letters: &str) -> Result<Seq<u32>, AllocError> {
    let mut variables = Seq::new(alloc);
    for letter in letters.as_bytes() {
        if let Some(x) = variable(*letter) {
            variables.push(x)?;
        }
    }
    Ok(variables)
}

/// An order for the pair of two variables.
fn rank(alloc: Global, variables: &[u32]) -> Result<Step, AllocError> {
    let mut pairs = Seq::new(alloc);
    if let [first, second] = variables {
        pairs.push((*first, *second))?;
    }
    Ok(Step::Rank(pairs))
}

impl Reader {
    /// The statement that a word makes of a condition and of what was read last; none where that is too little.
    fn under(&mut self, word: &str, when: Boxed<Cons>) -> Option<Step> {
        match word {
            "post" => Some(Step::Post(when.into_inner())),
            "while" => match self.steps.pop() {
                None => None,
                Some(body) => Some(Step::While(when.into_inner(), body)),
            },
            _ => match two(&mut self.steps) {
                None => None,
                Some((yes, no)) => Some(Step::If(when.into_inner(), yes, no)),
            },
        }
    }

    /// Reads a word with a condition.
    fn conditioned(&mut self, word: &str, text: &str) -> Result<bool, AllocError> {
        match constraint(self.alloc, text) {
            Err(e) => Err(e),
            Ok(None) => Ok(false),
            Ok(Some(when)) => {
                let step = self.under(word, when);
                keep(self.alloc, &mut self.steps, step)
            }
        }
    }

    /// Reads a word with a number of statements.
    fn several(&mut self, word: &str, count: i128) -> Result<bool, AllocError> {
        match last(self.alloc, &mut self.steps, Some(count)) {
            Err(e) => Err(e),
            Ok(None) => Ok(false),
            Ok(Some(parts)) => keep(self.alloc, &mut self.steps, Some(of_steps(word, parts))),
        }
    }

    /// Reads a word with a number of elements.
    fn ranging(&mut self, word: &str, count: i128) -> Result<bool, AllocError> {
        match last(self.alloc, &mut self.branches, Some(count)) {
            Err(e) => Err(e),
            Ok(None) => Ok(false),
            Ok(Some(parts)) => keep(self.alloc, &mut self.steps, Some(of_branches(word, parts))),
        }
    }

    /// The last statement, under `once`.
    fn once(&mut self) -> Result<bool, AllocError> {
        match self.steps.pop() {
            None => Ok(false),
            Some(inner) => keep(self.alloc, &mut self.steps, Some(Step::Once(inner))),
        }
    }

    /// The last statement as an element with a condition and a key.
    fn with_key(
        &mut self,
        when: Boxed<Cons>,
        key: Option<Boxed<Expr>>,
        rising: bool,
    ) -> Result<bool, AllocError> {
        match self.steps.pop() {
            None => Ok(false),
            Some(body) => keep(
                self.alloc,
                &mut self.branches,
                Some(element(when, key, rising, body)),
            ),
        }
    }

    /// The last statement as an element with a condition, and a key that is still to be read.
    fn keyed(
        &mut self,
        when: Boxed<Cons>,
        key: Result<Option<Boxed<Expr>>, AllocError>,
        rising: bool,
    ) -> Result<bool, AllocError> {
        match key {
            Err(e) => Err(e),
            Ok(None) => Ok(false),
            Ok(key) => self.with_key(when, key, rising),
        }
    }

    /// The last statement as an element.
    fn branch(&mut self, text: &str) -> Result<bool, AllocError> {
        let (when, ordered) = halves(text, ":");
        let (key, order) = halves(ordered, ":");
        let rising = order == "up";
        match constraint(self.alloc, when) {
            Err(e) => Err(e),
            Ok(None) => Ok(false),
            Ok(Some(when)) if key == "-" => self.with_key(when, None, rising),
            Ok(Some(when)) => self.keyed(when, expression(self.alloc, key), rising),
        }
    }

    /// Values for variables, or an order for the pair of the first two.
    fn labelled(&mut self, word: &str, letters: &str) -> Result<bool, AllocError> {
        let variables = variables(self.alloc, letters)?;
        if word == "generate" {
            return keep(self.alloc, &mut self.steps, Some(Step::Generate(variables)));
        }
        match rank(self.alloc, variables.as_slice()) {
            Err(e) => Err(e),
            Ok(step) => keep(self.alloc, &mut self.steps, Some(step)),
        }
    }

    /// Reads a word; false where there is no such word, or too little before it.
    fn read(&mut self, word: &str) -> Result<bool, AllocError> {
        let (word, text) = halves(word, ":");
        let count = text.parse::<u32>().unwrap_or(0) as i128;
        match word {
            "post" | "while" | "if" => self.conditioned(word, text),
            "block" | "try" => self.several(word, count),
            "tryall" | "forall" | "select" => self.ranging(word, count),
            "once" => self.once(),
            "branch" => self.branch(text),
            "generate" | "rank" => self.labelled(word, text),
            _ => Ok(false),
        }
    }

    /// Reads words; false where they make no section.
    fn read_all(&mut self, text: &str) -> Result<bool, AllocError> {
        for word in text.split_whitespace() {
            if !self.read(word)? {
                return Ok(false);
            }
        }
        Ok(true)
    }
}

/// The section of a text; none where it is no such text.
pub fn section(alloc: Global, text: &str) -> Result<Option<Boxed<Step>>, AllocError> {
    let mut reader = Reader {
        alloc,
        steps: Vec::new(alloc),
        branches: Vec::new(alloc),
    };
    match reader.read_all(text) {
        Err(e) => Err(e),
        Ok(whole) if whole && reader.steps.len() == 1 && reader.branches.is_empty() => {
            Ok(reader.steps.pop())
        }
        Ok(_) => Ok(None),
    }
}
