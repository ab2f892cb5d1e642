//! What a part of a search has made.
ghost use Rattle.std.specs.Prelude.{◌≡◌, ◌++◌, ◌∷◌, [], true, false, IfOk};
ghost use Rattle.opl_trace.specs.Run.{nothing, marked, behind, marks_of};
ghost use Rattle.opl_reference_labelling.specs.Outcomes.{outcome, mark_of, marks_in};

use crate::mark::Mark;
use opl_expr::{Core, OutOfMemory};
use opl_list::Seq;
use std::alloc::Global;

/// The marks that were made but the Cut, the best value after them, the choices left, and whether a Cut ends the whole.
#[derive(Drop)]
pub struct Outcome {
    pub marks: Seq<Mark>,
    pub best: Option<i128>,
    pub left: u64,
    pub is_cut: bool,
}

impl Outcome {
    /// No mark.
    pub fn nothing(alloc: Global, core: &Core, best: Option<i128>, left: u64) -> Outcome
        ensures { outcome core.now result ≡ nothing [] best left }
    {
        Outcome {
            marks: Seq::new(alloc),
            best,
            left,
            is_cut: false,
        }
    }

    /// One mark.
    pub fn one(
        alloc: Global,
        mark: Mark,
        best: Option<i128>,
        left: u64,
    ) -> Result<Outcome, OutOfMemory>
        ensures { IfOk result (λ o. o ≡ record { marks = mark ∷ []; best = best; left = left; is_cut = false }) }
    {
        let mut marks = Seq::new(alloc);
        marks.push(mark)?;
        Ok(Outcome {
            marks,
            best,
            left,
            is_cut: false,
        })
    }

    /// All marks, with the Cut if there is one.
    pub fn into_marks(self, core: &Core) -> Result<Seq<Mark>, OutOfMemory>
        ensures { IfOk result (λ ms. marks_in core.now ms ≡ marks_of (outcome core.now self)) }
    {
        let Outcome { marks, is_cut, .. } = self;
        let mut marks = marks;
        if is_cut {
            marks.push(Mark::Cut)?;
        }
        Ok(marks)
    }

    /// The same, and then a Cut.
    pub fn with_cut(self) -> Outcome
        ensures { result ≡ record self { is_cut = true } }
    {
        let Outcome {
            marks,
            best,
            left,
            ..
        } = self;
        Outcome {
            marks,
            best,
            left,
            is_cut: true,
        }
    }

    /// A mark, and then what follows it.
    pub fn followed(self, core: &Core, mark: Mark, next: Outcome) -> Result<Outcome, OutOfMemory>
        ensures { IfOk result (λ o. outcome core.now o ≡ behind (marks_in core.now self.marks) (marked (mark_of core.now mark) (outcome core.now next))) }
    {
        let Outcome { marks, .. } = self;
        let mut before = marks;
        before.push(mark)?;
        let Outcome {
            marks,
            best,
            left,
            is_cut,
        } = next;
        Ok(Outcome {
            marks: joined(before, marks)?,
            best,
            left,
            is_cut,
        })
    }
}

/// The marks of two lists, one list after the other.
pub fn joined(first: Seq<Mark>, others: Seq<Mark>) -> Result<Seq<Mark>, OutOfMemory>
    ensures { IfOk result (λ ms. ms ≡ first ++ others) }
{
    let mut marks = first;
    for mark in others.into_vec() {
        marks.push(mark)?;
    }
    Ok(marks)
}
