//! What a path still has to do.
ghost use Rattle.std.specs.Prelude.{◌≡◌, ◌∷◌, [], IfOk};
ghost use Rattle.opl_trace.specs.Marks.{numbers_from};
ghost use Rattle.opl_steps.specs.Tasks.Task.{values};
ghost use Rattle.opl_search.specs.Tails.{tail_of};

use opl_domain::OutOfMemory;
use opl_list::Seq;
use std::alloc::Global;
use std::rc::Rc;

/// Tasks one after another; what follows a task is shared.
#[derive(Drop)]
#[cycle(tails)]
pub enum Tail {
    End,
    /// A value for each variable of a list from a place on.
    Label(Rc<Seq<u32>>, usize, Rc<Tail>),
}

impl Tail {
    /// The same.
    pub fn copy(&self) -> Result<Tail, OutOfMemory>
        ensures { IfOk result (λ t. tail_of t ≡ tail_of self.now) }
    {
        match self {
            Tail::End => Ok(Tail::End),
            Tail::Label(variables, place, rest) => {
                Ok(Tail::Label(variables.clone()?, *place, rest.clone()?))
            }
        }
    }
}

/// A value for each variable, as many as are told, and then the end.
pub fn label_all(alloc: Global, count: u32) -> Result<Tail, OutOfMemory>
    ensures { IfOk result (λ t. tail_of t ≡ values (numbers_from 0 count) ∷ []) }
{
    let mut numbers = Seq::new(alloc);
    for x in 0..count {
        numbers.push(x)?;
    }
    let variables = Rc::new(alloc, numbers)?;
    let rest = Rc::new(alloc, Tail::End)?;
    Ok(Tail::Label(variables, 0, rest))
}
