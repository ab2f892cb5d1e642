//! The values of a solution.
ghost use Rattle.std.specs.Prelude.{◌≡◌, length, IfOk};
ghost use Rattle.opl_expr.specs.Solutions.{declared};
ghost use Rattle.opl_search.specs.declared.machine.Last.TheVariants as last;

use opl_expr::Core;
use opl_search::{Machine, Solver};
use std::alloc::{AllocError, Global};

/// The number of variables; more than 2^32 - 1 count as want of memory.
#[tactic(auto, using(crate::proofs::Reading::declared_count))]
fn count_variables(core: &Core) -> Result<u32, AllocError>
    ensures { IfOk result (λ count. count ≡ length (declared core.now)) }
{
    match u32::try_from(core.sets.len()) {
        Ok(count) => Ok(count),
        Err(_) => Err(AllocError),
    }
}

/// The values of all variables in the last answer, which was a solution.
pub fn numbers<S: Solver>(alloc: Global, machine: &Machine<S>) -> Result<Vec<i128>, AllocError>
    requires last { machine.now.last ≡ last.Solution }
    requires long { length machine.now.values ≡ length (declared machine.now.core) }
    ensures { IfOk result (λ numbers. numbers.items ≡ machine.now.values) }
{
    let count = count_variables(machine.core())?;
    let mut numbers = Vec::with_capacity(alloc, count as usize)?;
    for x in 0..count {
        numbers.push(i128::from(machine.value(x)))?;
    }
    Ok(numbers)
}
