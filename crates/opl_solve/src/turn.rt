//! One more solution, up to a limit.
ghost use Rattle.std.specs.Prelude.{◌≡◌};
ghost use Rattle.opl_search.specs.Machines.{GoesOn};
ghost use Rattle.opl_solve.specs.Answers.{Turns, is_met};

use opl_domain::Steps;
use opl_outside::OutsideError;
use opl_search::{Machine, Solver, Step1};
use opl_show::Last;
use std::alloc::Global;

/// Whether so many solutions are as many as the limit says.
fn is_met(limit: Option<u64>, found: u64) -> bool
    ensures { result ≡ is_met limit found }
{
    match limit {
        Some(most) => most <= found,
        None => false,
    }
}

/// Goes to the next solution, unless so many are found as the limit says; the answer is how the search has ended, if it has.
pub fn turn<S: Solver>(
    alloc: Global,
    machine: &mut Machine<S>,
    limit: Option<u64>,
    found: u64,
    steps: &mut Steps,
) -> Result<Option<Last>, OutsideError>
    requires { GoesOn machine.old.last }
    ensures { Turns limit found machine.old machine.new result }
{
    if is_met(limit, found) {
        return Ok(Some(Last::Limit));
    }
    match machine.next(alloc, steps) {
        Ok(Step1::Solution) => Ok(None),
        Ok(Step1::End) => Ok(Some(Last::End)),
        Ok(Step1::Spent) => Ok(Some(Last::Spent)),
        Err(_) => Err(OutsideError::OutOfMemory),
    }
}
