//! Calls that are to fail, named by their numbers.
ghost use Rattle.std.specs.Prelude.{◌≡◌, IfOk};
ghost use Rattle.opl_outside.specs.Failing.{fails_next, after_call, first_half};

use crate::count::raised;
use opl_list::Seq;
use std::alloc::{AllocError, Global};

/// The numbers, from 1, of the calls that fail, and how many calls were made.
#[derive(Drop)]
pub(crate) struct FailingCalls {
    numbers: Seq<u64>,
    made: u64,
}

impl FailingCalls {
    /// No call was made yet.
    pub(crate) fn new(alloc: Global, numbers: &[u64]) -> Result<FailingCalls, AllocError>
        ensures { IfOk result (λ calls. calls ≡ record { numbers = numbers.now; made = 0 }) }
    {
        let numbers = Seq::from_slice(alloc, numbers)?;
        Ok(FailingCalls { numbers, made: 0 })
    }

    /// Whether the next call is to fail.
    pub(crate) fn fails_next(&self) -> bool
        ensures { result ≡ fails_next self.now }
    {
        self.numbers.as_slice().contains(&raised(self.made))
    }

    /// Counts one more call.
    pub(crate) fn count(&mut self)
        ensures { self.new ≡ after_call self.old }
    {
        self.made = raised(self.made);
    }
}

/// The first half of a piece, rounded down: what a failing call adds of it.
pub(crate) fn first_half(piece: &[u8]) -> &[u8]
    ensures { result.now ≡ first_half piece.now }
{
    &piece[..piece.len() / 2]
}
