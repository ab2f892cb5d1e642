//! A place that takes bytes, one piece after the other.
ghost use Rattle.std.specs.Prelude.{ℕ, List, Option};
ghost use Rattle.opl_outside.specs.Counts.{Counts};
ghost use Rattle.opl_outside.specs.Written.{Puts};

use crate::error::OutsideError;
use std::alloc::Global;

/// A place that takes bytes. It may tell what was written to it, or nothing of it, as a terminal
/// does. It counts its faults.
pub trait Sink {
    /// All bytes written so far, where they are told.
    ghost written: { Self → Option (List ℕ) };

    /// How many times `put` failed.
    ghost faults: { Self → ℕ };

    /// Writes `bytes`. Where this fails, a front of them has been written.
    fn put(&mut self, alloc: Global, bytes: &[u8]) -> Result<(), OutsideError>
        ensures written { Puts (written self.old) (written self.new) bytes.now result }
        ensures cause { Counts (faults self.old) (faults self.new) result };
}
