//! Printing on a sink.
ghost use Rattle.opl_solve.specs.Printing.{Prints};

use opl_outside::{OutsideError, Sink};
use std::alloc::Global;

/// Puts a text as one piece.
pub fn print<O: Sink>(alloc: Global, out: &mut O, text: &[u8]) -> Result<(), OutsideError>
    ensures { Prints text.now (O.written out.old) (O.written out.new) (O.faults out.old) (O.faults out.new) result }
{
    out.put(alloc, text)
}
