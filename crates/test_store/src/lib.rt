//! Opens and closes levels of stores, cuts sets, and tells what the sets are then.
#![tactic(auto)]

mod act;
mod scene;
mod told;

use scene::{tell_ends, tell_many, tell_nested, tell_words};
use std::alloc::Global;
use std::io;
use std::io::Write;

/// Tells of one store after another.
pub fn tell_stores<W: Write>(alloc: Global, out: &mut W) -> io::Result<()> {
    tell_ends(alloc, out)?;
    tell_nested(alloc, out)?;
    tell_words(alloc, out)?;
    tell_many(alloc, out)
}
