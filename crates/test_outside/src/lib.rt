//! Makes calls of shelves and sinks, and tells how each ended.
#![tactic(auto)]

mod call;
mod narrow;
mod shelves;
mod sinks;

use shelves::{tell_memory_shelf, tell_real_shelf, tell_sure_shelf};
use sinks::{tell_memory_sink, tell_real_sink, tell_sure_sink};
use std::alloc::Global;
use std::io;
use std::io::Write;
use std::rt::Files;

/// How the calls ended that need no file.
fn told_of_memory(alloc: Global) -> io::Result<String> {
    let mut out = String::new(alloc);
    tell_memory_shelf(alloc, &mut out)?;
    tell_sure_shelf(alloc, &mut out)?;
    tell_memory_sink(alloc, &mut out)?;
    tell_sure_sink(alloc, &mut out)?;
    tell_real_sink(alloc, &mut out)?;
    Ok(out)
}

/// Tells how the calls ended, those in memory and those on the disk, where a file and a folder are made and removed.
pub fn tell_outside<R: Files + AllocGlobal, W: Write>(rt: &R, out: &mut W) -> io::Result<()> {
    let memory = told_of_memory(rt.alloc())?;
    out.write_all(memory.as_bytes())?;
    let disk = tell_real_shelf(rt)?;
    out.write_all(disk.as_bytes())
}
