//! Calls of sinks: in memory with faults, in memory without, and over a writer.
use crate::call::{ended, say, say_bytes};
use crate::narrow::Narrow;
use opl_outside::{MemorySink, RealSink, Sink, SureSink};
use std::alloc::{AllocError, Global};

/// Adds how a piece was put.
fn tell_put(piece: &str, word: &str, out: &mut String) -> Result<(), AllocError> {
    say(out, "put '")?;
    say(out, piece)?;
    say(out, "': ")?;
    say(out, word)
}

/// Adds the end of a line, with what a sink holds.
fn tell_held(bytes: &[u8], out: &mut String) -> Result<(), AllocError> {
    say(out, ", holds '")?;
    say_bytes(out, bytes)?;
    say(out, "'\n")
}

const PIECES: [&str; 4] = ["ab", "cde", "", "f"];

/// Puts each piece on a sink, and adds what it holds then.
fn tell_memory_puts(
    sink: &mut MemorySink,
    alloc: Global,
    out: &mut String,
) -> Result<(), AllocError> {
    for piece in &PIECES {
        tell_put(piece, ended(&sink.put(alloc, piece.as_bytes())), out)?;
        tell_held(sink.bytes(), out)?;
    }
    Ok(())
}

/// Puts each piece on a sink, and adds what it holds then.
fn tell_sure_puts(sink: &mut SureSink, alloc: Global, out: &mut String) -> Result<(), AllocError> {
    for piece in &PIECES {
        tell_put(piece, ended(&sink.put(alloc, piece.as_bytes())), out)?;
        tell_held(sink.bytes(), out)?;
    }
    Ok(())
}

/// The second call of this sink fails.
pub fn tell_memory_sink(alloc: Global, out: &mut String) -> Result<(), AllocError> {
    say(out, "A sink in memory\n")?;
    let mut sink = MemorySink::new(alloc, &[2])?;
    tell_memory_puts(&mut sink, alloc, out)
}

/// No call of this sink fails.
pub fn tell_sure_sink(alloc: Global, out: &mut String) -> Result<(), AllocError> {
    say(out, "A sink in memory without faults\n")?;
    let mut sink = SureSink::new(alloc)?;
    tell_sure_puts(&mut sink, alloc, out)
}

/// Puts each piece on a sink.
fn tell_puts<S: Sink>(sink: &mut S, alloc: Global, out: &mut String) -> Result<(), AllocError> {
    for piece in ["abc", "defg", "", "h"] {
        tell_put(piece, ended(&sink.put(alloc, piece.as_bytes())), out)?;
        say(out, "\n")?;
    }
    Ok(())
}

/// A sink over a writer with room for six bytes.
pub fn tell_real_sink(alloc: Global, out: &mut String) -> Result<(), AllocError> {
    say(out, "A sink over a writer that is full at six bytes\n")?;
    let mut sink = RealSink::new(Narrow {
        taken: Vec::new(alloc),
        room: 6,
    });
    tell_puts(&mut sink, alloc, out)
}
