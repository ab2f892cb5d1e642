//! Texts of sets, by all calls of a view.
use crate::act::Act;
use opl_domain::View;
use opl_store::Store;
use std::io;
use std::io::Write;

/// Writes the values of variable `x` as runs of consecutive numbers.
fn write_runs<W: Write>(out: &mut W, store: &Store, x: u32) -> io::Result<()> {
    if x >= store.vars() {
        return Ok(());
    }
    let mut first = store.min(x);
    let mut last = first;
    for _ in 1..store.size(x) {
        if let Some(value) = store.next(x, last) {
            if value != last.wrapping_add(1) {
                write!(out, " {first}..{last}")?;
                first = value;
            }
            last = value;
        }
    }
    write!(out, " {first}..{last}")
}

/// Writes a variable's number of values, its least and its greatest one, and all of them.
fn write_set<W: Write>(out: &mut W, store: &Store, x: u32) -> io::Result<()> {
    if x >= store.vars() {
        return Ok(());
    }
    let size = store.size(x);
    let least = store.min(x);
    let greatest = store.max(x);
    write!(out, "  {x}: size {size}, {least} to {greatest}:")?;
    write_runs(out, store, x)?;
    out.write_all(b"\n")
}

/// Writes which of some numbers are values of variable `x`.
pub fn write_held<W: Write>(out: &mut W, store: &Store, x: u32, numbers: &[i64]) -> io::Result<()> {
    if x >= store.vars() {
        return Ok(());
    }
    for number in numbers {
        let held = if store.has(x, *number) {
            "has"
        } else {
            "has not"
        };
        writeln!(out, "  {x} {held} {number}")?;
    }
    Ok(())
}

/// Writes what is done.
pub fn write_act<W: Write>(out: &mut W, act: Act) -> io::Result<()> {
    match act {
        Act::Open => out.write_all(b"open\n"),
        Act::Close => out.write_all(b"close\n"),
        Act::Cut(x, lo, hi) => writeln!(out, "cut {x}: {lo}..{hi}"),
    }
}

/// Writes all sets.
pub fn write_store<W: Write>(out: &mut W, store: &Store) -> io::Result<()> {
    for x in 0..store.vars() {
        write_set(out, store, x)?;
    }
    Ok(())
}
