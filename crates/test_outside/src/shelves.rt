//! Calls of shelves: in memory with faults, in memory without, and of the disk.
use crate::call::{Call, say, say_bytes, tell_call};
use opl_outside::{Found, MAX_BYTES, MemoryShelf, RealShelf, Shelf, SureShelf};
use std::alloc::{AllocError, Global};
use std::rt::Files;
use std::{fs, io};

/// Calls, with the file of each.
const MEMORY_CALLS: [(Call, &str); 8] = [
    (Call::Read, "a"),
    (Call::Read, "a"),
    (Call::Append("abcde"), "b"),
    (Call::Append("fghij"), "b"),
    (Call::Begin, "a"),
    (Call::Begin, "b"),
    (Call::Read, "c"),
    (Call::Begin, "c"),
];

const LONG_CALLS: [(Call, &str); 7] = [
    (Call::Read, "long"),
    (Call::Append("x"), "long"),
    (Call::Read, "long"),
    (Call::Begin, "long"),
    (Call::Append("abc"), "long"),
    (Call::Append("de"), "long"),
    (Call::Read, "none"),
];

const FILE: &str = "test_outside_file";

const FOLDER: &str = "test_outside_folder";

const REAL_CALLS: [(Call, &str); 7] = [
    (Call::Read, FILE),
    (Call::Append("abc"), FILE),
    (Call::Begin, FILE),
    (Call::Append("de"), FILE),
    (Call::Append("f"), FILE),
    (Call::Read, FOLDER),
    (Call::Begin, FOLDER),
];

/// Adds what a file holds, if there is one.
fn tell_held(held: Option<&[u8]>, out: &mut String) -> Result<(), AllocError> {
    match held {
        Some(bytes) => {
            say(out, ", holds '")?;
            say_bytes(out, bytes)?;
            say(out, "'\n")
        }
        None => say(out, ", there is none\n"),
    }
}

/// Adds two files of one name, and makes calls.
fn tell_memory_calls(
    shelf: &mut MemoryShelf,
    alloc: Global,
    out: &mut String,
) -> Result<(), AllocError> {
    shelf.add(alloc, "a", b"old bytes")?;
    shelf.add(alloc, "a", b"xy")?;
    for (call, name) in &MEMORY_CALLS {
        tell_call(shelf, alloc, *call, name, out)?;
        tell_held(shelf.bytes(name), out)?;
    }
    Ok(())
}

/// Of the calls of this shelf the second, the fourth and the sixth fail. Each is told with what the file holds behind it.
pub fn tell_memory_shelf(alloc: Global, out: &mut String) -> Result<(), AllocError> {
    say(out, "A shelf in memory\n")?;
    let mut shelf = MemoryShelf::new(alloc, &[2, 4, 6])?;
    tell_memory_calls(&mut shelf, alloc, out)
}

/// Makes each of the calls.
fn tell_each<S: Shelf>(
    shelf: &mut S,
    alloc: Global,
    calls: &[(Call, &str)],
    out: &mut String,
) -> Result<(), AllocError> {
    for (call, name) in calls {
        tell_call(shelf, alloc, *call, name, out)?;
        say(out, "\n")?;
    }
    Ok(())
}

/// Adds a file of the greatest length, and makes calls.
fn tell_long_calls(
    shelf: &mut SureShelf,
    alloc: Global,
    out: &mut String,
) -> Result<(), AllocError> {
    shelf.add(alloc, "long", vec![in alloc; 0u8; MAX_BYTES]?.as_slice())?;
    tell_each(shelf, alloc, &LONG_CALLS, out)?;
    say(out, "long")?;
    tell_held(shelf.bytes("long"), out)
}

/// No call of this shelf fails, and a file is read up to its greatest length.
pub fn tell_sure_shelf(alloc: Global, out: &mut String) -> Result<(), AllocError> {
    say(out, "A shelf in memory without faults\n")?;
    let mut shelf = SureShelf::new(alloc)?;
    tell_long_calls(&mut shelf, alloc, out)
}

/// Adds what the file on the disk holds.
fn tell_file<S: Shelf>(shelf: &mut S, alloc: Global, out: &mut String) -> Result<(), AllocError> {
    match shelf.read(alloc, FILE) {
        Ok(Found::Bytes(bytes)) => tell_held(Some(bytes.as_slice()), out),
        _ => tell_held(None, out),
    }
}

/// Makes the calls of the disk, and reads what the file holds then.
fn tell_real_calls<S: Shelf>(
    shelf: &mut S,
    alloc: Global,
    out: &mut String,
) -> Result<(), AllocError> {
    tell_each(shelf, alloc, &REAL_CALLS, out)?;
    say(out, FILE)?;
    tell_file(shelf, alloc, out)
}

/// Makes calls of the disk, where a file and a folder of these names are made and removed.
pub fn tell_real_shelf<R: Files + AllocGlobal>(rt: &R) -> io::Result<String> {
    let alloc = rt.alloc();
    let mut out = String::new(alloc);
    say(&mut out, "The disk\n")?;
    let mut shelf = RealShelf::new(rt);
    // Left over where an earlier run was cut off.
    let _ = fs::remove_file(rt, FILE);
    let _ = fs::remove_dir(rt, FOLDER);
    fs::create_dir(rt, FOLDER)?;
    tell_real_calls(&mut shelf, alloc, &mut out)?;
    fs::remove_file(rt, FILE)?;
    fs::remove_dir(rt, FOLDER)?;
    Ok(out)
}
