//! Stores, and what is done to each.
use crate::act::{Act, perform};
use crate::told::{write_act, write_held, write_store};
use opl_domain::{OutOfMemory, Steps, View};
use opl_store::Store;
use std::alloc::Global;
use std::io;
use std::io::Write;

/// One variable that is cut at its low end, at its high end, outside its set and to one value.
const ENDS: [Act; 11] = [
    Act::Open,
    Act::Cut(0, -5, 2),
    Act::Cut(0, 6, 9),
    Act::Open,
    Act::Cut(0, 1, 2),
    Act::Cut(0, 5, 4),
    Act::Cut(0, 3, 3),
    Act::Cut(0, 5, 5),
    Act::Cut(0, 4, 4),
    Act::Close,
    Act::Close,
];

/// Two variables, and levels that are opened and closed in turns: ends move over holes, and closing gives both back.
const NESTED: [Act; 16] = [
    Act::Cut(1, 0, 0),
    Act::Open,
    Act::Cut(0, 3, 4),
    Act::Cut(1, -1, 1),
    Act::Open,
    Act::Cut(0, 1, 2),
    Act::Cut(0, 6, 6),
    Act::Cut(1, 2, 3),
    Act::Close,
    Act::Open,
    Act::Cut(0, 6, 9),
    Act::Cut(0, 2, 2),
    Act::Close,
    Act::Close,
    Act::Cut(0, 9, 9),
    Act::Close,
];

/// A set of four blocks: a hole over three of them, another in one of these, and ends that move over the holes.
const WORDS: [Act; 11] = [
    Act::Open,
    Act::Cut(0, -50, 50),
    Act::Open,
    Act::Cut(0, -60, -55),
    Act::Cut(0, 64, 64),
    Act::Cut(0, 60, 70),
    Act::Close,
    Act::Open,
    Act::Cut(0, -100, -51),
    Act::Close,
    Act::Close,
];

/// Does what is asked of a store, and tells its sets each time.
fn tell<W: Write>(alloc: Global, out: &mut W, store: &mut Store, acts: &[Act]) -> io::Result<()> {
    let mut steps = Steps::new();
    write_store(out, store)?;
    for act in acts {
        write_act(out, *act)?;
        if perform(alloc, store, *act, &mut steps).is_err() {
            return Err(io::Error::from(io::ErrorKind::OutOfMemory));
        }
        write_store(out, store)?;
        let levels = store.levels();
        let count = steps.count();
        writeln!(out, "  levels {levels}, steps {count}")?;
    }
    Ok(())
}

/// Tells of cuts at the ends of one set.
pub fn tell_ends<W: Write>(alloc: Global, out: &mut W) -> io::Result<()> {
    out.write_all(b"Ends\n")?;
    match Store::new(alloc, &[(1, 6)]) {
        Ok(mut store) => tell(alloc, out, &mut store, &ENDS),
        Err(OutOfMemory) => Err(io::Error::from(io::ErrorKind::OutOfMemory)),
    }
}

/// Tells of cuts of two sets on nested levels.
pub fn tell_nested<W: Write>(alloc: Global, out: &mut W) -> io::Result<()> {
    out.write_all(b"Nested levels\n")?;
    match Store::new(alloc, &[(0, 9), (-3, 3)]) {
        Ok(mut store) => tell(alloc, out, &mut store, &NESTED),
        Err(OutOfMemory) => Err(io::Error::from(io::ErrorKind::OutOfMemory)),
    }
}

/// Tells of cuts of a set of several blocks.
pub fn tell_words<W: Write>(alloc: Global, out: &mut W) -> io::Result<()> {
    out.write_all(b"Several words\n")?;
    match Store::new(alloc, &[(-100, 100)]) {
        Ok(mut store) => {
            tell(alloc, out, &mut store, &WORDS)?;
            write_held(out, &store, 0, &[-101, -100, 0, 100, 101])
        }
        Err(OutOfMemory) => Err(io::Error::from(io::ErrorKind::OutOfMemory)),
    }
}

/// Cuts a value of three of a thousand sets, and closes the level: what is written back are three words.
fn cut_three(alloc: Global, store: &mut Store, steps: &mut Steps) -> Result<(), OutOfMemory> {
    perform(alloc, store, Act::Open, steps)?;
    perform(alloc, store, Act::Cut(0, 5, 5), steps)?;
    perform(alloc, store, Act::Cut(500, 5, 5), steps)?;
    perform(alloc, store, Act::Cut(999, 5, 5), steps)?;
    Ok(())
}

/// How many sets have 64 values.
fn whole(store: &Store) -> u32 {
    let mut count: u32 = 0;
    for x in 0..store.vars() {
        if store.size(x) == 64 {
            count = count.wrapping_add(1);
        }
    }
    count
}

/// Tells of a thousand sets, three of which are cut.
pub fn tell_many<W: Write>(alloc: Global, out: &mut W) -> io::Result<()> {
    out.write_all(b"A thousand variables\n")?;
    let mut steps = Steps::new();
    match Store::new(alloc, &[(0, 63); 1000]) {
        Ok(mut store) => {
            if cut_three(alloc, &mut store, &mut steps).is_err() {
                return Err(io::Error::from(io::ErrorKind::OutOfMemory));
            }
            let cut = whole(&store);
            if perform(alloc, &mut store, Act::Close, &mut steps).is_err() {
                return Err(io::Error::from(io::ErrorKind::OutOfMemory));
            }
            let whole = whole(&store);
            let count = steps.count();
            writeln!(out, "  whole sets {cut}, closed {whole}, steps {count}")
        }
        Err(OutOfMemory) => Err(io::Error::from(io::ErrorKind::OutOfMemory)),
    }
}
