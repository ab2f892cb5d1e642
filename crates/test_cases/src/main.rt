//! The program `test_cases WORD..`: prints what is told of each word. `stores` and `outside` stand for stores and for shelves and sinks
//! that are made here; every other word is a file of cases, and the end of its name says what they are about.
#![tactic(auto)]

mod subject;

use opl_outside::{Found, OutsideError, RealShelf, Shelf};
use std::alloc::{AllocError, Global};
use std::io::Write;
use std::rt::{Env, Files};
use std::{env, io, str};
use subject::{Subject, subject_of, told_of};
use test_outside::tell_outside;
use test_store::tell_stores;
use test_syntax::told_of_file;

/// The words after the program's name.
fn words<R: Env + AllocGlobal>(rt: &R) -> io::Result<Vec<String>> {
    let mut args = env::args(rt)?;
    let _name = args.next();
    let mut words = Vec::new(rt.alloc());
    for word in args {
        words.push(word)?;
    }
    Ok(words)
}

/// What is told of the cases of a file.
fn told_of_cases<F: Shelf>(
    alloc: Global,
    shelf: &mut F,
    subject: Subject,
    name: &str,
) -> Result<Vec<u8>, AllocError> {
    match shelf.read(alloc, name) {
        Ok(Found::Bytes(bytes)) => match str::from_utf8(bytes.as_slice()) {
            Ok(cases) => told_of(alloc, subject, cases),
            Err(_) => Vec::from_slice(alloc, b"no text\n"),
        },
        Ok(Found::Absent) | Ok(Found::TooLong) => Vec::from_slice(alloc, b"cannot be read\n"),
        Err(OutsideError::Failed) => Vec::from_slice(alloc, b"cannot be read\n"),
        Err(OutsideError::OutOfMemory) => Err(AllocError),
    }
}

/// What is told of a file.
fn told_of_name<F: Shelf>(alloc: Global, shelf: &mut F, name: &str) -> Result<Vec<u8>, AllocError> {
    match subject_of(name) {
        Some(subject) => told_of_cases(alloc, shelf, subject, name),
        None => told_of_file(alloc, shelf, name),
    }
}

/// Writes what is told of a word.
fn tell<R: Files + AllocGlobal, W: Write>(rt: &R, out: &mut W, word: &str) -> io::Result<()> {
    match word {
        "stores" => tell_stores(rt.alloc(), out),
        "outside" => tell_outside(rt, out),
        name => {
            let mut shelf = RealShelf::new(rt);
            let told = told_of_name(rt.alloc(), &mut shelf, name)?;
            out.write_all(told.as_slice())
        }
    }
}

fn main(rt: HostRuntime) -> io::Result<()> {
    let mut out = io::writer(&rt);
    let words = words(&rt)?;
    for word in words.as_slice() {
        tell(&rt, &mut out, word.as_str())?;
    }
    Ok(())
}
