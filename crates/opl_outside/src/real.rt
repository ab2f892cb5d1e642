//! The files of the disk, and a writer such as standard output.
ghost use Rattle.std.specs.Prelude.{◌≡◌, ◌≤◌, ◌<◌, ◌++◌, true, false, None, Some, vec_len, IfOk, IfSome, OnOk};
ghost use Rattle.std.specs.Io.{appended_bytes};
ghost use Rattle.std.specs.Io.KnownBytes.{Consumes, IsAtEnd};
ghost use Rattle.opl_outside.specs.Files.{IsFound, IsWithinLimit, max_bytes};
ghost use Rattle.opl_outside.specs.Written.{Puts};

use crate::count::counted;
use crate::error::OutsideError;
use crate::shelf::{Found, MAX_BYTES, Shelf};
use crate::sink::Sink;
use opl_list::Seq;
use std::alloc::Global;
use std::fs::{File, Files, OpenOptions};
use std::io::{ErrorKind, Read, Write};

/// The files of the disk. It tells nothing of what they hold. An interrupted call is a fault, as
/// any other error is.
#[derive(Drop)]
pub struct RealShelf<'a, R: Files> {
    rt: &'a R,
    read_faults: u64,
    write_faults: u64,
}

impl<'a, R: Files> RealShelf<'a, R> {
    /// The files that `rt` reaches.
    pub fn new(rt: &'a R) -> RealShelf<'a, R>
        ensures no_read_fault { ⟦<RealShelf<'a, R> as Shelf>⟧.read_faults result ≡ 0 }
        ensures no_write_fault { ⟦<RealShelf<'a, R> as Shelf>⟧.write_faults result ≡ 0 }
    {
        RealShelf {
            rt,
            read_faults: 0,
            write_faults: 0,
        }
    }
}

impl<R: Files> Shelf for RealShelf<'_, R> {
    ghost files = { λ _. None };

    ghost read_faults = { λ shelf. shelf.read_faults };

    ghost write_faults = { λ shelf. shelf.write_faults };

    fn read(&mut self, alloc: Global, name: &str) -> Result<Found, OutsideError> {
        let outcome = read_file(self.rt, alloc, name);
        self.read_faults = counted(self.read_faults, &outcome);
        outcome
    }

    fn begin(&mut self, _alloc: Global, name: &str) -> Result<(), OutsideError> {
        let outcome = empty_file(self.rt, name);
        self.write_faults = counted(self.write_faults, &outcome);
        outcome
    }

    fn append(&mut self, _alloc: Global, name: &str, bytes: &[u8]) -> Result<(), OutsideError> {
        let outcome = append_to_file(self.rt, name, bytes);
        self.write_faults = counted(self.write_faults, &outcome);
        outcome
    }
}

/// Reads a file. It is absent where opening it says that there is none.
fn read_file<R: Files>(rt: &R, alloc: Global, name: &str) -> Result<Found, OutsideError>
    ensures { IfOk result IsWithinLimit }
{
    match File::open(rt, name) {
        Ok(mut file) => read_whole(alloc, &mut file),
        Err(e) if e.kind() == ErrorKind::NotFound => Ok(Found::Absent),
        Err(_) => Err(OutsideError::Failed),
    }
}

/// Makes a file empty, or makes it where there is none.
fn empty_file<R: Files>(rt: &R, name: &str) -> Result<(), OutsideError> {
    File::create(rt, name).map_err(|_| OutsideError::Failed)?;
    Ok(())
}

/// Adds `bytes` at the end of a file, which is made where there is none.
fn append_to_file<R: Files>(rt: &R, name: &str, bytes: &[u8]) -> Result<(), OutsideError> {
    let mut file = OpenOptions::new()
        .append(true)
        .create(true)
        .open(rt, name)
        .map_err(|_| OutsideError::Failed)?;
    write_whole(&mut file, bytes)
}

/// Reads to the end, or one byte past the limit.
fn read_whole<F: Read>(alloc: Global, file: &mut F) -> Result<Found, OutsideError>
    ensures within_limit { IfOk result IsWithinLimit }
    ensures known { IfSome (F.remaining file.old) (λ bytes. IfOk result (IsFound (Some bytes))) }
{
    let mut bytes = Vec::new(alloc);
    while bytes.len() <= MAX_BYTES {
        if !read_piece(file, &mut bytes)? {
            return Ok(Found::Bytes(Seq::from_vec(bytes)));
        }
    }
    Ok(Found::TooLong)
}

/// The most bytes that one call reads.
const PIECE: usize = 8 * 1024;

/// Reads once, and adds what came behind `bytes`. Nothing comes only at the end of the file.
fn read_piece<F: Read>(file: &mut F, bytes: &mut Vec<u8>) -> Result<bool, OutsideError>
    requires { vec_len bytes.old ≤ max_bytes }
    ensures added { OnOk result (bytes.new.items
        ≡ bytes.old.items ++ appended_bytes bytes.old.items bytes.new.items) }
    ensures known { OnOk result (Consumes (F.remaining file.old) (F.remaining file.new)
        (appended_bytes bytes.old.items bytes.new.items)) }
    ensures end { IfOk result (λ more. more ≡ false → (vec_len bytes.new ≡ vec_len bytes.old)
        × IsAtEnd (F.remaining file.new)) }
    ensures more { IfOk result (λ more. more ≡ true → vec_len bytes.old < vec_len bytes.new) }
{
    let mut piece = [0u8; PIECE];
    let room = PIECE.min(MAX_BYTES + 1 - bytes.len());
    match file.read(&mut piece[..room]) {
        Ok(n) => {
            bytes.extend_from_slice(&piece[..n])?;
            Ok(n > 0)
        }
        Err(_) => Err(OutsideError::Failed),
    }
}

/// A sink that hands its bytes to a writer, and tells what the writer tells. An interrupted call is
/// a fault, as any other error is.
#[derive(Drop)]
pub struct RealSink<W> {
    to: W,
    faults: u64,
}

impl<W: Write + Drop> RealSink<W> {
    /// A sink to which nothing was put yet.
    pub fn new(to: W) -> RealSink<W>
        ensures written { ⟦<RealSink<W> as Sink>⟧.written result ≡ W.contents to }
        ensures no_fault { ⟦<RealSink<W> as Sink>⟧.faults result ≡ 0 }
    {
        RealSink { to, faults: 0 }
    }
}

impl<W: Write + Drop> Sink for RealSink<W> {
    ghost written = { λ sink. W.contents sink.to };

    ghost faults = { λ sink. sink.faults };

    fn put(&mut self, _alloc: Global, bytes: &[u8]) -> Result<(), OutsideError> {
        let outcome = write_whole(&mut self.to, bytes);
        self.faults = counted(self.faults, &outcome);
        outcome
    }
}

/// Writes all bytes, and out of any buffer. A write that takes nothing is a fault.
fn write_whole<W: Write>(to: &mut W, bytes: &[u8]) -> Result<(), OutsideError>
    ensures { Puts (W.contents to.old) (W.contents to.new) bytes.now result }
{
    let mut rest = bytes;
    while !rest.is_empty() {
        match to.write(rest) {
            Ok(0) => return Err(OutsideError::Failed),
            Ok(taken) => rest = &rest[taken..],
            Err(_) => return Err(OutsideError::Failed),
        }
    }
    match to.flush() {
        Ok(()) => Ok(()),
        Err(_) => Err(OutsideError::Failed),
    }
}
