//! Files and output in memory, with calls that are to fail.
ghost use Rattle.std.specs.Prelude.{◌≡◌, None, Some, [], ◌++◌, IfOk, OnOk, OnErr, IsSomeAnd, IsErrOf};
ghost use Rattle.std.specs.Option.{option_copied};
ghost use Rattle.opl_outside.specs.Becomes.{Becomes};
ghost use Rattle.opl_outside.specs.Counts.{Counts, CountsOnce};
ghost use Rattle.opl_outside.specs.Failing.{FailsWhereNamed, first_half};
ghost use Rattle.opl_outside.specs.Files.{Sets, bytes_of, IsWithinLimit, Reads, Empties, Adds};
ghost use Rattle.opl_outside.specs.Held.{held};
ghost use Rattle.opl_outside.specs.Written.{Puts};

use crate::count::counted;
use crate::error::OutsideError;
use crate::failing::{FailingCalls, first_half};
use crate::file_map::FileMap;
use crate::shelf::{Found, Shelf};
use crate::sink::Sink;
use std::alloc::{AllocError, Global};

/// Files in memory, of whose calls some are to fail. It tells its files.
///
/// All calls of [`Shelf`] are numbered together, from 1. A call that wants memory changes nothing
/// and takes no number.
#[derive(Drop)]
pub struct MemoryShelf {
    files: FileMap,
    calls: FailingCalls,
    read_faults: u64,
    write_faults: u64,
}

impl MemoryShelf {
    /// A shelf without files; the calls with these numbers fail.
    pub fn new(alloc: Global, failing: &[u64]) -> Result<MemoryShelf, AllocError>
        ensures empty { IfOk result
            (λ shelf. ⟦<MemoryShelf as Shelf>⟧.files shelf ≡ Some (λ _. None)) }
        ensures no_read_fault { IfOk result
            (λ shelf. ⟦<MemoryShelf as Shelf>⟧.read_faults shelf ≡ 0) }
        ensures no_write_fault { IfOk result
            (λ shelf. ⟦<MemoryShelf as Shelf>⟧.write_faults shelf ≡ 0) }
        ensures calls { IfOk result
            (λ shelf. shelf.calls ≡ record { numbers = failing.now; made = 0 }) }
    {
        Ok(MemoryShelf {
            files: FileMap::new(alloc),
            calls: FailingCalls::new(alloc, failing)?,
            read_faults: 0,
            write_faults: 0,
        })
    }

    /// Gives the file `name` these bytes. This is no numbered call. Where memory is wanting, all
    /// files stay as they were.
    pub fn add(&mut self, alloc: Global, name: &str, bytes: &[u8]) -> Result<(), AllocError>
        ensures ok { OnOk result (Becomes (⟦<MemoryShelf as Shelf>⟧.files self.old)
            (⟦<MemoryShelf as Shelf>⟧.files self.new)
            (λ before now. Sets before now name.now bytes.now)) }
        ensures err { OnErr result
            (⟦<MemoryShelf as Shelf>⟧.files self.new ≡ ⟦<MemoryShelf as Shelf>⟧.files self.old) }
        ensures rest { self.new ≡ record self.old { files = self.new.files } }
    {
        self.files.set(alloc, name, bytes)
    }

    /// The bytes of the file `name`, if there is one.
    pub fn bytes(&self, name: &str) -> Option<&[u8]>
        ensures { IsSomeAnd (⟦<MemoryShelf as Shelf>⟧.files self.now)
            (λ files. option_copied result ≡ files name.now) }
    {
        self.files.get(name)
    }
}

impl Shelf for MemoryShelf {
    ghost files = { λ shelf. Some (held shelf.files) };

    ghost read_faults = { λ shelf. shelf.read_faults };

    ghost write_faults = { λ shelf. shelf.write_faults };

    /// A call that is to fail reads nothing.
    fn read(&mut self, alloc: Global, name: &str) -> Result<Found, OutsideError>
        ensures found { Reads (Some (held self.old.files)) (Some (held self.new.files))
            name.now result }
        ensures within_limit { IfOk result IsWithinLimit }
        ensures cause { Counts self.old.read_faults self.new.read_faults result }
        ensures no_write { self.new.write_faults ≡ self.old.write_faults }
        ensures once { CountsOnce self.old.read_faults self.new.read_faults result }
        ensures where_named { FailsWhereNamed self.old.calls self.new.calls result }
    {
        let outcome = if self.calls.fails_next() {
            Err(OutsideError::Failed)
        } else {
            Ok(self.files.find(alloc, name)?)
        };
        self.calls.count();
        self.read_faults = counted(self.read_faults, &outcome);
        outcome
    }

    /// A call that is to fail leaves the file as it was.
    fn begin(&mut self, alloc: Global, name: &str) -> Result<(), OutsideError>
        ensures emptied { Empties (Some (held self.old.files)) (Some (held self.new.files))
            name.now result }
        ensures cause { Counts self.old.write_faults self.new.write_faults result }
        ensures no_read { self.new.read_faults ≡ self.old.read_faults }
        ensures once { CountsOnce self.old.write_faults self.new.write_faults result }
        ensures where_named { FailsWhereNamed self.old.calls self.new.calls result }
        ensures left { OnErr result (held self.new.files ≡ held self.old.files) }
    {
        let outcome = if self.calls.fails_next() {
            Err(OutsideError::Failed)
        } else {
            Ok(self.files.set(alloc, name, b"")?)
        };
        self.calls.count();
        self.write_faults = counted(self.write_faults, &outcome);
        outcome
    }

    /// A call that is to fail adds the first half of the piece, rounded down.
    fn append(&mut self, alloc: Global, name: &str, bytes: &[u8]) -> Result<(), OutsideError>
        ensures added { Adds (Some (held self.old.files)) (Some (held self.new.files))
            name.now bytes.now result }
        ensures cause { Counts self.old.write_faults self.new.write_faults result }
        ensures no_read { self.new.read_faults ≡ self.old.read_faults }
        ensures once { CountsOnce self.old.write_faults self.new.write_faults result }
        ensures where_named { FailsWhereNamed self.old.calls self.new.calls result }
        ensures half { IsErrOf result OutsideError.Failed → Sets (held self.old.files)
            (held self.new.files) name.now
            (bytes_of (held self.old.files) name.now ++ first_half bytes.now) }
    {
        let outcome = if self.calls.fails_next() {
            self.files.extend(alloc, name, first_half(bytes))?;
            Err(OutsideError::Failed)
        } else {
            self.files.extend(alloc, name, bytes)?;
            Ok(())
        };
        self.calls.count();
        self.write_faults = counted(self.write_faults, &outcome);
        outcome
    }
}

/// Output that is kept in memory, of whose calls some are to fail. It tells what was written.
///
/// The calls of `put` are numbered from 1. A call that wants memory changes nothing and takes no
/// number.
#[derive(Drop)]
pub struct MemorySink {
    bytes: Vec<u8>,
    calls: FailingCalls,
    faults: u64,
}

impl MemorySink {
    /// A sink to which nothing was written; the calls with these numbers fail.
    pub fn new(alloc: Global, failing: &[u64]) -> Result<MemorySink, AllocError>
        ensures empty { IfOk result (λ sink. ⟦<MemorySink as Sink>⟧.written sink ≡ Some []) }
        ensures no_fault { IfOk result (λ sink. ⟦<MemorySink as Sink>⟧.faults sink ≡ 0) }
        ensures calls { IfOk result
            (λ sink. sink.calls ≡ record { numbers = failing.now; made = 0 }) }
    {
        Ok(MemorySink {
            bytes: Vec::new(alloc),
            calls: FailingCalls::new(alloc, failing)?,
            faults: 0,
        })
    }

    /// All bytes written so far.
    pub fn bytes(&self) -> &[u8]
        ensures { ⟦<MemorySink as Sink>⟧.written self.now ≡ Some result.now }
    {
        self.bytes.as_slice()
    }
}

impl Sink for MemorySink {
    ghost written = { λ sink. Some sink.bytes.items };

    ghost faults = { λ sink. sink.faults };

    /// A call that is to fail writes the first half of the piece, rounded down.
    fn put(&mut self, _alloc: Global, bytes: &[u8]) -> Result<(), OutsideError>
        ensures written { Puts (Some self.old.bytes.items) (Some self.new.bytes.items)
            bytes.now result }
        ensures cause { Counts self.old.faults self.new.faults result }
        ensures once { CountsOnce self.old.faults self.new.faults result }
        ensures where_named { FailsWhereNamed self.old.calls self.new.calls result }
        ensures half { IsErrOf result OutsideError.Failed
            → self.new.bytes.items ≡ self.old.bytes.items ++ first_half bytes.now }
    {
        let outcome = if self.calls.fails_next() {
            self.bytes.extend_from_slice(first_half(bytes))?;
            Err(OutsideError::Failed)
        } else {
            self.bytes.extend_from_slice(bytes)?;
            Ok(())
        };
        self.calls.count();
        self.faults = counted(self.faults, &outcome);
        outcome
    }
}
