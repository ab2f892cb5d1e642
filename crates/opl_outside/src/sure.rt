//! Files and output in memory that never fail.
ghost use Rattle.std.specs.Prelude.{◌≡◌, None, Some, [], IfOk, OnOk, OnErr, IsOkAnd, IsSomeAnd};
ghost use Rattle.std.specs.Option.{option_copied};
ghost use Rattle.opl_outside.specs.Becomes.{Becomes};
ghost use Rattle.opl_outside.specs.Files.{Sets};
ghost use Rattle.opl_outside.specs.Held.{held};

use crate::error::OutsideError;
use crate::file_map::FileMap;
use crate::shelf::{Found, Shelf};
use crate::sink::Sink;
use std::alloc::{AllocError, Global};

/// Files in memory. It tells its files. Its calls never fail, and its counts are always 0.
#[derive(Drop)]
pub struct SureShelf {
    files: FileMap,
}

impl SureShelf {
    /// A shelf without files. It takes no memory.
    pub fn new(alloc: Global) -> Result<SureShelf, AllocError>
        ensures empty { IsOkAnd result
            (λ shelf. ⟦<SureShelf as Shelf>⟧.files shelf ≡ Some (λ _. None)) }
        ensures no_read_fault { IfOk result
            (λ shelf. ⟦<SureShelf as Shelf>⟧.read_faults shelf ≡ 0) }
        ensures no_write_fault { IfOk result
            (λ shelf. ⟦<SureShelf as Shelf>⟧.write_faults shelf ≡ 0) }
    {
        Ok(SureShelf {
            files: FileMap::new(alloc),
        })
    }

    /// Gives the file `name` these bytes. Where memory is wanting, all files stay as they were.
    pub fn add(&mut self, alloc: Global, name: &str, bytes: &[u8]) -> Result<(), AllocError>
        ensures ok { OnOk result (Becomes (⟦<SureShelf as Shelf>⟧.files self.old)
            (⟦<SureShelf as Shelf>⟧.files self.new)
            (λ before now. Sets before now name.now bytes.now)) }
        ensures err { OnErr result
            (⟦<SureShelf as Shelf>⟧.files self.new ≡ ⟦<SureShelf as Shelf>⟧.files self.old) }
    {
        self.files.set(alloc, name, bytes)
    }

    /// The bytes of the file `name`, if there is one.
    pub fn bytes(&self, name: &str) -> Option<&[u8]>
        ensures { IsSomeAnd (⟦<SureShelf as Shelf>⟧.files self.now)
            (λ files. option_copied result ≡ files name.now) }
    {
        self.files.get(name)
    }
}

impl Shelf for SureShelf {
    ghost files = { λ shelf. Some (held shelf.files) };

    ghost read_faults = { λ _. 0 };

    ghost write_faults = { λ _. 0 };

    fn read(&mut self, alloc: Global, name: &str) -> Result<Found, OutsideError> {
        Ok(self.files.find(alloc, name)?)
    }

    fn begin(&mut self, alloc: Global, name: &str) -> Result<(), OutsideError> {
        self.files.set(alloc, name, b"")?;
        Ok(())
    }

    fn append(&mut self, alloc: Global, name: &str, bytes: &[u8]) -> Result<(), OutsideError> {
        self.files.extend(alloc, name, bytes)?;
        Ok(())
    }
}

/// Output that is kept in memory. It tells what was written. Its calls never fail, and its count is
/// always 0.
#[derive(Drop)]
pub struct SureSink {
    bytes: Vec<u8>,
}

impl SureSink {
    /// A sink to which nothing was written. It takes no memory.
    pub fn new(alloc: Global) -> Result<SureSink, AllocError>
        ensures empty { IsOkAnd result (λ sink. ⟦<SureSink as Sink>⟧.written sink ≡ Some []) }
        ensures no_fault { IfOk result (λ sink. ⟦<SureSink as Sink>⟧.faults sink ≡ 0) }
    {
        Ok(SureSink {
            bytes: Vec::new(alloc),
        })
    }

    /// All bytes written so far.
    pub fn bytes(&self) -> &[u8]
        ensures { ⟦<SureSink as Sink>⟧.written self.now ≡ Some result.now }
    {
        self.bytes.as_slice()
    }
}

impl Sink for SureSink {
    ghost written = { λ sink. Some sink.bytes.items };

    ghost faults = { λ _. 0 };

    fn put(&mut self, _alloc: Global, bytes: &[u8]) -> Result<(), OutsideError> {
        self.bytes.extend_from_slice(bytes)?;
        Ok(())
    }
}
