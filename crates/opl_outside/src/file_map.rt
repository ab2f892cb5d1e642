//! Files that are held in memory.
ghost use Rattle.std.specs.Prelude.{◌≡◌, ◌++◌, None, IfOk, OnOk, OnErr};
ghost use Rattle.std.specs.Option.{option_copied};
ghost use Rattle.opl_outside.specs.Files.{IsFound, Sets, bytes_of};
ghost use Rattle.opl_outside.specs.Held.{held};

use crate::shelf::{Found, MAX_BYTES};
use opl_list::Seq;
use std::alloc::{AllocError, Global};
use std::collections::HashMap;

/// Files by their names.
#[derive(Drop)]
pub(crate) struct FileMap {
    files: HashMap<String, Vec<u8>>,
}

#[tactic(auto, unfolding(crate::specs::Held::held))]
impl FileMap {
    /// No files. It takes no memory.
    pub(crate) fn new(alloc: Global) -> FileMap
        ensures { held result ≡ (λ _. None) }
    {
        FileMap {
            files: HashMap::new(alloc),
        }
    }

    /// The bytes of a file, if there is one.
    pub(crate) fn get(&self, name: &str) -> Option<&[u8]>
        ensures { option_copied result ≡ held self.now name.now }
    {
        match self.files.get(name) {
            Some(bytes) => Some(bytes.as_slice()),
            None => None,
        }
    }

    /// What a read finds.
    pub(crate) fn find(&self, alloc: Global, name: &str) -> Result<Found, AllocError>
        ensures { IfOk result (IsFound (held self.now name.now)) }
    {
        match self.get(name) {
            None => Ok(Found::Absent),
            Some(bytes) if bytes.len() > MAX_BYTES => Ok(Found::TooLong),
            Some(bytes) => Ok(Found::Bytes(Seq::from_slice(alloc, bytes)?)),
        }
    }

    /// Gives a file these bytes. Where memory is wanting, all files stay as they were.
    pub(crate) fn set(&mut self, alloc: Global, name: &str, bytes: &[u8]) -> Result<(), AllocError>
        ensures ok { OnOk result (Sets (held self.old) (held self.new) name.now bytes.now) }
        ensures err { OnErr result (held self.new ≡ held self.old) }
    {
        let name = String::from_str(alloc, name)?;
        let bytes = Vec::from_slice(alloc, bytes)?;
        self.files.insert(name, bytes)?;
        Ok(())
    }

    /// Adds bytes at the end of a file, which is made where there is none. Where memory is wanting,
    /// all files stay as they were.
    pub(crate) fn extend(
        &mut self,
        alloc: Global,
        name: &str,
        bytes: &[u8],
    ) -> Result<(), AllocError>
        ensures ok { OnOk result (Sets (held self.old) (held self.new) name.now
            (bytes_of (held self.old) name.now ++ bytes.now)) }
        ensures err { OnErr result (held self.new ≡ held self.old) }
    {
        match self.files.get_mut(name) {
            Some(file) => file.extend_from_slice(bytes),
            None => self.set(alloc, name, bytes),
        }
    }
}
