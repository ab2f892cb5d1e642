//! Files by their names.
ghost use Rattle.std.specs.Prelude.{◌≡◌, ℕ, Option, IfOk};
ghost use Rattle.opl_outside.specs.Counts.{Counts};
ghost use Rattle.opl_outside.specs.Files.{Files, IsWithinLimit, Reads, Empties, Adds};

use crate::error::OutsideError;
use opl_list::Seq;
use std::alloc::Global;

/// The most bytes of a file that is read: 16 MiB.
pub const MAX_BYTES: usize = 16_777_216;

/// What a read finds of a file.
#[derive(Drop)]
pub enum Found {
    /// All bytes of the file, at most [`MAX_BYTES`].
    Bytes(Seq<u8>),
    /// There is no file of that name.
    Absent,
    /// The file has more than [`MAX_BYTES`] bytes.
    TooLong,
}

/// Files by their names. A name is any text.
///
/// A shelf may tell what its files are, or nothing of it, as the disk does. It counts the faults of
/// `read`, and apart from them those of `begin` and `append`.
pub trait Shelf {
    /// The files, where they are told.
    ghost files: { Self → Option Files };

    /// How many times `read` failed.
    ghost read_faults: { Self → ℕ };

    /// How many times `begin` and `append` failed.
    ghost write_faults: { Self → ℕ };

    /// Reads the whole file.
    fn read(&mut self, alloc: Global, name: &str) -> Result<Found, OutsideError>
        ensures found { Reads (files self.old) (files self.new) name.now result }
        ensures within_limit { IfOk result IsWithinLimit }
        ensures cause { Counts (read_faults self.old) (read_faults self.new) result }
        ensures no_write { write_faults self.new ≡ write_faults self.old };

    /// Makes the file empty. Where this fails, the file is as it was or empty.
    fn begin(&mut self, alloc: Global, name: &str) -> Result<(), OutsideError>
        ensures emptied { Empties (files self.old) (files self.new) name.now result }
        ensures cause { Counts (write_faults self.old) (write_faults self.new) result }
        ensures no_read { read_faults self.new ≡ read_faults self.old };

    /// Adds `bytes` at the end of the file, which is made first where there is none. Where this
    /// fails, a front of `bytes` has been added.
    fn append(&mut self, alloc: Global, name: &str, bytes: &[u8]) -> Result<(), OutsideError>
        ensures added { Adds (files self.old) (files self.new) name.now bytes.now result }
        ensures cause { Counts (write_faults self.old) (write_faults self.new) result }
        ensures no_read { read_faults self.new ≡ read_faults self.old };
}
