//! The tokens of the files of a call.
ghost use Rattle.std.specs.Prelude.{◌≡◌, ◌≤◌, All, length};
ghost use Rattle.opl_outside.specs.Files.{max_bytes};
ghost use Rattle.opl_files.specs.Reading.{Scanned};
ghost use Rattle.opl_files.specs.Stage.{Each, Gives};

use crate::refusal::Fault;
use crate::stop::{Stop, refused};
use opl_token::{ScanFault, Seq, Token, scan};
use std::alloc::Global;

/// The tokens of a file, and how many bytes it has.
#[derive(Drop)]
pub struct Tokens {
    pub list: Seq<Token>,
    pub end: u32,
}

/// The tokens of the file with this number.
pub fn tokens_of(alloc: Global, file: usize, bytes: &[u8]) -> Result<Tokens, Stop>
    requires { length bytes.now ≤ max_bytes }
    ensures { Gives (Scanned file bytes.now) result }
{
    match scan(alloc, bytes) {
        Ok(list) => Ok(Tokens {
            list,
            end: bytes.len() as u32,
        }),
        Err(ScanFault::BadByte(at)) => Err(refused(Fault::BadByte, file, at)),
        Err(ScanFault::OpenComment(at)) => Err(refused(Fault::OpenComment, file, at)),
        Err(ScanFault::OpenString(at)) => Err(refused(Fault::OpenString, file, at)),
        Err(ScanFault::NumberTooLarge(at)) => Err(refused(Fault::NumberTooLarge, file, at)),
        Err(ScanFault::OutOfMemory) => Err(Stop::OutOfMemory),
    }
}

/// The tokens of each data file.
pub fn tokens_of_data(alloc: Global, texts: &[Seq<u8>]) -> Result<Seq<Tokens>, Stop>
    requires { All (λ bytes. length bytes ≤ max_bytes) texts.now }
    ensures { Gives (Each Scanned 1 texts.now) result }
{
    let mut found = Seq::new(alloc);
    for (x, bytes) in texts.iter().enumerate() {
        found.push(tokens_of(alloc, x + 1, bytes.as_slice())?)?;
    }
    Ok(found)
}
