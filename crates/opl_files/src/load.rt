//! Reading the files of a call.
ghost use Rattle.std.specs.Prelude.{◌≡◌, ◌≤◌, All, length, map, IfSome, IfOk};
ghost use Rattle.opl_outside.specs.Becomes.{Becomes};
ghost use Rattle.opl_outside.specs.Files.{max_bytes};
ghost use Rattle.opl_files.specs.Held.{Held};
ghost use Rattle.opl_files.specs.Stage.{Each, GivesRead, CountsRead};

use crate::names::name_at;
use crate::refusal::Refusal;
use crate::stop::Stop;
use opl_list::Seq;
use opl_outside::{Found, OutsideError, Shelf};
use std::alloc::Global;

/// The bytes of the file of this name and this number.
pub fn load<F: Shelf>(
    alloc: Global,
    shelf: &mut F,
    file: usize,
    name: &str,
) -> Result<Seq<u8>, Stop>
    ensures held { IfSome (F.files shelf.old) (λ files. GivesRead (Held files file name.now) result) }
    ensures within_limit { IfOk result (λ bytes. length bytes ≤ max_bytes) }
    ensures cause { CountsRead result (F.read_faults shelf.old) (F.read_faults shelf.new) }
    ensures no_write { F.write_faults shelf.new ≡ F.write_faults shelf.old }
    ensures files_stay { Becomes (F.files shelf.old) (F.files shelf.new) (λ before now. now ≡ before) }
{
    match shelf.read(alloc, name) {
        Ok(Found::Bytes(bytes)) => Ok(bytes),
        Ok(Found::Absent) => Err(Stop::Refused(Refusal::Absent(file))),
        Ok(Found::TooLong) => Err(Stop::Refused(Refusal::TooLong(file))),
        Err(OutsideError::Failed) => Err(Stop::ReadFault),
        Err(OutsideError::OutOfMemory) => Err(Stop::OutOfMemory),
    }
}

/// The bytes of the data files of these names, each read in turn.
pub fn load_data<F: Shelf>(
    alloc: Global,
    shelf: &mut F,
    names: &[&str],
) -> Result<Seq<Seq<u8>>, Stop>
    ensures held { let given = map (λ name. name.now) names.now in
        IfSome (F.files shelf.old) (λ files. GivesRead (Each (Held files) 1 given) result) }
    ensures within_limit { IfOk result (λ texts. All (λ bytes. length bytes ≤ max_bytes) texts) }
    ensures cause { CountsRead result (F.read_faults shelf.old) (F.read_faults shelf.new) }
    ensures no_write { F.write_faults shelf.new ≡ F.write_faults shelf.old }
    ensures files_stay { Becomes (F.files shelf.old) (F.files shelf.new) (λ before now. now ≡ before) }
{
    let mut texts = Seq::new(alloc);
    for x in 0..names.len() {
        texts.push(load(alloc, shelf, x + 1, name_at(names, x))?)?;
    }
    Ok(texts)
}
