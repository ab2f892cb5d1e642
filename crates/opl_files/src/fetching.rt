//! Reading the files of a call.
ghost use Rattle.std.specs.Prelude.{◌≡◌, [], map, IfSome};
ghost use Rattle.opl_outside.specs.Becomes.{Becomes};
ghost use Rattle.opl_files.specs.Held.{Loaded};
ghost use Rattle.opl_files.specs.Reading.{front_of};
ghost use Rattle.opl_files.specs.Stage.{GivesRead, CountsRead};

use crate::front::Front;
use crate::load::{load, load_data};
use crate::reading::read;
use crate::stop::Stop;
use opl_outside::Shelf;
use std::alloc::Global;

/// The trees of the files of these names, the model's with the types of its expressions.
///
/// # Errors
///
/// The first fault of the files, their texts and their trees; a read that failed; want of memory.
pub fn fetch<F: Shelf>(
    alloc: Global,
    shelf: &mut F,
    model: &str,
    files: &[&str],
) -> Result<Front, Stop>
    ensures loaded { let names = map (λ name. name.now) files.now in
        IfSome (F.files shelf.old) (λ told. GivesRead (Loaded told model.now names) (front_of result)) }
    ensures cause { CountsRead result (F.read_faults shelf.old) (F.read_faults shelf.new) }
    ensures no_write { F.write_faults shelf.new ≡ F.write_faults shelf.old }
    ensures files_stay { Becomes (F.files shelf.old) (F.files shelf.new) (λ before now. now ≡ before) }
{
    let bytes = load(alloc, shelf, 0, model)?;
    let texts = load_data(alloc, shelf, files)?;
    read(alloc, bytes.as_slice(), texts.as_slice())
}
