//! Adding names, and finding their places.
ghost use Rattle.std.specs.Prelude.{◌≡◌, ◌++◌, ◌∷◌, [], ℕ, List, Some, OnOk, bytes_eq, cond, length};
ghost use Rattle.std.specs.HashMap.{get_by};
ghost use Rattle.opl_given.specs.Faults.{Does};
ghost use Rattle.opl_given.specs.Names.{position};
ghost use Rattle.opl_given.specs.Readings.{texts_of};

use crate::fault::BindFault;
use crate::names::Names;
use opl_list::Seq;
use std::alloc::{AllocError, Global};
use std::collections::HashMap;

/// Keeps the place for the name.
fn add_place<'a>(
    places: &mut HashMap<&'a [u8], u32>,
    name: &'a [u8],
    place: u32,
) -> Result<(), AllocError>
    ensures { OnOk result ((other : List ℕ) → get_by (λ k. bytes_eq other k.now) places.new ≡ cond (bytes_eq other name.now) (Some place) (get_by (λ k. bytes_eq other k.now) places.old)) }
{
    places.insert(name, place)?;
    Ok(())
}

/// The place behind these names; from 2^32 of them on memory is wanting.
fn next_place(texts: &[&[u8]]) -> Result<u32, BindFault>
    ensures { Does (λ place. place ≡ length texts.now) result }
{
    match u32::try_from(texts.len()) {
        Ok(place) => Ok(place),
        Err(_) => Err(BindFault::OutOfMemory),
    }
}

impl<'a> Names<'a> {
    /// No names. It takes no memory.
    pub(crate) fn new(alloc: Global) -> Names<'a>
        ensures { texts_of result ≡ [] }
    {
        Names {
            texts: Seq::new(alloc),
            places: HashMap::new(alloc),
        }
    }

    /// The place of the latest such name. It takes no memory.
    pub(crate) fn place(&self, name: &[u8]) -> Option<u32>
        ensures { result ≡ position name.now (texts_of self.now) }
    {
        self.places.get(name).copied()
    }

    /// The same names, and one more behind them.
    pub(crate) fn with(self, name: &'a [u8]) -> Result<Names<'a>, BindFault>
        ensures { Does (λ names. texts_of names ≡ texts_of self.entry ++ name.now ∷ []) result }
    {
        let Names {
            mut texts,
            mut places,
        } = self;
        let place = next_place(texts.as_slice())?;
        add_place(&mut places, name, place)?;
        texts.push(name)?;
        Ok(Names { texts, places })
    }
}
