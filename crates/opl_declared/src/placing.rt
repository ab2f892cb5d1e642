//! Adding names, and finding their places.
ghost use Rattle.std.specs.Prelude.{◌≡◌, ◌++◌, ◌∷◌, [], ℕ, List, Some, IfOk, OnOk, bytes_eq, cond};
ghost use Rattle.std.specs.HashMap.{get_by};
ghost use Rattle.opl_meaning.specs.Places.{position};
ghost use Rattle.opl_declared.specs.Kept.{texts_of};
ghost use Rattle.opl_meaning.specs.Runs.{is_among};

use crate::names::Names;
use opl_list::Seq;
use std::alloc::{AllocError, Global};
use std::collections::HashMap;

/// Keeps the place for the name.
fn add_place<'a>(
    places: &mut HashMap<&'a [u8], usize>,
    name: &'a [u8],
    place: usize,
) -> Result<(), AllocError>
    ensures { OnOk result ((other : List ℕ) → get_by (λ k. bytes_eq other k.now) places.new ≡ cond (bytes_eq other name.now) (Some place) (get_by (λ k. bytes_eq other k.now) places.old)) }
{
    places.insert(name, place)?;
    Ok(())
}

impl<'a> Names<'a> {
    /// No names. It takes no memory.
    pub(crate) fn new(alloc: Global) -> Names<'a>
        ensures { texts_of result ≡ [] }
    {
        Names {
            texts: Seq::new(alloc),
            places: HashMap::new(alloc),
        }
    }

    /// The place of the latest such name. It takes no memory.
    pub(crate) fn place(&self, name: &[u8]) -> Option<usize>
        ensures { result ≡ position name.now (texts_of self.now) }
    {
        self.places.get(name).copied()
    }

    /// Whether there is such a name. It takes no memory.
    #[tactic(auto, using(opl_meaning::proofs::Places::placed))]
    pub(crate) fn contains(&self, name: &[u8]) -> bool
        ensures { result ≡ is_among (texts_of self.now) name.now }
    {
        self.place(name).is_some()
    }

    /// The same names, and one more behind them.
    pub(crate) fn with(self, name: &'a [u8]) -> Result<Names<'a>, AllocError>
        ensures { IfOk result (λ names. texts_of names ≡ texts_of self.entry ++ name.now ∷ []) }
    {
        let Names {
            mut texts,
            mut places,
        } = self;
        let place = texts.len();
        add_place(&mut places, name, place)?;
        texts.push(name)?;
        Ok(Names { texts, places })
    }
}
