//! Where each name of a list of names stands.
ghost use Rattle.std.specs.Prelude.{◌≡◌, ◌++◌, ◌∷◌, [], ℕ, List, None, Some, IfOk, OnOk, bytes_eq, cond};
ghost use Rattle.std.specs.HashMap.{get_by};
ghost use Rattle.opl_type_rules.specs.NamePlaces.{latest_place};

use opl_list::Seq;
use opl_tree::Name;
use std::alloc::{AllocError, Global};
use std::collections::HashMap;
use std::marker::Model;
use std::mem;

/// Names in their order, each found without going through the others.
#[derive(Drop)]
pub(crate) struct Index {
    names: Seq<Name>,
    places: HashMap<Vec<u8>, usize>,
}

impl Model for Index {
    ghost use Rattle.std.specs.Prelude.{◌≡◌, ℕ, List, None, bytes_eq};
    ghost use Rattle.std.specs.HashMap.{get_by};

    ghost Value = { List (List ℕ) };

    ghost use Rattle.opl_type_rules.specs.NamePlaces.{latest_place};

    ghost view = { λ i. i.names };

    ghost invariant = { λ i. (name : List ℕ) → get_by (λ k. bytes_eq name k.items) i.places ≡ latest_place None 0 name i.names };
}

/// The place that is kept for the name.
fn place_in(places: &HashMap<Vec<u8>, usize>, name: &[u8]) -> Option<usize>
    ensures { result ≡ get_by (λ k. bytes_eq name.now k.items) places.now }
{
    places.get(name).copied()
}

/// Keeps the place for the name.
fn keep_place(
    places: &mut HashMap<Vec<u8>, usize>,
    name: Vec<u8>,
    place: usize,
) -> Result<(), AllocError>
    ensures { OnOk result ((other : List ℕ) → get_by (λ k. bytes_eq other k.items) places.new ≡ cond (bytes_eq other name.items) (Some place) (get_by (λ k. bytes_eq other k.items) places.old)) }
{
    places.insert(name, place)?;
    Ok(())
}

impl Index {
    /// No names.
    pub(crate) fn new(alloc: Global) -> Index
        ensures { result ≡ [] }
    {
        Index {
            names: Seq::new(alloc),
            places: HashMap::new(alloc),
        }
    }

    /// The place of the latest of the names that is this one.
    pub(crate) fn find(&self, name: &[u8]) -> Option<usize>
        ensures { result ≡ latest_place None 0 name.now self.now }
    {
        place_in(&self.places, name)
    }

    /// One more name. Where memory is wanting no name is left.
    pub(crate) fn add(&mut self, alloc: Global, name: &[u8]) -> Result<(), AllocError>
        ensures { OnOk result (self.new ≡ self.old ++ name.now ∷ []) }
    {
        let before = mem::replace(self, Index::new(alloc));
        *self = with_last(alloc, before, name)?;
        Ok(())
    }
}

/// The same names, and one more.
fn with_last(alloc: Global, before: Index, name: &[u8]) -> Result<Index, AllocError>
    ensures { IfOk result (λ r. r ≡ before ++ name.now ∷ []) }
{
    let Index {
        mut names,
        mut places,
    } = before;
    let place = names.len();
    keep_place(&mut places, Vec::from_slice(alloc, name)?, place)?;
    names.push(Seq::from_slice(alloc, name)?)?;
    Ok(Index { names, places })
}
