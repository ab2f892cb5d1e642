//! The declared names one by one.
ghost use Rattle.std.specs.Prelude.{◌≡◌, Some};
ghost use Rattle.std.specs.List.{All, slice_get};
ghost use Rattle.std.specs.Option.{option_copied, option_map};
ghost use Rattle.opl_eval.specs.ArrayKeys.{IsKeyed};
ghost use Rattle.opl_eval.specs.LatestPlaces.{entry_at};
ghost use Rattle.opl_eval.specs.Visible as spec;
ghost use Rattle.opl_eval.specs.Visible.{item_of, seen};

use crate::entry::Entry;
use crate::environment::Environment;
use opl_value::Value;

/// A declared name with its value; for the name of an enumeration, the number of its declaration, else 0.
#[derive(Clone, Copy)]
pub struct Item<'a> {
    pub name: &'a [u8],
    pub value: &'a Value,
    pub declaration: u32,
}

impl<'a> Environment<'a> {
    /// The declared name at a place in the order of declaration, from 0. It takes no memory.
    pub fn item(&self, place: usize) -> Option<Item<'_>>
        ensures { option_map spec.lent result ≡ slice_get (seen self.now).items place }
    {
        match entry_at(self.entries.as_slice(), Some(place)) {
            Some(entry) => Some(lent(entry)),
            None => None,
        }
    }

    /// In the index space of each declared array places can be found.
    pub fn arrays_are_keyed(&self)
        ensures { All (λ i. IsKeyed i.value) (seen self.now).items }
    {}
}

/// The entry at that place.
pub(crate) fn entry_at(entries: &[Entry], place: Option<usize>) -> Option<&Entry>
    ensures { option_copied result ≡ entry_at place entries.now }
{
    match place {
        Some(at) => entries.get(at),
        None => None,
    }
}

/// The name and the value of an entry, lent.
fn lent(entry: &Entry) -> Item<'_>
    ensures { spec.lent result ≡ item_of entry.now }
{
    Item {
        name: entry.name.as_slice(),
        value: &entry.value,
        declaration: entry.declaration,
    }
}
