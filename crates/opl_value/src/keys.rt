//! Index spaces in which the place of each key can be found.
ghost use Rattle.std.specs.Prelude.{◌≡◌, ◌<◌, ◌≤◌, ◌^◌, IfNone, IfOk, IfSome, OnSome};
ghost use Rattle.opl_value.specs.Keyed.{AreSorted-prop};
ghost use Rattle.opl_value.specs.Places.{AreSorted, dimensions, elements, lists, place_of};

use crate::index::place;
use crate::value::{IndexSpace, Value};
use std::alloc::{AllocError, Global};

/// An index space with at most 2^64 - 1 keys, by whose dimensions places can be found: what `place` asks for, once for all.
#[derive(Drop)]
pub struct KeySpace {
    pub space: IndexSpace,
    pub ghost is_sorted: { AreSorted (dimensions space) } by { AreSorted-prop (dimensions space) },
    pub ghost is_countable: { elements (lists space) < 2 ^ 64 },
}

impl KeySpace {
    /// The same index space; None exactly where it has more than 2^64 - 1 keys.
    pub fn new(space: IndexSpace) -> Option<KeySpace>
        requires { AreSorted (dimensions space) }
        ensures few { OnSome result (elements (lists space) < 2 ^ 64) }
        ensures many { IfNone result (2 ^ 64 ≤ elements (lists space)) }
        ensures space { IfSome result (λ keys. keys.space ≡ space) }
    {
        space.elements()?;
        Some(KeySpace { space })
    }

    /// The number of keys.
    pub fn elements(&self) -> u64
        ensures { result ≡ elements (lists self.now.space) }
    {
        self.space.elements().unwrap()
    }

    /// The number of the element with that key, as `place` gives it.
    pub fn place(&self, key: &[Value]) -> Option<u64>
        ensures { result ≡ place_of (lists self.now.space) key.now }
    {
        place(&self.space, key)
    }

    /// An equal one.
    pub fn copy(&self, alloc: Global) -> Result<KeySpace, AllocError>
        ensures { IfOk result (λ keys. keys.space ≡ self.now.space) }
    {
        let space = self.space.copy(alloc)?;
        Ok(KeySpace { space })
    }
}
