//! Sets in order of first occurrence.
ghost use Rattle.std.specs.Prelude.{◌≡◌, IfOk};
ghost use Rattle.opl_value.specs.Places.{AreDifferent};
ghost use Rattle.opl_value.specs.Sets.{first_occurrences};

use crate::value::Value;
use indexmap::IndexSet;
use std::alloc::{AllocError, Global};

/// The values without later copies, each at its first occurrence. The time is that of one look-up by hash for each value.
#[tactic(auto, using(crate::proofs::Sets::sets_differ))]
pub fn make_set(alloc: Global, items: Vec<Value>) -> Result<Vec<Value>, AllocError>
    ensures values { IfOk result (λ set. set.items ≡ first_occurrences items.items) }
    ensures different { IfOk result (λ set. AreDifferent set.items) }
{
    let mut found = IndexSet::new(alloc);
    for item in items {
        found.insert(item)?;
    }
    found.into_iter().collect(alloc)
}
