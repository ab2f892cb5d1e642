//! Index spaces, made dimension after dimension.
ghost use Rattle.std.specs.Prelude.{◌≡◌, ◌++◌, ◌∷◌, [], OnErr, OnOk};
ghost use Rattle.opl_value.specs.Places.{AreSorted, IsSorted, dimensions};

use crate::value::{Dimension, IndexSpace};
use opl_list::Seq;
use std::alloc::{AllocError, Global};

impl IndexSpace {
    /// The index space without dimensions, which has one key. It takes no memory.
    #[tactic(auto, using(crate::proofs::Places::spaces))]
    pub fn new(alloc: Global) -> IndexSpace
        ensures dims { dimensions result ≡ [] }
        ensures sorted { AreSorted (dimensions result) }
    {
        IndexSpace {
            dims: Seq::new(alloc),
        }
    }

    /// Adds a dimension behind the others. Where memory is wanting the space stays as it was.
    #[tactic(auto, using(crate::proofs::Places::spaces))]
    pub fn push(&mut self, dimension: Dimension) -> Result<(), AllocError>
        ensures ok { OnOk result (dimensions self.new ≡ dimensions self.old ++ dimension ∷ []) }
        ensures err { OnErr result (self.new ≡ self.old) }
        ensures sorted { OnOk result (AreSorted (dimensions self.old) → IsSorted dimension → AreSorted (dimensions self.new)) }
    {
        self.dims.push(dimension)
    }
}
