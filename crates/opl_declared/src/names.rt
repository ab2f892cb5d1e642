//! Names with their places.
ghost use Rattle.std.specs.Prelude.{◌≡◌, ℕ, List, bytes_eq, map};
ghost use Rattle.std.specs.HashMap.{get_by};
ghost use Rattle.std.proofs.Props.{props};
ghost use Rattle.opl_meaning.specs.Places.{position};

use opl_list::Seq;
use std::collections::HashMap;

/// Names, in their order, with the place of the latest one of each.
#[derive(Drop)]
pub(crate) struct Names<'a> {
    pub(crate) texts: Seq<&'a [u8]>,
    pub(crate) places: HashMap<&'a [u8], usize>,
    ghost are_placed: { (name : List ℕ) → get_by (λ k. bytes_eq name k.now) places ≡ position name (map (λ t. t.now) texts) } by { Prim.hlevel props },
}
