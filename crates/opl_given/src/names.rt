//! Names with their places.
ghost use Rattle.std.specs.Prelude.{◌≡◌, ℕ, List, bytes_eq, map};
ghost use Rattle.std.specs.HashMap.{get_by};
ghost use Rattle.std.proofs.Props.{props};
ghost use Rattle.opl_given.specs.Names.{position};

use opl_list::Seq;
use std::collections::HashMap;

/// Names, in their order, with the place of the latest one of each.
#[derive(Drop)]
pub struct Names<'a> {
    pub texts: Seq<&'a [u8]>,
    pub places: HashMap<&'a [u8], u32>,
    ghost are_placed: { (name : List ℕ) → get_by (λ k. bytes_eq name k.now) places ≡ position name (map (λ t. t.now) texts) } by { Prim.hlevel props },
}
