//! What turns chose.
ghost use Rattle.std.specs.Prelude.{◌≡◌, ℕ, List, bytes_eq, drop, false};
ghost use Rattle.std.specs.HashMap.{get_by};
ghost use Rattle.std.specs.List.{list_any};
ghost use Rattle.std.proofs.Props.{props};
ghost use Rattle.opl_eval.specs.TurnNames.{calls, or_first};

use crate::turns::Turn;
use std::collections::HashMap;

/// What turns chose, the latest last.
#[derive(Drop)]
pub struct Turns<'t> {
    pub chosen: Vec<Turn<'t>>,
    /// For each name a place from which on no turn has it.
    pub(crate) ends: HashMap<&'t [u8], usize>,
    pub(crate) ghost are_behind: { (name : List ℕ) → list_any (calls name) (drop (or_first (get_by (λ k. bytes_eq name k.now) ends)) chosen.items) ≡ false } by { Prim.hlevel props },
}
