//! How deep trees nest.
ghost use Rattle.std.specs.Prelude.{◌≡◌, ◌<◌, ◌^◌, true};
ghost use Rattle.opl_data.specs.Marks.{marks_file};
ghost use Rattle.opl_tree.specs.Depth.{depth_of};
ghost use Rattle.opl_tree.specs.Marks.{marks_model};
ghost use Rattle.opl_walk.specs.Visitors.{deepened};

use crate::data::walk_data;
use crate::model::walk_model;
use crate::visitor::Visitor;
use opl_data::DataTree;
use opl_token::Sign;
use opl_tree::{Keyword, ModelTree};

/// Remembers the greatest level that it is told.
#[derive(Drop)]
struct Depth {
    greatest: u32,
}

impl Visitor for Depth {
    ghost is_whole = { λ depth. true };

    ghost token = { λ p depth. depth };

    ghost opens = { deepened };

    fn word(&mut self, _word: Keyword) {}

    fn sign(&mut self, _sign: Sign) {}

    fn name(&mut self, _text: &[u8]) {}

    fn field(&mut self, _text: &[u8]) {}

    fn number(&mut self, _number: i128) {}

    fn opens(&mut self, level: u32) {
        if self.greatest < level {
            self.greatest = level;
        }
    }
}

/// How many levels a model nests.
#[tactic(auto, using(crate::proofs::Visitors::visitors))]
pub fn depth_model(t: &ModelTree) -> u32
    requires { depth_of (marks_model t.now) < 2 ^ 32 }
    ensures { result ≡ depth_of (marks_model t.now) }
{
    let mut depth = Depth { greatest: 0 };
    walk_model(t, &mut depth);
    depth.greatest
}

/// How many levels a data file nests.
#[tactic(auto, using(crate::proofs::Visitors::visitors))]
pub fn depth_data(t: &DataTree) -> u32
    requires { depth_of (marks_file t.now) < 2 ^ 32 }
    ensures { result ≡ depth_of (marks_file t.now) }
{
    let mut depth = Depth { greatest: 0 };
    walk_data(t, &mut depth);
    depth.greatest
}
