//! How trees are spelt.
ghost use Rattle.std.specs.Prelude.{◌≡◌, [], true, IfOk};
ghost use Rattle.opl_data.specs.Marks as files;
ghost use Rattle.opl_tree.specs.Spelling.{spelling};
ghost use Rattle.opl_walk.specs.Told.{Follows};
ghost use Rattle.opl_walk.specs.Visitors.{added, has_all, written};

use crate::data::walk_data;
use crate::model::walk_model;
use crate::visitor::Visitor;
use opl_data::DataTree;
use opl_list::Seq;
use opl_token::{Kind, Sign};
use opl_tree::{Keyword, ModelTree};
use std::alloc::{AllocError, Global};

/// Writes down the tokens that it is told.
#[derive(Drop)]
struct Spelling {
    alloc: Global,
    kinds: Seq<Kind>,
    lacks_memory: bool,
}

impl Spelling {
    /// Writes a token down.
    fn write(&mut self, kind: Kind)
        ensures { Follows has_all self.old (added kind) self.new }
    {
        if self.kinds.push(kind).is_err() {
            self.lacks_memory = true;
        }
    }
}

impl Visitor for Spelling {
    ghost is_whole = { has_all };

    ghost token = { written };

    ghost opens = { λ k spelling. spelling };

    fn word(&mut self, word: Keyword) {
        self.name(word.text());
    }

    fn sign(&mut self, sign: Sign) {
        self.write(Kind::Sign(sign));
    }

    fn name(&mut self, text: &[u8]) {
        match Seq::from_slice(self.alloc, text) {
            Ok(word) => self.write(Kind::Word(word)),
            Err(AllocError) => self.lacks_memory = true,
        }
    }

    fn field(&mut self, text: &[u8]) {
        self.name(text);
    }

    fn number(&mut self, number: i128) {
        self.write(Kind::Number(number));
    }

    fn opens(&mut self, _level: u32) {}
}

/// The tokens of a model's tree.
#[tactic(auto, using(crate::proofs::Visitors::visitors))]
pub fn spell_model(alloc: Global, t: &ModelTree) -> Result<Seq<Kind>, AllocError>
    ensures { IfOk result (λ kinds. kinds ≡ spelling t.now) }
{
    let mut spelling = nothing_yet(alloc);
    walk_model(t, &mut spelling);
    all_kinds(spelling)
}

/// The tokens of a data file's tree.
#[tactic(auto, using(crate::proofs::Visitors::visitors))]
pub fn spell_data(alloc: Global, t: &DataTree) -> Result<Seq<Kind>, AllocError>
    ensures { IfOk result (λ kinds. kinds ≡ files.spelling t.now) }
{
    let mut spelling = nothing_yet(alloc);
    walk_data(t, &mut spelling);
    all_kinds(spelling)
}

/// No token so far.
fn nothing_yet(alloc: Global) -> Spelling
    ensures { result.kinds ≡ [] }
{
    Spelling {
        alloc,
        kinds: Seq::new(alloc),
        lacks_memory: false,
    }
}

/// The tokens that were written down, if there was memory for all of them.
fn all_kinds(spelling: Spelling) -> Result<Seq<Kind>, AllocError>
    ensures { IfOk result (λ kinds. (has_all spelling ≡ true) × (kinds ≡ spelling.kinds)) }
{
    if spelling.lacks_memory {
        return Err(AllocError);
    }
    Ok(spelling.kinds)
}
