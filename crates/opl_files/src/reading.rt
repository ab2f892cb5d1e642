//! Reading the files of a call: from their texts to their trees.
ghost use Rattle.std.specs.Prelude.{◌≡◌, ◌≤◌, All, length};
ghost use Rattle.opl_outside.specs.Files.{max_bytes};
ghost use Rattle.opl_files.specs.Reading.{Parsed, HasTypes, beside, front_of, tree_of, Understood, Read};
ghost use Rattle.opl_files.specs.Stage.{Gives};

use crate::data_files::data_trees;
use crate::front::Front;
use crate::refusal::Fault;
use crate::scanning::{Tokens, tokens_of, tokens_of_data};
use crate::stop::{Stop, refused};
use opl_data::DataTree;
use opl_let_go::LetGo;
use opl_list::Seq;
use opl_parse::parse_model;
use opl_tree::{ModelTree, SyntaxFault};
use opl_types::{TypeFault, Typed, check};
use std::alloc::Global;

/// The tree of the model's tokens.
fn tree(alloc: Global, tokens: &Tokens) -> Result<ModelTree, Stop>
    ensures { Gives (Parsed tokens.now) result }
{
    match parse_model(alloc, tokens.list.as_slice(), tokens.end) {
        Ok(tree) => Ok(tree),
        Err(SyntaxFault::Syntax(at)) => Err(refused(Fault::Syntax, 0, at)),
        Err(SyntaxFault::TooDeep(at)) => Err(refused(Fault::TooDeep, 0, at)),
        Err(SyntaxFault::OutOfMemory) => Err(Stop::OutOfMemory),
    }
}

/// The tree with the types of its expressions.
fn typed(alloc: Global, tree: ModelTree) -> Result<Typed, Stop>
    ensures { Gives (HasTypes tree) (tree_of result) }
{
    match check(alloc, tree) {
        Ok(typed) => Ok(typed),
        Err(TypeFault::Unknown(at)) => Err(refused(Fault::Unknown, 0, at)),
        Err(TypeFault::Duplicate(at)) => Err(refused(Fault::Duplicate, 0, at)),
        Err(TypeFault::NotData(at)) => Err(refused(Fault::NotData, 0, at)),
        Err(TypeFault::Mismatch(at)) => Err(refused(Fault::Mismatch, 0, at)),
        Err(TypeFault::OutOfMemory) => Err(Stop::OutOfMemory),
    }
}

/// The trees of all files, where the model has types.
fn front(files: Seq<DataTree>, typed: Result<Typed, Stop>) -> Result<Front, Stop>
    ensures { front_of result ≡ beside files (tree_of typed) }
{
    match typed {
        Ok(typed) => Ok(Front { typed, files }),
        Err(stop) => Err(stop),
    }
}

/// The trees of the tokens of the model's file and of the data files.
fn understand(alloc: Global, tokens: &Tokens, others: &[Tokens]) -> Result<Front, Stop>
    ensures { Gives (Understood tokens.now others.now) (front_of result) }
{
    let tree = tree(alloc, tokens)?;
    match data_trees(alloc, others) {
        Ok(files) => front(files, typed(alloc, tree)),
        Err(stop) => {
            tree.let_go();
            Err(stop)
        }
    }
}

/// The trees of the bytes of the model's file and of the data files.
pub fn read(alloc: Global, bytes: &[u8], others: &[Seq<u8>]) -> Result<Front, Stop>
    requires short { length bytes.now ≤ max_bytes }
    requires all_short { All (λ bytes. length bytes ≤ max_bytes) others.now }
    ensures { Gives (Read bytes.now others.now) (front_of result) }
{
    let tokens = tokens_of(alloc, 0, bytes)?;
    let others_tokens = tokens_of_data(alloc, others)?;
    understand(alloc, &tokens, others_tokens.as_slice())
}
