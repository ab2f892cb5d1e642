//! The trees of data files.
ghost use Rattle.opl_files.specs.Reading.{DataParsed};
ghost use Rattle.opl_files.specs.Stage.{Each, Gives};

use crate::refusal::Fault;
use crate::scanning::Tokens;
use crate::stop::{Stop, refused};
use opl_data::{DataTree, parse_data};
use opl_list::Seq;
use opl_tree::SyntaxFault;
use std::alloc::Global;

/// The tree of the tokens of the data file with this number.
fn data_tree(alloc: Global, file: usize, tokens: &Tokens) -> Result<DataTree, Stop>
    ensures { Gives (DataParsed file tokens.now) result }
{
    match parse_data(alloc, tokens.list.as_slice(), tokens.end) {
        Ok(tree) => Ok(tree),
        Err(SyntaxFault::Syntax(at)) => Err(refused(Fault::Syntax, file, at)),
        Err(SyntaxFault::TooDeep(at)) => Err(refused(Fault::TooDeep, file, at)),
        Err(SyntaxFault::OutOfMemory) => Err(Stop::OutOfMemory),
    }
}

/// The tree of each data file.
pub fn data_trees(alloc: Global, texts: &[Tokens]) -> Result<Seq<DataTree>, Stop>
    ensures { Gives (Each DataParsed 1 texts.now) result }
{
    let mut found = Seq::new(alloc);
    for (x, tokens) in texts.iter().enumerate() {
        found.push(data_tree(alloc, x + 1, tokens)?)?;
    }
    Ok(found)
}
