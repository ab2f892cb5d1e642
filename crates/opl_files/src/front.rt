//! The trees of the files of a call.
use opl_data::DataTree;
use opl_list::Seq;
use opl_types::Typed;

/// The model's tree with the types of its expressions, and the trees of the data files in their order.
#[derive(Drop)]
pub struct Front {
    pub typed: Typed,
    pub files: Seq<DataTree>,
}

impl Front {
    /// Lets go of the trees.
    pub fn let_go(self) {
        self.typed.let_go();
    }
}
