//! Parts of expressions that are read before it is known which node they are of.
use opl_let_go::LetGo;
use opl_tree::{AddTree, Boxed, OpenTree, ParamsTree, Seq, SignTree};

/// What may stand behind a sign, and what a product begins with.
pub enum Operand {
    Open(Boxed<OpenTree>),
    Sign(Boxed<SignTree>),
}

/// What stands in the braces of a set: its elements, or one element for each choice of the parameters.
pub enum Braced {
    Listed(Seq<AddTree>),
    Described(Boxed<AddTree>, Boxed<ParamsTree>),
}

impl LetGo for Operand {
    fn let_go(self) {
        match self {
            Operand::Open(inner) => inner.let_go(),
            Operand::Sign(inner) => inner.let_go(),
        }
    }
}

impl LetGo for Braced {
    fn let_go(self) {
        match self {
            Braced::Listed(parts) => parts.let_go(),
            Braced::Described(part, params) => {
                part.let_go();
                params.let_go();
            }
        }
    }
}
