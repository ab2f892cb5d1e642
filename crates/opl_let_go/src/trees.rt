//! Trees of models.
use crate::LetGo;
use opl_tree::{
    AddStep, AddTree, AndTree, BlockTree, BoundsTree, DeclTree, DimTree, DimsTree, EnumNamesTree,
    ExprTree, FieldTree, GroupStep, GroupTree, ImpTree, InitialTree, InstrTree, ItemTree,
    ItemsTree, KeyedTree, LastStep, ModelTree, MulStep, MulTree, NameTree, NegTree, OpenTree,
    OrTree, OrderTree, OrderedParamsTree, ParamsTree, PatternTree, PostTree, PrimTree,
    SearchBlockTree, SetTree, SignTree, StatementTree, StatementsTree, SubscriptsTree, SuffixTree,
    TypeTree, VariableTypeTree,
};

impl LetGo for AddStep {
    fn let_go(self) {
        drop(self);
    }
}

impl LetGo for AddTree {
    fn let_go(self) {
        drop(self);
    }
}

impl LetGo for AndTree {
    fn let_go(self) {
        drop(self);
    }
}

impl LetGo for BlockTree {
    fn let_go(self) {
        drop(self);
    }
}

impl LetGo for BoundsTree {
    fn let_go(self) {
        drop(self);
    }
}

impl LetGo for DeclTree {
    fn let_go(self) {
        drop(self);
    }
}

impl LetGo for DimTree {
    fn let_go(self) {
        drop(self);
    }
}

impl LetGo for DimsTree {
    fn let_go(self) {
        drop(self);
    }
}

impl LetGo for EnumNamesTree {
    fn let_go(self) {
        drop(self);
    }
}

impl LetGo for ExprTree {
    fn let_go(self) {
        drop(self);
    }
}

impl LetGo for FieldTree {
    fn let_go(self) {
        drop(self);
    }
}

impl LetGo for GroupStep {
    fn let_go(self) {
        drop(self);
    }
}

impl LetGo for GroupTree {
    fn let_go(self) {
        drop(self);
    }
}

impl LetGo for ImpTree {
    fn let_go(self) {
        drop(self);
    }
}

impl LetGo for InitialTree {
    fn let_go(self) {
        drop(self);
    }
}

impl LetGo for InstrTree {
    fn let_go(self) {
        drop(self);
    }
}

impl LetGo for ItemTree {
    fn let_go(self) {
        drop(self);
    }
}

impl LetGo for ItemsTree {
    fn let_go(self) {
        drop(self);
    }
}

impl LetGo for KeyedTree {
    fn let_go(self) {
        drop(self);
    }
}

impl LetGo for LastStep {
    fn let_go(self) {
        drop(self);
    }
}

impl LetGo for ModelTree {
    fn let_go(self) {
        drop(self);
    }
}

impl LetGo for MulStep {
    fn let_go(self) {
        drop(self);
    }
}

impl LetGo for MulTree {
    fn let_go(self) {
        drop(self);
    }
}

impl LetGo for NameTree {
    fn let_go(self) {
        drop(self);
    }
}

impl LetGo for NegTree {
    fn let_go(self) {
        drop(self);
    }
}

impl LetGo for OpenTree {
    fn let_go(self) {
        drop(self);
    }
}

impl LetGo for OrTree {
    fn let_go(self) {
        drop(self);
    }
}

impl LetGo for OrderTree {
    fn let_go(self) {
        drop(self);
    }
}

impl LetGo for OrderedParamsTree {
    fn let_go(self) {
        drop(self);
    }
}

impl LetGo for ParamsTree {
    fn let_go(self) {
        drop(self);
    }
}

impl LetGo for PatternTree {
    fn let_go(self) {
        drop(self);
    }
}

impl LetGo for PostTree {
    fn let_go(self) {
        drop(self);
    }
}

impl LetGo for PrimTree {
    fn let_go(self) {
        drop(self);
    }
}

impl LetGo for SearchBlockTree {
    fn let_go(self) {
        drop(self);
    }
}

impl LetGo for SetTree {
    fn let_go(self) {
        drop(self);
    }
}

impl LetGo for SignTree {
    fn let_go(self) {
        drop(self);
    }
}

impl LetGo for StatementTree {
    fn let_go(self) {
        drop(self);
    }
}

impl LetGo for StatementsTree {
    fn let_go(self) {
        drop(self);
    }
}

impl LetGo for SubscriptsTree {
    fn let_go(self) {
        drop(self);
    }
}

impl LetGo for SuffixTree {
    fn let_go(self) {
        drop(self);
    }
}

impl LetGo for TypeTree {
    fn let_go(self) {
        drop(self);
    }
}

impl LetGo for VariableTypeTree {
    fn let_go(self) {
        drop(self);
    }
}
