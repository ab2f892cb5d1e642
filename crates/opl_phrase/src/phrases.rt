//! Phrases on every level, closed.
ghost use Rattle.opl_grammar.specs.Rules as rules;
ghost use Rattle.std.specs.Prelude.{⊤};

use crate::next::{Next, read};
use opl_grammar::{Braced, Cursor, Operand};
use opl_level::Below;
use opl_list::{Boxed, Seq};
use opl_tree::{
    AddTree, DimTree, ExprTree, FieldTree, ImpTree, KeyedTree, MulTree, NameTree, NegTree,
    OrderedParamsTree, ParamsTree, PostTree, SyntaxFault, TypeTree,
};
use std::alloc::Global;

/// The phrases that stand behind a token that opens a level, where so many levels may be opened.
#[derive(Drop)]
pub struct Phrases {
    pub alloc: Global,
    pub levels: u32,
}

impl Below for Phrases {
    ghost rules = { λ p. rules.rules p.levels };

    ghost is_ready = { λ _. ⊤ };

    fn expr(&self, cursor: &mut Cursor<'_>, at: u32) -> Result<Boxed<ExprTree>, SyntaxFault> {
        Next {
            alloc: self.alloc,
            levels: self.levels,
            read,
        }
        .expr(cursor, at)
    }

    fn add(&self, cursor: &mut Cursor<'_>, at: u32) -> Result<Boxed<AddTree>, SyntaxFault> {
        Next {
            alloc: self.alloc,
            levels: self.levels,
            read,
        }
        .add(cursor, at)
    }

    fn post(&self, cursor: &mut Cursor<'_>, at: u32) -> Result<Boxed<PostTree>, SyntaxFault> {
        Next {
            alloc: self.alloc,
            levels: self.levels,
            read,
        }
        .post(cursor, at)
    }

    fn params(&self, cursor: &mut Cursor<'_>, at: u32) -> Result<Boxed<ParamsTree>, SyntaxFault> {
        Next {
            alloc: self.alloc,
            levels: self.levels,
            read,
        }
        .params(cursor, at)
    }

    fn ordered(
        &self,
        cursor: &mut Cursor<'_>,
        at: u32,
    ) -> Result<Boxed<OrderedParamsTree>, SyntaxFault> {
        Next {
            alloc: self.alloc,
            levels: self.levels,
            read,
        }
        .ordered(cursor, at)
    }

    fn ends(
        &self,
        cursor: &mut Cursor<'_>,
        at: u32,
    ) -> Result<(Boxed<AddTree>, Option<Boxed<AddTree>>), SyntaxFault> {
        Next {
            alloc: self.alloc,
            levels: self.levels,
            read,
        }
        .ends(cursor, at)
    }

    fn imp(&self, cursor: &mut Cursor<'_>, at: u32) -> Result<Boxed<ImpTree>, SyntaxFault> {
        Next {
            alloc: self.alloc,
            levels: self.levels,
            read,
        }
        .imp(cursor, at)
    }

    fn neg(&self, cursor: &mut Cursor<'_>, at: u32) -> Result<NegTree, SyntaxFault> {
        Next {
            alloc: self.alloc,
            levels: self.levels,
            read,
        }
        .neg(cursor, at)
    }

    fn operand(&self, cursor: &mut Cursor<'_>, at: u32) -> Result<Operand, SyntaxFault> {
        Next {
            alloc: self.alloc,
            levels: self.levels,
            read,
        }
        .operand(cursor, at)
    }

    fn aggregate(
        &self,
        cursor: &mut Cursor<'_>,
        at: u32,
    ) -> Result<(Boxed<ParamsTree>, Boxed<MulTree>), SyntaxFault> {
        Next {
            alloc: self.alloc,
            levels: self.levels,
            read,
        }
        .aggregate(cursor, at)
    }

    fn adds(
        &self,
        cursor: &mut Cursor<'_>,
        at: u32,
    ) -> Result<(Boxed<AddTree>, Seq<AddTree>), SyntaxFault> {
        Next {
            alloc: self.alloc,
            levels: self.levels,
            read,
        }
        .adds(cursor, at)
    }

    fn listed(&self, cursor: &mut Cursor<'_>, at: u32) -> Result<Seq<AddTree>, SyntaxFault> {
        Next {
            alloc: self.alloc,
            levels: self.levels,
            read,
        }
        .listed(cursor, at)
    }

    fn keyed(&self, cursor: &mut Cursor<'_>, at: u32) -> Result<Seq<KeyedTree>, SyntaxFault> {
        Next {
            alloc: self.alloc,
            levels: self.levels,
            read,
        }
        .keyed(cursor, at)
    }

    fn braced(&self, cursor: &mut Cursor<'_>, at: u32) -> Result<Braced, SyntaxFault> {
        Next {
            alloc: self.alloc,
            levels: self.levels,
            read,
        }
        .braced(cursor, at)
    }

    fn names(
        &self,
        cursor: &mut Cursor<'_>,
        at: u32,
    ) -> Result<(NameTree, Seq<NameTree>), SyntaxFault> {
        Next {
            alloc: self.alloc,
            levels: self.levels,
            read,
        }
        .names(cursor, at)
    }

    fn type_tree(&self, cursor: &mut Cursor<'_>, at: u32) -> Result<TypeTree, SyntaxFault> {
        Next {
            alloc: self.alloc,
            levels: self.levels,
            read,
        }
        .type_tree(cursor, at)
    }

    fn fields(
        &self,
        cursor: &mut Cursor<'_>,
        at: u32,
    ) -> Result<(FieldTree, Seq<FieldTree>), SyntaxFault> {
        Next {
            alloc: self.alloc,
            levels: self.levels,
            read,
        }
        .fields(cursor, at)
    }

    fn dims(
        &self,
        cursor: &mut Cursor<'_>,
        at: u32,
    ) -> Result<(DimTree, Seq<DimTree>), SyntaxFault> {
        Next {
            alloc: self.alloc,
            levels: self.levels,
            read,
        }
        .dims(cursor, at)
    }
}
