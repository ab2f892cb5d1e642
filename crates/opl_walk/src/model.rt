//! The walk over a whole model.
ghost use Rattle.std.specs.Prelude.{◌≡◌};
ghost use Rattle.opl_tree.specs.Marks.{marks_model};
ghost use Rattle.opl_walk.specs.Told.{Follows, told};

use crate::declaration::walk_decl;
use crate::instruction::walk_instr;
use crate::search::walk_search;
use crate::visitor::Visitor;
use opl_tree::ModelTree;

/// Tells a model.
#[tactic(auto, using(opl_tree::proofs::Marks::model_marks, crate::proofs::Telling::telling, crate::proofs::Telling::lists))]
pub(crate) fn walk_model<V: Visitor>(t: &ModelTree, visitor: &mut V)
    ensures { Follows V.is_whole visitor.old (told V.token V.opens 0 (marks_model t.now)) visitor.new }
{
    for decl in t.decls.as_slice() {
        walk_decl(0, decl, visitor);
    }
    walk_instr(0, &t.instr, visitor);
    if let Some(search) = &t.search {
        walk_search(0, search, visitor);
    }
}
