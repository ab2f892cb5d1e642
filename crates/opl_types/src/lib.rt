//! The types of a model's expressions, or the first fault of a model whose expressions do not fit together.
#![tactic(auto)]

ghost use Rattle.std.specs.Prelude.{◌≡◌, IfOk, map};
ghost use Rattle.opl_model_types.specs.Models as spec;
ghost use Rattle.opl_type_rules.specs.Types.{sort};
ghost use Rattle.opl_type_rules.specs.Values.{Gives};

use opl_list::Seq;
pub use opl_model_types::{Ty, TypeFault, Typed, laws};
use opl_tree::ModelTree;
use std::alloc::Global;

/// The types of a model's expressions in preorder.
fn kinds(alloc: Global, model: &ModelTree) -> Result<Seq<Ty>, TypeFault>
    ensures { Gives (map sort) (spec.model model.now) result }
{
    opl_model_types::kinds_of(alloc, model)
}

/// The model with the types of its expressions.
pub fn check(alloc: Global, model: ModelTree) -> Result<Typed, TypeFault>
    ensures gives { Gives (λ t. map sort t.kinds) (spec.model model) result }
    ensures tree { IfOk result (λ t. t.tree ≡ model) }
{
    let found = kinds(alloc, &model);
    opl_model_types::with_kinds(model, found)
}
