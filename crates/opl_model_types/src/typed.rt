//! Models with the types of their expressions.
ghost use Rattle.std.specs.Prelude.{◌≡◌, Ok, IfOk, map, true};
ghost use Rattle.opl_type_rules.specs.Apart.{Checked-set};
ghost use Rattle.opl_model_types.specs.Models as spec;
ghost use Rattle.opl_type_rules.specs.Steps.{front};
ghost use Rattle.opl_type_rules.specs.Types.{sort};
ghost use Rattle.opl_type_rules.specs.Values.{Gives, scope_of};

use opl_declaration_types::all_decls;
use opl_item_types::{instr, search_block};
use opl_let_go::LetGo;
use opl_list::Seq;
use opl_tree::{ModelTree, SearchTree};
use opl_type_rules::fault::TypeFault;
use opl_type_rules::kind::Ty;
use opl_type_rules::names::{Locals, Names};
use std::alloc::Global;

/// A model whose expressions fit together, with their types.
#[derive(Drop)]
pub struct Typed {
    pub tree: ModelTree,
    /// The types of the expressions in preorder.
    pub kinds: Seq<Ty>,
    pub ghost is_typed: { spec.model tree ≡ Ok (map sort kinds) } by { Checked-set (spec.model tree) (Ok (map sort kinds)) },
}

impl Typed {
    /// Lets go of the model.
    pub fn let_go(self) {
        self.tree.let_go();
    }
}

/// The names as the search section sees them.
fn enter_search(names: &mut Names<'_>)
    ensures { scope_of names.new ≡ record (scope_of names.old) { is_search = true } }
{
    names.is_search = true;
}

/// The types of the expressions of a search section, if there is one.
#[tactic(auto, using(opl_item_types::proofs::Items::outside))]
fn searched(
    alloc: Global,
    names: &mut Names<'_>,
    search: &Option<SearchTree>,
    kinds: &mut Seq<Ty>,
) -> Result<(), TypeFault>
    ensures { Gives (λ u. map sort kinds.new) (front (map sort kinds.old) (spec.search search.now (scope_of names.old))) result }
{
    match search {
        None => Ok(()),
        Some(search) => {
            enter_search(names);
            let outside = Locals::new(alloc);
            search_block(alloc, names, &outside, &search.block, kinds)
        }
    }
}

/// The types of a model's expressions in preorder, or its first fault.
#[tactic(auto, using(crate::proofs::Models::models))]
pub fn kinds_of(alloc: Global, model: &ModelTree) -> Result<Seq<Ty>, TypeFault>
    ensures { Gives (map sort) (spec.model model.now) result }
{
    let mut names = Names::new(alloc);
    let mut kinds = Seq::new(alloc);
    all_decls(alloc, &mut names, model.decls.as_slice(), &mut kinds)?;
    instr(alloc, &names, &model.instr, &mut kinds)?;
    searched(alloc, &mut names, &model.search, &mut kinds)?;
    Ok(kinds)
}

/// The model with these types of its expressions, or with its fault.
pub fn with_kinds(model: ModelTree, found: Result<Seq<Ty>, TypeFault>) -> Result<Typed, TypeFault>
    requires { Gives (map sort) (spec.model model) found }
    ensures gives { Gives (λ t. map sort t.kinds) (spec.model model) result }
    ensures tree { IfOk result (λ t. t.tree ≡ model) }
{
    match found {
        Ok(kinds) => Ok(Typed { tree: model, kinds }),
        Err(fault) => {
            model.let_go();
            Err(fault)
        }
    }
}
