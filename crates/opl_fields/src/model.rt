//! The fields that a whole model names.
ghost use Rattle.std.specs.Prelude.{◌≡◌, map, IfOk};
ghost use Rattle.opl_fields.specs.Fields as spec;
ghost use Rattle.opl_fields.specs.Trees as trees;
ghost use Rattle.opl_fields.specs.Walk as walk;
ghost use Rattle.opl_type_rules.specs.Types.{sort};

use crate::place::FieldPlace;
use crate::walk::Walk;
use opl_list::Seq;
use opl_model_types::{Ty, Typed};
use opl_tree::ModelTree;
use std::alloc::{AllocError, Global};

/// The number of the struct of which an expression of this type is a record.
#[tactic(auto, using(crate::proofs::Sorts::sorts))]
fn record_of(ty: &Ty) -> Option<u32>
    ensures { result ≡ spec.record_of (sort ty.now) }
{
    match ty {
        Ty::Record(number) => Some(*number),
        Ty::Int
        | Ty::Bool
        | Ty::Enum(_)
        | Ty::Row(_)
        | Ty::Set(_)
        | Ty::EmptySet
        | Ty::Array(..)
        | Ty::Act
        | Ty::Unary
        | Ty::Discrete
        | Ty::Index(_)
        | Ty::Structure
        | Ty::Any => None,
    }
}

/// The same of several types.
#[tactic(auto, using(crate::proofs::Lists::lists))]
fn records(alloc: Global, kinds: &[Ty]) -> Result<Seq<Option<u32>>, AllocError>
    ensures { IfOk result (λ found. found ≡ map spec.record_of (map sort kinds.now)) }
{
    let mut found = Seq::new(alloc);
    for ty in kinds {
        found.push(record_of(ty))?;
    }
    Ok(found)
}

/// The fields that a model names, where these are the structs of its expressions in preorder.
#[tactic(auto, unfolding(crate::specs::Trees::walk_model))]
fn walked(
    alloc: Global,
    model: &ModelTree,
    records: &[Option<u32>],
) -> Result<Seq<FieldPlace>, AllocError>
    ensures { IfOk result (λ found. found ≡ (trees.walk_model model.now (walk.before records.now)).found) }
{
    let decls = model.decls.as_slice();
    let mut walk = Walk::new(alloc, records);
    walk.decls(alloc, decls, decls)?;
    walk.instr(alloc, decls, &model.instr)?;
    walk.search(alloc, decls, &model.search)?;
    Ok(walk.into_found())
}

/// The positions of the fields that a typed model names, by the places of the fields' names, in the order of the text.
#[tactic(auto, unfolding(crate::specs::Fields::fields))]
pub fn fields(alloc: Global, typed: &Typed) -> Result<Seq<FieldPlace>, AllocError>
    ensures { IfOk result (λ found. found ≡ spec.fields typed.now.tree (map sort typed.now.kinds)) }
{
    let records = records(alloc, typed.kinds.as_slice())?;
    walked(alloc, &typed.tree, records.as_slice())
}
