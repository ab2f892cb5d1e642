//! The names inside expressions: parameters, and the names of dimensions.
ghost use Rattle.std.specs.Prelude.{◌≡◌, ◌++◌, ◌∷◌, ◌↔◌, [], IsTrue, None};
ghost use Rattle.std.specs.Option.{option_copied};
ghost use Rattle.opl_type_rules.specs.Values as spec;
ghost use Rattle.opl_type_rules.specs.Values.{Does};

use crate::fault::TypeFault;
use crate::index::Index;
use crate::kind::Ty;
use crate::names::Local;
use opl_list::{Boxed, Seq};
use std::alloc::Global;
use std::marker::Model;
use std::mem;

/// Parameters and names of dimensions, the earliest first.
#[derive(Drop)]
pub struct Locals {
    items: Seq<Local>,
    index: Index,
}

impl Model for Locals {
    ghost use Rattle.std.specs.Prelude.{◌≡◌, List, map};
    ghost use Rattle.std.specs.Coded.{codes};
    ghost use Rattle.opl_type_rules.specs.contracts.kind.Ty as types;
    ghost use Rattle.opl_type_rules.specs.declared.names.Local as locals;

    ghost Value = { List locals.Local };

    ghost coded = { Prim.hlevel (codes, types.the_row.coded) };

    ghost view = { λ l. l.items };

    ghost invariant = { λ l. l.index ≡ map (λ x. x.name) l.items };
}

impl Locals {
    /// No names.
    pub fn new(alloc: Global) -> Locals
        ensures { result ≡ [] }
    {
        Locals {
            items: Seq::new(alloc),
            index: Index::new(alloc),
        }
    }

    /// Whether there are no names.
    pub fn is_empty(&self) -> bool
        ensures { IsTrue result ↔ (self.now ≡ []) }
    {
        self.items.is_empty()
    }
}

/// The type of what stands at that place.
fn type_at(items: &[Local], place: Option<usize>) -> Option<&Ty>
    ensures { option_copied result ≡ spec.local_at place items.now }
{
    match place {
        Some(at) => match items.get(at) {
            Some(local) => Some(local.ty.get()),
            None => None,
        },
        None => None,
    }
}

/// The type of the latest parameter of that name.
#[tactic(auto, using(crate::proofs::NamePlaces::locals_placed))]
pub fn local_type<'a>(locals: &'a Locals, name: &[u8]) -> Option<&'a Ty>
    ensures { option_copied result ≡ spec.local_or None name.now locals.now }
{
    type_at(locals.items.as_slice(), locals.index.find(name))
}

/// One more parameter. Where memory is wanting none is left.
pub fn add_local(
    alloc: Global,
    locals: &mut Locals,
    name: &[u8],
    ty: Boxed<Ty>,
) -> Result<(), TypeFault>
    ensures { Does (λ u. locals.new ≡ locals.old ++ record { name = name.now; ty = ty } ∷ []) result }
{
    let before = mem::replace(locals, Locals::new(alloc));
    *locals = with_local(alloc, before, name, ty)?;
    Ok(())
}

/// The same parameters, and one more.
fn with_local(
    alloc: Global,
    before: Locals,
    name: &[u8],
    ty: Boxed<Ty>,
) -> Result<Locals, TypeFault>
    ensures { Does (λ r. r ≡ before ++ record { name = name.now; ty = ty } ∷ []) result }
{
    let Locals {
        mut items,
        mut index,
    } = before;
    index.add(alloc, name)?;
    let name = Seq::from_slice(alloc, name)?;
    items.push(Local { name, ty })?;
    Ok(Locals { items, index })
}

/// The same parameters, to which others may be added.
pub fn copied(alloc: Global, locals: &Locals) -> Result<Locals, TypeFault>
    ensures { Does (λ r. r ≡ locals.now) result }
{
    let mut found = Locals::new(alloc);
    for local in locals.items.as_slice() {
        add_local(
            alloc,
            &mut found,
            local.name.as_slice(),
            local.ty.get().copy(alloc)?,
        )?;
    }
    Ok(found)
}
