//! The fields of a struct.
ghost use Rattle.std.specs.Prelude.{◌≡◌, ◌++◌, ◌∷◌, [], None, cond, is_some, map, not};
ghost use Rattle.std.specs.Option.{option_copied, option_map};
ghost use Rattle.opl_type_rules.specs.Scope as scope;
ghost use Rattle.opl_type_rules.specs.Types.{sort};
ghost use Rattle.opl_type_rules.specs.Values as spec;
ghost use Rattle.opl_type_rules.specs.Values.{Does};

use crate::fault::TypeFault;
use crate::index::Index;
use crate::kind::Ty;
use crate::names::Field;
use opl_list::{Boxed, Seq};
use std::alloc::Global;
use std::marker::Model;
use std::mem;

/// The fields of a struct in their order.
#[derive(Drop)]
pub struct Fields {
    items: Seq<Field>,
    index: Index,
}

impl Model for Fields {
    ghost use Rattle.std.specs.Prelude.{List};
    ghost use Rattle.std.specs.Coded.{codes};
    ghost use Rattle.opl_type_rules.specs.contracts.kind.Ty as types;
    ghost use Rattle.opl_type_rules.specs.declared.names.Field as fields;

    ghost Value = { List fields.Field };

    ghost coded = { Prim.hlevel (codes, types.the_row.coded) };

    ghost use Rattle.opl_type_rules.specs.Fields.{Apart};

    ghost view = { λ f. f.items };

    ghost invariant = { λ f. Apart f.items f.index };
}

/// The type of the field at that place.
fn type_at(items: &[Field], place: Option<usize>) -> Option<&Ty>
    ensures { option_copied result ≡ spec.field_at place items.now }
{
    match place {
        Some(at) => match items.get(at) {
            Some(field) => Some(field.ty.get()),
            None => None,
        },
        None => None,
    }
}

impl Fields {
    /// No fields.
    pub fn new(alloc: Global) -> Fields
        ensures { result ≡ [] }
    {
        Fields {
            items: Seq::new(alloc),
            index: Index::new(alloc),
        }
    }

    /// The fields as a slice.
    pub fn as_slice(&self) -> &[Field]
        ensures { result.now ≡ self.now }
    {
        self.items.as_slice()
    }

    /// The type of the field of that name.
    #[tactic(auto, using(crate::proofs::FieldPlaces::fields_placed))]
    pub fn get(&self, name: &[u8]) -> Option<&Ty>
        ensures { option_map sort (option_copied result) ≡ scope.field_sort name.now (map spec.field_of self.now) }
    {
        type_at(self.items.as_slice(), self.index.find(name))
    }

    /// One more field, unless there is one of that name; whether there was none. Where memory is wanting no field is left.
    pub fn insert(&mut self, alloc: Global, name: &[u8], ty: Boxed<Ty>) -> Result<bool, TypeFault>
        ensures { Does (λ added. (added ≡ not (is_some (scope.field_sort name.now (map spec.field_of self.old)))) × (self.new ≡ cond added (self.old ++ record { name = name.now; ty = ty } ∷ []) self.old)) result }
    {
        if self.get(name).is_some() {
            return Ok(false);
        }
        let before = mem::replace(self, Fields::new(alloc));
        *self = with_field(alloc, before, name, ty)?;
        Ok(true)
    }
}

/// The same fields, and one more, whose name none of them has.
fn with_field(
    alloc: Global,
    before: Fields,
    name: &[u8],
    ty: Boxed<Ty>,
) -> Result<Fields, TypeFault>
    requires { scope.field_sort name.now (map spec.field_of before) ≡ None }
    ensures { Does (λ r. r ≡ before ++ record { name = name.now; ty = ty } ∷ []) result }
{
    let Fields {
        mut items,
        mut index,
    } = before;
    index.add(alloc, name)?;
    let name = Seq::from_slice(alloc, name)?;
    items.push(Field { name, ty })?;
    Ok(Fields { items, index })
}
