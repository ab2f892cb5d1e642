//! The positions of fields in their structs.
ghost use Rattle.std.specs.Prelude.{◌≡◌, map};
ghost use Rattle.std.specs.List.{slice_get};
ghost use Rattle.std.specs.Option.{option_copied};
ghost use Rattle.opl_fields.specs.Structs as spec;

use opl_tree::{DeclTree, FieldTree, StructTree};

/// The position of a name among those of the fields behind a struct's first.
fn position_behind(fields: &[FieldTree], name: &[u8]) -> Option<usize>
    ensures { result ≡ spec.position_from 1 name.now (map spec.field_name fields.now) }
{
    for (i, field) in fields.iter().enumerate() {
        if name == field.name.text.as_slice() {
            return Some(i + 1);
        }
    }
    None
}

/// The position of a name among those of a struct's fields.
fn position_in(t: &StructTree, name: &[u8]) -> Option<usize>
    ensures { result ≡ spec.position_from 0 name.now (spec.names_in t.now) }
{
    if name == t.first.name.text.as_slice() {
        return Some(0);
    }
    position_behind(t.rest.as_slice(), name)
}

/// The position of a name among those of the fields that a declaration has.
fn position_of(t: Option<&DeclTree>, name: &[u8]) -> Option<usize>
    ensures { result ≡ spec.position_from 0 name.now (spec.names_of (option_copied t.entry)) }
{
    match t {
        Some(DeclTree::Structure(t)) => position_in(t, name),
        Some(
            DeclTree::Data(_)
            | DeclTree::Range(_)
            | DeclTree::Enumeration(_)
            | DeclTree::Variable(_)
            | DeclTree::Activity(_)
            | DeclTree::Unary(_)
            | DeclTree::Discrete(_)
            | DeclTree::Schedule(_),
        )
        | None => None,
    }
}

/// The declaration with that number.
fn declaration(decls: &[DeclTree], number: u32) -> Option<&DeclTree>
    ensures { option_copied result ≡ slice_get decls.now number }
{
    decls.get(number as usize)
}

/// The position of a field in the struct that is declared with that number.
#[tactic(auto, unfolding(crate::specs::Structs::position, crate::specs::Structs::field_names))]
pub(crate) fn position(decls: &[DeclTree], number: u32, name: &[u8]) -> Option<usize>
    ensures { result ≡ spec.position decls.now number name.now }
{
    position_of(declaration(decls, number), name)
}
