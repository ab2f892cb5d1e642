//! What the values of a type are made of.
ghost use Rattle.std.specs.Prelude.{◌≡◌, IfOk};

use opl_list::{Boxed, Seq};
use std::alloc::{AllocError, Global};

/// What the values of a type are made of. Enumerations and structs are told by the numbers of their declarations, from 0.
#[derive(Drop)]
#[cycle(forms)]
pub enum Form {
    /// No value is known.
    Nothing,
    /// Whole numbers.
    Int,
    /// Whole numbers from the first to the second.
    Range(i128, i128),
    /// Names of the enumeration.
    Enumeration(u32),
    /// Records with the fields of the struct.
    Struct(u32),
    /// Records with parts of these forms.
    Record(Seq<Form>),
    /// Sets of elements of this form.
    Set(Boxed<Form>),
}

impl Form {
    /// An equal form.
    #[cycle(copies)]
    pub(crate) fn copy(&self, alloc: Global) -> Result<Form, AllocError>
        ensures { IfOk result (λ form. form ≡ self.now) }
    {
        match self {
            Form::Nothing => Ok(Form::Nothing),
            Form::Int => Ok(Form::Int),
            Form::Range(low, high) => Ok(Form::Range(*low, *high)),
            Form::Enumeration(declaration) => Ok(Form::Enumeration(*declaration)),
            Form::Struct(declaration) => Ok(Form::Struct(*declaration)),
            Form::Record(parts) => Ok(Form::Record(copy_forms(alloc, parts.as_slice())?)),
            Form::Set(element) => {
                let element = element.get().copy(alloc)?;
                Ok(Form::Set(Boxed::new(alloc, element)?))
            }
        }
    }
}

/// Copies of forms, in their order.
#[cycle(copies)]
fn copy_forms(alloc: Global, forms: &[Form]) -> Result<Seq<Form>, AllocError>
    ensures { IfOk result (λ copies. copies ≡ forms.now) }
{
    let mut copies = Seq::new(alloc);
    for form in forms {
        copies.push(form.copy(alloc)?)?;
    }
    Ok(copies)
}
