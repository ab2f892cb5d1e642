//! What declarations add to what is known of types.
ghost use Rattle.std.specs.Prelude.{◌≡◌, ◌∷◌, [], IfOk};
ghost use Rattle.opl_given.specs.Faults.{Does};
ghost use Rattle.opl_given.specs.Forms as spec;
ghost use Rattle.opl_given.specs.Readings.{known_of, texts_of};

use crate::fault::BindFault;
use crate::form::Form;
use crate::names::Names;
use crate::types::Types;
use opl_list::{Boxed, Seq};
use opl_token::Name;
use opl_tree::{FieldTree, NameTree, StructTree, TypeTree};
use std::alloc::{AllocError, Global};

/// The form of the type with this name.
#[tactic(auto, using(crate::proofs::Kept::types))]
fn form_named(alloc: Global, types: &Types<'_>, name: &[u8]) -> Result<Form, AllocError>
    ensures { IfOk result (λ form. form ≡ spec.form_named (known_of types.now) name.now) }
{
    match types.names.place(name) {
        Some(place) => match types.forms.get(place as usize) {
            Some(form) => form.copy(alloc),
            None => Ok(Form::Nothing),
        },
        None => Ok(Form::Nothing),
    }
}

/// The form of a type that is written.
#[tactic(auto, using(crate::proofs::Kept::written))]
pub fn form_of(alloc: Global, types: &Types<'_>, t: &TypeTree) -> Result<Form, AllocError>
    ensures { IfOk result (λ form. form ≡ spec.form_of t.now (known_of types.now)) }
{
    match t {
        TypeTree::Int(_) => Ok(Form::Int),
        TypeTree::Named(name) => form_named(alloc, types, name.text.as_slice()),
        TypeTree::Set(_, element) => {
            let element = form_of(alloc, types, element.get())?;
            Ok(Form::Set(Boxed::new(alloc, element)?))
        }
    }
}

/// The forms of the fields of a struct.
fn field_forms(
    alloc: Global,
    types: &Types<'_>,
    first: &FieldTree,
    rest: &[FieldTree],
) -> Result<Seq<Form>, AllocError>
    ensures { IfOk result (λ forms. forms ≡ spec.field_forms [] (first.now ∷ rest.now) (known_of types.now)) }
{
    let mut forms = Seq::new(alloc);
    forms.push(form_of(alloc, types, &first.kind)?)?;
    for t in rest {
        forms.push(form_of(alloc, types, &t.kind)?)?;
    }
    Ok(forms)
}

/// The names that an enumeration lists.
pub fn listed_names<'a>(
    alloc: Global,
    first: &'a NameTree,
    rest: &'a [NameTree],
) -> Result<Names<'a>, BindFault>
    ensures { Does (λ names. texts_of names ≡ spec.listed_names [] (first.now ∷ rest.now)) result }
{
    let mut names = Names::new(alloc).with(first.text.as_slice())?;
    for t in rest {
        names = names.with(t.text.as_slice())?;
    }
    Ok(names)
}

/// Copies of the names, in their order.
pub fn copied_names(alloc: Global, names: &Names<'_>) -> Result<Seq<Name>, AllocError>
    ensures { IfOk result (λ copies. copies ≡ texts_of names.now) }
{
    let mut copies = Seq::new(alloc);
    for text in names.texts.as_slice() {
        copies.push(Name::from_slice(alloc, text)?)?;
    }
    Ok(copies)
}

impl<'a> Types<'a> {
    /// Nothing is known before any declaration. It takes no memory.
    #[tactic(auto, using(crate::proofs::Kept::types))]
    pub fn new(alloc: Global) -> Types<'a>
        ensures { known_of result ≡ spec.nothing_known }
    {
        Types {
            names: Names::new(alloc),
            forms: Seq::new(alloc),
            enumerations: Seq::new(alloc),
            fields: Seq::new(alloc),
        }
    }

    /// The number of the next declaration; it stands still at the greatest number of 32 bits.
    #[tactic(auto, using(crate::proofs::Kept::types))]
    pub fn number(&self) -> u32
        ensures { result ≡ spec.number_of (known_of self.now) }
    {
        match u32::try_from(self.fields.len()) {
            Ok(number) => number,
            Err(_) => u32::MAX,
        }
    }

    /// The same, with one more declaration.
    #[tactic(auto, using(crate::proofs::Kept::types))]
    pub fn with_declaration(
        self,
        names: Names<'a>,
        fields: Seq<Form>,
    ) -> Result<Types<'a>, BindFault>
        ensures { Does (λ types. known_of types ≡ spec.with_declaration (texts_of names.entry) fields (known_of self.entry)) result }
    {
        let mut types = self;
        types.enumerations.push(names)?;
        types.fields.push(fields)?;
        Ok(types)
    }

    /// The same, with one more named type.
    #[tactic(auto, using(crate::proofs::Kept::types))]
    fn with_type(self, name: &'a [u8], form: Form) -> Result<Types<'a>, BindFault>
        ensures { Does (λ types. known_of types ≡ spec.with_type name.now form (known_of self.entry)) result }
    {
        let Types {
            names,
            mut forms,
            enumerations,
            fields,
        } = self;
        forms.push(form)?;
        let names = names.with(name)?;
        Ok(Types {
            names,
            forms,
            enumerations,
            fields,
        })
    }

    /// The same, with a declaration that names no type.
    pub fn with_none(self, alloc: Global) -> Result<Types<'a>, BindFault>
        ensures { Does (λ types. known_of types ≡ spec.with_declaration [] [] (known_of self.entry)) result }
    {
        self.with_declaration(Names::new(alloc), Seq::new(alloc))
    }

    /// The same, with a named range.
    pub fn with_range(
        self,
        alloc: Global,
        name: &'a [u8],
        low: &i128,
        high: &i128,
    ) -> Result<Types<'a>, BindFault>
        ensures { Does (λ types. known_of types ≡ spec.with_range name.now low.now high.now (known_of self.entry)) result }
    {
        self.with_type(name, Form::Range(*low, *high))?
            .with_none(alloc)
    }

    /// The same, with an enumeration of these names.
    pub fn with_enumeration(
        self,
        alloc: Global,
        name: &'a [u8],
        names: Names<'a>,
    ) -> Result<Types<'a>, BindFault>
        ensures { Does (λ types. known_of types ≡ spec.with_enumeration name.now (texts_of names.entry) (known_of self.entry)) result }
    {
        let form = Form::Enumeration(self.number());
        self.with_type(name, form)?
            .with_declaration(names, Seq::new(alloc))
    }

    /// The same, with a struct.
    pub fn with_struct(self, alloc: Global, t: &'a StructTree) -> Result<Types<'a>, BindFault>
        ensures { Does (λ types. known_of types ≡ spec.with_struct t.now (known_of self.entry)) result }
    {
        let fields = field_forms(alloc, &self, &t.first, t.rest.as_slice())?;
        let form = Form::Struct(self.number());
        self.with_type(t.name.text.as_slice(), form)?
            .with_declaration(Names::new(alloc), fields)
    }
}
