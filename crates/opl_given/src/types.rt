//! What the declarations so far say of types.
ghost use Rattle.std.specs.Prelude.{◌≡◌};
ghost use Rattle.opl_given.specs.Forms as spec;
ghost use Rattle.opl_given.specs.Names.{position};
ghost use Rattle.opl_given.specs.Readings.{known_of, texts_lent};

use crate::form::Form;
use crate::names::Names;
use opl_list::Seq;

/// The names of types with their forms, and for each declaration, by its number, the names of an enumeration and the forms of a
/// struct's fields, or none.
#[derive(Drop)]
pub struct Types<'a> {
    pub names: Names<'a>,
    pub forms: Seq<Form>,
    pub enumerations: Seq<Names<'a>>,
    pub fields: Seq<Seq<Form>>,
}

impl<'a> Types<'a> {
    /// The names of the enumeration with that number; None where no declaration has it.
    #[tactic(auto, using(crate::proofs::Layers::known))]
    pub fn names(&self, declaration: u32) -> Option<&[&'a [u8]]>
        ensures { texts_lent result ≡ spec.names_of (known_of self.now) declaration }
    {
        let names = self.enumerations.get(declaration as usize)?;
        Some(names.texts.as_slice())
    }

    /// The place of a name in the enumeration with that number.
    #[tactic(auto, using(crate::proofs::Layers::known))]
    pub fn place(&self, declaration: u32, name: &[u8]) -> Option<u32>
        ensures { result ≡ position name.now (spec.names_of (known_of self.now) declaration) }
    {
        match self.enumerations.get(declaration as usize) {
            Some(names) => names.place(name),
            None => None,
        }
    }

    /// The forms of the fields of the struct with that number.
    #[tactic(auto, using(crate::proofs::Layers::known))]
    pub fn fields(&self, declaration: u32) -> &[Form]
        ensures { result.now ≡ spec.fields_of (known_of self.now) declaration }
    {
        match self.fields.get(declaration as usize) {
            Some(fields) => fields.as_slice(),
            None => &[],
        }
    }
}
