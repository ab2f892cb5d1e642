//! The declarations of decision variables and of arrays by name.
ghost use Rattle.std.specs.Prelude.{◌≡◌, ◌+◌, ◌++◌, ◌∷◌, [], IfOk, map};
ghost use Rattle.opl_declared.specs.Kept as spec;

use crate::names::Names;
use opl_list::Seq;
use opl_meaning::VariableItem;
use std::alloc::{AllocError, Global};

/// The declarations of decision variables, with the number of the first variable of each, and the names of arrays, each with its
/// number. What stands last under a name is found by one look-up.
#[derive(Drop)]
pub struct Declared<'a> {
    pub(crate) items: &'a [VariableItem],
    pub(crate) names: Names<'a>,
    pub(crate) firsts: Seq<u32>,
    pub(crate) arrays: Names<'a>,
}

/// The declaration of decision variables, with the number of the first of them among all.
#[derive(Clone, Copy)]
pub struct Numbered<'a> {
    pub item: &'a VariableItem,
    pub first: u32,
}

impl<'a> Declared<'a> {
    /// These declarations of decision variables, and no arrays. More than 2^32 - 1 variables count as want of memory.
    pub fn new(alloc: Global, items: &'a [VariableItem]) -> Result<Declared<'a>, AllocError>
        ensures items { IfOk result (λ d. d.items.now ≡ items.now) }
        ensures names { IfOk result (λ d. spec.texts_of d.names ≡ map (λ v. v.name) items.now) }
        ensures firsts { IfOk result (λ d. d.firsts ≡ spec.firsts_of 0 items.now) }
        ensures arrays { IfOk result (λ d. spec.texts_of d.arrays ≡ []) }
    {
        let names = names_of(alloc, items)?;
        let firsts = firsts_of(alloc, items)?;
        Ok(Declared {
            items,
            names,
            firsts,
            arrays: Names::new(alloc),
        })
    }

    /// The same, and one array more, whose number is that of the arrays before it.
    pub fn with_array(self, name: &'a [u8]) -> Result<Declared<'a>, AllocError>
        ensures items { IfOk result (λ d. d.items.now ≡ self.entry.items.now) }
        ensures names { IfOk result (λ d. spec.texts_of d.names ≡ spec.texts_of self.entry.names) }
        ensures firsts { IfOk result (λ d. d.firsts ≡ self.entry.firsts) }
        ensures arrays { IfOk result (λ d. spec.texts_of d.arrays ≡ spec.texts_of self.entry.arrays ++ name.now ∷ []) }
    {
        let Declared {
            items,
            names,
            firsts,
            arrays,
        } = self;
        let arrays = arrays.with(name)?;
        Ok(Declared {
            items,
            names,
            firsts,
            arrays,
        })
    }
}

/// The names of these declarations.
fn names_of<'a>(alloc: Global, items: &'a [VariableItem]) -> Result<Names<'a>, AllocError>
    ensures { IfOk result (λ names. spec.texts_of names ≡ map (λ v. v.name) items.now) }
{
    let mut names = Names::new(alloc);
    for item in items {
        names = names.with(item.name.as_slice())?;
    }
    Ok(names)
}

/// The number of the first variable of each of these declarations.
fn firsts_of(alloc: Global, items: &[VariableItem]) -> Result<Seq<u32>, AllocError>
    ensures { IfOk result (λ firsts. firsts ≡ spec.firsts_of 0 items.now) }
{
    let mut firsts = Seq::new(alloc);
    let mut number = 0u32;
    for item in items {
        firsts.push(number)?;
        number = behind(number, item.sets.len())?;
    }
    Ok(firsts)
}

/// A number, and so many behind it.
fn behind(number: u32, count: usize) -> Result<u32, AllocError>
    ensures { IfOk result (λ r. r ≡ number + count) }
{
    let Ok(count) = u32::try_from(count) else {
        return Err(AllocError);
    };
    match number.checked_add(count) {
        Some(sum) => Ok(sum),
        None => Err(AllocError),
    }
}
