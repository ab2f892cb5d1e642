//! The decision variables of a model, by their names.
ghost use Rattle.std.specs.Prelude.{◌≡◌, ℕ, List, Some, None, IfOk, OnOk, bytes_eq, cond};
ghost use Rattle.std.specs.HashMap.{get_by};
ghost use Rattle.std.proofs.Props.{props};
ghost use Rattle.opl_declared.specs.Kept.{declared_names, names_in};
ghost use Rattle.opl_draft.specs.Numbers.{variable_named};
ghost use Rattle.opl_draft.specs.Unrolled.{is_plain_variable};
ghost use Rattle.opl_runs.specs.Scopes.{plain_or};

use opl_declared::Declared;
use opl_meaning::VariableItem;
use std::alloc::{AllocError, Global};
use std::collections::HashMap;

/// The decision variables of a model, and for each name whether what stands last under it is no array.
#[derive(Drop)]
pub(crate) struct Scope<'a> {
    pub(crate) items: &'a [VariableItem],
    pub(crate) declared: Declared<'a>,
    pub(crate) plain: HashMap<&'a [u8], bool>,
    ghost are_plain: { (name : List ℕ) → get_by (λ k. bytes_eq name k.now) plain ≡ plain_or None name items.now } by { Prim.hlevel props },
}

/// Keeps whether it is no array for the name.
fn add_plain<'a>(
    plain: &mut HashMap<&'a [u8], bool>,
    name: &'a [u8],
    is_plain: bool,
) -> Result<(), AllocError>
    ensures { OnOk result ((other : List ℕ) → get_by (λ k. bytes_eq other k.now) plain.new ≡ cond (bytes_eq other name.now) (Some is_plain) (get_by (λ k. bytes_eq other k.now) plain.old)) }
{
    plain.insert(name, is_plain)?;
    Ok(())
}

/// For each name whether what stands last under it is no array.
fn plain_of<'a>(
    alloc: Global,
    items: &'a [VariableItem],
) -> Result<HashMap<&'a [u8], bool>, AllocError>
    ensures { IfOk result (λ plain. (name : List ℕ) → get_by (λ k. bytes_eq name k.now) plain ≡ plain_or None name items.now) }
{
    let mut plain = HashMap::new(alloc);
    for item in items {
        add_plain(&mut plain, item.name.as_slice(), item.space.is_none())?;
    }
    Ok(plain)
}

impl<'a> Scope<'a> {
    /// These decision variables.
    pub(crate) fn new(alloc: Global, items: &'a [VariableItem]) -> Result<Scope<'a>, AllocError>
        ensures items { IfOk result (λ s. s.items.now ≡ items.now) }
        ensures names { IfOk result (λ s. names_in s.declared ≡ declared_names items.now) }
    {
        let declared = Declared::new(alloc, items)?;
        let plain = plain_of(alloc, items)?;
        Ok(Scope {
            items,
            declared,
            plain,
        })
    }

    /// Whether what stands last under a name is no array, if anything does.
    fn known(&self, name: &[u8]) -> Option<bool>
        ensures { result ≡ plain_or None name.now self.now.items.now }
    {
        self.plain.get(name).copied()
    }

    /// Whether a name is that of a variable that is no array. It takes no memory.
    #[tactic(auto, using(crate::proofs::Plain::plain_names_kept))]
    pub(crate) fn is_plain(&self, name: &[u8]) -> bool
        ensures { result ≡ is_plain_variable (variable_named name.now self.now.items.now) }
    {
        match self.known(name) {
            Some(is_plain) => is_plain,
            None => false,
        }
    }
}
