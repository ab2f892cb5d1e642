//! The values that data files give, and the names that await them.
ghost use Rattle.std.specs.Prelude.{◌≡◌, ◌++◌, ◌+◌, [], IfOk};
ghost use Rattle.std.specs.Option.{option_map};
ghost use Rattle.opl_given.specs.Faults.{Does, Gives};
ghost use Rattle.opl_given.specs.Given as spec;
ghost use Rattle.opl_given.specs.Readings.{given_of, given_value_of, texts_of};

use crate::fault::BindFault;
use crate::names::Names;
use opl_data::{DataItem, DataTree, DataValue};
use opl_list::Seq;
use opl_token::Name;
use opl_tree::{DeclTree, EnumNamesTree, InitialTree};
use std::alloc::{AllocError, Global};

/// A value that is given, and the number of its file.
#[derive(Clone, Copy)]
pub struct GivenValue<'d> {
    pub file: u32,
    pub value: &'d DataValue,
}

/// The names to which values are given, and the values in the same order.
#[derive(Drop)]
pub struct Given<'d> {
    pub names: Names<'d>,
    pub values: Seq<GivenValue<'d>>,
}

impl<'d> Given<'d> {
    /// The value that is given to a name, if there is one.
    #[tactic(auto, using(crate::proofs::Gifts::gifts))]
    pub fn value(&self, name: &[u8]) -> Option<GivenValue<'d>>
        ensures { option_map given_value_of result ≡ spec.given_to (given_of self.now) name.now }
    {
        match self.names.place(name) {
            Some(place) => self.values.get(place as usize).copied(),
            None => None,
        }
    }

    /// The same values, and one more.
    #[tactic(auto, using(crate::proofs::Gifts::gifts))]
    fn with(self, file: u32, item: &'d DataItem) -> Result<Given<'d>, BindFault>
        ensures { Does (λ given. given_of given ≡ spec.with_value (given_of self.entry) file item.now) result }
    {
        let Given { names, mut values } = self;
        let names = names.with(item.name.text.as_slice())?;
        values.push(GivenValue {
            file,
            value: &item.value,
        })?;
        Ok(Given { names, values })
    }
}

/// A copy of a name.
fn copy_name(alloc: Global, name: &Name) -> Result<Name, AllocError>
    ensures { IfOk result (λ copy. copy ≡ name.now) }
{
    Ok(Name::from_slice(alloc, name.as_slice())?)
}

/// The fault of a value that is not awaited.
fn not_awaited(alloc: Global, name: &Name) -> Result<BindFault, BindFault>
    ensures { Does (λ fault. fault ≡ BindFault.Given name.now) result }
{
    Ok(BindFault::Given(copy_name(alloc, name)?))
}

/// The fault of a second value.
fn given_twice(alloc: Global, name: &Name) -> Result<BindFault, BindFault>
    ensures { Does (λ fault. fault ≡ BindFault.Twice name.now) result }
{
    Ok(BindFault::Twice(copy_name(alloc, name)?))
}

/// The names before, and that of a data item that awaits its value.
fn awaiting_item<'m>(
    names: Names<'m>,
    initial: &InitialTree,
    name: &'m [u8],
) -> Result<Names<'m>, BindFault>
    ensures { Does (λ r. texts_of r ≡ texts_of names.entry ++ spec.awaited_initial initial.now name.now) result }
{
    match initial {
        InitialTree::External(_) => names.with(name),
        InitialTree::Written(_) => Ok(names),
    }
}

/// The names before, and that of an enumeration that awaits its names.
fn awaiting_enumeration<'m>(
    names: Names<'m>,
    listed: &EnumNamesTree,
    name: &'m [u8],
) -> Result<Names<'m>, BindFault>
    ensures { Does (λ r. texts_of r ≡ texts_of names.entry ++ spec.awaited_names listed.now name.now) result }
{
    match listed {
        EnumNamesTree::External(..) => names.with(name),
        EnumNamesTree::Listed(..) => Ok(names),
    }
}

/// The names before, and that of a declaration that awaits its value.
fn awaiting<'m>(names: Names<'m>, t: &'m DeclTree) -> Result<Names<'m>, BindFault>
    ensures { Does (λ r. texts_of r ≡ texts_of names.entry ++ spec.awaited_by t.now) result }
{
    match t {
        DeclTree::Data(t) => awaiting_item(names, &t.initial, t.name.text.as_slice()),
        DeclTree::Enumeration(t) => awaiting_enumeration(names, &t.names, t.name.text.as_slice()),
        DeclTree::Range(_)
        | DeclTree::Structure(_)
        | DeclTree::Variable(_)
        | DeclTree::Activity(_)
        | DeclTree::Unary(_)
        | DeclTree::Discrete(_)
        | DeclTree::Schedule(_) => Ok(names),
    }
}

/// The names that await a value.
fn awaited<'m>(alloc: Global, ts: &'m [DeclTree]) -> Result<Names<'m>, BindFault>
    ensures { Does (λ r. texts_of r ≡ spec.awaited [] ts.now) result }
{
    let mut names = Names::new(alloc);
    for t in ts {
        names = awaiting(names, t)?;
    }
    Ok(names)
}

/// Gives a value once, to a name that awaits it.
#[tactic(auto, using(crate::proofs::Gifts::gifts))]
fn give<'d>(
    alloc: Global,
    awaiting: &Names<'_>,
    file: u32,
    given: Given<'d>,
    item: &'d DataItem,
) -> Result<Given<'d>, BindFault>
    ensures { Gives given_of (spec.give (texts_of awaiting.now) file (given_of given.entry) item.now) result }
{
    if awaiting.place(item.name.text.as_slice()).is_none() {
        return Err(not_awaited(alloc, &item.name.text)?);
    }
    if given.names.place(item.name.text.as_slice()).is_some() {
        return Err(given_twice(alloc, &item.name.text)?);
    }
    given.with(file, item)
}

/// The items of a file, in order.
fn give_items<'d>(
    alloc: Global,
    awaiting: &Names<'_>,
    file: u32,
    given: Given<'d>,
    items: &'d [DataItem],
) -> Result<Given<'d>, BindFault>
    ensures { Gives given_of (spec.give_items (texts_of awaiting.now) file (given_of given.entry) items.now) result }
{
    let mut given = given;
    for item in items {
        given = give(alloc, awaiting, file, given, item)?;
    }
    Ok(given)
}

/// The number of the next file; where there is none memory is wanting.
fn next_file(file: u32) -> Result<u32, BindFault>
    ensures { Does (λ next. next ≡ file + 1) result }
{
    match file.checked_add(1) {
        Some(next) => Ok(next),
        None => Err(BindFault::OutOfMemory),
    }
}

/// The values that data files give to what these declarations await.
#[tactic(auto, unfolding(crate::specs::Given::all_given), using(crate::proofs::Gifts::gifts))]
pub fn all_given<'d>(
    alloc: Global,
    ts: &[DeclTree],
    files: &'d [DataTree],
) -> Result<Given<'d>, BindFault>
    ensures { Gives given_of (spec.all_given ts.now files.now) result }
{
    let awaiting = awaited(alloc, ts)?;
    let mut given = Given {
        names: Names::new(alloc),
        values: Seq::new(alloc),
    };
    let mut number = 0;
    for file in files {
        number = next_file(number)?;
        given = give_items(alloc, &awaiting, number, given, file.items.as_slice())?;
    }
    Ok(given)
}
