//! Parts one behind another.
ghost use Rattle.std.specs.Prelude.{◌≡◌, ◌&&◌, ◌++◌, ◌∷◌, [], OnErr, OnOk};
ghost use Rattle.opl_nodes.specs.declared.context.Context.{Context};
ghost use Rattle.opl_nodes.specs.Pieces as spec;

use crate::part::Part;
use opl_list::Seq;
use std::alloc::{AllocError, Global};

/// Whether both hold.
pub(crate) fn both(a: bool, b: bool) -> bool
    ensures { result ≡ (a && b) }
{
    a && b
}

/// Parts one behind another, with a count of the nodes.
#[derive(Drop)]
pub struct Parts {
    pub items: Seq<Part>,
    /// How many nodes were made before the first of them.
    pub before: u64,
    /// How many nodes were made before what is made next.
    pub next: u64,
    /// Whether a variable is left in none of them.
    pub are_known: bool,
}

impl Parts {
    /// No parts, where so many nodes were made before. It takes no memory.
    pub fn new(alloc: Global, before: u64) -> Parts
        ensures items { result.items ≡ [] }
        ensures before { result.before ≡ before }
        ensures kept { (c : Context) → spec.AreParts c result }
    {
        Parts {
            items: Seq::new(alloc),
            before,
            next: before,
            are_known: true,
        }
    }

    /// Adds a part behind the others. Where memory is wanting, as which 2^64 nodes and more count, the parts stay as they were.
    pub fn push(&mut self, part: Part) -> Result<(), AllocError>
        ensures items { OnOk result (self.new.items ≡ self.old.items ++ part ∷ []) }
        ensures before { self.new.before ≡ self.old.before }
        ensures kept { OnOk result ((c : Context) → spec.AreParts c self.old → spec.IsPart c part → spec.AreParts c self.new) }
        ensures err { OnErr result (self.new ≡ self.old) }
    {
        let Some(next) = self.next.checked_add(u64::from(part.nodes)) else {
            return Err(AllocError);
        };
        let are_known = both(self.are_known, part.is_known());
        self.items.push(part)?;
        self.next = next;
        self.are_known = are_known;
        Ok(())
    }
}
