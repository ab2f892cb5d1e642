//! The decision variables so far.
ghost use Rattle.std.specs.Prelude.{◌≡◌, ◌∷◌, ◌++◌, [], IfOk, length};
ghost use Rattle.std.proofs.Props.{props};
ghost use Rattle.opl_meaning.specs.Variables.{sets_of, values_of};

use crate::totals::Totals;
use crate::variable::VariableItem;
use opl_list::Seq;
use std::alloc::{AllocError, Global};

/// The decision variables of declarations so far, with their number and that of their values.
#[derive(Drop)]
pub(crate) struct Counted {
    pub(crate) items: Seq<VariableItem>,
    pub(crate) totals: Totals,
    pub(crate) ghost are_counted: { totals.variables ≡ length (sets_of items) } by { Prim.hlevel props },
    pub(crate) ghost are_summed: { totals.values ≡ values_of (sets_of items) } by { Prim.hlevel props },
}

impl Counted {
    /// No variables. It takes no memory.
    pub(crate) fn new(alloc: Global) -> Counted
        ensures { result.items ≡ [] }
    {
        Counted {
            items: Seq::new(alloc),
            totals: Totals::none(),
        }
    }

    /// The same, and those of one declaration more.
    pub(crate) fn with(self, item: VariableItem) -> Result<Counted, AllocError>
        ensures { IfOk result (λ r. r.items ≡ self.items ++ item ∷ []) }
    {
        let Counted { mut items, totals } = self;
        let totals = totals.with(item.sets.as_slice())?;
        items.push(item)?;
        Ok(Counted { items, totals })
    }

    /// The variables alone.
    pub(crate) fn into_items(self) -> Seq<VariableItem>
        ensures { result ≡ self.items }
    {
        self.items
    }
}
