//! What the filter of `alldifferent` is made of.
ghost use Rattle.std.specs.Prelude.{◌≡◌, ◌<◌, ◌^◌, map, length, IfOk};
ghost use Rattle.opl_expr.specs.Forms.{Fact, terms_of};
ghost use Rattle.opl_expr.specs.Sound.{IsSoundFact};
ghost use Rattle.opl_range.specs.Between.{term_of};
ghost use Rattle.opl_all_different.specs.Reading.{AreReadAs};

use crate::part::Part;
use crate::reading::{part_of, shares};
use opl_domain::OutOfMemory;
use opl_expr::{Core, Expr};
use opl_list::Seq;
use std::alloc::Global;
use std::collections::HashSet;

/// The parts of expressions, if each is linear with at most one variable, and no two have the same.
pub fn parts_of(alloc: Global, core: &Core, es: &[Expr]) -> Result<Option<Seq<Part>>, OutOfMemory>
    requires sound { IsSoundFact core.now.sets (Fact.different (terms_of (map (term_of core.now) es.now))) }
    requires few { length core.now.sets < 2 ^ 32 }
    ensures { IfOk result (AreReadAs core.now es.now) }
{
    let mut parts = Seq::new(alloc);
    let mut seen = HashSet::new(alloc);
    for e in es {
        match part_of(core, e) {
            None => return Ok(None),
            Some(part) => {
                let is_shared = shares(&mut seen, &part)?;
                if is_shared {
                    return Ok(None);
                }
                parts.push(part)?;
            }
        }
    }
    Ok(Some(parts))
}

/// So many marks, none of them set.
pub fn marks(alloc: Global, count: usize) -> Result<Vec<bool>, OutOfMemory>
    ensures { IfOk result (λ m. length m.items ≡ count) }
{
    let mut marks = Vec::new(alloc);
    for _i in 0..count {
        marks.push(false)?;
    }
    Ok(marks)
}
