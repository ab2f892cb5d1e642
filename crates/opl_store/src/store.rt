//! A stack of families.
ghost use Rattle.std.specs.Prelude.{◌≡◌, ◌<◌, ◌∷◌, [], ◌≤◌, ◌+◌, ◌^◌, map, length, IfOk, OnOk, OnErr};
ghost use Rattle.std.proofs.Common.{refl, ◌∙◌};
ghost use Rattle.std.specs.List.{All};
ghost use Rattle.opl_store.specs.Stacks.{IsRange, size_between, values_between, all_blocks, differing_blocks};
ghost use Rattle.opl_store.specs.Stored.{shapes_from};

use crate::set;
use crate::shape::Shape;
use opl_domain::{Narrow, OutOfMemory, Steps, View};
use opl_trail::Trail;
use std::alloc::Global;
use std::marker::Model;

/// A non-empty stack of families, which is a view of the top one. Each level that is opened has a copy of the family
/// below it, and is kept by what its cuts have changed.
#[derive(Drop)]
pub struct Store {
    shapes: Vec<Shape>,
    trail: Trail,
}

impl Model for Store {
    ghost use Rattle.std.specs.Prelude.{map, length, ◌<◌, ◌^◌};
    ghost use Rattle.opl_store.specs.Stacks.{Stack};

    ghost Value = { Stack };

    ghost use Rattle.opl_store.specs.Stored.{stack_in, IsStore};

    ghost view = { λ s. stack_in s.shapes.items s.trail };

    ghost invariant = { λ s. IsStore s.shapes.items (length s.trail.top) s.trail × (length s.shapes.items < 2 ^ 32) };
}

/// How many numbers there are from `lo` to `hi`.
fn size_of(lo: i64, hi: i64) -> u32
    requires { IsRange (lo, hi) }
    ensures { result ≡ size_between (lo, hi) }
{
    (hi - lo + 1) as u32
}

/// Where the sets are kept, and how many words there are.
fn shapes_of(alloc: Global, sets: &[(i64, i64)]) -> Result<(Vec<Shape>, u32), OutOfMemory>
    requires ranges { All IsRange sets.now }
    requires few { length sets.now + all_blocks sets.now < 2 ^ 32 }
    ensures { IfOk result (λ p. (p.0.items ≡ shapes_from (length sets.now) sets.now) × (p.1 ≡ length sets.now + all_blocks sets.now)) }
{
    let mut shapes = Vec::new(alloc);
    let mut first = sets.len() as u32;
    for (lo, hi) in sets {
        let size = size_of(*lo, *hi);
        shapes.push(Shape {
            least: *lo,
            size,
            first,
        })?;
        first += (size + 63) / 64;
    }
    Ok((shapes, first))
}

impl Store {
    /// Sets that are declared by their least and their greatest values, and no open level.
    pub fn new(alloc: Global, sets: &[(i64, i64)]) -> Result<Store, OutOfMemory>
        requires ranges { All IsRange sets.now }
        requires few { length sets.now + all_blocks sets.now < 2 ^ 32 }
        ensures { IfOk result (λ s. s ≡ record { declared = sets.now; top = map values_between sets.now; below = [] }) }
    {
        let (shapes, words) = shapes_of(alloc, sets)?;
        let trail = Trail::new(alloc, words)?;
        Ok(Store { shapes, trail })
    }

    /// How many levels are open.
    pub fn levels(&self) -> u64
        ensures { result ≡ length self.now.below }
    {
        self.trail.levels()
    }

    /// Opens a level, and takes the memory for all cuts in it. Where memory is wanting, all stays as it was.
    pub fn open_level(&mut self, _alloc: Global) -> Result<(), OutOfMemory>
        ensures ok { OnOk result (self.new ≡ record self.old { below = self.old.top ∷ self.old.below }) }
        ensures err { OnErr result (self.new ≡ self.old) }
    {
        self.trail.open_level()?;
        Ok(())
    }

    /// Gives back the family at the opening of the last open level. It takes no memory. Each word of bits that it writes
    /// counts one step, and it writes those of blocks alone in which the family differs from the one that it gives back.
    /// Words that keep ends are no blocks, and have a count of their own.
    pub fn close_level(&mut self, steps: &mut Steps)
        requires { 0 < length self.old.below }
        ensures levels { self.old.below ≡ self.new.top ∷ self.new.below }
        ensures declared { self.new.declared ≡ self.old.declared }
        ensures steps { steps.new ≤ steps.old + differing_blocks self.old.declared self.old.top self.new.top }
    {
        let mut ends = Steps::new();
        self.trail
            .close_level(self.shapes.len() as u32, &mut ends, steps);
    }
}

impl View for Store {
    ghost family = { λ s. s.top };

    fn vars(&self) -> u32 {
        self.shapes.len() as u32
    }

    fn min(&self, x: u32) -> i64 {
        set::min(&self.trail, x, self.shapes[x as usize])
    }

    fn max(&self, x: u32) -> i64 {
        set::max(&self.trail, x, self.shapes[x as usize])
    }

    fn size(&self, x: u32) -> u32 {
        set::size(&self.trail, x, self.shapes[x as usize])
    }

    fn has(&self, x: u32, v: i64) -> bool {
        set::has(&self.trail, x, self.shapes[x as usize], v)
    }

    fn next(&self, x: u32, after: i64) -> Option<i64> {
        set::next(&self.trail, x, self.shapes[x as usize], after)
    }
}

impl Narrow for Store {
    ghost leads_to = { λ s t. (t.declared ≡ s.declared) × (t.below ≡ s.below) };

    ghost leads_to_itself = { λ s. (refl, refl) };

    ghost leads_on = { λ s t u h k. (k.0 ∙ h.0, k.1 ∙ h.1) };

    /// Removes the values of `x` from `lo` to `hi`. It takes no memory; where no level is open they stay removed for good.
    fn cut(&mut self, x: u32, lo: i64, hi: i64) {
        set::cut(&mut self.trail, x, self.shapes[x as usize], lo, hi);
    }
}
