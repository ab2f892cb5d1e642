//! The set of values of one variable.
ghost use Rattle.std.specs.Prelude.{◌≡◌, ◌≤◌, ◌^◌, ℤ, pos, ◌+ℤ◌, ◌≤ℤ◌, true, length, IfOk};
ghost use Rattle.opl_domain.specs.Span.{values, ints_from, span_size};
ghost use Rattle.opl_domain.specs.Family.{member, IsRising, IsRank, is_outside, outside, IsLeast, IsGreatest, IsNext, most_values};

use crate::fault::OutOfMemory;
use std::alloc::Global;
use std::marker::Model;

/// A set of at least 1 and at most 1,048,576 values, which contracts see as the rising list of them.
#[derive(Drop)]
pub struct Domain {
    values: Vec<i64>,
}

impl Model for Domain {
    ghost use Rattle.std.specs.Prelude.{List, ℤ};
    ghost use Rattle.opl_domain.specs.Family.{IsDomain};

    ghost Value = { List ℤ };

    ghost view = { λ d. d.values.items };

    ghost invariant = { λ d. IsDomain d.values.items };
}

/// How many numbers there are from `lo` to `hi`.
fn size_of(lo: i64, hi: i64) -> u32
    requires ordered { lo ≤ℤ hi }
    requires few { span_size (record { low = lo; high = hi }) ≤ most_values }
    ensures { result ≡ span_size (record { low = lo; high = hi }) }
{
    (hi - lo + 1) as u32
}

/// `size` numbers, rising from `lo`.
fn values_from(alloc: Global, lo: i64, size: u32) -> Result<Vec<i64>, OutOfMemory>
    requires { (lo +ℤ pos size) ≤ℤ pos (2 ^ 63) }
    ensures { IfOk result (λ v. v.items ≡ ints_from lo size) }
{
    let mut values = Vec::new(alloc);
    for place in 0..size {
        values.push(lo + place as i64)?;
    }
    Ok(values)
}

/// How many of the rising `values` are at most `v`.
fn rank(values: &[i64], v: i64) -> usize
    requires { IsRising values.now }
    ensures { IsRank values.now v result }
{
    let mut low = 0;
    let mut high = values.len();
    while low < high {
        let middle = low + (high - low) / 2;
        if values[middle] <= v {
            low = middle + 1;
        } else {
            high = middle;
        }
    }
    low
}

/// Whether `v` is below `lo` or above `hi`.
fn is_outside(lo: i64, hi: i64, v: i64) -> bool
    ensures { result ≡ is_outside lo hi v }
{
    v < lo || hi < v
}

/// Removes the numbers from `lo` to `hi`.
fn remove_between(values: &mut Vec<i64>, lo: i64, hi: i64)
    ensures { values.new.items ≡ outside lo hi values.old.items }
{
    let mut kept = 0;
    for place in 0..values.len() {
        let v = values[place];
        if is_outside(lo, hi, v) {
            values[kept] = v;
            kept += 1;
        }
    }
    values.truncate(kept);
}

impl Domain {
    /// The set of the values from `lo` to `hi`.
    pub fn new(alloc: Global, lo: i64, hi: i64) -> Result<Domain, OutOfMemory>
        requires ordered { lo ≤ℤ hi }
        requires few { span_size (record { low = lo; high = hi }) ≤ most_values }
        ensures { IfOk result (λ d. d ≡ values (record { low = lo; high = hi })) }
    {
        Ok(Domain {
            values: values_from(alloc, lo, size_of(lo, hi))?,
        })
    }

    /// The least value.
    pub fn min(&self) -> i64
        ensures { IsLeast self.now result }
    {
        self.values[0]
    }

    /// The greatest value.
    pub fn max(&self) -> i64
        ensures { IsGreatest self.now result }
    {
        self.values[self.values.len() - 1]
    }

    /// The number of values.
    pub fn size(&self) -> u32
        ensures { result ≡ length self.now }
    {
        self.values.len() as u32
    }

    /// Whether `v` is a value.
    pub fn has(&self, v: i64) -> bool
        ensures { result ≡ member v self.now }
    {
        let place = rank(&self.values, v);
        place > 0 && self.values[place - 1] == v
    }

    /// The least value above `after`.
    pub fn next(&self, after: i64) -> Option<i64>
        ensures { IsNext self.now after result }
    {
        let place = rank(&self.values, after);
        if place < self.values.len() {
            Some(self.values[place])
        } else {
            None
        }
    }

    /// Removes the values from `lo` to `hi`. One must stay.
    pub fn cut(&mut self, lo: i64, hi: i64)
        requires { (v : ℤ) × (member v (outside lo hi self.old) ≡ true) }
        ensures { self.new ≡ outside lo hi self.old }
    {
        remove_between(&mut self.values, lo, hi);
    }

    /// A set with the same values.
    pub fn copy(&self, alloc: Global) -> Result<Domain, OutOfMemory>
        ensures { IfOk result (λ d. d ≡ self.now) }
    {
        Ok(Domain {
            values: Vec::from_slice(alloc, &self.values)?,
        })
    }
}
