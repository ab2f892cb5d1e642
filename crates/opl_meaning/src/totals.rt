//! How many decision variables there are, and how many values their declared sets have.
ghost use Rattle.std.specs.Prelude.{◌≡◌, ◌+◌, IfOk, length};
ghost use Rattle.opl_meaning.specs.Variables as spec;

use crate::variable::DeclaredSet;
use std::alloc::AllocError;

/// How many decision variables there are, and how many values their declared sets have together.
#[derive(Clone, Copy)]
pub(crate) struct Totals {
    pub(crate) variables: u64,
    pub(crate) values: u128,
}

/// The number of values of a declared set.
#[tactic(auto, using(crate::proofs::Limits::sizes))]
pub(crate) fn size_of(set: &DeclaredSet) -> u128
    ensures { result ≡ spec.size_of set.now }
{
    let size = set.high as i128 + 1 - set.low as i128;
    if size < 0 {
        return 0;
    }
    size.unsigned_abs()
}

/// So many values, and those of a declared set. Where there are more than 2^128 - 1, memory is wanting.
pub(crate) fn values_with(values: u128, set: &DeclaredSet) -> Result<u128, AllocError>
    ensures { IfOk result (λ r. r ≡ values + spec.size_of set.now) }
{
    match values.checked_add(size_of(set)) {
        Some(sum) => Ok(sum),
        None => Err(AllocError),
    }
}

impl Totals {
    /// No variables.
    pub(crate) fn none() -> Totals
        ensures variables { result.variables ≡ 0 }
        ensures values { result.values ≡ 0 }
    {
        Totals {
            variables: 0,
            values: 0,
        }
    }

    /// With one variable more for each of these declared sets.
    pub(crate) fn with(self, sets: &[DeclaredSet]) -> Result<Totals, AllocError>
        ensures variables { IfOk result (λ r. r.variables ≡ self.variables + length sets.now) }
        ensures values { IfOk result (λ r. r.values ≡ self.values + spec.values_of sets.now) }
    {
        let values = with_values(self.values, sets)?;
        match self.variables.checked_add(sets.len() as u64) {
            Some(variables) => Ok(Totals { variables, values }),
            None => Err(AllocError),
        }
    }
}

/// So many values, and those of declared sets.
fn with_values(before: u128, sets: &[DeclaredSet]) -> Result<u128, AllocError>
    ensures { IfOk result (λ r. r ≡ before + spec.values_of sets.now) }
{
    let mut values = before;
    for set in sets {
        values = values_with(values, set)?;
    }
    Ok(values)
}
