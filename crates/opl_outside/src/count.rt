//! Counting faults.
ghost use Rattle.opl_outside.specs.Counts.{raised, Counts, CountsOnce};
ghost use Rattle.std.specs.Prelude.{◌≡◌};

use crate::error::OutsideError;

/// One more; at the last value of the counter the count stands still.
pub(crate) fn raised(count: u64) -> u64
    ensures { result ≡ raised count }
{
    count.saturating_add(1)
}

/// The count after a call that ended in `outcome`.
pub(crate) fn counted<T>(count: u64, outcome: &Result<T, OutsideError>) -> u64
    ensures cause { Counts count result outcome.now }
    ensures once { CountsOnce count result outcome.now }
{
    match outcome {
        Err(OutsideError::Failed) => raised(count),
        _ => count,
    }
}
