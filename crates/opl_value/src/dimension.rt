//! Dimensions of listed values.
ghost use Rattle.std.specs.Prelude.{◌≡◌, IfOk, length, map};
ghost use Rattle.opl_value.specs.Places.{AreDifferent, AreRising, IsSorted, dimension_values, numbers_between};
ghost use Rattle.opl_value.specs.Ranked.{ArePaired};
ghost use Rattle.opl_value.specs.Rising.{listed_dimension, rising_of};
ghost use Rattle.opl_value.specs.Sets.{first_occurrences};

use crate::set::make_set;
use crate::value::{Dimension, Value};
use opl_list::Seq;
use std::alloc::{AllocError, Global};

impl Dimension {
    /// The whole numbers from the first to the second.
    #[tactic(auto, using(crate::proofs::Places::variants))]
    pub fn whole(low: i128, high: i128) -> Dimension
        ensures sorted { IsSorted result }
        ensures values { dimension_values result ≡ numbers_between low high }
        ensures dimension { result ≡ Dimension.Whole low high }
    {
        Dimension::Whole(low, high)
    }

    /// A dimension of a set: of the values without later copies, each at its first occurrence. The time is that of a sort.
    pub fn of_set(alloc: Global, values: Seq<Value>) -> Result<Dimension, AllocError>
        ensures sorted { IfOk result IsSorted }
        ensures values { IfOk result (λ dimension. dimension_values dimension ≡ first_occurrences values) }
        ensures dimension { IfOk result (λ dimension. dimension ≡ listed_dimension (first_occurrences values)) }
    {
        let set = make_set(alloc, values.into_vec())?;
        Dimension::listed(alloc, Seq::from_vec(set))
    }

    /// A dimension of these values, in their order. The time is that of a sort.
    #[tactic(auto, using(crate::proofs::Places::variants), unfolding(crate::specs::Rising::listed_dimension))]
    pub fn listed(alloc: Global, values: Seq<Value>) -> Result<Dimension, AllocError>
        requires { AreDifferent values }
        ensures sorted { IfOk result IsSorted }
        ensures values { IfOk result (λ dimension. dimension_values dimension ≡ values) }
        ensures dimension { IfOk result (λ dimension. dimension ≡ listed_dimension values) }
    {
        let rising = rising_places(alloc, values.as_slice())?;
        Ok(Dimension::Listed(values, rising))
    }
}

/// The places of different values, in the rising order of the values.
fn rising_places(alloc: Global, values: &[Value]) -> Result<Seq<usize>, AllocError>
    requires { AreDifferent values.now }
    ensures rising { IfOk result (AreRising values.now) }
    ensures places { IfOk result (λ rising. rising ≡ rising_of values.now) }
{
    let mut pairs = pair_with_places(alloc, values)?;
    pairs.sort()?;
    let rising = places_of(alloc, pairs.as_slice())?;
    Ok(rising)
}

/// The places, without the values beside them.
fn places_of(alloc: Global, pairs: &[(&Value, usize)]) -> Result<Seq<usize>, AllocError>
    ensures { IfOk result (λ places. places ≡ map (λ p. p.1) pairs.now) }
{
    let mut places = Seq::new(alloc);
    for pair in pairs {
        places.push(pair.1)?;
    }
    Ok(places)
}

/// Each value beside its place.
fn pair_with_places<'a>(
    alloc: Global,
    values: &'a [Value],
) -> Result<Vec<(&'a Value, usize)>, AllocError>
    ensures { IfOk result (λ pairs. ArePaired values.now (length values.now) pairs.items) }
{
    let mut pairs = Vec::new(alloc);
    for (place, value) in values.iter().enumerate() {
        pairs.push((value, place))?;
    }
    Ok(pairs)
}
