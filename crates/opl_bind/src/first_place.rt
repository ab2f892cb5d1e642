//! The first places of the values of an index set.
ghost use Rattle.std.specs.Prelude.{◌≡◌, ◌<◌, ◌^◌, IfOk, None, OnOk, Some, cond, length};
ghost use Rattle.std.specs.HashMap.{get_by};
ghost use Rattle.std.specs.Option.{option_or};
ghost use Rattle.opl_value.specs.declared.value.Value.{Value};
ghost use Rattle.opl_value.specs.Order.{value_eq};
ghost use Rattle.opl_value.specs.Places.{dimension_values, place_in};
ghost use Rattle.opl_given.specs.Elements.{listed_values};

use crate::lookup::Lookup;
use opl_value::{Dimension, Value};
use std::alloc::{AllocError, Global};
use std::collections::HashMap;

impl<'d> Lookup<'d> {
    /// The index set, its listed values in a map. The time is linear in their number.
    pub(crate) fn new(alloc: Global, dimension: &'d Dimension) -> Result<Lookup<'d>, AllocError>
        requires { length (dimension_values dimension.now) < 2 ^ 64 }
        ensures { IfOk result (λ lookup. lookup.dimension.now ≡ dimension.now) }
    {
        let firsts = first_places(alloc, listed(dimension))?;
        Ok(Lookup { dimension, firsts })
    }

    /// The first place of a value, if it is there. It takes no memory.
    #[tactic(auto, using(opl_given::proofs::DimensionElements::dimension_elements))]
    pub(crate) fn place(&self, wanted: &Value) -> Option<u64>
        ensures { result ≡ place_in wanted.now (dimension_values self.now.dimension.now) }
    {
        match self.dimension {
            Dimension::Whole(..) => self.dimension.place(wanted),
            Dimension::Listed(..) => self.firsts.get(&wanted).copied(),
        }
    }
}

/// The values that an index set lists: none where it is a range, in which places are found by arithmetic.
#[tactic(auto, using(opl_given::proofs::DimensionElements::dimension_elements))]
fn listed(dimension: &Dimension) -> &[Value]
    ensures { result.now ≡ listed_values dimension.now }
{
    match dimension {
        Dimension::Whole(..) => &[],
        Dimension::Listed(values, _) => values.as_slice(),
    }
}

/// The first place of each of the values.
fn first_places<'v>(
    alloc: Global,
    values: &'v [Value],
) -> Result<HashMap<&'v Value, u64>, AllocError>
    ensures { IfOk result (λ places. (wanted : Value) → get_by (λ v. value_eq wanted v.now) places ≡ place_in wanted values.now) }
{
    let mut places = HashMap::new(alloc);
    for (place, value) in values.iter().enumerate() {
        add_first(&mut places, value, place as u64)?;
    }
    Ok(places)
}

/// Keeps the place for the value, where it has none yet.
fn add_first<'v>(
    places: &mut HashMap<&'v Value, u64>,
    value: &'v Value,
    place: u64,
) -> Result<(), AllocError>
    ensures { OnOk result ((wanted : Value) → get_by (λ v. value_eq wanted v.now) places.new ≡ option_or (get_by (λ v. value_eq wanted v.now) places.old) (cond (value_eq wanted value.now) (Some place) None)) }
{
    if !places.contains_key(&value) {
        places.insert(value, place)?;
    }
    Ok(())
}
