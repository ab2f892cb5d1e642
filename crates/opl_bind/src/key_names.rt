//! The names of dimensions, each for its element of a key.
ghost use Rattle.std.specs.Prelude.{◌≡◌, ◌∷◌, ◌++◌, IfOk, OnOk, map};
ghost use Rattle.opl_eval.specs.Visible.{parameter_of};
ghost use Rattle.opl_given.specs.Elements.{element};
ghost use Rattle.opl_given.specs.Turns.{named};
ghost use Rattle.opl_bind.specs.Keys.{chosen, named_all};

use crate::key_walk::Turn;
use opl_eval::Parameter;
use opl_tree::DimTree;
use std::alloc::{AllocError, Global};

/// Adds the name of a dimension for its element, if it has one.
fn add_name<'a>(
    all: &mut Vec<Parameter<'a>>,
    dim: &'a DimTree,
    turn: &'a Turn<'_, '_>,
) -> Result<(), AllocError>
    ensures { OnOk result (map parameter_of all.new.items ≡ map parameter_of all.old.items ++ named dim.now.name (element turn.now.element)) }
{
    if let Some(name) = &dim.name {
        all.push(Parameter {
            name: name.text.as_slice(),
            value: turn.element.get(),
        })?;
    }
    Ok(())
}

/// The names that are seen, and behind them those of dimensions, of which there is a first, for a key.
pub fn with_names<'a>(
    alloc: Global,
    parameters: &[Parameter<'a>],
    first: &'a DimTree,
    rest: &'a [DimTree],
    key: &'a [Turn<'_, '_>],
) -> Result<Vec<Parameter<'a>>, AllocError>
    ensures { IfOk result (λ all. map parameter_of all.items ≡ map parameter_of parameters.now ++ named_all (first.now ∷ rest.now) (chosen key.now)) }
{
    let mut all = Vec::from_slice(alloc, parameters)?;
    let Some((turn, others)) = key.split_first() else {
        return Ok(all);
    };
    add_name(&mut all, first, turn)?;
    let mut left = others;
    for dim in rest {
        let Some((turn, others)) = left.split_first() else {
            return Ok(all);
        };
        add_name(&mut all, dim, turn)?;
        left = others;
    }
    Ok(all)
}
