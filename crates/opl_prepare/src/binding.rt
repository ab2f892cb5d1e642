//! The data of a model, bound to its files.
ghost use Rattle.std.specs.Prelude.{◌≡◌, ℕ, IfOk};
ghost use Rattle.opl_bind.specs.Readings.{data_of};
ghost use Rattle.opl_eval.specs.Visible.{position_in};
ghost use Rattle.opl_prepare.specs.Data.{HasData, refusal_of_data, refusal_of_value};
ghost use Rattle.opl_prepare.specs.Positions as spec;
ghost use Rattle.opl_prepare.specs.Prepared.{read_as, stop_at};
ghost use Rattle.opl_files.specs.Stage.{Gives};

use opl_bind::{BindFault, DataValues, bind};
use opl_data::DataTree;
use opl_eval::{EvalFault, Positions};
use opl_fields::fields;
use opl_files::{Fault, ItemFault, Refusal, Stop, refused};
use opl_types::Typed;
use std::alloc::{AllocError, Global};

/// Why a call ends at a fault of evaluation.
pub fn stop_of_value(fault: EvalFault) -> Stop
    ensures { result ≡ stop_at (refusal_of_value fault) }
{
    match fault {
        EvalFault::DivByZero(at) => refused(Fault::DivByZero, 0, at),
        EvalFault::OutOfIndex(at) => refused(Fault::OutOfIndex, 0, at),
        EvalFault::TooLarge(at) => refused(Fault::TooLarge, 0, at),
        EvalFault::EmptyMinMax(at) => refused(Fault::EmptyMinMax, 0, at),
        EvalFault::OutOfMemory => Stop::OutOfMemory,
    }
}

/// Why a call ends at a fault of binding.
fn stop_of_data(fault: BindFault) -> Stop
    ensures { result ≡ stop_at (refusal_of_data fault) }
{
    match fault {
        BindFault::Given(name) => Stop::Refused(Refusal::Item(ItemFault::Given, name)),
        BindFault::Twice(name) => Stop::Refused(Refusal::Item(ItemFault::Twice, name)),
        BindFault::Missing(name) => Stop::Refused(Refusal::Item(ItemFault::Missing, name)),
        BindFault::Shape(file, at) => refused(Fault::Shape, file as usize, at),
        BindFault::Outside(file, at) => refused(Fault::Outside, file as usize, at),
        BindFault::Override(name) => Stop::Refused(Refusal::Item(ItemFault::Override, name)),
        BindFault::Eval(fault) => stop_of_value(fault),
        BindFault::OutOfMemory => Stop::OutOfMemory,
    }
}

/// The position as it is kept; where there is no such position memory is wanting.
fn position_of(position: usize) -> Result<u32, AllocError>
    ensures { IfOk result (λ kept. kept ≡ position) }
{
    match u32::try_from(position) {
        Ok(kept) => Ok(kept),
        Err(_) => Err(AllocError),
    }
}

/// The positions of the fields that the model names.
fn positions(alloc: Global, typed: &Typed) -> Result<Positions, AllocError>
    ensures { IfOk result (λ found. (place : ℕ) → position_in found place ≡ spec.positions typed.now.tree place) }
{
    let found = fields(alloc, typed)?;
    let mut positions = Positions::new(alloc);
    for field in found.as_slice() {
        positions.insert(field.place, position_of(field.position)?)?;
    }
    Ok(positions)
}

/// The data of the model.
pub fn data<'a>(
    alloc: Global,
    typed: &'a Typed,
    files: &'a [DataTree],
) -> Result<DataValues<'a>, Stop>
    ensures { Gives (HasData typed.now.tree files.now) (read_as data_of result) }
{
    let positions = positions(alloc, typed)?;
    match bind(alloc, positions, typed.tree.decls.as_slice(), files, &[]) {
        Ok(data) => Ok(data),
        Err(fault) => Err(stop_of_data(fault)),
    }
}
