//! From a model whose expressions have types and its data files to its core.
ghost use Rattle.std.specs.Prelude.{◌≡◌, [], Ok};
ghost use Rattle.opl_bind.specs.Readings.{data_of};
ghost use Rattle.opl_meaning.specs.Variables.{variables_in};
ghost use Rattle.opl_prepare.specs.Data.{HasVariables, IsClean, Prepared, Runs, place_of as the_place, refusal_of_variables};
ghost use Rattle.opl_prepare.specs.Prepared.{GivesCore, GivesPosed, StopsForms, read_as, stop_at};
ghost use Rattle.opl_files.specs.Stage.{Gives};
ghost use Rattle.opl_show.specs.Readings.{names_of};

use crate::binding::{data, stop_of_value};
use crate::problem::Problem;
use opl_bind::DataValues;
use opl_expr::Core;
use opl_files::{Fault, Front, Stop, refused};
use opl_grounding::ground;
use opl_list::Seq;
use opl_meaning::{MeaningFault, VariableItem, variables};
use opl_nodes::FormFault;
use opl_runs::{is_clean, not_yet};
use opl_tree::InstrTree;
use opl_types::Typed;
use std::alloc::Global;
use std::rc::Rc;

/// All of the model runs today.
fn runs(alloc: Global, typed: &Typed) -> Result<(), Stop>
    ensures { Gives (Runs typed.now.tree) result }
{
    match not_yet(alloc, &typed.tree)? {
        Some(at) => Err(refused(Fault::NotYet, 0, at)),
        None => Ok(()),
    }
}

/// Why a call ends at a fault of variables.
fn stop_of_meaning(fault: MeaningFault) -> Stop
    ensures { result ≡ stop_at (refusal_of_variables fault) }
{
    match fault {
        MeaningFault::Eval(fault) => stop_of_value(fault),
        MeaningFault::TooManyVariables(at) => refused(Fault::LimitVariables, 0, at),
        MeaningFault::TooFar(at) => refused(Fault::LimitValue, 0, at),
        MeaningFault::TooWide(at) => refused(Fault::LimitDomain, 0, at),
        MeaningFault::TooManyValues(at) => refused(Fault::LimitDomains, 0, at),
        MeaningFault::OutOfMemory => Stop::OutOfMemory,
    }
}

/// Why a call ends at a fault of constraints.
fn stop_of_forms(fault: FormFault) -> Stop
    ensures { StopsForms fault result }
{
    match fault {
        FormFault::Eval(fault) => stop_of_value(fault),
        FormFault::TooLarge(at) => refused(Fault::TooLarge, 0, at),
        FormFault::Depth(at) => refused(Fault::LimitDepth, 0, at),
        FormFault::Nodes(at) => refused(Fault::LimitNodes, 0, at),
        FormFault::OutOfMemory => Stop::OutOfMemory,
    }
}

/// The decision variables of the model.
fn variables_of(
    alloc: Global,
    typed: &Typed,
    data: &DataValues<'_>,
) -> Result<Seq<VariableItem>, Stop>
    ensures { Gives (HasVariables typed.now.tree (data_of «data».now)) result }
{
    match variables(alloc, &data.environment, typed.tree.decls.as_slice()) {
        Ok(variables) => Ok(variables),
        Err(fault) => Err(stop_of_meaning(fault)),
    }
}

/// The place of an instruction's first token.
fn place_of(instruction: &InstrTree) -> u32
    ensures { result ≡ the_place instruction.now }
{
    match instruction {
        InstrTree::Solve(at, ..) => *at,
        InstrTree::Optimize(at, ..) => *at,
    }
}

/// The decision variables stand in the instruction only where they may. Typing rules out all else but what does not run yet.
fn clean(
    alloc: Global,
    typed: &Typed,
    data: &DataValues<'_>,
    variables: &[VariableItem],
) -> Result<(), Stop>
    requires { variables_in (data_of «data».now).environment [] typed.now.tree.decls ≡ Ok variables.now }
    ensures { Gives (IsClean typed.now.tree variables.now) result }
{
    if is_clean(alloc, variables, &typed.tree.instr)? {
        return Ok(());
    }
    Err(refused(Fault::NotYet, 0, place_of(&typed.tree.instr)))
}

/// The core of the model.
fn core_of(
    alloc: Global,
    typed: &Typed,
    data: &DataValues<'_>,
    enumerations: &[Seq<&[u8]>],
    variables: &[VariableItem],
) -> Result<Rc<Core>, Stop>
    requires { variables_in (data_of «data».now).environment [] typed.now.tree.decls ≡ Ok variables.now }
    ensures { GivesCore typed.now.tree (data_of «data».now) (names_of enumerations.now) variables.now (read_as (λ core. core.value) result) }
{
    match ground(
        alloc,
        enumerations,
        &data.environment,
        variables,
        &typed.tree,
    ) {
        Ok(core) => Ok(Rc::new(alloc, core)?),
        Err(fault) => Err(stop_of_forms(fault)),
    }
}

/// What the model and the data files come to.
pub fn prepare<'a>(alloc: Global, front: &'a Front) -> Result<Problem<'a>, Stop>
    ensures { GivesPosed (Prepared front.now.typed.tree front.now.files) result }
{
    opl_complete::laws::search_finds_all();
    opl_complete::laws::search_begins();
    opl_complete::laws::values_mean();
    let typed = &front.typed;
    runs(alloc, typed)?;
    let data = data(alloc, typed, front.files.as_slice())?;
    let variables = variables_of(alloc, typed, &data)?;
    clean(alloc, typed, &data, variables.as_slice())?;
    let enumerations = data.enumerations(alloc)?;
    let core = core_of(
        alloc,
        typed,
        &data,
        enumerations.as_slice(),
        variables.as_slice(),
    )?;
    Ok(Problem {
        enumerations,
        variables,
        core,
    })
}
