//! The elements of a set that was found.
ghost use Rattle.std.specs.Prelude.{◌≡◌, [], IfOk};
ghost use Rattle.opl_eval.specs.Evaluation as spec;
ghost use Rattle.opl_eval.specs.Turns.{left};

use opl_eval::Elements;
use opl_list::Seq;
use opl_value::Value;
use std::alloc::{AllocError, Global};
use std::rc::Rc;

/// The elements of a set, a range or the enumeration of this declaration. An enumeration of 2^32 names or more counts as one for
/// which memory is wanting.
#[tactic(auto, using(opl_eval::proofs::SetElements::elements_of_variants))]
pub(crate) fn elements_of(
    alloc: Global,
    declaration: u32,
    set: Value,
) -> Result<Elements, AllocError>
    ensures { IfOk result (λ r. left r ≡ spec.elements declaration set) }
{
    match set {
        Value::Set(elements) => listed(alloc, elements),
        Value::Range(low, high) => Ok(Elements::Between(low, high)),
        Value::Names(names) => match u32::try_from(names.len()) {
            Ok(end) => Ok(Elements::Named(declaration, 0, end)),
            Err(_) => Err(AllocError),
        },
        Value::Int(_) | Value::Bool(_) | Value::Enum(..) | Value::Record(_) | Value::Array(..) => {
            Ok(none())
        }
    }
}

/// These elements.
fn listed(alloc: Global, elements: Seq<Value>) -> Result<Elements, AllocError>
    ensures { IfOk result (λ r. left r ≡ elements) }
{
    Ok(Elements::Listed(Rc::new(alloc, elements)?, 0))
}

/// No elements.
fn none() -> Elements
    ensures { left result ≡ [] }
{
    Elements::Named(0, 0, 0)
}
