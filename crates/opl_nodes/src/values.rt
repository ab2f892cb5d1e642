//! What values count as.
ghost use Rattle.std.specs.Prelude.{◌≡◌};
ghost use Rattle.opl_eval.specs.Compare as compare;
ghost use Rattle.opl_eval.specs.Evaluation as evaluation;

use opl_value::Value;

/// Where a value stands in its order: a number where it is, a name of an enumeration at its position.
#[tactic(auto, using(crate::proofs::Views::ranks))]
pub fn rank(value: &Value) -> i128
    ensures { result ≡ compare.rank value.now }
{
    match value {
        Value::Int(number) => *number,
        Value::Bool(holds) => *holds as i128,
        Value::Enum(_, position) => *position as i128,
        Value::Record(_) | Value::Set(_) | Value::Range(..) | Value::Names(_) | Value::Array(..) =>
            0,
    }
}

/// Whether a value is true.
#[tactic(auto, using(crate::proofs::Views::truths))]
pub fn is_true(value: &Value) -> bool
    ensures { result ≡ evaluation.is_true value.now }
{
    match value {
        Value::Bool(holds) => *holds,
        Value::Int(_)
        | Value::Enum(..)
        | Value::Record(_)
        | Value::Set(_)
        | Value::Range(..)
        | Value::Names(_)
        | Value::Array(..) => false,
    }
}
