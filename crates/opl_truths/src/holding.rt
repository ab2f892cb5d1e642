//! What truths of values come to.
ghost use Rattle.std.specs.Prelude.{◌≡◌, ◌||◌, not};
ghost use Rattle.std.specs.List.{list_all, list_any};
ghost use Rattle.opl_eval.specs.Evaluation as evaluation;
ghost use Rattle.opl_truths.specs.Conditions as spec;

use opl_nodes::{Part, is_true};
use opl_value::Value;

/// Whether one value is false or the other true.
pub(crate) fn implies(premise: &Value, conclusion: &Value) -> bool
    ensures { result ≡ (not (evaluation.is_true premise.now) || evaluation.is_true conclusion.now) }
{
    !is_true(premise) || is_true(conclusion)
}

/// Whether two values are equally true.
pub(crate) fn agree(left: &Value, right: &Value) -> bool
    ensures { result ≡ evaluation.same (evaluation.is_true left.now) (evaluation.is_true right.now) }
{
    if is_true(left) {
        is_true(right)
    } else {
        !is_true(right)
    }
}

/// Whether a part is a value that is true.
fn is_true_part(part: &Part) -> bool
    ensures { result ≡ spec.is_true_part part.now }
{
    match part.value() {
        Some(value) => is_true(value),
        None => false,
    }
}

/// Whether one of the parts is a value that is true.
pub(crate) fn any_true(parts: &[Part]) -> bool
    ensures { result ≡ list_any spec.is_true_part parts.now }
{
    parts.iter().any(|part| is_true_part(part))
}

/// Whether all of the parts are values that are true.
pub(crate) fn all_true(parts: &[Part]) -> bool
    ensures { result ≡ list_all spec.is_true_part parts.now }
{
    parts.iter().all(|part| is_true_part(part))
}
