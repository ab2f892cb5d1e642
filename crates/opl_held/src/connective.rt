//! Equivalences, disjunctions and conjunctions of parts.
ghost use Rattle.std.specs.Prelude.{◌≡◌};
ghost use Rattle.opl_held.specs.Gathered as spec;
ghost use Rattle.opl_held.specs.Outcomes.{changed};

use crate::outcome::{Outcome, both};
use opl_nodes::is_true;
use opl_value::Value;

/// How truths are put together.
#[derive(Drop, Clone, Copy)]
pub(crate) enum Connective {
    Equivalent,
    Or,
    And,
}

/// What no truths come to.
pub(crate) fn start(connective: Connective) -> bool
    ensures { result ≡ spec.start connective }
{
    match connective {
        Connective::Equivalent | Connective::And => true,
        Connective::Or => false,
    }
}

/// Two truths put together.
fn joined(connective: Connective, first: bool, second: bool) -> bool
    ensures { result ≡ spec.joined connective first second }
{
    match connective {
        Connective::Equivalent => { if first { second } else { !second } }
        Connective::Or => first || second,
        Connective::And => first && second,
    }
}

/// The truths so far, and one part more.
pub(crate) fn met(
    connective: Connective,
    so_far: Outcome<bool>,
    part: Outcome<Value>,
) -> Outcome<bool>
    ensures { result ≡ spec.met connective so_far part }
{
    match both(so_far, part) {
        Outcome::Fixed((so_far, value)) => {
            Outcome::Fixed(joined(connective, so_far, is_true(&value)))
        }
        Outcome::Live(Some((so_far, value))) => {
            Outcome::Live(Some(joined(connective, so_far, is_true(&value))))
        }
        Outcome::Live(None) => Outcome::Live(None), // Beside a decided part too.
    }
}

/// A truth as a value.
pub(crate) fn truth(holds: Outcome<bool>) -> Outcome<Value>
    ensures { result ≡ changed Value.Bool holds }
{
    match holds {
        Outcome::Fixed(holds) => Outcome::Fixed(Value::Bool(holds)),
        Outcome::Live(Some(holds)) => Outcome::Live(Some(Value::Bool(holds))),
        Outcome::Live(None) => Outcome::Live(None),
    }
}
