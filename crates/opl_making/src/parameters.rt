//! Parameters by name.
ghost use Rattle.std.specs.Prelude.{◌≡◌, None, map};
ghost use Rattle.std.specs.Option.{option_copied};
ghost use Rattle.opl_eval.specs.Evaluation.{parameter_or};
ghost use Rattle.opl_eval.specs.Visible.{parameter_of};

use opl_eval::Parameter;
use opl_value::Value;

/// The value of the latest parameter of that name, if there is one.
pub fn parameter<'a>(parameters: &'a [Parameter<'a>], name: &[u8]) -> Option<&'a Value>
    ensures { option_copied result ≡ parameter_or None name.now (map parameter_of parameters.now) }
{
    let mut found = None;
    for parameter in parameters {
        if parameter.name == name {
            found = Some(parameter.value);
        }
    }
    found
}
