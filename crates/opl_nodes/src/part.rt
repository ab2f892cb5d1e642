//! Forms of parts, with their measures.
ghost use Rattle.std.specs.Prelude.{◌≡◌, ◌∷◌, [], IfNone, IfSome, None, Some, is_some};
ghost use Rattle.std.specs.Option.{option_copied};
ghost use Rattle.opl_form.specs.Parts.{all_known};
ghost use Rattle.opl_nodes.specs.Pieces as spec;

use opl_expr::{Cons, Expr};
use opl_list::Boxed;
use opl_value::Value;

/// What a part becomes: a value where no variable is left in it, and else a number, a name or a condition.
#[derive(Drop)]
pub enum Form {
    Known(Boxed<Value>),
    Number(Boxed<Expr>),
    /// A name of the enumeration of this declaration, by its position.
    Name(u32, Boxed<Expr>),
    Condition(Boxed<Cons>),
    /// A condition in an arithmetic place.
    Truth(Boxed<Cons>),
}

/// A form with its measures.
#[derive(Drop)]
pub struct Part {
    pub form: Form,
    /// The magnitude: no value of it has a greater absolute value, where a name counts as its position.
    pub size: u128,
    /// How deep it nests.
    pub depth: u32,
    /// How many nodes it has.
    pub nodes: u32,
}

impl Part {
    /// The value of a part in which no variable is left.
    pub fn value(&self) -> Option<&Value>
        ensures { option_copied result ≡ spec.value_of (spec.form self.now) }
    {
        match &self.form {
            Form::Known(value) => Some(value.get()),
            Form::Number(_) | Form::Name(..) | Form::Condition(_) | Form::Truth(_) => None,
        }
    }

    /// Whether a variable is left in the part nowhere.
    pub fn is_known(&self) -> bool
        ensures { result ≡ is_some (spec.value_of (spec.form self.now)) }
    {
        match &self.form {
            Form::Known(_) => true,
            Form::Number(_) | Form::Name(..) | Form::Condition(_) | Form::Truth(_) => false,
        }
    }
}

/// The values of two parts, where a variable is left in neither.
#[tactic(auto, using(crate::proofs::Knowns::two_known))]
pub fn both_values<'a>(left: &'a Part, right: &'a Part) -> Option<(&'a Value, &'a Value)>
    ensures some { IfSome result (λ p. all_known (spec.form left.now ∷ spec.form right.now ∷ []) ≡ Some (p.0.now ∷ p.1.now ∷ [])) }
    ensures none { IfNone result (all_known (spec.form left.now ∷ spec.form right.now ∷ []) ≡ None) }
{
    match left.value() {
        Some(left) => match right.value() {
            Some(right) => Some((left, right)),
            None => None,
        },
        None => None,
    }
}
