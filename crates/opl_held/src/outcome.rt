//! What a part of a condition comes to under an assignment.
ghost use Rattle.std.specs.Prelude.{◌≡◌};
ghost use Rattle.opl_held.specs.Outcomes as spec;

/// What a part comes to under an assignment of the decision variables.
#[derive(Drop)]
pub(crate) enum Outcome<T> {
    /// No decision variable is left in it: it comes to this under every assignment.
    Fixed(T),
    /// A decision variable is left in it: what it comes to, if it is defined.
    Live(Option<T>),
}

/// What a part comes to, if it is defined.
fn value_of<T: Drop>(part: Outcome<T>) -> Option<T>
    ensures { result ≡ spec.value_of part }
{
    match part {
        Outcome::Fixed(value) => Some(value),
        Outcome::Live(value) => value,
    }
}

/// Both of two, if both are there.
fn pair_of<A: Drop, B: Drop>(first: Option<A>, second: Option<B>) -> Option<(A, B)>
    ensures { result ≡ spec.pair_of first second }
{
    match first {
        Some(first) => match second {
            Some(second) => Some((first, second)),
            None => None,
        },
        None => None,
    }
}

/// Two parts together: a variable that is left in one is left in both.
pub(crate) fn both<A: Drop, B: Drop>(first: Outcome<A>, second: Outcome<B>) -> Outcome<(A, B)>
    ensures { result ≡ spec.both first second }
{
    match first {
        Outcome::Fixed(first) => match second {
            Outcome::Fixed(second) => Outcome::Fixed((first, second)),
            Outcome::Live(second) => Outcome::Live(pair_of(Some(first), second)),
        },
        Outcome::Live(first) => Outcome::Live(pair_of(first, value_of(second))),
    }
}
