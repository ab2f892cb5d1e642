//! What a step of a chain does.
ghost use Rattle.std.specs.Prelude.{◌≡◌};
ghost use Rattle.opl_draft.specs.Drafts as drafts;
ghost use Rattle.opl_draft.specs.Settled.{divides};
ghost use Rattle.opl_held.specs.Signs as spec;

use opl_eval::Operation;

/// What a step of a chain does.
#[derive(Drop, Clone, Copy)]
pub(crate) enum Sign {
    Plus,
    Minus,
    Times,
    Quotient,
    Remainder,
}

/// Whether a step divides.
pub(crate) fn divides(sign: Sign) -> bool
    ensures { result ≡ divides (spec.sign sign) }
{
    match sign {
        Sign::Quotient | Sign::Remainder => true,
        Sign::Plus | Sign::Minus | Sign::Times => false,
    }
}

/// A step with its operand.
pub(crate) fn operation(sign: Sign, operand: i128) -> Operation
    ensures { result ≡ drafts.operation (spec.sign sign) operand }
{
    match sign {
        Sign::Plus => Operation::Plus(operand),
        Sign::Minus => Operation::Minus(operand),
        Sign::Times => Operation::Times(operand),
        Sign::Quotient => Operation::Quotient(operand),
        Sign::Remainder => Operation::Remainder(operand),
    }
}
