//! Letting go of trees. Whoever lets go of a value proves of each type in it how that is done, which takes two minutes of a
//! processor for the trees of a model. So this crate alone does it; the others call `let_go`.
#![tactic(auto)]

mod parts;
mod trees;

/// What is let go of by a call. As the bound of a parameter it stands in place of `Drop`: whoever calls such a function proves
/// nothing of how the value ends.
pub trait LetGo {
    /// Lets go of the value.
    fn let_go(self);
}
