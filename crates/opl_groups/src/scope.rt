//! What is visible.
use opl_eval::{Environment, Parameter};

/// The declared names with their values, and the parameters, each of which hides what was visible by its name before it.
#[derive(Clone, Copy)]
pub struct Scope<'a> {
    pub environment: &'a Environment<'a>,
    pub parameters: &'a [Parameter<'a>],
}
