//! What forms are made for, and of what.
use opl_declared::Declared;
use opl_nodes::Context;

/// What the forms of an item are made for, and what names stand for in it.
#[derive(Clone, Copy)]
pub struct Site<'a> {
    pub context: &'a Context<'a>,
    pub declared: &'a Declared<'a>,
}
