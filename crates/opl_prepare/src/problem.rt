//! What a call is about, made ready for its command.
use opl_expr::Core;
use opl_list::Seq;
use opl_meaning::VariableItem;
use std::rc::Rc;

/// The decision variables of a model with its data, the names of its enumerations by the numbers of their declarations, and its core.
#[derive(Drop)]
pub struct Problem<'a> {
    pub enumerations: Seq<Seq<&'a [u8]>>,
    pub variables: Seq<VariableItem>,
    pub core: Rc<Core>,
}
