//! Types, index sets, and the values that data files give.
#![tactic(auto)]

mod assigned;
mod axis;
mod cells;
mod declare;
mod elements;
mod enumeration;
mod fault;
mod form;
mod given;
mod index;
mod inside;
mod item;
pub mod laws;
mod learn;
mod names;
mod place;
mod space;
mod types;
mod value;

pub use assigned::Override;
pub use axis::Axis;
pub use declare::{copied_names, form_of, listed_names};
pub use elements::{Element, Elements, elements_of, no_elements};
pub use enumeration::given_names;
pub use fault::BindFault;
pub use form::Form;
pub use given::{Given, GivenValue, all_given};
pub use index::{index_set, position_of};
pub use inside::is_inside;
pub use item::{given_array, is_array, missing, single_value};
pub use names::Names;
pub use space::{array_over, keys_of, space_of};
pub use types::Types;
pub use value::{element_of, parts_of, set_of};
