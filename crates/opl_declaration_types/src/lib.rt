//! The types of declarations: what each makes visible, and the types of the expressions in it, or its first fault.
#![tactic(auto)]

mod declaration;

pub use declaration::all_decls;
