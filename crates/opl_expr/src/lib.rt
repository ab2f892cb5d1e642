//! Ground expressions and constraints: their forms, their ranges, and what they mean on assignments.
#![tactic(auto)]

mod copy;
mod copy_core;
mod eval;
mod forms;
pub mod laws;
mod model;
mod numbers;
mod search;
mod tables;

pub use eval::{holds, value};
pub use forms::{Ask, Cons, Expr, Op};
pub use model::{Core, Goal};
pub use opl_domain::OutOfMemory;
pub use search::{Branch, Step};
pub use tables::{Cell, Resource, Table, Use};
