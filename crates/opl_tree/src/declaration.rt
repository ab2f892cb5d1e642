//! The trees of declarations.
use crate::expression::{AddTree, NameTree, SetTree};
use opl_list::{Boxed, Seq};

/// A declaration.
#[derive(Drop)]
pub enum DeclTree {
    Data(DataDeclTree),
    Range(RangeTree),
    Enumeration(EnumTree),
    Structure(StructTree),
    Variable(VariableTree),
    Activity(ActivityTree),
    Unary(UnaryTree),
    Discrete(DiscreteTree),
    Schedule(ScheduleTree),
}

/// `TYPE NAME [DIMS] = INITIAL;`
#[derive(Drop)]
pub struct DataDeclTree {
    pub at: u32,
    pub kind: TypeTree,
    pub name: NameTree,
    pub dims: Option<DimsTree>,
    pub initial: InitialTree,
}

/// `...` or `ADD`
#[derive(Drop)]
pub enum InitialTree {
    /// The value stands in a data file.
    External(u32),
    Written(AddTree),
}

/// `int`, `NAME` or `{TYPE}`
#[derive(Drop)]
#[cycle(types)]
pub enum TypeTree {
    Int(u32),
    Named(NameTree),
    Set(u32, Boxed<TypeTree>),
}

/// `[DIM, DIM, ..]`
#[derive(Drop)]
pub struct DimsTree {
    pub at: u32,
    pub first: DimTree,
    pub rest: Seq<DimTree>,
}

/// `SET` or `NAME in SET`
#[derive(Drop)]
pub struct DimTree {
    pub at: u32,
    pub name: Option<NameTree>,
    pub set: SetTree,
}

/// `range NAME ADD..ADD;`
#[derive(Drop)]
pub struct RangeTree {
    pub at: u32,
    pub name: NameTree,
    pub low: AddTree,
    pub high: AddTree,
}

/// `enum NAME NAMES;`
#[derive(Drop)]
pub struct EnumTree {
    pub at: u32,
    pub name: NameTree,
    pub names: EnumNamesTree,
}

/// `{NAME, NAME, ..}`, or `...` with or without `=` before it
#[derive(Drop)]
pub enum EnumNamesTree {
    Listed(u32, NameTree, Seq<NameTree>),
    /// The names stand in a data file; whether `=` is written.
    External(u32, bool),
}

/// `struct NAME {FIELD FIELD ..};`
#[derive(Drop)]
pub struct StructTree {
    pub at: u32,
    pub name: NameTree,
    pub first: FieldTree,
    pub rest: Seq<FieldTree>,
}

/// `TYPE NAME;`
#[derive(Drop)]
pub struct FieldTree {
    pub at: u32,
    pub kind: TypeTree,
    pub name: NameTree,
}

/// `var TYPE NAME [DIMS] [BOUNDS];`
#[derive(Drop)]
pub struct VariableTree {
    pub at: u32,
    pub kind: VariableTypeTree,
    pub name: NameTree,
    pub dims: Option<DimsTree>,
    pub bounds: Option<BoundsTree>,
}

/// `int` or `NAME`
#[derive(Drop)]
pub enum VariableTypeTree {
    Int(u32),
    Named(NameTree),
}

/// `in ADD..ADD`
#[derive(Drop)]
pub struct BoundsTree {
    pub at: u32,
    pub low: AddTree,
    pub high: AddTree,
}

/// `Activity NAME [DIMS] (ADD);` or `Activity NAME [DIMS] (ADD..ADD);`
#[derive(Drop)]
pub struct ActivityTree {
    pub at: u32,
    pub name: NameTree,
    pub dims: Option<DimsTree>,
    pub shortest: AddTree,
    pub longest: Option<AddTree>,
}

/// `UnaryResource NAME [DIMS];`
#[derive(Drop)]
pub struct UnaryTree {
    pub at: u32,
    pub name: NameTree,
    pub dims: Option<DimsTree>,
}

/// `DiscreteResource NAME [DIMS] (ADD);`
#[derive(Drop)]
pub struct DiscreteTree {
    pub at: u32,
    pub name: NameTree,
    pub dims: Option<DimsTree>,
    pub capacity: AddTree,
}

/// `scheduleOrigin = ADD;` or `scheduleHorizon = ADD;`
#[derive(Drop)]
pub struct ScheduleTree {
    pub at: u32,
    pub end: ScheduleEnd,
    pub value: AddTree,
}

/// Which end of the schedule is given.
#[derive(Clone, Copy)]
pub enum ScheduleEnd {
    /// `scheduleOrigin`
    Origin,
    /// `scheduleHorizon`
    Horizon,
}
