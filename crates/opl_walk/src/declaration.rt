//! The walk over declarations.
ghost use Rattle.std.specs.Prelude.{◌≡◌};
ghost use Rattle.opl_tree.specs.Marks as marks;
ghost use Rattle.opl_walk.specs.Told.{Follows, told};

use crate::expression::{walk_add, walk_more_names, walk_set};
use crate::visitor::{Visitor, open, walk_name};
use crate::words::schedule_word;
use opl_token::Sign;
use opl_tree::{
    ActivityTree, BoundsTree, DataDeclTree, DeclTree, DimTree, DimsTree, DiscreteTree,
    EnumNamesTree, EnumTree, FieldTree, InitialTree, Keyword, RangeTree, ScheduleTree, StructTree,
    TypeTree, UnaryTree, VariableTree, VariableTypeTree,
};

/// Tells a declaration.
#[tactic(auto, using(opl_tree::proofs::Marks::decl_marks, crate::proofs::Telling::telling))]
pub(crate) fn walk_decl<V: Visitor>(level: u32, t: &DeclTree, visitor: &mut V)
    ensures { Follows V.is_whole visitor.old (told V.token V.opens level (marks.marks_decl t.now)) visitor.new }
{
    match t {
        DeclTree::Data(inner) => walk_data(level, inner, visitor),
        DeclTree::Range(inner) => walk_range(level, inner, visitor),
        DeclTree::Enumeration(inner) => walk_enum(level, inner, visitor),
        DeclTree::Structure(inner) => walk_struct(level, inner, visitor),
        DeclTree::Variable(inner) => walk_variable(level, inner, visitor),
        DeclTree::Activity(inner) => walk_activity(level, inner, visitor),
        DeclTree::Unary(inner) => walk_unary(level, inner, visitor),
        DeclTree::Discrete(inner) => walk_discrete(level, inner, visitor),
        DeclTree::Schedule(inner) => walk_schedule(level, inner, visitor),
    }
}

/// Tells a declaration of data.
#[tactic(auto, using(opl_tree::proofs::Marks::data_marks, crate::proofs::Telling::telling))]
fn walk_data<V: Visitor>(level: u32, t: &DataDeclTree, visitor: &mut V)
    ensures { Follows V.is_whole visitor.old (told V.token V.opens level (marks.marks_data t.now)) visitor.new }
{
    walk_type(level, &t.kind, visitor);
    walk_name(level, &t.name, visitor);
    if let Some(dims) = &t.dims {
        walk_dims(level, dims, visitor);
    }
    visitor.sign(Sign::Equal);
    walk_initial(level, &t.initial, visitor);
    visitor.sign(Sign::Semicolon)
}

/// Tells what data begin with.
#[tactic(auto, using(opl_tree::proofs::Marks::initial_marks, crate::proofs::Telling::telling))]
fn walk_initial<V: Visitor>(level: u32, t: &InitialTree, visitor: &mut V)
    ensures { Follows V.is_whole visitor.old (told V.token V.opens level (marks.marks_initial t.now)) visitor.new }
{
    match t {
        InitialTree::External(_) => visitor.sign(Sign::Ellipsis),
        InitialTree::Written(value) => walk_add(level, value, visitor),
    }
}

/// Tells a type.
#[cycle(types)]
#[tactic(auto, using(opl_tree::proofs::Marks::type_marks, crate::proofs::Telling::telling))]
fn walk_type<V: Visitor>(level: u32, t: &TypeTree, visitor: &mut V)
    ensures { Follows V.is_whole visitor.old (told V.token V.opens level (marks.marks_type t.now)) visitor.new }
{
    match t {
        TypeTree::Int(_) => visitor.word(Keyword::Int),
        TypeTree::Named(named) => walk_name(level, named, visitor),
        TypeTree::Set(_, element) => {
            let inner = open(level, Sign::OpenBrace, visitor);
            walk_type(inner, element.get(), visitor);
            visitor.sign(Sign::CloseBrace)
        }
    }
}

/// Tells dimensions.
#[tactic(auto, using(opl_tree::proofs::Marks::dims_marks, crate::proofs::Telling::telling, crate::proofs::Telling::lists))]
fn walk_dims<V: Visitor>(level: u32, t: &DimsTree, visitor: &mut V)
    ensures { Follows V.is_whole visitor.old (told V.token V.opens level (marks.marks_dims t.now)) visitor.new }
{
    let inner = open(level, Sign::OpenBracket, visitor);
    walk_dim(inner, &t.first, visitor);
    for dim in t.rest.as_slice() {
        visitor.sign(Sign::Comma);
        walk_dim(inner, dim, visitor);
    }
    visitor.sign(Sign::CloseBracket)
}

/// Tells a dimension.
#[tactic(auto, using(opl_tree::proofs::Marks::dim_marks, crate::proofs::Telling::telling))]
fn walk_dim<V: Visitor>(level: u32, t: &DimTree, visitor: &mut V)
    ensures { Follows V.is_whole visitor.old (told V.token V.opens level (marks.marks_dim t.now)) visitor.new }
{
    if let Some(name) = &t.name {
        walk_name(level, name, visitor);
        visitor.word(Keyword::In);
    }
    walk_set(level, &t.set, visitor)
}

/// Tells a range.
#[tactic(auto, using(opl_tree::proofs::Marks::range_marks, crate::proofs::Telling::telling))]
fn walk_range<V: Visitor>(level: u32, t: &RangeTree, visitor: &mut V)
    ensures { Follows V.is_whole visitor.old (told V.token V.opens level (marks.marks_range t.now)) visitor.new }
{
    visitor.word(Keyword::Range);
    walk_name(level, &t.name, visitor);
    walk_add(level, &t.low, visitor);
    visitor.sign(Sign::Range);
    walk_add(level, &t.high, visitor);
    visitor.sign(Sign::Semicolon)
}

/// Tells an enumeration.
#[tactic(auto, using(opl_tree::proofs::Marks::enum_marks, crate::proofs::Telling::telling))]
fn walk_enum<V: Visitor>(level: u32, t: &EnumTree, visitor: &mut V)
    ensures { Follows V.is_whole visitor.old (told V.token V.opens level (marks.marks_enum t.now)) visitor.new }
{
    visitor.word(Keyword::Enum);
    walk_name(level, &t.name, visitor);
    walk_enum_names(level, &t.names, visitor);
    visitor.sign(Sign::Semicolon)
}

/// Tells the names of an enumeration.
#[tactic(auto, using(opl_tree::proofs::Marks::enum_names_marks, crate::proofs::Telling::telling))]
fn walk_enum_names<V: Visitor>(level: u32, t: &EnumNamesTree, visitor: &mut V)
    ensures { Follows V.is_whole visitor.old (told V.token V.opens level (marks.marks_enum_names t.now)) visitor.new }
{
    match t {
        EnumNamesTree::Listed(_, head, rest) => {
            let inner = open(level, Sign::OpenBrace, visitor);
            walk_name(inner, head, visitor);
            walk_more_names(inner, rest.as_slice(), visitor);
            visitor.sign(Sign::CloseBrace)
        }
        EnumNamesTree::External(_, is_equated) => {
            if *is_equated {
                visitor.sign(Sign::Equal);
            }
            visitor.sign(Sign::Ellipsis)
        }
    }
}

/// Tells a structure.
#[tactic(auto, using(opl_tree::proofs::Marks::struct_marks, crate::proofs::Telling::telling, crate::proofs::Telling::lists))]
fn walk_struct<V: Visitor>(level: u32, t: &StructTree, visitor: &mut V)
    ensures { Follows V.is_whole visitor.old (told V.token V.opens level (marks.marks_struct t.now)) visitor.new }
{
    visitor.word(Keyword::Struct);
    walk_name(level, &t.name, visitor);
    let inner = open(level, Sign::OpenBrace, visitor);
    walk_field(inner, &t.first, visitor);
    for field in t.rest.as_slice() {
        walk_field(inner, field, visitor);
    }
    visitor.sign(Sign::CloseBrace);
    visitor.sign(Sign::Semicolon)
}

/// Tells a field.
#[tactic(auto, using(opl_tree::proofs::Marks::field_marks, crate::proofs::Telling::telling))]
fn walk_field<V: Visitor>(level: u32, t: &FieldTree, visitor: &mut V)
    ensures { Follows V.is_whole visitor.old (told V.token V.opens level (marks.marks_field t.now)) visitor.new }
{
    walk_type(level, &t.kind, visitor);
    walk_name(level, &t.name, visitor);
    visitor.sign(Sign::Semicolon)
}

/// Tells a variable.
#[tactic(auto, using(opl_tree::proofs::Marks::variable_marks, crate::proofs::Telling::telling))]
fn walk_variable<V: Visitor>(level: u32, t: &VariableTree, visitor: &mut V)
    ensures { Follows V.is_whole visitor.old (told V.token V.opens level (marks.marks_variable t.now)) visitor.new }
{
    visitor.word(Keyword::Var);
    walk_variable_type(level, &t.kind, visitor);
    walk_name(level, &t.name, visitor);
    if let Some(dims) = &t.dims {
        walk_dims(level, dims, visitor);
    }
    if let Some(bounds) = &t.bounds {
        walk_bounds(level, bounds, visitor);
    }
    visitor.sign(Sign::Semicolon)
}

/// Tells the type of a variable.
#[tactic(auto, using(opl_tree::proofs::Marks::variable_type_marks, crate::proofs::Telling::telling))]
fn walk_variable_type<V: Visitor>(level: u32, t: &VariableTypeTree, visitor: &mut V)
    ensures { Follows V.is_whole visitor.old (told V.token V.opens level (marks.marks_variable_type t.now)) visitor.new }
{
    match t {
        VariableTypeTree::Int(_) => visitor.word(Keyword::Int),
        VariableTypeTree::Named(named) => walk_name(level, named, visitor),
    }
}

/// Tells bounds.
#[tactic(auto, using(opl_tree::proofs::Marks::bounds_marks, crate::proofs::Telling::telling))]
fn walk_bounds<V: Visitor>(level: u32, t: &BoundsTree, visitor: &mut V)
    ensures { Follows V.is_whole visitor.old (told V.token V.opens level (marks.marks_bounds t.now)) visitor.new }
{
    visitor.word(Keyword::In);
    walk_add(level, &t.low, visitor);
    visitor.sign(Sign::Range);
    walk_add(level, &t.high, visitor)
}

/// Tells an activity.
#[tactic(auto, using(opl_tree::proofs::Marks::activity_marks, crate::proofs::Telling::telling))]
fn walk_activity<V: Visitor>(level: u32, t: &ActivityTree, visitor: &mut V)
    ensures { Follows V.is_whole visitor.old (told V.token V.opens level (marks.marks_activity t.now)) visitor.new }
{
    visitor.word(Keyword::Activity);
    walk_name(level, &t.name, visitor);
    if let Some(dims) = &t.dims {
        walk_dims(level, dims, visitor);
    }
    let inner = open(level, Sign::OpenParenthesis, visitor);
    walk_add(inner, &t.shortest, visitor);
    if let Some(longest) = &t.longest {
        visitor.sign(Sign::Range);
        walk_add(inner, longest, visitor);
    }
    visitor.sign(Sign::CloseParenthesis);
    visitor.sign(Sign::Semicolon)
}

/// Tells a unary resource.
#[tactic(auto, using(opl_tree::proofs::Marks::unary_marks, crate::proofs::Telling::telling))]
fn walk_unary<V: Visitor>(level: u32, t: &UnaryTree, visitor: &mut V)
    ensures { Follows V.is_whole visitor.old (told V.token V.opens level (marks.marks_unary t.now)) visitor.new }
{
    visitor.word(Keyword::UnaryResource);
    walk_name(level, &t.name, visitor);
    if let Some(dims) = &t.dims {
        walk_dims(level, dims, visitor);
    }
    visitor.sign(Sign::Semicolon)
}

/// Tells a discrete resource.
#[tactic(auto, using(opl_tree::proofs::Marks::discrete_marks, crate::proofs::Telling::telling))]
fn walk_discrete<V: Visitor>(level: u32, t: &DiscreteTree, visitor: &mut V)
    ensures { Follows V.is_whole visitor.old (told V.token V.opens level (marks.marks_discrete t.now)) visitor.new }
{
    visitor.word(Keyword::DiscreteResource);
    walk_name(level, &t.name, visitor);
    if let Some(dims) = &t.dims {
        walk_dims(level, dims, visitor);
    }
    let inner = open(level, Sign::OpenParenthesis, visitor);
    walk_add(inner, &t.capacity, visitor);
    visitor.sign(Sign::CloseParenthesis);
    visitor.sign(Sign::Semicolon)
}

/// Tells an end of the schedule.
#[tactic(auto, using(opl_tree::proofs::Marks::schedule_marks, crate::proofs::Telling::telling))]
fn walk_schedule<V: Visitor>(level: u32, t: &ScheduleTree, visitor: &mut V)
    ensures { Follows V.is_whole visitor.old (told V.token V.opens level (marks.marks_schedule t.now)) visitor.new }
{
    visitor.word(schedule_word(t.end));
    visitor.sign(Sign::Equal);
    walk_add(level, &t.value, visitor);
    visitor.sign(Sign::Semicolon)
}
