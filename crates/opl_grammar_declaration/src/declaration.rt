//! Declarations.
ghost use Rattle.std.specs.Prelude.{◌≡◌};
ghost use Rattle.opl_grammar.specs.Declarations as rules;
ghost use Rattle.opl_grammar.specs.Input as steps;
ghost use Rattle.opl_grammar.specs.Input.{Reads};
ghost use Rattle.opl_grammar.specs.Tables as tables;

use opl_grammar::Cursor;
use opl_grammar::keeping::keep;
use opl_grammar::list::{Part, many};
use opl_grammar::tables::{schedule_end, starts_decl, starts_type};
use opl_level::{Below, Level, name};
use opl_list::{Boxed, Seq};
use opl_token::Sign;
use opl_tree::{
    ActivityTree, AddTree, BoundsTree, DataDeclTree, DeclTree, DimsTree, DiscreteTree,
    EnumNamesTree, EnumTree, InitialTree, Keyword, RangeTree, ScheduleTree, StructTree,
    SyntaxFault, UnaryTree, VariableTree, VariableTypeTree,
};

/// A tree without its box.
fn unboxed(t: Option<Boxed<AddTree>>) -> Option<AddTree>
    ensures { result ≡ t }
{
    match t {
        Some(inner) => Some(inner.into_inner()),
        None => None,
    }
}

/// `[DIM, DIM, ..]`
#[tactic(auto, unfolding(opl_grammar::specs::Declarations::dims_tree))]
fn dims_tree<B: Below>(level: &Level<B>, cursor: &mut Cursor<'_>) -> Result<DimsTree, SyntaxFault>
    requires { B.is_ready level.now.below }
    ensures { Reads (rules.dims_tree (B.rules level.now.below) cursor.old) result cursor.new }
{
    let at = cursor.place();
    cursor.expect_sign(Sign::OpenBracket)?;
    let dims = level.below.dims(cursor, at)?;
    let ((first, rest), ()) = keep(dims, cursor.expect_sign(Sign::CloseBracket))?;
    Ok(DimsTree { at, first, rest })
}

/// `[DIM, DIM, ..]` or nothing
#[tactic(auto, unfolding(opl_grammar::specs::Declarations::optional_dims))]
fn optional_dims<B: Below>(
    level: &Level<B>,
    cursor: &mut Cursor<'_>,
) -> Result<Option<DimsTree>, SyntaxFault>
    requires { B.is_ready level.now.below }
    ensures { Reads (rules.optional_dims (B.rules level.now.below) cursor.old) result cursor.new }
{
    if cursor.sees_sign(Sign::OpenBracket) {
        Ok(Some(dims_tree(level, cursor)?))
    } else {
        Ok(None)
    }
}

/// `...`
#[tactic(auto, unfolding(opl_grammar::specs::Declarations::external))]
fn external<B: Below>(level: &Level<B>, cursor: &mut Cursor<'_>) -> Result<InitialTree, SyntaxFault>
    requires { B.is_ready level.now.below }
    ensures { Reads (rules.external (B.rules level.now.below) cursor.old) result cursor.new }
{
    let at = cursor.place();
    cursor.expect_sign(Sign::Ellipsis)?;
    Ok(InitialTree::External(at))
}

/// `...` or `ADD`
#[tactic(auto, unfolding(opl_grammar::specs::Declarations::initial))]
fn initial<B: Below>(level: &Level<B>, cursor: &mut Cursor<'_>) -> Result<InitialTree, SyntaxFault>
    requires { B.is_ready level.now.below }
    ensures { Reads (rules.initial (B.rules level.now.below) cursor.old) result cursor.new }
{
    if cursor.sees_sign(Sign::Ellipsis) {
        external(level, cursor)
    } else {
        Ok(InitialTree::Written(level.add(cursor)?.into_inner()))
    }
}

/// `TYPE NAME [DIMS] = INITIAL;`
#[tactic(auto, unfolding(opl_grammar::specs::Declarations::data_decl))]
fn data_decl<B: Below>(
    level: &Level<B>,
    cursor: &mut Cursor<'_>,
) -> Result<DataDeclTree, SyntaxFault>
    requires { B.is_ready level.now.below }
    ensures { Reads (rules.data_decl (B.rules level.now.below) cursor.old) result cursor.new }
{
    let at = cursor.place();
    let kind = level.type_tree(cursor)?;
    let named = keep(kind, name(level.alloc, cursor))?;
    let parts = keep(named, optional_dims(level, cursor))?;
    let (parts, ()) = keep(parts, cursor.expect_sign(Sign::Equal))?;
    let parts = keep(parts, initial(level, cursor))?;
    let ((((kind, name), dims), initial), ()) = keep(parts, cursor.expect_sign(Sign::Semicolon))?;
    Ok(DataDeclTree {
        at,
        kind,
        name,
        dims,
        initial,
    })
}

/// `range NAME ADD..ADD;`
#[tactic(auto, unfolding(opl_grammar::specs::Declarations::range_decl))]
fn range_decl<B: Below>(level: &Level<B>, cursor: &mut Cursor<'_>) -> Result<RangeTree, SyntaxFault>
    requires { B.is_ready level.now.below }
    ensures { Reads (rules.range_decl (B.rules level.now.below) cursor.old) result cursor.new }
{
    let at = cursor.place();
    cursor.expect_word(Keyword::Range)?;
    let name = name(level.alloc, cursor)?;
    let low = level.add(cursor)?;
    let ends = keep(low, level.upper(cursor))?;
    let ((low, high), ()) = keep(ends, cursor.expect_sign(Sign::Semicolon))?;
    Ok(RangeTree {
        at,
        name,
        low: low.into_inner(),
        high: high.into_inner(),
    })
}

/// `{NAME, NAME, ..}`
#[tactic(auto, unfolding(opl_grammar::specs::Declarations::listed_names))]
fn listed_names<B: Below>(
    level: &Level<B>,
    cursor: &mut Cursor<'_>,
) -> Result<EnumNamesTree, SyntaxFault>
    requires { B.is_ready level.now.below }
    ensures { Reads (rules.listed_names (B.rules level.now.below) cursor.old) result cursor.new }
{
    let at = cursor.place();
    cursor.expect_sign(Sign::OpenBrace)?;
    let names = level.below.names(cursor, at)?;
    let ((first, rest), ()) = keep(names, cursor.expect_sign(Sign::CloseBrace))?;
    Ok(EnumNamesTree::Listed(at, first, rest))
}

/// `...`, with or without `=` before it
#[tactic(auto, unfolding(opl_grammar::specs::Declarations::external_names))]
fn external_names<B: Below>(
    level: &Level<B>,
    cursor: &mut Cursor<'_>,
) -> Result<EnumNamesTree, SyntaxFault>
    requires { B.is_ready level.now.below }
    ensures { Reads (rules.external_names (B.rules level.now.below) cursor.old) result cursor.new }
{
    let at = cursor.place();
    let has_equal = cursor.eat_sign(Sign::Equal);
    cursor.expect_sign(Sign::Ellipsis)?;
    Ok(EnumNamesTree::External(at, has_equal))
}

/// `{NAME, NAME, ..}` or `...`
fn enum_names<B: Below>(
    level: &Level<B>,
    cursor: &mut Cursor<'_>,
) -> Result<EnumNamesTree, SyntaxFault>
    requires { B.is_ready level.now.below }
    ensures { Reads (steps.either (steps.is_sign Sign.OpenBrace) (rules.listed_names (B.rules level.now.below)) (rules.external_names (B.rules level.now.below)) cursor.old) result cursor.new }
{
    if cursor.sees_sign(Sign::OpenBrace) {
        listed_names(level, cursor)
    } else {
        external_names(level, cursor)
    }
}

/// `enum NAME NAMES;`
#[tactic(auto, unfolding(opl_grammar::specs::Declarations::enum_decl))]
fn enum_decl<B: Below>(level: &Level<B>, cursor: &mut Cursor<'_>) -> Result<EnumTree, SyntaxFault>
    requires { B.is_ready level.now.below }
    ensures { Reads (rules.enum_decl (B.rules level.now.below) cursor.old) result cursor.new }
{
    let at = cursor.place();
    cursor.expect_word(Keyword::Enum)?;
    let name = name(level.alloc, cursor)?;
    let names = enum_names(level, cursor)?;
    let (names, ()) = keep(names, cursor.expect_sign(Sign::Semicolon))?;
    Ok(EnumTree { at, name, names })
}

/// `struct NAME {FIELD FIELD ..};`
#[tactic(auto, unfolding(opl_grammar::specs::Declarations::struct_decl))]
fn struct_decl<B: Below>(
    level: &Level<B>,
    cursor: &mut Cursor<'_>,
) -> Result<StructTree, SyntaxFault>
    requires { B.is_ready level.now.below }
    ensures { Reads (rules.struct_decl (B.rules level.now.below) cursor.old) result cursor.new }
{
    let at = cursor.place();
    cursor.expect_word(Keyword::Struct)?;
    let name = name(level.alloc, cursor)?;
    let opener = cursor.place();
    cursor.expect_sign(Sign::OpenBrace)?;
    let fields = level.below.fields(cursor, opener)?;
    let (fields, ()) = keep(fields, cursor.expect_sign(Sign::CloseBrace))?;
    let ((first, rest), ()) = keep(fields, cursor.expect_sign(Sign::Semicolon))?;
    Ok(StructTree {
        at,
        name,
        first,
        rest,
    })
}

/// `int`
#[tactic(auto, unfolding(opl_grammar::specs::Declarations::int_variable))]
fn int_variable<B: Below>(
    level: &Level<B>,
    cursor: &mut Cursor<'_>,
) -> Result<VariableTypeTree, SyntaxFault>
    requires { B.is_ready level.now.below }
    ensures { Reads (rules.int_variable (B.rules level.now.below) cursor.old) result cursor.new }
{
    let at = cursor.place();
    cursor.expect_word(Keyword::Int)?;
    Ok(VariableTypeTree::Int(at))
}

/// `int` or `NAME`
#[tactic(auto, unfolding(opl_grammar::specs::Declarations::variable_type))]
fn variable_type<B: Below>(
    level: &Level<B>,
    cursor: &mut Cursor<'_>,
) -> Result<VariableTypeTree, SyntaxFault>
    requires { B.is_ready level.now.below }
    ensures { Reads (rules.variable_type (B.rules level.now.below) cursor.old) result cursor.new }
{
    if cursor.sees_word(Keyword::Int) {
        int_variable(level, cursor)
    } else {
        Ok(VariableTypeTree::Named(name(level.alloc, cursor)?))
    }
}

/// `in ADD..ADD`
#[tactic(auto, unfolding(opl_grammar::specs::Declarations::bounds))]
fn bounds<B: Below>(level: &Level<B>, cursor: &mut Cursor<'_>) -> Result<BoundsTree, SyntaxFault>
    requires { B.is_ready level.now.below }
    ensures { Reads (rules.bounds (B.rules level.now.below) cursor.old) result cursor.new }
{
    let at = cursor.place();
    cursor.expect_word(Keyword::In)?;
    let low = level.add(cursor)?;
    let (low, high) = keep(low, level.upper(cursor))?;
    Ok(BoundsTree {
        at,
        low: low.into_inner(),
        high: high.into_inner(),
    })
}

/// `in ADD..ADD` or nothing
fn optional_bounds<B: Below>(
    level: &Level<B>,
    cursor: &mut Cursor<'_>,
) -> Result<Option<BoundsTree>, SyntaxFault>
    requires { B.is_ready level.now.below }
    ensures { Reads (steps.maybe (steps.is_word Keyword.In) (rules.bounds (B.rules level.now.below)) cursor.old) result cursor.new }
{
    if cursor.sees_word(Keyword::In) {
        Ok(Some(bounds(level, cursor)?))
    } else {
        Ok(None)
    }
}

/// `var TYPE NAME [DIMS] [BOUNDS];`
#[tactic(auto, unfolding(opl_grammar::specs::Declarations::variable_decl))]
fn variable_decl<B: Below>(
    level: &Level<B>,
    cursor: &mut Cursor<'_>,
) -> Result<VariableTree, SyntaxFault>
    requires { B.is_ready level.now.below }
    ensures { Reads (rules.variable_decl (B.rules level.now.below) cursor.old) result cursor.new }
{
    let at = cursor.place();
    cursor.expect_word(Keyword::Var)?;
    let kind = variable_type(level, cursor)?;
    let named = keep(kind, name(level.alloc, cursor))?;
    let parts = keep(named, optional_dims(level, cursor))?;
    let parts = keep(parts, optional_bounds(level, cursor))?;
    let ((((kind, name), dims), bounds), ()) = keep(parts, cursor.expect_sign(Sign::Semicolon))?;
    Ok(VariableTree {
        at,
        kind,
        name,
        dims,
        bounds,
    })
}

/// `Activity NAME [DIMS] (ADD);` or `Activity NAME [DIMS] (ADD..ADD);`
#[tactic(auto, unfolding(opl_grammar::specs::Declarations::activity_decl))]
fn activity_decl<B: Below>(
    level: &Level<B>,
    cursor: &mut Cursor<'_>,
) -> Result<ActivityTree, SyntaxFault>
    requires { B.is_ready level.now.below }
    ensures { Reads (rules.activity_decl (B.rules level.now.below) cursor.old) result cursor.new }
{
    let at = cursor.place();
    cursor.expect_word(Keyword::Activity)?;
    let name = name(level.alloc, cursor)?;
    let dims = optional_dims(level, cursor)?;
    let opener = cursor.place();
    let (dims, ()) = keep(dims, cursor.expect_sign(Sign::OpenParenthesis))?;
    let parts = keep(dims, level.below.ends(cursor, opener))?;
    let (parts, ()) = keep(parts, cursor.expect_sign(Sign::CloseParenthesis))?;
    let ((dims, (shortest, longest)), ()) = keep(parts, cursor.expect_sign(Sign::Semicolon))?;
    Ok(ActivityTree {
        at,
        name,
        dims,
        shortest: shortest.into_inner(),
        longest: unboxed(longest),
    })
}

/// `UnaryResource NAME [DIMS];`
#[tactic(auto, unfolding(opl_grammar::specs::Declarations::unary_decl))]
fn unary_decl<B: Below>(level: &Level<B>, cursor: &mut Cursor<'_>) -> Result<UnaryTree, SyntaxFault>
    requires { B.is_ready level.now.below }
    ensures { Reads (rules.unary_decl (B.rules level.now.below) cursor.old) result cursor.new }
{
    let at = cursor.place();
    cursor.expect_word(Keyword::UnaryResource)?;
    let name = name(level.alloc, cursor)?;
    let dims = optional_dims(level, cursor)?;
    let (dims, ()) = keep(dims, cursor.expect_sign(Sign::Semicolon))?;
    Ok(UnaryTree { at, name, dims })
}

/// `DiscreteResource NAME [DIMS] (ADD);`
#[tactic(auto, unfolding(opl_grammar::specs::Declarations::discrete_decl))]
fn discrete_decl<B: Below>(
    level: &Level<B>,
    cursor: &mut Cursor<'_>,
) -> Result<DiscreteTree, SyntaxFault>
    requires { B.is_ready level.now.below }
    ensures { Reads (rules.discrete_decl (B.rules level.now.below) cursor.old) result cursor.new }
{
    let at = cursor.place();
    cursor.expect_word(Keyword::DiscreteResource)?;
    let name = name(level.alloc, cursor)?;
    let dims = optional_dims(level, cursor)?;
    let opener = cursor.place();
    let (dims, ()) = keep(dims, cursor.expect_sign(Sign::OpenParenthesis))?;
    let parts = keep(dims, level.below.add(cursor, opener))?;
    let (parts, ()) = keep(parts, cursor.expect_sign(Sign::CloseParenthesis))?;
    let ((dims, capacity), ()) = keep(parts, cursor.expect_sign(Sign::Semicolon))?;
    Ok(DiscreteTree {
        at,
        name,
        dims,
        capacity: capacity.into_inner(),
    })
}

/// `scheduleOrigin = ADD;` or `scheduleHorizon = ADD;`
#[tactic(auto, unfolding(opl_grammar::specs::Declarations::schedule_decl))]
fn schedule_decl<B: Below>(
    level: &Level<B>,
    cursor: &mut Cursor<'_>,
) -> Result<ScheduleTree, SyntaxFault>
    requires { B.is_ready level.now.below }
    ensures { Reads (rules.schedule_decl (B.rules level.now.below) cursor.old) result cursor.new }
{
    let at = cursor.place();
    let end = cursor.take_found(schedule_end(cursor.look()))?;
    cursor.expect_sign(Sign::Equal)?;
    let value = level.add(cursor)?;
    let (value, ()) = keep(value, cursor.expect_sign(Sign::Semicolon))?;
    Ok(ScheduleTree {
        at,
        end,
        value: value.into_inner(),
    })
}

/// An activity, a resource or an end of the schedule.
#[tactic(auto, unfolding(opl_grammar::specs::Declarations::scheduled_decl))]
fn scheduled_decl<B: Below>(
    level: &Level<B>,
    cursor: &mut Cursor<'_>,
) -> Result<DeclTree, SyntaxFault>
    requires { B.is_ready level.now.below }
    ensures { Reads (rules.scheduled_decl (B.rules level.now.below) cursor.old) result cursor.new }
{
    if cursor.sees_word(Keyword::Activity) {
        Ok(DeclTree::Activity(activity_decl(level, cursor)?))
    } else if cursor.sees_word(Keyword::UnaryResource) {
        Ok(DeclTree::Unary(unary_decl(level, cursor)?))
    } else if cursor.sees_word(Keyword::DiscreteResource) {
        Ok(DeclTree::Discrete(discrete_decl(level, cursor)?))
    } else {
        Ok(DeclTree::Schedule(schedule_decl(level, cursor)?))
    }
}

/// A declaration that begins with a word of the language other than `int`.
#[tactic(auto, unfolding(opl_grammar::specs::Declarations::word_decl))]
fn word_decl<B: Below>(level: &Level<B>, cursor: &mut Cursor<'_>) -> Result<DeclTree, SyntaxFault>
    requires { B.is_ready level.now.below }
    ensures { Reads (rules.word_decl (B.rules level.now.below) cursor.old) result cursor.new }
{
    if cursor.sees_word(Keyword::Range) {
        Ok(DeclTree::Range(range_decl(level, cursor)?))
    } else if cursor.sees_word(Keyword::Enum) {
        Ok(DeclTree::Enumeration(enum_decl(level, cursor)?))
    } else if cursor.sees_word(Keyword::Struct) {
        Ok(DeclTree::Structure(struct_decl(level, cursor)?))
    } else if cursor.sees_word(Keyword::Var) {
        Ok(DeclTree::Variable(variable_decl(level, cursor)?))
    } else {
        scheduled_decl(level, cursor)
    }
}

/// A declaration.
#[tactic(auto, unfolding(opl_grammar::specs::Declarations::decl))]
fn decl<B: Below>(level: &Level<B>, cursor: &mut Cursor<'_>) -> Result<DeclTree, SyntaxFault>
    requires { B.is_ready level.now.below }
    ensures { Reads (rules.decl (B.rules level.now.below) cursor.old) result cursor.new }
{
    if starts_type(cursor.look()) {
        Ok(DeclTree::Data(data_decl(level, cursor)?))
    } else {
        word_decl(level, cursor)
    }
}

/// The rule of declarations.
#[derive(Drop)]
struct DeclRule<'l, B> {
    level: &'l Level<B>,
}

impl<'l, B: Below> Part<DeclTree> for DeclRule<'l, B> {
    ghost begins = { λ _. tables.starts_decl };

    ghost part = { λ d. rules.decl (B.rules d.level.now.below) };

    ghost is_ready = { λ d. B.is_ready d.level.now.below };

    fn starts(&self, cursor: &Cursor<'_>) -> bool {
        starts_decl(cursor.look())
    }

    fn read(&self, cursor: &mut Cursor<'_>) -> Result<DeclTree, SyntaxFault> {
        decl(self.level, cursor)
    }
}

/// Declarations, as long as one begins.
pub fn decls<B: Below>(
    level: &Level<B>,
    cursor: &mut Cursor<'_>,
) -> Result<Seq<DeclTree>, SyntaxFault>
    requires { B.is_ready level.now.below }
    ensures { Reads (steps.many tables.starts_decl (rules.decl (B.rules level.now.below)) cursor.old) result cursor.new }
{
    many(level.alloc, cursor, &DeclRule { level })
}
