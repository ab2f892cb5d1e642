//! What an expression says, each form in brackets with its name and its place.
use crate::word::{say, say_bytes, say_number, say_placed};
use opl_list::Boxed;
use opl_term::{FieldName, GroupTerm, Pattern, SetTerm, Step, Term};
use opl_token::Seq;
use opl_tree::{AggregateOp, CallOp, QuestionOp, Relation};
use std::alloc::AllocError;

/// The name of a form, and its place.
fn form(t: &Term) -> (&'static str, u32) {
    match t {
        Term::Number(at, ..) => ("number", *at),
        Term::Named(at, ..) => ("name", *at),
        Term::Bracket(at, ..) => ("bracket", *at),
        Term::Negative(at, ..) => ("negative", *at),
        Term::Chain(at, ..) => ("chain", *at),
        Term::Related(at, ..) => ("related", *at),
        Term::Member(at, ..) => ("member", *at),
        Term::Equivalent(at, ..) => ("equivalent", *at),
        Term::Implied(at, ..) => ("implied", *at),
        Term::Or(at, ..) => ("or", *at),
        Term::And(at, ..) => ("and", *at),
        Term::Not(at, ..) => ("not", *at),
        Term::Aggregate(at, ..) => ("aggregate", *at),
        Term::Call(at, ..) => ("call", *at),
        Term::AllDifferent(at, ..) => ("alldifferent", *at),
        Term::Question(at, ..) => ("question", *at),
        Term::Element(at, ..) => ("element", *at),
        Term::Fields(at, ..) => ("field", *at),
        Term::Record(at, ..) => ("record", *at),
        Term::Listed(at, ..) => ("listed", *at),
        Term::Described(at, ..) => ("described", *at),
        Term::Array(at, ..) => ("array", *at),
        Term::KeyedArray(at, ..) => ("keyed", *at),
    }
}

fn relation_word(relation: Relation) -> &'static str {
    match relation {
        Relation::Equal => " =",
        Relation::NotEqual => " <>",
        Relation::Less => " <",
        Relation::LessOrEqual => " <=",
        Relation::Greater => " >",
        Relation::GreaterOrEqual => " >=",
    }
}

fn aggregate_word(op: AggregateOp) -> &'static str {
    match op {
        AggregateOp::Sum => " sum",
        AggregateOp::Product => " prod",
        AggregateOp::Min => " min",
        AggregateOp::Max => " max",
    }
}

fn call_word(op: CallOp) -> &'static str {
    match op {
        CallOp::Absolute => " abs",
        CallOp::Cardinality => " card",
    }
}

fn question_word(op: QuestionOp) -> &'static str {
    match op {
        QuestionOp::Size => " dsize",
        QuestionOp::Least => " dmin",
        QuestionOp::Greatest => " dmax",
        QuestionOp::Bound => " bound",
    }
}

/// Adds an expression.
#[cycle(terms)]
pub fn tell_term(t: &Term, out: &mut Vec<u8>) -> Result<(), AllocError> {
    let (name, at) = form(t);
    say_placed(out, "(", name, at)?;
    tell_parts(t, out)?;
    say(out, ")")
}

/// Adds the parts of an expression.
#[cycle(terms)]
fn tell_parts(t: &Term, out: &mut Vec<u8>) -> Result<(), AllocError> {
    match t {
        Term::Number(_, value) => tell_value(*value, out),
        Term::Named(_, name) => tell_name(name.as_slice(), out),
        Term::Bracket(_, a) | Term::Negative(_, a) | Term::Not(_, a) | Term::AllDifferent(_, a) =>
            tell_part(a.get(), out),
        Term::Call(_, op, a) => tell_of(call_word(*op), a.get(), out),
        Term::Question(_, op, a) => tell_of(question_word(*op), a.get(), out),
        Term::Equivalent(_, parts)
        | Term::Or(_, parts)
        | Term::And(_, parts)
        | Term::Record(_, parts)
        | Term::Listed(_, parts)
        | Term::Array(_, parts) => tell_all("", parts.as_slice(), out),
        Term::Chain(_, a, _)
        | Term::Related(_, a, _, _)
        | Term::Member(_, a, _)
        | Term::Implied(_, a, _)
        | Term::Element(_, a, _)
        | Term::Described(_, a, _, _) => {
            tell_part(a.get(), out)?;
            tell_rest(t, out)
        }
        Term::Aggregate(_, op, groups, condition, a) => {
            tell_groups(aggregate_word(*op), groups.as_slice(), out)?;
            tell_condition(condition, out)?;
            tell_part(a.get(), out)
        }
        Term::Fields(at, a, names) => {
            open_fields(*at, names.len(), out)?;
            tell_part(a.get(), out)?;
            tell_fields(names.as_slice(), out)
        }
        Term::KeyedArray(_, keys, cells) => {
            tell_all("", keys.as_slice(), out)?;
            tell_all(" :", cells.as_slice(), out)
        }
    }
}

/// Adds what stands behind the first part of an expression.
#[cycle(terms)]
fn tell_rest(t: &Term, out: &mut Vec<u8>) -> Result<(), AllocError> {
    match t {
        Term::Chain(_, _, steps) => tell_steps(steps.as_slice(), out),
        Term::Related(_, _, relation, b) => tell_of(relation_word(*relation), b.get(), out),
        Term::Member(_, _, over) => tell_set(over, out),
        Term::Implied(_, _, b) => tell_of(" =>", b.get(), out),
        Term::Element(_, _, subscripts) => tell_all("", subscripts.as_slice(), out),
        Term::Described(_, _, groups, condition) => {
            tell_groups("", groups.as_slice(), out)?;
            tell_condition(condition, out)
        }
        _ => Ok(()),
    }
}

/// Adds a condition, if there is one.
#[cycle(terms)]
fn tell_condition(condition: &Option<Boxed<Term>>, out: &mut Vec<u8>) -> Result<(), AllocError> {
    match condition {
        Some(c) => tell_of(" if", c.get(), out),
        None => Ok(()),
    }
}

/// Adds a number behind a blank.
fn tell_value(value: i128, out: &mut Vec<u8>) -> Result<(), AllocError> {
    say(out, " ")?;
    say_number(out, value)
}

/// Adds a name behind a blank.
fn tell_name(name: &[u8], out: &mut Vec<u8>) -> Result<(), AllocError> {
    say(out, " ")?;
    say_bytes(out, name)
}

/// Opens a bracket for each of the fields of a chain but the last, which is the whole.
fn open_fields(at: u32, count: usize, out: &mut Vec<u8>) -> Result<(), AllocError> {
    for _ in 1..count {
        say_placed(out, " (", "field", at)?;
    }
    Ok(())
}

/// Adds the names of a chain of fields. A bracket closes behind each but the last, which is that of the whole.
fn tell_fields(names: &[FieldName], out: &mut Vec<u8>) -> Result<(), AllocError> {
    let Some((first, others)) = names.split_first() else {
        return Ok(());
    };
    tell_field(first, out)?;
    for name in others {
        say(out, ")")?;
        tell_field(name, out)?;
    }
    Ok(())
}

/// Adds the name of a field with its place.
fn tell_field(name: &FieldName, out: &mut Vec<u8>) -> Result<(), AllocError> {
    tell_name(name.text.as_slice(), out)?;
    say(out, "@")?;
    say_number(out, name.at as i128)
}

/// Adds a part behind a blank.
#[cycle(terms)]
fn tell_part(t: &Term, out: &mut Vec<u8>) -> Result<(), AllocError> {
    say(out, " ")?;
    tell_term(t, out)
}

/// Adds a part behind a word.
#[cycle(terms)]
fn tell_of(word: &str, t: &Term, out: &mut Vec<u8>) -> Result<(), AllocError> {
    say(out, word)?;
    tell_part(t, out)
}

/// Adds parts in their order behind a word.
#[cycle(terms)]
fn tell_all(word: &str, parts: &[Term], out: &mut Vec<u8>) -> Result<(), AllocError> {
    say(out, word)?;
    for part in parts {
        tell_part(part, out)?;
    }
    Ok(())
}

/// Adds the steps of a chain.
#[cycle(terms)]
fn tell_steps(steps: &[Step], out: &mut Vec<u8>) -> Result<(), AllocError> {
    for step in steps {
        tell_step(step, out)?;
    }
    Ok(())
}

/// Adds a step of a chain.
#[cycle(terms)]
fn tell_step(step: &Step, out: &mut Vec<u8>) -> Result<(), AllocError> {
    match step {
        Step::Plus(t) => tell_of(" +", t, out),
        Step::Minus(t) => tell_of(" -", t, out),
        Step::Times(t) => tell_of(" *", t, out),
        Step::Quotient(t) => tell_of(" div", t, out),
        Step::Remainder(t) => tell_of(" mod", t, out),
    }
}

/// Adds a set.
#[cycle(terms)]
fn tell_set(over: &SetTerm, out: &mut Vec<u8>) -> Result<(), AllocError> {
    match over {
        SetTerm::Whole(a) => tell_of(" in", a.get(), out),
        SetTerm::Between(low, high) => {
            say(out, " in")?;
            tell_part(low.get(), out)?;
            tell_of(" ..", high.get(), out)
        }
    }
}

/// Adds groups of parameters behind a word.
#[cycle(terms)]
fn tell_groups(word: &str, groups: &[GroupTerm], out: &mut Vec<u8>) -> Result<(), AllocError> {
    say(out, word)?;
    for group in groups {
        tell_group(group, out)?;
    }
    Ok(())
}

/// Adds a group of parameters.
#[cycle(terms)]
fn tell_group(group: &GroupTerm, out: &mut Vec<u8>) -> Result<(), AllocError> {
    match group {
        GroupTerm::Unordered(patterns, over) => {
            tell_patterns(" (group", patterns.as_slice(), out)?;
            tell_set(over, out)?;
        }
        GroupTerm::Ordered(patterns, over) => {
            tell_patterns(" (ordered", patterns.as_slice(), out)?;
            tell_set(over, out)?;
        }
    }
    say(out, ")")
}

/// Adds what elements are called behind a word.
fn tell_patterns(word: &str, patterns: &[Pattern], out: &mut Vec<u8>) -> Result<(), AllocError> {
    say(out, word)?;
    for pattern in patterns {
        match pattern {
            Pattern::Single(name) => tell_name(name.as_slice(), out)?,
            Pattern::Parts(names) => tell_names(names, out)?,
        }
    }
    Ok(())
}

/// Adds the names of a record's parts.
fn tell_names(names: &Seq<Seq<u8>>, out: &mut Vec<u8>) -> Result<(), AllocError> {
    say(out, " <")?;
    for name in names.as_slice() {
        tell_name(name.as_slice(), out)?;
    }
    say(out, " >")
}
