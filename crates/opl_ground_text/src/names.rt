//! Names, numbers and words.
ghost use Rattle.std.specs.Prelude.{◌≡◌, ◌++◌, codes, slice_get, OnOk};
ghost use Rattle.std.specs.Fmt.{signed_decimal};
ghost use Rattle.opl_ground_text.specs.Texts.{ask_word, capacity_text, ends_text, op_word, resource_text, table_name, truth_text, variable_name};

use itoa::{Buffer, Integer};
use opl_expr::{Ask, Core, Op, Resource};
use std::alloc::AllocError;

/// Adds a number.
pub(crate) fn push_number<I: Integer>(text: &mut Vec<u8>, number: I) -> Result<(), AllocError>
    ensures { OnOk result (text.new.items ≡ text.old.items ++ I.text number) }
{
    text.extend_from_slice(Buffer::new().format(number).as_bytes())
}

/// Adds two numbers with `..` between them.
pub(crate) fn push_ends(text: &mut Vec<u8>, low: i64, high: i64) -> Result<(), AllocError>
    ensures { OnOk result (text.new.items ≡ text.old.items ++ ends_text low high) }
{
    push_number(text, low)?;
    text.extend_from_slice(b"..")?;
    push_number(text, high)?;
    Ok(())
}

/// Adds the name of a variable; nothing where there is no such variable.
pub(crate) fn push_variable(text: &mut Vec<u8>, core: &Core, x: usize) -> Result<(), AllocError>
    ensures { OnOk result (text.new.items ≡ text.old.items ++ variable_name core.now x) }
{
    match core.names.get(x) {
        None => Ok(()),
        Some(name) => text.extend_from_slice(name.as_slice()),
    }
}

/// Adds the name of a table; nothing where there is no such table.
pub(crate) fn push_table(text: &mut Vec<u8>, core: &Core, table: u32) -> Result<(), AllocError>
    ensures { OnOk result (text.new.items ≡ text.old.items ++ table_name (slice_get core.now.tables table)) }
{
    match core.tables.get(table as usize) {
        None => Ok(()),
        Some(table) => text.extend_from_slice(table.name.as_slice()),
    }
}

/// Adds the capacity of a resource over these times.
fn push_times(text: &mut Vec<u8>, resource: &Resource, from: i64, to: i64) -> Result<(), AllocError>
    ensures { OnOk result (text.new.items ≡ text.old.items ++ capacity_text (Some resource.now) from to) }
{
    text.extend_from_slice(b"(capacity ")?;
    text.extend_from_slice(resource.name.as_slice())?;
    text.extend_from_slice(b" ")?;
    push_ends(text, from, to)?;
    text.extend_from_slice(b" ")?;
    push_number(text, resource.capacity)?;
    text.extend_from_slice(b")")?;
    Ok(())
}

/// Adds the capacity of a resource at one time; nothing where there is no such resource.
pub(crate) fn push_capacity(
    text: &mut Vec<u8>,
    core: &Core,
    resource: u32,
    time: i64,
) -> Result<(), AllocError>
    ensures { OnOk result (text.new.items ≡ text.old.items ++ capacity_text (slice_get core.now.resources resource) time time) }
{
    match core.resources.get(resource as usize) {
        None => Ok(()),
        Some(resource) => push_times(text, resource, time, time),
    }
}

/// Adds the capacity of a resource over all its times; nothing where there is no such resource.
pub(crate) fn push_resource(
    text: &mut Vec<u8>,
    core: &Core,
    resource: u32,
) -> Result<(), AllocError>
    ensures { OnOk result (text.new.items ≡ text.old.items ++ resource_text (slice_get core.now.resources resource)) }
{
    match core.resources.get(resource as usize) {
        None => Ok(()),
        Some(resource) => push_times(text, resource, resource.from, resource.to),
    }
}

/// How a comparison is written.
pub(crate) fn op_word(op: Op) -> &'static [u8]
    ensures { result.now ≡ op_word op }
{
    match op {
        Op::Eq => b"=",
        Op::Ne => b"<>",
        Op::Lt => b"<",
        Op::Le => b"<=",
        Op::Gt => b">",
        Op::Ge => b">=",
    }
}

/// How a question is written.
pub(crate) fn ask_word(ask: Ask) -> &'static [u8]
    ensures { result.now ≡ ask_word ask }
{
    match ask {
        Ask::Size => b"dsize",
        Ask::Least => b"dmin",
        Ask::Greatest => b"dmax",
    }
}

/// How a truth is written.
pub(crate) fn truth_word(holds: bool) -> &'static [u8]
    ensures { result.now ≡ truth_text holds }
{
    if holds { b"true" } else { b"false" }
}
