//! The declared names with their values, as plain text.
use itoa::Buffer;
use opl_bind::{DataValues, index_space};
use opl_tree::{DataDeclTree, DeclTree, DimsTree, Name};
use opl_value::{Dimension, IndexSpace, Value};
use std::alloc::{AllocError, Global};

/// How deep the values of cases nest at most. What lies deeper is printed as `..`.
const DEPTH: u32 = 8;

/// Adds a number.
fn push_number(text: &mut Vec<u8>, number: i128) -> Result<(), AllocError> {
    text.extend_from_slice(Buffer::new().format(number).as_bytes())
}

/// Adds `low..high`.
fn push_range(text: &mut Vec<u8>, low: i128, high: i128) -> Result<(), AllocError> {
    push_number(text, low)?;
    text.extend_from_slice(b"..")?;
    push_number(text, high)
}

/// Adds `,` but before the first.
fn push_comma(text: &mut Vec<u8>, place: usize) -> Result<(), AllocError> {
    if place > 0 {
        text.extend_from_slice(b",")
    } else {
        Ok(())
    }
}

/// Adds `{name,..}`.
fn push_names(text: &mut Vec<u8>, names: &[Name]) -> Result<(), AllocError> {
    text.extend_from_slice(b"{")?;
    for (place, name) in names.iter().enumerate() {
        push_comma(text, place)?;
        text.extend_from_slice(name.as_slice())?;
    }
    text.extend_from_slice(b"}")
}

/// Adds the name at this position of an enumeration.
fn push_enumerated(
    text: &mut Vec<u8>,
    data: &DataValues<'_>,
    declaration: u32,
    position: u32,
) -> Result<(), AllocError> {
    let names = data.enumeration(declaration).unwrap_or(&[]);
    match names.get(position as usize) {
        Some(name) => text.extend_from_slice(name),
        None => text.extend_from_slice(b"?"),
    }
}

/// Adds a value without parts.
fn push_single(text: &mut Vec<u8>, data: &DataValues<'_>, value: &Value) -> Result<(), AllocError> {
    match value {
        Value::Int(number) => push_number(text, *number),
        Value::Bool(holds) => push_number(text, i128::from(*holds)),
        Value::Enum(declaration, position) => push_enumerated(text, data, *declaration, *position),
        Value::Range(low, high) => push_range(text, *low, *high),
        Value::Names(names) => push_names(text, names.as_slice()),
        Value::Record(_) | Value::Set(_) | Value::Array(..) => Ok(()),
    }
}

/// The parts of a value, with what opens and what closes them.
fn parts_of(value: &Value) -> Option<(&'static [u8], &[Value], &'static [u8])> {
    match value {
        Value::Record(parts) => Some((b"<", parts.as_slice(), b">")),
        Value::Set(elements) => Some((b"{", elements.as_slice(), b"}")),
        Value::Array(_, elements) => Some((b"[", elements.as_slice(), b"]")),
        Value::Int(_) | Value::Bool(_) | Value::Enum(..) | Value::Range(..) | Value::Names(_) =>
            None,
    }
}

/// Adds a value: a number, a name, `low..high`, `<a,..>`, `{a,..}`, or `[a,..]` with the elements of an array in the order of their
/// places.
fn push_value(
    text: &mut Vec<u8>,
    data: &DataValues<'_>,
    value: &Value,
    depth: u32,
) -> Result<(), AllocError> {
    let Some((opening, parts, closing)) = parts_of(value) else {
        return push_single(text, data, value);
    };
    if depth == 0 {
        text.extend_from_slice(b"..")?;
        return Ok(());
    }
    text.extend_from_slice(opening)?;
    for (place, part) in parts.iter().enumerate() {
        push_comma(text, place)?;
        push_value(text, data, part, depth - 1)?;
    }
    text.extend_from_slice(closing)
}

/// Adds the index set of a dimension: `low..high` or `{a,..}`.
fn push_dimension(
    text: &mut Vec<u8>,
    data: &DataValues<'_>,
    dimension: &Dimension,
) -> Result<(), AllocError> {
    match dimension {
        Dimension::Whole(low, high) => push_range(text, *low, *high),
        Dimension::Listed(values, _) => {
            text.extend_from_slice(b"{")?;
            for (place, value) in values.as_slice().iter().enumerate() {
                push_comma(text, place)?;
                push_value(text, data, value, DEPTH)?;
            }
            text.extend_from_slice(b"}")
        }
    }
}

/// Adds `[set,..]`, the index sets of an array.
fn push_space(
    text: &mut Vec<u8>,
    data: &DataValues<'_>,
    space: &IndexSpace,
) -> Result<(), AllocError> {
    text.extend_from_slice(b"[")?;
    for (place, dimension) in space.dims.as_slice().iter().enumerate() {
        push_comma(text, place)?;
        push_dimension(text, data, dimension)?;
    }
    text.extend_from_slice(b"]")
}

/// Adds a value, which is copied first.
fn push_copy(
    alloc: Global,
    text: &mut Vec<u8>,
    data: &DataValues<'_>,
    value: &Value,
) -> Result<(), AllocError> {
    let copy = value.copy(alloc)?;
    push_value(text, data, &copy, DEPTH)?;
    if copy != *value {
        text.extend_from_slice(b" copied otherwise")?;
    }
    Ok(())
}

/// Adds the line of a name with its value, `name = value` or `name[set,..] = [a,..]`; nothing for what has no value.
fn push_item(
    alloc: Global,
    text: &mut Vec<u8>,
    data: &DataValues<'_>,
    name: &[u8],
) -> Result<(), AllocError> {
    let Some(value) = data.environment.value(name) else {
        return Ok(());
    };
    text.extend_from_slice(b"  ")?;
    text.extend_from_slice(name)?;
    if let Value::Array(space, _) = value {
        push_space(text, data, space)?;
    }
    text.extend_from_slice(b" = ")?;
    push_copy(alloc, text, data, value)?;
    text.extend_from_slice(b"\n")
}

/// Adds the line `name has N keys` for an array.
fn push_keys(
    alloc: Global,
    text: &mut Vec<u8>,
    data: &DataValues<'_>,
    name: &[u8],
    dims: &DimsTree,
) -> Result<(), AllocError> {
    let Ok(space) = index_space(alloc, &data.environment, dims) else {
        return Err(AllocError);
    };
    let Some(keys) = space.elements() else {
        return Err(AllocError);
    };
    text.extend_from_slice(b"  ")?;
    text.extend_from_slice(name)?;
    text.extend_from_slice(b" has ")?;
    text.extend_from_slice(Buffer::new().format(keys).as_bytes())?;
    text.extend_from_slice(b" keys\n")
}

/// Adds the lines of an item.
fn push_data(
    alloc: Global,
    text: &mut Vec<u8>,
    data: &DataValues<'_>,
    tree: &DataDeclTree,
) -> Result<(), AllocError> {
    let name = tree.name.text.as_slice();
    push_item(alloc, text, data, name)?;
    match &tree.dims {
        Some(dims) => push_keys(alloc, text, data, name, dims),
        None => Ok(()),
    }
}

/// Adds the lines of what a declaration gives a value; nothing where it gives none.
fn push_declared(
    alloc: Global,
    text: &mut Vec<u8>,
    data: &DataValues<'_>,
    decl: &DeclTree,
) -> Result<(), AllocError> {
    match decl {
        DeclTree::Data(tree) => push_data(alloc, text, data, tree),
        DeclTree::Range(tree) => push_item(alloc, text, data, tree.name.text.as_slice()),
        DeclTree::Enumeration(tree) => push_item(alloc, text, data, tree.name.text.as_slice()),
        DeclTree::Structure(_) | DeclTree::Variable(_) | DeclTree::Activity(_) => Ok(()),
        DeclTree::Unary(_) | DeclTree::Discrete(_) | DeclTree::Schedule(_) => Ok(()),
    }
}

/// Adds `bound`, and then the lines of these declarations.
pub fn push_values(
    alloc: Global,
    text: &mut Vec<u8>,
    data: &DataValues<'_>,
    decls: &[DeclTree],
) -> Result<(), AllocError> {
    text.extend_from_slice(b"  bound\n")?;
    for decl in decls {
        push_declared(alloc, text, data, decl)?;
    }
    Ok(())
}
