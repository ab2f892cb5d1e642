//! The texts of values.
ghost use Rattle.std.specs.Prelude.{◌≡◌, ◌∷◌, ◌++◌, [], codes, drop, IfOk, OnOk};
ghost use Rattle.opl_show.specs.Courses.{all_brackets, brackets_of};
ghost use Rattle.opl_show.specs.Parts.{keyed, layers, part_text, texts};
ghost use Rattle.opl_show.specs.Readings.{names_of, values_of};
ghost use Rattle.opl_show.specs.Texts.{brackets, joined, nested, value_text};

use crate::cells::Cells;
use crate::course::Course;
use crate::layers::Layer;
use crate::name::{push_name, push_number};
use itoa::Buffer;
use opl_list::Seq;
use opl_value::{Dimension, Value};
use std::alloc::{AllocError, Global};

/// Adds the text of a value: a number, a name of an enumeration, `<a,..>`, `{a,..}`, `[a,..]` or `#[k:a,..]#`.
#[tactic(auto, using(crate::proofs::Texts::texts, crate::proofs::Weights::weights))]
#[cycle(texts)]
pub fn push_value(
    alloc: Global,
    text: &mut Vec<u8>,
    enumerations: &[Seq<&[u8]>],
    value: &Value,
) -> Result<(), AllocError>
    ensures { OnOk result (text.new.items ≡ text.old.items ++ value_text (names_of enumerations.now) value.now) }
{
    match value {
        Value::Int(number) => {
            text.extend_from_slice(Buffer::new().format(*number).as_bytes())?;
        }
        Value::Bool(holds) => {
            text.extend_from_slice(if *holds { b"1" } else { b"0" })?;
        }
        Value::Enum(declaration, position) => {
            push_name(text, enumerations, *declaration, *position as u128)?;
        }
        Value::Record(parts) => {
            push_enclosed(alloc, text, enumerations, b"<", parts.as_slice(), b">")?;
        }
        Value::Set(elements) => {
            push_enclosed(alloc, text, enumerations, b"{", elements.as_slice(), b"}")?;
        }
        Value::Range(..) => {}
        Value::Names(_) => {}
        Value::Array(space, cells) => {
            let cells = Cells::Values(cells.as_slice());
            push_array(alloc, text, enumerations, space.dims.as_slice(), cells)?;
        }
    }
    Ok(())
}

/// Adds the texts of values, with `,` between them, between what opens and what closes them.
#[tactic(auto, using(crate::proofs::Parts::enclosed, crate::proofs::Weights::weights))]
#[cycle(texts)]
fn push_enclosed(
    alloc: Global,
    text: &mut Vec<u8>,
    enumerations: &[Seq<&[u8]>],
    opening: &[u8],
    values: &[Value],
    closing: &[u8],
) -> Result<(), AllocError>
    ensures { OnOk result (text.new.items ≡ text.old.items ++ (opening.now ++ joined (texts (names_of enumerations.now) values.now) ++ closing.now)) }
{
    text.extend_from_slice(opening)?;
    push_values(alloc, text, enumerations, values)?;
    text.extend_from_slice(closing)?;
    Ok(())
}

/// Adds the texts of values, with `,` between them.
#[tactic(auto, using(crate::proofs::Weights::weights))]
#[cycle(texts)]
fn push_values(
    alloc: Global,
    text: &mut Vec<u8>,
    enumerations: &[Seq<&[u8]>],
    values: &[Value],
) -> Result<(), AllocError>
    ensures { OnOk result (text.new.items ≡ text.old.items ++ joined (texts (names_of enumerations.now) values.now)) }
{
    let Some((first, others)) = values.split_first() else {
        return Ok(());
    };
    push_value(alloc, text, enumerations, first)?;
    for value in others {
        text.extend_from_slice(b",")?;
        push_value(alloc, text, enumerations, value)?;
    }
    Ok(())
}

/// Adds the first cell, if there is one. The result is what is left.
#[tactic(auto, using(crate::proofs::Weights::weights))]
#[cycle(texts)]
fn push_cell<'a>(
    alloc: Global,
    text: &mut Vec<u8>,
    enumerations: &[Seq<&[u8]>],
    cells: Cells<'a>,
) -> Result<Cells<'a>, AllocError>
    ensures text { OnOk result (text.new.items ≡ text.old.items ++ part_text (names_of enumerations.now) [] (values_of cells.entry)) }
    ensures left { IfOk result (λ left. values_of left ≡ drop 1 (values_of cells.entry)) }
{
    match cells {
        Cells::Values(values) => {
            let Some((value, others)) = values.split_first() else {
                return Ok(cells);
            };
            push_value(alloc, text, enumerations, value)?;
            Ok(Cells::Values(others))
        }
        Cells::Numbers(kind, numbers) => {
            let Some((number, others)) = numbers.split_first() else {
                return Ok(cells);
            };
            push_number(text, enumerations, kind, number)?;
            Ok(Cells::Numbers(kind, others))
        }
    }
}

/// Adds the text of as many cells as there are elements in these dimensions.
#[tactic(auto, using(crate::proofs::Weights::weights))]
#[cycle(texts)]
pub(crate) fn push_array(
    alloc: Global,
    text: &mut Vec<u8>,
    enumerations: &[Seq<&[u8]>],
    dims: &[Dimension],
    cells: Cells<'_>,
) -> Result<(), AllocError>
    ensures { OnOk result (text.new.items ≡ text.old.items ++ part_text (names_of enumerations.now) dims.now (values_of cells.entry)) }
{
    let layers = layers_of(alloc, enumerations, dims)?;
    push_nested(alloc, text, enumerations, layers.as_slice(), cells)
}

/// Adds the text of the cells in these dimensions, and what stands between them.
#[tactic(auto, using(crate::proofs::Weights::weights))]
#[cycle(texts)]
fn push_nested(
    alloc: Global,
    text: &mut Vec<u8>,
    enumerations: &[Seq<&[u8]>],
    layers: &[Layer],
    cells: Cells<'_>,
) -> Result<(), AllocError>
    ensures { OnOk result (text.new.items ≡ text.old.items ++ nested (all_brackets layers.now) (texts (names_of enumerations.now) (values_of cells.entry))) }
{
    let mut course = Course::new(alloc, layers);
    let mut left = cells;
    while course.advance(text)? {
        left = push_cell(alloc, text, enumerations, left)?;
    }
    Ok(())
}

/// How dimensions are written.
#[cycle(texts)]
fn layers_of(
    alloc: Global,
    enumerations: &[Seq<&[u8]>],
    dims: &[Dimension],
) -> Result<Vec<Layer>, AllocError>
    ensures { IfOk result (λ all. all_brackets all.items ≡ layers (names_of enumerations.now) dims.now) }
{
    let mut layers = Vec::new(alloc);
    for dimension in dims {
        layers.push(layer_of(alloc, enumerations, dimension)?)?;
    }
    Ok(layers)
}

/// How a dimension is written.
#[tactic(auto, using(crate::proofs::Texts::texts, crate::proofs::Weights::weights))]
#[cycle(texts)]
fn layer_of(
    alloc: Global,
    enumerations: &[Seq<&[u8]>],
    dimension: &Dimension,
) -> Result<Layer, AllocError>
    ensures { IfOk result (λ layer. brackets_of layer ≡ brackets (names_of enumerations.now) dimension.now) }
{
    match dimension {
        Dimension::Whole(low, high) => Ok(Layer::Whole(*low, *high)),
        Dimension::Listed(keys, _) => {
            Ok(Layer::Listed(key_texts(alloc, enumerations, keys.as_slice())?))
        }
    }
}

/// The texts of keys, each with `:` behind it.
#[cycle(texts)]
fn key_texts(
    alloc: Global,
    enumerations: &[Seq<&[u8]>],
    keys: &[Value],
) -> Result<Seq<Seq<u8>>, AllocError>
    ensures { IfOk result (λ all. all ≡ keyed (names_of enumerations.now) keys.now) }
{
    let mut texts = Seq::new(alloc);
    for key in keys {
        texts.push(key_text(alloc, enumerations, key)?)?;
    }
    Ok(texts)
}

/// The text of a key, with `:` behind it.
#[cycle(texts)]
fn key_text(alloc: Global, enumerations: &[Seq<&[u8]>], key: &Value) -> Result<Seq<u8>, AllocError>
    ensures { IfOk result (λ text. text ≡ value_text (names_of enumerations.now) key.now ++ codes ":") }
{
    let mut text = Vec::new(alloc);
    push_value(alloc, &mut text, enumerations, key)?;
    text.extend_from_slice(b":")?;
    Ok(Seq::from_vec(text))
}
