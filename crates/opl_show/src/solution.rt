//! The texts of solutions.
ghost use Rattle.std.specs.Prelude.{◌≡◌, ◌++◌, drop, take, IfOk, OnOk};
ghost use Rattle.opl_show.specs.Readings.{names_of};
ghost use Rattle.opl_show.specs.Texts.{solution_text, value_line};

use crate::ending::push_objective;
use crate::item::push_item;
use itoa::Buffer;
use opl_list::Seq;
use opl_meaning::VariableItem;
use std::alloc::{AllocError, Global};

/// The first so many of the numbers, or all of them where there are fewer, and the others.
fn split(numbers: &[i128], count: usize) -> (&[i128], &[i128])
    ensures first { result.0.now ≡ take count numbers.now }
    ensures others { result.1.now ≡ drop count numbers.now }
{
    if count < numbers.len() {
        numbers.split_at(count)
    } else {
        (numbers, &[])
    }
}

/// Adds the line of a declared variable, or of an array of them, and its value.
fn push_line(
    alloc: Global,
    text: &mut Vec<u8>,
    enumerations: &[Seq<&[u8]>],
    item: &VariableItem,
    numbers: &[i128],
) -> Result<(), AllocError>
    ensures { OnOk result (text.new.items ≡ text.old.items ++ value_line (names_of enumerations.now) item.now numbers.now) }
{
    text.extend_from_slice(item.name.as_slice())?;
    text.extend_from_slice(b" = ")?;
    push_item(alloc, text, enumerations, item, numbers)?;
    text.extend_from_slice(b"\n")?;
    Ok(())
}

/// The text of the solution with this number: a line for each declaration of variables, each with its part of the numbers, in their order,
/// and behind them a line with the value of the objective, if there is one. The names of each enumeration are given by the number of its declaration.
pub fn solution_text(
    alloc: Global,
    number: u64,
    enumerations: &[Seq<&[u8]>],
    items: &[VariableItem],
    numbers: &[i128],
    value: Option<i128>,
) -> Result<Vec<u8>, AllocError>
    ensures { IfOk result (λ text. text.items ≡ solution_text (names_of enumerations.now) items.now number numbers.now value) }
{
    let mut text = Vec::from_slice(alloc, b"Solution ")?;
    text.extend_from_slice(Buffer::new().format(number).as_bytes())?;
    text.extend_from_slice(b"\n")?;
    let mut left = numbers;
    for item in items {
        let (own, others) = split(left, item.sets.len());
        push_line(alloc, &mut text, enumerations, item, own)?;
        left = others;
    }
    push_objective(&mut text, value)?;
    Ok(text)
}
