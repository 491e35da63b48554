//! A cell of an answer.
ghost use Rattle.std.specs.Prelude.{◌≡◌, ◌++◌, ◌∷◌, ◌<◌, [], OnOk, length, option_map};
ghost use Rattle.std.specs.Option.{ForSome};
ghost use Rattle.arrays.specs.Prelude.{IsOfType, item_of, item_of_bool, item_of_text, most_slots};
ghost use Rattle.std.specs.Option.{option_copied};
ghost use Rattle.answers.specs.Prelude.{group_shape, item_of_scalar};
ghost use Rattle.results.specs.Cell.{only_of};
ghost use Rattle.results.specs.Result.{is_of, item_at, decimal_text};

use crate::result_type::ResultType;
use answers::{Group, Scalar};
use arrays::{IntType, NoMemory, TextBuilder};
use std::alloc::Global;

/// The cell of a group at a place, from its key's items on; none is null.
pub(crate) fn cell_at(group: &Group, place: usize) -> Option<&Scalar>
    ensures { item_of_scalar (option_map (λ s. s.now) result) ≡ item_at place (group_shape group.now) }
{
    let keys = group.keys.len();
    if place < keys {
        return group.keys[place].as_ref();
    }
    match group.cells.get(place - keys) {
        Some(cell) => cell.as_ref(),
        None => None,
    }
}

/// Whether a cell is of the type, or null.
pub(crate) fn is_of(ty: ResultType, cell: Option<&Scalar>) -> bool
    ensures { result ≡ is_of ty (item_of_scalar (option_map (λ s. s.now) cell.entry)) }
{
    match cell {
        None => true,
        Some(Scalar::Int(number)) => match ty {
            ResultType::Int(int) => int.holds(*number),
            _ => false,
        },
        Some(Scalar::Bool(_)) => matches!(ty, ResultType::Bool),
        Some(Scalar::Text(_)) => matches!(ty, ResultType::Text),
    }
}

/// The number of a cell, where it has one of the type.
pub(crate) fn number_of(ty: IntType, cell: Option<&Scalar>) -> Option<i128>
    ensures value { item_of result ≡ only_of (ResultType.Int ty) (item_of_scalar (option_map (λ s. s.now) cell.entry)) }
    ensures of_type { ForSome result (IsOfType ty) }
{
    match cell {
        Some(Scalar::Int(number)) if ty.holds(*number) => Some(*number),
        _ => None,
    }
}

/// The truth value of a cell, where it has one.
pub(crate) fn truth_of(cell: Option<&Scalar>) -> Option<bool>
    ensures { item_of_bool result ≡ only_of ResultType.Bool (item_of_scalar (option_map (λ s. s.now) cell.entry)) }
{
    match cell {
        Some(Scalar::Bool(truth)) => Some(*truth),
        _ => None,
    }
}

/// Adds a cell to texts: a number in decimal.
pub(crate) fn push_spelled(
    alloc: Global,
    texts: &mut TextBuilder,
    cell: Option<&Scalar>,
) -> Result<(), NoMemory>
    requires room { length texts.old.items < most_slots }
    ensures width { texts.new.width ≡ texts.old.width }
    ensures ok { OnOk result (texts.new.items ≡ texts.old.items ++ decimal_text (item_of_scalar (option_map (λ s. s.now) cell.entry)) ∷ []) }
{
    match cell {
        None => push(texts, None),
        Some(Scalar::Int(number)) => {
            let text = format!(in alloc; "{number}")?;
            push(texts, Some(text.as_str()))
        }
        Some(Scalar::Bool(truth)) => push(texts, Some(if *truth { "true" } else { "false" })),
        Some(Scalar::Text(text)) => push(texts, Some(text.as_str())),
    }
}

/// Adds a text. No memory could have as many bytes as fill its offsets.
fn push(texts: &mut TextBuilder, text: Option<&str>) -> Result<(), NoMemory>
    requires room { length texts.old.items < most_slots }
    ensures width { texts.new.width ≡ texts.old.width }
    ensures ok { OnOk result (texts.new.items ≡ texts.old.items ++ item_of_text (option_copied text.entry) ∷ []) }
{
    match texts.push(text) {
        Ok(()) => Ok(()),
        Err(_) => Err(NoMemory),
    }
}
