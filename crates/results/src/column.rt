//! A column of an answer.
ghost use Rattle.std.specs.Prelude.{◌≡◌, ◌≤◌, IfOk, length, map};
ghost use Rattle.std.specs.List.{list_all};
ghost use Rattle.arrays.specs.Kind as kind;
ghost use Rattle.arrays.specs.Prelude.{Wide, most_slots, shown};
ghost use Rattle.answers.specs.Answers.{group_shape};
ghost use Rattle.results.specs.Cell.{only_of};
ghost use Rattle.results.specs.Result.{is_of, item_at, result_column, decimal_text};

use crate::cell::{cell_at, is_of, number_of, push_spelled, truth_of};
use crate::result_type::ResultType;
use answers::Group;
use arrays::{Array, BoolBuilder, IntBuilder, IntType, NoMemory, OffsetWidth, TextBuilder};
use std::alloc::Global;

/// The column of the cells at a place of groups, of the type where all are of it, else of texts.
pub(crate) fn result_column(
    alloc: Global,
    ty: ResultType,
    groups: &[Group],
    place: usize,
) -> Result<Array, NoMemory>
    requires { length groups.now ≤ most_slots }
    ensures { IfOk result (λ a. a ≡ result_column ty (map (item_at place) (map group_shape groups.now))) }
{
    if !are_of(ty, groups, place) {
        return text_column(alloc, groups, place);
    }
    match ty {
        ResultType::Int(int) => int_column(alloc, int, groups, place),
        ResultType::Bool => bool_column(alloc, groups, place),
        ResultType::Text => text_column(alloc, groups, place),
    }
}

/// Whether all cells at a place are of the type, or null.
fn are_of(ty: ResultType, groups: &[Group], place: usize) -> bool
    ensures { result ≡ list_all (λ g. is_of ty (item_at place (group_shape g))) groups.now }
{
    groups.iter().all(|group| is_of(ty, cell_at(group, place)))
}

/// The column of numbers of the type, null where a cell has none.
fn int_column(alloc: Global, ty: IntType, groups: &[Group], place: usize) -> Result<Array, NoMemory>
    requires { length groups.now ≤ most_slots }
    ensures { IfOk result (λ a. a ≡ shown (kind.int ty) (map (only_of (ResultType.Int ty)) (map (item_at place) (map group_shape groups.now)))) }
{
    let mut numbers = IntBuilder::with_capacity(alloc, ty, groups.len())?;
    for group in groups {
        numbers.push(number_of(ty, cell_at(group, place)))?;
    }
    numbers.finish()
}

/// The column of truth values, null where a cell has none.
fn bool_column(alloc: Global, groups: &[Group], place: usize) -> Result<Array, NoMemory>
    requires { length groups.now ≤ most_slots }
    ensures { IfOk result (λ a. a ≡ shown kind.boolean (map (only_of ResultType.Bool) (map (item_at place) (map group_shape groups.now)))) }
{
    let mut truths = BoolBuilder::with_capacity(alloc, groups.len())?;
    for group in groups {
        truths.push(truth_of(cell_at(group, place)))?;
    }
    truths.finish()
}

/// The column of texts, each cell spelled.
fn text_column(alloc: Global, groups: &[Group], place: usize) -> Result<Array, NoMemory>
    requires { length groups.now ≤ most_slots }
    ensures { IfOk result (λ a. a ≡ shown (kind.texts Wide) (map decimal_text (map (item_at place) (map group_shape groups.now)))) }
{
    let mut texts = TextBuilder::with_capacity(alloc, OffsetWidth::Wide, groups.len(), 0)?;
    for group in groups {
        push_spelled(alloc, &mut texts, cell_at(group, place))?;
    }
    texts.finish()
}
