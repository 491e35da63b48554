//! The groups of an answer as text: as lines, as arrays of JSON, or as records of CSV.
ghost use Rattle.std.specs.Prelude.{◌≡◌, ◌++◌, ◌<◌, IfOk, OnOk, length, map, slice_index_or, string_bytes};
ghost use Rattle.std.specs.List.{flat_map, join_with_byte};
ghost use Rattle.arrays.specs.Prelude.{null};
ghost use Rattle.table.specs.Prelude.{group_shape, item_of_scalar, named};
ghost use Rattle.reports.specs.Csv.{csv_cell};
ghost use Rattle.reports.specs.GroupLines.{form_of, group_array, group_arrays, group_items, group_line, group_lines, group_record, group_records, spell};
ghost use Rattle.reports.specs.Shown.{cell};

use crate::csv::{push_between, push_names, push_scalar_field};
use crate::text::push_scalar;
use arrays::NoMemory;
use std::alloc::Global;
use table::{Answer, Group, QueryText, Scalar};

/// How a group is written.
#[derive(Clone, Copy)]
enum Form {
    Line,
    Array,
    Record,
}

/// The line of each group of an answer.
pub fn group_lines(alloc: Global, answer: &Answer) -> Result<String, NoMemory>
    ensures { IfOk result (λ text. string_bytes text ≡ group_lines (map group_shape answer.now.groups.items)) }
{
    let mut text = String::new(alloc);
    push_groups(alloc, &mut text, Form::Line, answer)?;
    Ok(text)
}

/// An array of JSON for each group of an answer.
pub fn group_arrays(alloc: Global, answer: &Answer) -> Result<String, NoMemory>
    ensures { IfOk result (λ text. string_bytes text ≡ group_arrays (map group_shape answer.now.groups.items)) }
{
    let mut text = String::new(alloc);
    push_groups(alloc, &mut text, Form::Array, answer)?;
    Ok(text)
}

/// A record of CSV for each group of an answer to a query, behind one of names.
pub fn group_records(alloc: Global, query: &QueryText, answer: &Answer) -> Result<String, NoMemory>
    ensures { IfOk result (λ text. string_bytes text ≡ group_records (named query.now) (map group_shape answer.now.groups.items)) }
{
    let mut text = String::new(alloc);
    push_names(alloc, &mut text, query)?;
    push_groups(alloc, &mut text, Form::Record, answer)?;
    Ok(text)
}

/// Adds each group of an answer in a form.
fn push_groups(
    alloc: Global,
    text: &mut String,
    form: Form,
    answer: &Answer,
) -> Result<(), NoMemory>
    ensures { OnOk result (string_bytes text.new
        ≡ string_bytes text.old ++ flat_map (form_of form) (map group_shape answer.now.groups.items)) }
{
    for group in &answer.groups {
        push_group(alloc, text, form, group)?;
    }
    Ok(())
}

/// Adds a group in a form.
fn push_group(alloc: Global, text: &mut String, form: Form, group: &Group) -> Result<(), NoMemory>
    ensures { OnOk result (string_bytes text.new ≡ string_bytes text.old ++ form_of form (group_shape group.now)) }
{
    match form {
        Form::Line => push_group_line(alloc, text, group),
        Form::Array => push_group_array(alloc, text, group),
        Form::Record => push_group_record(alloc, text, group),
    }
}

/// Adds the line of a group.
fn push_group_line(alloc: Global, text: &mut String, group: &Group) -> Result<(), NoMemory>
    ensures { OnOk result (string_bytes text.new ≡ string_bytes text.old ++ group_line (group_shape group.now)) }
{
    push_cells(alloc, text, Form::Line, b' ', group)?;
    text.push_str("\n")?;
    Ok(())
}

/// Adds the array of a group.
fn push_group_array(alloc: Global, text: &mut String, group: &Group) -> Result<(), NoMemory>
    ensures { OnOk result (string_bytes text.new ≡ string_bytes text.old ++ group_array (group_shape group.now)) }
{
    text.push_str("[")?;
    push_cells(alloc, text, Form::Array, b',', group)?;
    text.push_str("]\n")?;
    Ok(())
}

/// Adds the record of a group.
fn push_group_record(alloc: Global, text: &mut String, group: &Group) -> Result<(), NoMemory>
    ensures { OnOk result (string_bytes text.new ≡ string_bytes text.old ++ group_record (group_shape group.now)) }
{
    push_cells(alloc, text, Form::Record, b',', group)?;
    text.push_str("\r\n")?;
    Ok(())
}

/// Adds the cells of a group, as a form spells them, with one byte between.
#[tactic(auto, using(crate::proofs::JoinLemmas::joined))]
fn push_cells(
    alloc: Global,
    text: &mut String,
    form: Form,
    separator: u8,
    group: &Group,
) -> Result<(), NoMemory>
    requires { separator < 128 }
    ensures { OnOk result (string_bytes text.new
        ≡ string_bytes text.old ++ join_with_byte separator (map (spell form) (group_items (group_shape group.now)))) }
{
    for i in 0..group.keys.len() + group.cells.len() {
        push_between(text, separator, i)?;
        push_spelled(alloc, text, form, cell_at(group, i))?;
    }
    Ok(())
}

/// The cell of a group at a place: those of the key come first.
fn cell_at(group: &Group, i: usize) -> &Option<Scalar>
    requires { i < length (group_items (group_shape group.now)) }
    ensures { item_of_scalar result.now ≡ slice_index_or (group_items (group_shape group.now)) i null }
{
    match group.keys.get(i) {
        Some(key) => key,
        None => &group.cells[i - group.keys.len()],
    }
}

/// Adds a cell as a form spells it.
fn push_spelled(
    alloc: Global,
    text: &mut String,
    form: Form,
    value: &Option<Scalar>,
) -> Result<(), NoMemory>
    ensures { OnOk result (string_bytes text.new ≡ string_bytes text.old ++ spell form (item_of_scalar value.now)) }
{
    match form {
        Form::Line | Form::Array => push_cell(alloc, text, value),
        Form::Record => push_field(text, value),
    }
}

/// Adds a cell: none is null.
fn push_cell(alloc: Global, text: &mut String, value: &Option<Scalar>) -> Result<(), NoMemory>
    ensures { OnOk result (string_bytes text.new ≡ string_bytes text.old ++ cell (item_of_scalar value.now)) }
{
    match value {
        None => text.push_str("null")?,
        Some(scalar) => push_scalar(alloc, text, scalar)?,
    }
    Ok(())
}

/// Adds a field of a record: none is nothing.
fn push_field(text: &mut String, value: &Option<Scalar>) -> Result<(), NoMemory>
    ensures { OnOk result (string_bytes text.new ≡ string_bytes text.old ++ csv_cell (item_of_scalar value.now)) }
{
    match value {
        None => {}
        Some(scalar) => push_scalar_field(text, scalar)?,
    }
    Ok(())
}
