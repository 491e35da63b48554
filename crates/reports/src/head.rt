//! The output of `head`.
ghost use Rattle.std.specs.Prelude.{◌≡◌, ◌++◌, ◌-◌, ◌<◌, All, IfOk, OnOk, length, map, option_copied, slice_index_or, string_bytes, take};
ghost use Rattle.std.specs.List.{flat_map, join_with_byte, zip};
ghost use Rattle.arrays.specs.Prelude.{field_of, fields_of, item_of, item_of_bool, item_of_text, list, list_of, null, row_of, rows_of};
ghost use Rattle.table.specs.Lawful.{IsStored};
ghost use Rattle.reports.specs.Rows.{first_lines, member_text, row_line};
ghost use Rattle.reports.specs.Shown.{cell};

use crate::csv::{push_between, push_byte};
use crate::text::{push_null, push_number, push_string, push_truth};
use arrays::{Array, Field, NoMemory, RecordBatch, View, ViewType};
use std::alloc::Global;
use table::Version;

/// What `head` prints for a version of the table: so many rows from the first on, fewer where there are fewer.
pub fn head_text(alloc: Global, count: u64, version: &Version) -> Result<String, NoMemory>
    ensures { IfOk result (λ text. string_bytes text ≡ first_lines count version.now.fields version.now.history) }
{
    let mut text = String::new(alloc);
    let mut left = count;
    let fields = version.schema().fields();
    let batches = version.batches();
    for batch in batches {
        left = push_first_rows(alloc, &mut text, fields, batch, left)?;
    }
    Ok(text)
}

/// Adds the first rows of a batch, as many as are left, and tells how many are left behind them.
fn push_first_rows(
    alloc: Global,
    text: &mut String,
    fields: &[Field],
    batch: &RecordBatch,
    left: u64,
) -> Result<u64, NoMemory>
    requires { IsStored (fields_of fields.now) batch.now }
    ensures lines { OnOk result (string_bytes text.new
        ≡ string_bytes text.old ++ flat_map (row_line (fields_of fields.now)) (take left (rows_of batch.now))) }
    ensures left { IfOk result (λ more. more ≡ left - batch.now.rows) }
{
    let count = left.min(u64::from(batch.rows()));
    for row in 0..count as usize {
        push_row(alloc, text, fields, batch.columns(), row)?;
    }
    Ok(left - count)
}

/// Adds a row of columns, each under its field.
fn push_row(
    alloc: Global,
    text: &mut String,
    fields: &[Field],
    columns: &[Array],
    row: usize,
) -> Result<(), NoMemory>
    requires columns { length columns.now ≡ length fields.now }
    requires within { All (λ c. row < length c.items) columns.now }
    ensures { OnOk result (string_bytes text.new
        ≡ string_bytes text.old ++ row_line (fields_of fields.now) (row_of columns.now row)) }
{
    text.push_str("{")?;
    push_members(alloc, text, fields, columns, row)?;
    text.push_str("}\n")?;
    Ok(())
}

/// Adds the members of a row, with one comma between.
#[tactic(auto, using(crate::proofs::JoinLemmas::joined))]
fn push_members(
    alloc: Global,
    text: &mut String,
    fields: &[Field],
    columns: &[Array],
    row: usize,
) -> Result<(), NoMemory>
    requires columns { length columns.now ≡ length fields.now }
    requires within { All (λ c. row < length c.items) columns.now }
    ensures { OnOk result (string_bytes text.new
        ≡ string_bytes text.old ++ join_with_byte 44 (map member_text (zip (fields_of fields.now) (row_of columns.now row)))) }
{
    for k in 0..fields.len() {
        push_between(text, b',', k)?;
        push_member(alloc, text, &fields[k], &columns[k].view(), row)?;
    }
    Ok(())
}

/// Adds the member of a field, whose value is an item of a column.
fn push_member(
    alloc: Global,
    text: &mut String,
    field: &Field,
    column: &View<'_>,
    row: usize,
) -> Result<(), NoMemory>
    requires { row < length column.now.items }
    ensures { OnOk result (string_bytes text.new
        ≡ string_bytes text.old ++ member_text (field_of field.now, slice_index_or column.now.items row null)) }
{
    push_string(alloc, text, &field.name)?;
    push_byte(text, b':')?;
    push_item(alloc, text, column, row)
}

/// Adds an item of a column: a number, a truth value, a text as a string, a list as an array, or null.
#[cycle(items)]
fn push_item(
    alloc: Global,
    text: &mut String,
    column: &View<'_>,
    row: usize,
) -> Result<(), NoMemory>
    requires { row < length column.now.items }
    ensures { OnOk result (string_bytes text.new
        ≡ string_bytes text.old ++ cell (slice_index_or column.now.items row null)) }
{
    match column.ty() {
        ViewType::Int(_) => push_number_at(text, column.int_at(row)),
        ViewType::Bool => push_truth_at(text, column.bool_at(row)),
        ViewType::Text(_) | ViewType::Dict => push_string_at(alloc, text, column.text_at(row)),
        ViewType::List(_, _) => match column.list_at(row) {
            Some(list) => push_list(alloc, text, &list),
            None => Ok(push_null(text)?),
        },
    }
}

/// Adds all items of a column as an array.
#[cycle(items)]
#[tactic(auto, using(crate::proofs::JoinLemmas::joined))]
fn push_list(alloc: Global, text: &mut String, column: &View<'_>) -> Result<(), NoMemory>
    ensures { OnOk result (string_bytes text.new ≡ string_bytes text.old ++ cell (list (list_of column.now.items))) }
{
    push_byte(text, b'[')?;
    for i in 0..column.len() {
        push_between(text, b',', i)?;
        push_item(alloc, text, column, i)?;
    }
    push_byte(text, b']')?;
    Ok(())
}

/// Adds a number, or null.
fn push_number_at(text: &mut String, number: Option<i128>) -> Result<(), NoMemory>
    ensures { OnOk result (string_bytes text.new ≡ string_bytes text.old ++ cell (item_of number)) }
{
    match number {
        Some(number) => push_number(text, number)?,
        None => push_null(text)?,
    }
    Ok(())
}

/// Adds a truth value, or null.
fn push_truth_at(text: &mut String, truth: Option<bool>) -> Result<(), NoMemory>
    ensures { OnOk result (string_bytes text.new ≡ string_bytes text.old ++ cell (item_of_bool truth)) }
{
    match truth {
        Some(truth) => push_truth(text, truth)?,
        None => push_null(text)?,
    }
    Ok(())
}

/// Adds a text as a string, or null.
fn push_string_at(alloc: Global, text: &mut String, value: Option<&str>) -> Result<(), NoMemory>
    ensures { OnOk result (string_bytes text.new
        ≡ string_bytes text.old ++ cell (item_of_text (option_copied value.entry))) }
{
    match value {
        Some(value) => push_string(alloc, text, value)?,
        None => push_null(text)?,
    }
    Ok(())
}
