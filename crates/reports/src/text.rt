//! The lines of `stats` and of `schema`, as text.
ghost use Rattle.std.specs.Prelude.{◌≡◌, ◌++◌, OnOk, IfOk, option_map, string_bytes};
ghost use Rattle.arrays.specs.Item as item;
ghost use Rattle.arrays.specs.Prelude.{field_of, is_nullable, kind_of, kind_of_field, name_of};
ghost use Rattle.table.specs.Prelude.{scalar_item};
ghost use Rattle.json.specs.Print.{quoted};
ghost use Rattle.reports.specs.Fields.{schema_line};
ghost use Rattle.reports.specs.Shown.{cell, column_line, shown_kind, rows_line, sum_text, truth_text, shown_int, value_text, worker_line};

use arrays::{DataType, Field, IntType, NoMemory, Width};
use serde_json::Value;
use std::alloc::{AllocError, Global};
use table::{ColumnStats, Scalar};

/// Adds the line that says how many rows there are.
pub(crate) fn push_rows_line(text: &mut String, rows: u64) -> Result<(), NoMemory>
    ensures { OnOk result (string_bytes text.new ≡ string_bytes text.old ++ rows_line rows) }
{
    text.push_str("rows ")?;
    write!(text, "{rows}")?;
    text.push_str("\n")?;
    Ok(())
}

/// Adds the line of a worker.
pub(crate) fn push_worker_line(
    text: &mut String,
    worker: u32,
    calls: u64,
    rows: u64,
) -> Result<(), NoMemory>
    ensures { OnOk result (string_bytes text.new
        ≡ string_bytes text.old ++ worker_line worker calls rows) }
{
    text.push_str("worker ")?;
    write!(text, "{worker}")?;
    text.push_str(" calls ")?;
    write!(text, "{calls}")?;
    text.push_str(" rows ")?;
    write!(text, "{rows}")?;
    text.push_str("\n")?;
    Ok(())
}

/// The line of a column of a field with these statistics.
#[tactic(auto, using(crate::proofs::ReportLemmas::field_parts))]
pub(crate) fn column_line(
    alloc: Global,
    field: &Field,
    stats: &ColumnStats,
) -> Result<String, NoMemory>
    ensures { IfOk result (λ text. string_bytes text ≡ column_line (name_of (field_of field.now)) (kind_of_field (field_of field.now))
        stats.now.rows stats.now.nulls stats.now.sum (option_map scalar_item stats.now.least) (option_map scalar_item stats.now.greatest)) }
{
    let mut text = quoted(alloc, &field.name)?;
    text.push_str(" ")?;
    push_type(&mut text, &field.ty)?;
    text.push_str(" rows=")?;
    write!(text, "{}", stats.rows)?;
    text.push_str(" nulls=")?;
    write!(text, "{}", stats.nulls)?;
    text.push_str(" sum=")?;
    push_sum(&mut text, stats.sum)?;
    text.push_str(" least=")?;
    push_value(alloc, &mut text, &stats.least)?;
    text.push_str(" greatest=")?;
    push_value(alloc, &mut text, &stats.greatest)?;
    text.push_str("\n")?;
    Ok(text)
}

/// The line of a field.
#[tactic(auto, using(crate::proofs::ReportLemmas::field_parts))]
pub(crate) fn schema_line(alloc: Global, field: &Field) -> Result<String, NoMemory>
    ensures { IfOk result (λ text. string_bytes text
        ≡ schema_line (name_of (field_of field.now)) (kind_of_field (field_of field.now)) (is_nullable (field_of field.now))) }
{
    let mut text = quoted(alloc, &field.name)?;
    text.push_str(" ")?;
    push_type(&mut text, &field.ty)?;
    text.push_str(" nullable=")?;
    text.push_str(truth_text(field.nullable))?;
    text.push_str("\n")?;
    Ok(text)
}

/// A truth value as it is printed.
fn truth_text(truth: bool) -> &'static str
    ensures { result.now ≡ truth_text truth }
{
    if truth { "true" } else { "false" }
}

/// Adds the name of a type.
fn push_type(text: &mut String, ty: &DataType) -> Result<(), AllocError>
    ensures { OnOk result (string_bytes text.new ≡ string_bytes text.old ++ shown_kind (kind_of ty.now)) }
{
    match ty {
        DataType::Int(int) => text.push_str(type_name(*int)),
        DataType::Bool => text.push_str("bool"),
        DataType::Utf8 => text.push_str("utf8"),
        DataType::LargeUtf8 => text.push_str("largeutf8"),
        DataType::List(item) => {
            text.push_str("list<")?;
            push_type(text, &item.ty)?;
            text.push_str(">")
        }
        DataType::LargeList(item) => {
            text.push_str("largelist<")?;
            push_type(text, &item.ty)?;
            text.push_str(">")
        }
        DataType::Dict => text.push_str("dictionary"),
    }
}

/// A text as a JSON string.
fn quoted(alloc: Global, value: &str) -> Result<String, AllocError>
    ensures { IfOk result (λ text. string_bytes text ≡ quoted value.now) }
{
    Value::String(String::from_str(alloc, value)?).to_string(alloc)
}

/// Adds a sum, or a dash where there is none.
fn push_sum(text: &mut String, sum: Option<i128>) -> Result<(), AllocError>
    ensures { OnOk result (string_bytes text.new ≡ string_bytes text.old ++ sum_text sum) }
{
    match sum {
        None => text.push_str("-"),
        Some(number) => {
            write!(text, "{number}")?;
            Ok(())
        }
    }
}

/// Adds a value, or a dash where there is none.
fn push_value(alloc: Global, text: &mut String, value: &Option<Scalar>) -> Result<(), AllocError>
    ensures { OnOk result (string_bytes text.new
        ≡ string_bytes text.old ++ value_text (option_map scalar_item value.now)) }
{
    match value {
        None => text.push_str("-"),
        Some(scalar) => push_scalar(alloc, text, scalar),
    }
}

/// Adds a value.
pub(crate) fn push_scalar(
    alloc: Global,
    text: &mut String,
    value: &Scalar,
) -> Result<(), AllocError>
    ensures { OnOk result (string_bytes text.new ≡ string_bytes text.old ++ cell (scalar_item value.now)) }
{
    match value {
        Scalar::Int(number) => push_number(text, *number),
        Scalar::Bool(truth) => push_truth(text, *truth),
        Scalar::Text(value) => push_string(alloc, text, value.as_str()),
    }
}

/// Adds that there is no value.
pub(crate) fn push_null(text: &mut String) -> Result<(), AllocError>
    ensures { OnOk result (string_bytes text.new ≡ string_bytes text.old ++ cell item.null) }
{
    text.push_str("null")
}

/// Adds a number.
pub(crate) fn push_number(text: &mut String, number: i128) -> Result<(), AllocError>
    ensures { OnOk result (string_bytes text.new ≡ string_bytes text.old ++ cell (item.int number)) }
{
    write!(text, "{number}")?;
    Ok(())
}

/// Adds a truth value.
pub(crate) fn push_truth(text: &mut String, truth: bool) -> Result<(), AllocError>
    ensures { OnOk result (string_bytes text.new ≡ string_bytes text.old ++ cell (item.boolean truth)) }
{
    text.push_str(truth_text(truth))
}

/// Adds a text as a JSON string.
pub(crate) fn push_string(alloc: Global, text: &mut String, value: &str) -> Result<(), AllocError>
    ensures { OnOk result (string_bytes text.new ≡ string_bytes text.old ++ cell (item.text value.now)) }
{
    let string = quoted(alloc, value)?;
    text.push_str(string.as_str())
}

/// The name of an integer type.
fn type_name(ty: IntType) -> &'static str
    ensures { result.now ≡ shown_int ty.bits ty.signed }
{
    match (ty.bits, ty.signed) {
        (Width::W8, true) => "int8",
        (Width::W8, false) => "uint8",
        (Width::W16, true) => "int16",
        (Width::W16, false) => "uint16",
        (Width::W32, true) => "int32",
        (Width::W32, false) => "uint32",
        (Width::W64, true) => "int64",
        (Width::W64, false) => "uint64",
    }
}
