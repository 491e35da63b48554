//! The record batch of an answer.
ghost use Rattle.std.specs.Prelude.{◌≡◌, ◌≤◌, IfOk, [], length, map, slice_index_or, string_bytes};
ghost use Rattle.arrays.specs.Kind as kind;
ghost use Rattle.arrays.specs.Prelude.{fields_of, most_slots, shape_of};
ghost use Rattle.answers.specs.Answers as answers;
ghost use Rattle.results.specs.Result.{result_batch, result_columns, result_fields, shape_of_kind};

use crate::column::result_column;
use crate::result_type::ResultType;
use answers::{Answer, Group};
use arrays::{Array, DataType, Field, MOST_SLOTS, NoMemory, RecordBatch, Schema};
use std::alloc::Global;

/// The batch of an answer: a row for each group, in their order; a column under each name, of the type where all its items are of it, and
/// of texts where one isn't, as a sum past 64 bits, which stands there in decimal. There are as many names as types.
///
/// # Errors
/// `NoMemory` where a growth was refused, and for more groups than a batch may have rows, 2^31 - 1.
pub fn result_batch(
    alloc: Global,
    names: &[String],
    types: &[ResultType],
    answer: &Answer,
) -> Result<RecordBatch, NoMemory>
    ensures { IfOk result (λ b. b ≡ result_batch (map string_bytes names.now) types.now (map answers.group_shape answer.now.groups.items)) }
{
    let rows = answer.groups.len();
    if rows > MOST_SLOTS {
        return Err(NoMemory);
    }
    let columns = result_columns(alloc, types, &answer.groups)?;
    let fields = result_fields(alloc, names, &columns)?;
    let Ok(schema) = Schema::new(fields) else {
        return Err(NoMemory);
    };
    match RecordBatch::new(schema, rows as u32, columns) {
        Ok(batch) => Ok(batch),
        Err(_) => Err(NoMemory),
    }
}

/// The column of each place.
fn result_columns(
    alloc: Global,
    types: &[ResultType],
    groups: &[Group],
) -> Result<Vec<Array>, NoMemory>
    requires { length groups.now ≤ most_slots }
    ensures { IfOk result (λ columns. columns.items ≡ result_columns types.now (map answers.group_shape groups.now)) }
{
    let mut columns = Vec::new(alloc);
    for place in 0..types.len() {
        let column = result_column(alloc, type_at(types, place), groups, place)?;
        columns.push(column)?;
    }
    Ok(columns)
}

/// A field for each column, under its name.
fn result_fields(alloc: Global, names: &[String], columns: &[Array]) -> Result<Vec<Field>, NoMemory>
    ensures { IfOk result (λ fields. fields_of fields.items ≡ result_fields (map string_bytes names.now) columns.now) }
{
    let mut fields = Vec::new(alloc);
    for place in 0..columns.len() {
        let field = Field::nullable(alloc, name_at(names, place), data_type_at(columns, place))?;
        fields.push(field)?;
    }
    Ok(fields)
}

/// The name at a place, empty where there is none.
fn name_at(names: &[String], place: usize) -> &str
    ensures { result.now ≡ slice_index_or (map string_bytes names.now) place [] }
{
    match names.get(place) {
        Some(name) => name.as_str(),
        None => "",
    }
}

/// The type at a place, that of texts where there is none.
fn type_at(types: &[ResultType], place: usize) -> ResultType
    ensures { result ≡ slice_index_or types.now place ResultType.Text }
{
    match types.get(place) {
        Some(ty) => *ty,
        None => ResultType::Text,
    }
}

/// The type of the column at a place, that of truth values where there is none.
fn data_type_at(columns: &[Array], place: usize) -> DataType
    ensures { shape_of result ≡ shape_of_kind (slice_index_or (map (λ c. c.kind) columns.now) place kind.boolean) }
{
    match columns.get(place) {
        Some(column) => data_type_of(column),
        None => DataType::Bool,
    }
}

/// The type of a column.
fn data_type_of(column: &Array) -> DataType
    ensures { shape_of result ≡ shape_of_kind column.now.kind }
{
    match column.ty() {
        DataType::Int(int) => DataType::Int(*int),
        DataType::Bool => DataType::Bool,
        DataType::Utf8
        | DataType::LargeUtf8
        | DataType::Dict
        | DataType::List(_)
        | DataType::LargeList(_) => DataType::LargeUtf8,
    }
}
