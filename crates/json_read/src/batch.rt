ghost use Rattle.std.specs.Prelude.{◌≡◌, ◌<◌, ◌^◌, length, map, option_map, IfOk, IfErr, IfSome};
ghost use Rattle.std.specs.Arc.{arc_value};
ghost use Rattle.arrays.specs.Kind as kind;
ghost use Rattle.arrays.specs.Prelude.{fields_of, kind_of, out-Field};
ghost use Rattle.json_base.specs.Prelude.{Tells, items_view, table_of, view};
ghost use Rattle.json_read.specs.CatalogParts.{coding_of};
ghost use Rattle.json_read.specs.JsonBatch.{HoldsColumn, HoldsColumns, HoldsTop, IsCatalogOf, ReadsBatch};
ghost use Rattle.json_read.specs.JsonBatchFault.{BatchFault, CodedFault, ColumnsFault, KindFault};

use crate::catalog::Coding;
use crate::codes::read_codes;
use crate::column::{list_member, read_numbers, read_texts, read_truths};
use crate::list::read_list;
use arrays::{Array, DataType, Field, OffsetWidth, RecordBatch, Schema};
use json_base::member::{check_object, count_member, push};
use json_base::{JsonFault, JsonFaultKind, Member, Step, Value};
use std::alloc::Global;
use std::sync::Arc;

/// The column of a field.
#[cycle(columns)]
pub(crate) fn read_array(
    alloc: Global,
    field: &Field,
    rows: u32,
    column: &Value,
) -> Result<Array, JsonFault>
    requires small { rows < 2 ^ 31 }
    ensures ok { IfOk result (HoldsColumn (kind_of (out-Field field.now).ty) rows (view column.now)) }
    ensures err { IfErr result (Tells (KindFault (kind_of (out-Field field.now).ty) rows (view column.now))) }
{
    match &field.ty {
        DataType::Int(int) => read_numbers(alloc, *int, rows, column),
        DataType::Bool => read_truths(alloc, rows, column),
        DataType::Utf8 => read_texts(alloc, OffsetWidth::Narrow, rows, column),
        DataType::LargeUtf8 => read_texts(alloc, OffsetWidth::Wide, rows, column),
        DataType::List(item) => read_list(alloc, OffsetWidth::Narrow, item, rows, column),
        DataType::LargeList(item) => read_list(alloc, OffsetWidth::Wide, item, rows, column),
        DataType::Dict => Err(JsonFault::at(alloc, JsonFaultKind::UnsupportedType, &[])),
    }
}

/// The column of a field, by its coding where it is encoded.
#[tactic(auto, using(crate::proofs::JsonBatches::coded_faults))]
fn read_coded(
    alloc: Global,
    field: &Field,
    coding: &Option<Coding>,
    rows: u32,
    column: &Value,
) -> Result<Array, JsonFault>
    requires small { rows < 2 ^ 31 }
    requires encoded { IfSome coding.now (λ _. kind_of (out-Field field.now).ty ≡ kind.dict) }
    ensures ok { IfOk result
        (HoldsTop (kind_of (out-Field field.now).ty) (option_map coding_of coding.now) rows (view column.now)) }
    ensures err { IfErr result
        (Tells (CodedFault (kind_of (out-Field field.now).ty) (option_map coding_of coding.now) rows (view column.now))) }
{
    match coding {
        None => read_array(alloc, field, rows, column),
        Some(coding) => read_codes(alloc, coding.index, &coding.words, rows, column),
    }
}

/// The columns of a batch, one for each field.
#[tactic(auto, using(crate::proofs::JsonBatches::columns_faults))]
fn read_columns(
    alloc: Global,
    fields: &[Field],
    catalog: &[Option<Coding>],
    rows: u32,
    values: &[Value],
) -> Result<Vec<Array>, JsonFault>
    requires small { rows < 2 ^ 31 }
    requires whole { length values.now ≡ length fields.now }
    requires catalog { IsCatalogOf (fields_of fields.now) (map (option_map coding_of) catalog.now) }
    ensures ok { IfOk result (λ columns.
        HoldsColumns (fields_of fields.now) (map (option_map coding_of) catalog.now) rows (items_view values.now)
        (length fields.now) columns.items) }
    ensures err { IfErr result
        (Tells (ColumnsFault (fields_of fields.now) (map (option_map coding_of) catalog.now) rows (items_view values.now))) }
{
    let mut columns = Vec::new(alloc);
    for index in 0..fields.len() {
        let read = read_coded(alloc, &fields[index], &catalog[index], rows, &values[index]);
        let column = read.map_err(|fault| fault.under(alloc, Step::Item(index)))?;
        push(alloc, &mut columns, column)?;
    }
    Ok(columns)
}

/// The batch that a batch object holds, which shares the schema.
#[tactic(auto, using(crate::proofs::JsonBatches::batch_faults))]
pub(crate) fn read_batch(
    alloc: Global,
    schema: &Arc<Schema>,
    catalog: &[Option<Coding>],
    batch: &Value,
) -> Result<RecordBatch, JsonFault>
    requires { IsCatalogOf (arc_value schema.now) (map (option_map coding_of) catalog.now) }
    ensures fields { IfOk result (λ b. b.fields ≡ arc_value schema.now) }
    ensures ok { IfOk result (λ b. ReadsBatch (arc_value schema.now) (map (option_map coding_of) catalog.now) (view batch.now) (table_of b)) }
    ensures err { IfErr result (Tells (BatchFault (arc_value schema.now) (map (option_map coding_of) catalog.now) (view batch.now))) }
{
    check_object(alloc, batch)?;
    let rows = count_member(alloc, batch, Member::Count)?;
    let values = list_member(alloc, batch, Member::Columns, schema.len())?;
    let read = read_columns(alloc, schema.fields(), catalog, rows, values);
    let columns = read.map_err(|fault| fault.under(alloc, Step::Member(Member::Columns)))?;
    let schema = schema.clone().map_err(|_| JsonFault::no_memory(alloc))?;
    Ok(RecordBatch::under(schema, rows, columns))
}
