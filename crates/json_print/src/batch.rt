//! Batches as text.

ghost use Rattle.std.specs.Prelude.{◌≡◌, OnOk, length, map};
ghost use Rattle.arrays.specs.Prelude.{field_of, fields_of, kind_of, kinds_of, out-Field};
ghost use Rattle.json_print.specs.BatchData.{batch_data, columns_data};
ghost use Rattle.json_base.specs.JsonTable.{items_of, table_of};
ghost use Rattle.json_print.specs.ColumnData.{column_data};
ghost use Rattle.json_print.specs.Slots.{code_in};
ghost use Rattle.json_print.specs.Written.{Adds, AddsItems};

use crate::column::write_column;
use crate::output::Output;
use crate::text_set::TextSet;
use arrays::{Array, Field, NoMemory, RecordBatch};
use std::alloc::Global;

/// Writes a column of a batch.
fn write_array(
    alloc: Global,
    out: &mut Output,
    texts: &TextSet,
    field: &Field,
    column: &Array,
) -> Result<(), NoMemory>
    requires { column.now.kind ≡ kind_of (out-Field field.now).ty }
    ensures { OnOk result (Adds (column_data (code_in texts.now) (field_of field.now) column.now.items) out.old out.new) }
{
    let columns = [column.view()];
    write_column(alloc, out, texts, field, &columns)
}

/// Writes the columns of fields, each with its dictionary, and the end of the columns.
fn write_columns(
    alloc: Global,
    out: &mut Output,
    dictionaries: &[TextSet],
    fields: &[Field],
    columns: &[Array],
) -> Result<(), NoMemory>
    requires dictionaries { length dictionaries.now ≡ length fields.now }
    requires columns { length columns.now ≡ length fields.now }
    requires kinds { map (λ c. c.kind) columns.now ≡ kinds_of (fields_of fields.now) }
    ensures { OnOk result (AddsItems (columns_data dictionaries.now (fields_of fields.now) (items_of columns.now))
        out.old out.new) }
{
    for place in 0..fields.len() {
        write_array(
            alloc,
            out,
            &dictionaries[place],
            &fields[place],
            &columns[place],
        )?;
    }
    out.end_array()
}

/// Writes a batch under the fields, each with its dictionary.
pub(crate) fn write_batch(
    alloc: Global,
    out: &mut Output,
    dictionaries: &[TextSet],
    fields: &[Field],
    batch: &RecordBatch,
) -> Result<(), NoMemory>
    requires dictionaries { length dictionaries.now ≡ length fields.now }
    requires kinds { kinds_of batch.now.fields ≡ kinds_of (fields_of fields.now) }
    ensures { OnOk result (Adds (batch_data dictionaries.now (fields_of fields.now) (table_of batch.now)) out.old out.new) }
{
    out.begin_object()?;
    out.key("columns")?;
    out.begin_array()?;
    write_columns(alloc, out, dictionaries, fields, batch.columns())?;
    out.key("count")?;
    out.number(u64::from(batch.rows()))?;
    out.end_object()
}
