//! Every file in memory is what the laws ask of one.

ghost use Rattle.std.specs.Prelude.{All, ◌<◌, ◌^◌, length};
ghost use Rattle.std.specs.Arc.{arc_value};
ghost use Rattle.std.specs.List.{AllByRecursion};
ghost use Rattle.json_base.specs.JsonTable.{tables_of};
ghost use Rattle.json_laws.specs.IsFile.{IsBatch, IsField, IsFile, IsShown};

use arrays::{Array, Field, File, RecordBatch, Schema};
use std::sync::Arc;

/// Says that a file is what the laws ask of one. Nothing is looked at that a proof doesn't need, and nothing changes.
pub fn tell_file(file: &File)
    ensures { IsFile file.now.fields (tables_of file.now.batches) }
{
    tell_fields(file.schema());
    tell_batches(file.batches());
}

/// Says that each field is lawful, and that they are few.
fn tell_fields(schema: &Schema)
    ensures few { length schema.now < 2 ^ 63 }
    ensures lawful { AllByRecursion IsField schema.now }
{
    tell_few(schema.fields());
}

/// Says that a slice of fields is no longer than a slice may be.
fn tell_few(fields: &[Field])
    ensures { length fields.now < 2 ^ 63 }
{
    let _ = fields.is_empty();
}

/// Says that each batch holds a table under its own fields.
fn tell_batches(batches: &[Arc<RecordBatch>])
    ensures { All (λ b. IsBatch (arc_value b)) batches.now }
{
    for batch in batches {
        tell_batch(batch);
    }
}

/// Says that a batch holds a table under its fields.
fn tell_batch(batch: &RecordBatch)
    ensures { IsBatch batch.now }
{
    tell_columns(batch.columns());
}

/// Says that the items of each column are of its kind, and so many as offsets count.
fn tell_columns(columns: &[Array])
    ensures { All IsShown columns.now }
{
    for column in columns {
        column.view().tell_items();
    }
}
