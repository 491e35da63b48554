ghost use Rattle.std.specs.Prelude.{◌≡◌, Some, None, IfOk, IfErr, not, position};
ghost use Rattle.std.specs.Arc.{arc_value};
ghost use Rattle.std.specs.List.{zip};
ghost use Rattle.types.specs.Kind.{kind_of, same_kind};
ghost use Rattle.types.specs.declared.data_type.Field.{out-Field};
ghost use Rattle.arrays.specs.Batch.{bad_length, batch_fault, differing_length, differing_type};

mod schema;

use crate::array::Array;
use crate::batch::schema::BatchSchema;
use colbits::NoMemory;
use std::alloc::Global;
use std::marker::Model;
use std::sync::Arc;
use thiserror::Error;
use types::{Field, MOST_SLOTS, Schema, is_same};

/// Why columns are no record batch.
#[derive(Clone, Copy, Debug, PartialEq, Eq, Error)]
pub enum BatchFault {
    /// A column isn't as long as the rows, or the rows are over 2^31 - 1; the least column, 0 where there are none.
    #[error("B1 LengthsDiffer column={column}")]
    LengthsDiffer { column: usize },
    /// A column isn't of its field's type; the least one.
    #[error("B2 TypeDiffers column={column}")]
    TypeDiffers { column: usize },
    /// There are more columns than fields, or fewer.
    #[error("B3 ColumnCount")]
    ColumnCount,
}

/// Columns of one length, each of its field's type. A batch without columns may have rows.
#[derive(Drop)]
pub struct RecordBatch {
    schema: BatchSchema,
    rows: u32,
    columns: Vec<Array>,
}

impl Model for RecordBatch {
    ghost use Rattle.std.specs.Prelude.{◌≡◌, None};
    ghost use Rattle.arrays.specs.Batch.{Batch, batch_fault};
    ghost use Rattle.arrays.specs.Batch.{batch_code};

    ghost Value = { Batch };

    ghost coded = { batch_code };

    ghost view = { λ b. record { fields = b.schema; rows = b.rows; columns = b.columns.items } };

    ghost invariant = { λ b. batch_fault b.schema b.rows b.columns.items ≡ None };
}

impl RecordBatch {
    /// The batch of the columns. The first fault is reported: of their number, of a type, of a length.
    /// What was handed in is gone then.
    pub fn new(schema: Schema, rows: u32, columns: Vec<Array>) -> Result<RecordBatch, BatchFault>
        ensures ok { IfOk result (λ b. (b.fields ≡ schema) × (b.rows ≡ rows) × (b.columns ≡ columns.items)
            × (batch_fault schema rows columns.items ≡ None)) }
        ensures err { IfErr result (λ e. batch_fault schema rows columns.items ≡ Some e) }
    {
        match first_fault(&schema, rows, &columns) {
            Some(fault) => Err(fault),
            None => Ok(RecordBatch {
                schema: BatchSchema::own(schema),
                rows,
                columns,
            }),
        }
    }

    /// The batch of columns that fit a schema, which other batches may share. Nothing is looked at.
    pub fn under(schema: Arc<Schema>, rows: u32, columns: Vec<Array>) -> RecordBatch
        requires { batch_fault (arc_value schema) rows columns.items ≡ None }
        ensures { result ≡ record { fields = arc_value schema; rows = rows; columns = columns.items } }
    {
        let schema = BatchSchema::shared(schema);
        RecordBatch {
            schema,
            rows,
            columns,
        }
    }

    /// The same batch: its columns are shared, and its schema too where other batches have it.
    pub fn copy(&self, alloc: Global) -> Result<RecordBatch, NoMemory>
        ensures { IfOk result (λ b. b ≡ self.now) }
    {
        Ok(RecordBatch {
            schema: self.schema.copy(alloc)?,
            rows: self.rows,
            columns: copies(alloc, &self.columns)?,
        })
    }

    /// The fields of the columns.
    pub fn schema(&self) -> &Schema
        ensures { result.now ≡ self.now.fields }
    {
        self.schema.get()
    }

    /// How many rows there are.
    pub fn rows(&self) -> u32
        ensures { result ≡ self.now.rows }
    {
        self.rows
    }

    /// The columns, one for each field.
    pub fn columns(&self) -> &[Array]
        ensures value { result.now ≡ self.now.columns }
        ensures lawful { batch_fault self.now.fields self.now.rows self.now.columns ≡ None }
    {
        &self.columns
    }
}

/// The same columns: their parts are shared.
fn copies(alloc: Global, columns: &[Array]) -> Result<Vec<Array>, NoMemory>
    ensures { IfOk result (λ v. v.items ≡ columns.now) }
{
    let mut copied = Vec::with_capacity(alloc, columns.len())?;
    for column in columns {
        copied.push(column.copy(alloc)?)?;
    }
    Ok(copied)
}

/// The first fault of the columns.
fn first_fault(schema: &Schema, rows: u32, columns: &[Array]) -> Option<BatchFault>
    ensures { result ≡ batch_fault schema.now rows columns.now }
{
    if columns.len() != schema.len() {
        return Some(BatchFault::ColumnCount);
    }
    if let Some(column) = type_difference(schema, columns) {
        return Some(BatchFault::TypeDiffers { column });
    }
    match bad_length(rows, columns) {
        Some(column) => Some(BatchFault::LengthsDiffer { column }),
        None => None,
    }
}

/// The least column that isn't as long as the rows, or is one of too many rows.
fn bad_length(rows: u32, columns: &[Array]) -> Option<usize>
    ensures { result ≡ bad_length rows columns.now }
{
    if rows > MOST_SLOTS as u32 {
        return Some(0);
    }
    first_length_difference(rows, columns)
}

/// The least column that isn't as long as the rows.
fn first_length_difference(rows: u32, columns: &[Array]) -> Option<usize>
    ensures { result ≡ differing_length rows columns.now }
{
    columns
        .iter()
        .position(|column| column.len() != rows as usize)
}

/// The least column that isn't of its field's type.
fn type_difference(schema: &Schema, columns: &[Array]) -> Option<usize>
    ensures { result ≡ differing_type schema.now columns.now }
{
    first_type_difference(schema.fields(), columns)
}

/// The same of the fields themselves.
fn first_type_difference(fields: &[Field], columns: &[Array]) -> Option<usize>
    ensures { result ≡ position (λ p. not (same_kind p.0.kind (kind_of (out-Field p.1).ty)))
        (zip columns.now fields.now) }
{
    columns
        .iter()
        .zip(fields)
        .position(|(column, field)| !is_same(column.ty(), &field.ty))
}
