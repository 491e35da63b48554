//! Batches and their fields, as tables of cases say them.

use crate::columns::{Sample, sampled};
use crate::fields::field;
use arrays::{RecordBatch, Schema};
use std::alloc::Global;
use std::test::Fail;

/// So many rows, and of each column the name, whether it may hold nulls, and what it holds.
pub type Batch = (u32, &'static [(&'static str, bool, Sample)]);

/// The batch of these columns.
pub fn batch_of(alloc: Global, batch: Batch) -> Result<RecordBatch, Fail> {
    let (rows, columns) = batch;
    let (mut fields, mut arrays) = (Vec::new(alloc), Vec::new(alloc));
    for (name, nullable, sample) in columns {
        let array = sampled(alloc, *sample)?;
        fields.push(field(alloc, *name, *nullable, array.ty().copy(alloc)?)?)?;
        arrays.push(array)?;
    }
    Ok(RecordBatch::new(Schema::new(fields)?, rows, arrays)?)
}

/// The fields of this batch.
pub fn fields_of(alloc: Global, batch: Batch) -> Result<Schema, Fail> {
    Ok(batch_of(alloc, batch)?.schema().copy(alloc)?)
}
