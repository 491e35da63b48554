//! A table as a file: one batch for each entry of the book.

ghost use Rattle.std.specs.Prelude.{◌≡◌, ◌+◌, ◌<◌, ◌≤◌, All, IfOk, length, map};
ghost use Rattle.std.specs.Arc.{arc_value};
ghost use Rattle.std.specs.List.{AllByRecursion};
ghost use Rattle.arrays.specs.Prelude.{rows_of, slice};
ghost use Rattle.table.specs.Export.{HasMore, IsLawful, IsExportPlace, IsUnder, copied, passed};
ghost use Rattle.table.specs.Storage.{IsConsistent, show};
ghost use Rattle.table.specs.Lawful.{rows_of_batches};

use crate::storage::Storage;
use arrays::{Array, File, NoMemory, RecordBatch, Schema};
use compaction::copy;
use std::alloc::Global;
use std::sync::Arc;

/// A place between two rows of batches: so many rows of a batch come before it, and all of the batches before.
#[derive(Clone, Copy)]
struct Place {
    batch: usize,
    used: u32,
}

/// The file of what a table holds.
pub(crate) fn file_of(alloc: Global, storage: &Storage) -> Result<File, NoMemory>
    requires { IsConsistent storage.now }
    ensures fields { IfOk result (λ f. f.fields ≡ (show storage.now).fields) }
    ensures tables { IfOk result (λ f. map rows_of f.batches ≡ map (λ e. e.1) (show storage.now).history) }
    ensures under { IfOk result (λ f. AllByRecursion (λ b. b.fields ≡ f.fields) f.batches) }
    ensures lawful { IfOk result (λ f. AllByRecursion IsLawful f.batches) }
{
    let batches = entry_batches(alloc, storage)?;
    Ok(File::new(storage.schema.clone()?, batches))
}

/// A batch for each entry of the book, with the entry's rows.
fn entry_batches(alloc: Global, storage: &Storage) -> Result<Vec<Arc<RecordBatch>>, NoMemory>
    requires { IsConsistent storage.now }
    ensures tables { IfOk result (λ v. map (λ b. rows_of (arc_value b)) v.items ≡ map (λ e. e.1) (show storage.now).history) }
    ensures under { IfOk result (λ v. All (λ b. IsUnder (show storage.now).fields (arc_value b)) v.items) }
{
    let mut batches = Vec::with_capacity(alloc, storage.book.len())?;
    let mut place = Place { batch: 0, used: 0 };
    for i in 0..storage.book.len() {
        let rows = storage.book.get(i).rows;
        let Place { batch, used } = place.in_batch(&storage.batches);
        batches.push(part_of(alloc, &storage.schema, &storage.batches[batch], used, rows)?)?;
        place = Place {
            batch,
            used: used + rows,
        };
    }
    Ok(batches)
}

impl Place {
    /// The same place, in a batch with rows behind it, where there is one.
    fn in_batch(self, batches: &[Arc<RecordBatch>]) -> Place
        requires place { IsExportPlace (map arc_value batches.now) self }
        requires within { self.batch < length batches.now }
        ensures same { passed (map arc_value batches.now) result ≡ passed (map arc_value batches.now) self }
        ensures place { IsExportPlace (map arc_value batches.now) result }
        ensures within { result.batch < length batches.now }
        ensures left { passed (map arc_value batches.now) self < length (rows_of_batches (map arc_value batches.now)) → HasMore (map arc_value batches.now) result }
    {
        if self.used < batches[self.batch].rows() {
            return self;
        }
        for batch in self.batch + 1..batches.len() {
            if batches[batch].rows() > 0 {
                return Place { batch, used: 0 };
            }
        }
        self
    }
}

/// So many rows of a batch under a schema from row `start` on: the batch itself, shared, where these are all, else copies.
fn part_of(
    alloc: Global,
    schema: &Arc<Schema>,
    batch: &Arc<RecordBatch>,
    start: u32,
    rows: u32,
) -> Result<Arc<RecordBatch>, NoMemory>
    requires fields { (arc_value batch.now).fields ≡ arc_value schema.now }
    requires within { start + rows ≤ (arc_value batch.now).rows }
    ensures fields { IfOk result (λ b. (arc_value b).fields ≡ (arc_value batch.now).fields) }
    ensures rows { IfOk result (λ b. rows_of (arc_value b) ≡ slice (rows_of (arc_value batch.now)) start rows) }
    ensures lawful { IfOk result (λ b. IsLawful (arc_value b)) }
{
    let whole = batch.columns();
    if rows == batch.rows() {
        return Ok(batch.clone()?);
    }
    let columns = columns_of(alloc, whole, start, rows)?;
    // The columns are of the same types, and as long as is said.
    let part = RecordBatch::under(schema.clone()?, rows, columns);
    Ok(Arc::new(alloc, part)?)
}

/// So many slots of each column from slot `start` on.
fn columns_of(
    alloc: Global,
    columns: &[Array],
    start: u32,
    rows: u32,
) -> Result<Vec<Array>, NoMemory>
    requires { All (λ c. start + rows ≤ length c.items) columns.now }
    ensures { IfOk result (λ v. v.items ≡ map (copied start rows) columns.now) }
{
    let mut parts = Vec::with_capacity(alloc, columns.len())?;
    for column in columns {
        parts.push(copy(alloc, &column.view().slice(start as usize, rows as usize))?)?;
    }
    Ok(parts)
}
