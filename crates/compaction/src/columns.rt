//! The columns of batches.

ghost use Rattle.std.specs.Prelude.{◌≡◌, ◌<◌, length, slice_index_or};
ghost use Rattle.arrays.specs.Batch.{column, rows_of};

use arrays::{RecordBatch, View};

/// Column `k` of a batch.
pub(crate) fn column_of(batch: &RecordBatch, k: usize) -> View<'_>
    requires { k < length batch.now.columns }
    ensures column { result ≡ slice_index_or batch.now.columns k result }
    ensures items { result.items ≡ column (rows_of batch.now) k }
{
    batch.columns()[k].view()
}
