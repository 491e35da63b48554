//! Which batches from the first on are joined, counted without memory.

ghost use Rattle.std.specs.Prelude.{◌<◌, ◌≤◌, All, length, map};
ghost use Rattle.std.specs.Arc.{arc_value};
ghost use Rattle.arrays.specs.Prelude.{Batch, Kind, rows_of};
ghost use Rattle.compaction.specs.Fronts.{IsBatchOf, IsLongest, IsOfKind, fits_at, fits_in, has_few};
ghost use Rattle.compaction.specs.Neighbours.{IsGroup};

use crate::columns::column_of;
use crate::sizes::{levels, with_size};
use arrays::{MOST_SLOTS, RecordBatch, Schema};
use std::sync::Arc;

/// How many batches from the first on are one group.
pub(crate) fn group_len(schema: &Schema, batches: &[Arc<RecordBatch>], max_rows: u32) -> usize
    requires some { 1 ≤ length batches.now }
    requires batches { All (IsBatchOf schema.now) (map arc_value batches.now) }
    ensures { IsGroup schema.now max_rows result (map rows_of (map arc_value batches.now)) }
{
    let mut len = rows_front(batches, max_rows);
    for column in 0..schema.len() {
        len = column_front(batches, column, len);
    }
    len
}

/// The longest front of batches that have at most so many rows together, and no more than an array may have. It has a
/// batch at least.
fn rows_front(batches: &[Arc<RecordBatch>], max_rows: u32) -> usize
    requires { 1 ≤ length batches.now }
    ensures { IsLongest (has_few max_rows) (length batches.now) result (map rows_of (map arc_value batches.now)) }
{
    let most = MOST_SLOTS.min(max_rows as usize);
    let mut rows = 0;
    for n in 0..batches.len() {
        rows += batches[n].rows() as usize;
        if rows > most {
            return n.max(1);
        }
    }
    batches.len()
}

/// The longest front, of so many batches at most, whose texts and lists in a column offsets count.
fn column_front(batches: &[Arc<RecordBatch>], column: usize, most: usize) -> usize
    requires some { 1 ≤ most }
    requires within { most ≤ length batches.now }
    requires wide { All (λ (b : Batch). column < length b.columns) (map arc_value batches.now) }
    ensures { (k : Kind) → All (IsOfKind k column) (map arc_value batches.now)
        → IsLongest (fits_in k column) most result (map rows_of (map arc_value batches.now)) }
{
    let mut len = most;
    for level in 0..levels(&column_of(&batches[0], column)) {
        len = level_front(batches, column, level, len);
    }
    len
}

/// The same at one level of the column's lists.
fn level_front(batches: &[Arc<RecordBatch>], column: usize, level: usize, most: usize) -> usize
    requires some { 1 ≤ most }
    requires within { most ≤ length batches.now }
    requires wide { All (λ (b : Batch). column < length b.columns) (map arc_value batches.now) }
    ensures some { 1 ≤ result }
    ensures within { result ≤ most }
    ensures longest { (k : Kind) → All (IsOfKind k column) (map arc_value batches.now)
        → IsLongest (fits_at k column level) most result (map rows_of (map arc_value batches.now)) }
{
    let mut size = 0;
    for n in 0..most {
        match with_size(&column_of(&batches[n], column), level, size) {
            Some(more) => size = more,
            None => return n.max(1),
        }
    }
    most
}
