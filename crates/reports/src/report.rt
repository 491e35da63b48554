//! The output of `stats`.
ghost use Rattle.arrays.specs.Prelude.{Item, field_of, kind_of_field};
ghost use Rattle.std.specs.Prelude.{List, ◌≡◌, ◌++◌, ◌==◌, ◌<◌, ◌≤◌, OnOk, IfOk, Some, cond, length, slice_get, string_bytes};
ghost use Rattle.reports.specs.Shown.{stats_text, worker_line, worker_lines, column_lines, field_line};
ghost use Rattle.table.specs.Prelude.{AreStats, IsLegal, of, rows};

use crate::text::{column_line, push_rows_line, push_worker_line};
use arrays::{Field, NoMemory};
use std::alloc::Global;
use table::{ColumnStats, Entry, Version};

/// What `stats` prints for so many workers and a version of the table that they loaded.
pub fn stats_text(alloc: Global, workers: u32, version: &Version) -> Result<String, NoMemory>
    ensures legal { OnOk result (IsLegal version.now.fields version.now.history) }
    ensures output { IfOk result (λ text. string_bytes text ≡ stats_text workers version.now.fields version.now.history) }
{
    let mut text = String::new(alloc);
    push_rows_line(&mut text, version.rows())?;
    push_worker_lines(&mut text, workers, version)?;
    push_column_lines(alloc, &mut text, version)?;
    Ok(text)
}

/// Adds a line for each worker.
fn push_worker_lines(text: &mut String, workers: u32, version: &Version) -> Result<(), NoMemory>
    ensures { OnOk result (string_bytes text.new
        ≡ string_bytes text.old ++ worker_lines workers version.now.history) }
{
    for worker in 0..workers {
        push_line_of(text, version, worker)?;
    }
    Ok(())
}

/// Adds the line of a worker.
fn push_line_of(text: &mut String, version: &Version, worker: u32) -> Result<(), NoMemory>
    ensures { OnOk result (string_bytes text.new ≡ string_bytes text.old
        ++ worker_line worker (length (of version.now.history worker)) (length (rows (of version.now.history worker)))) }
{
    let (calls, rows) = share(version, worker);
    push_worker_line(text, worker, calls, rows)
}

/// How many batches a worker added, and how many rows they have together.
fn share(version: &Version, worker: u32) -> (u64, u64)
    ensures calls { result.0 ≡ length (of version.now.history worker) }
    ensures rows { result.1 ≡ length (rows (of version.now.history worker)) }
{
    let mut calls = 0;
    let mut rows = 0;
    for place in 0..version.book_len() {
        let entry = version.book_at(place);
        let (more_calls, more_rows) = counted(entry, worker);
        calls += more_calls;
        rows += more_rows;
    }
    (calls, rows)
}

/// What an entry counts for a worker: one batch and its rows, or nothing.
fn counted(entry: Entry, worker: u32) -> (u64, u64)
    ensures calls { result.0 ≡ cond (entry.worker == worker) 1 0 }
    ensures rows { result.1 ≡ cond (entry.worker == worker) entry.rows 0 }
    ensures few { (result.0 ≤ 1) × (result.1 ≤ 4294967295) }
{
    if entry.worker == worker {
        (1, u64::from(entry.rows))
    } else {
        (0, 0)
    }
}

/// Adds a line for each column.
fn push_column_lines(alloc: Global, text: &mut String, version: &Version) -> Result<(), NoMemory>
    ensures { OnOk result (string_bytes text.new ≡ string_bytes text.old
        ++ column_lines version.now.fields (rows version.now.history)) }
{
    for k in 0..version.schema().fields().len() {
        push_field_line(alloc, text, field_at(version, k), version.stats(k))?;
    }
    Ok(())
}

/// The field of a column.
fn field_at(version: &Version, k: usize) -> &Field
    requires { k < length version.now.fields }
    ensures { slice_get version.now.fields k ≡ Some (field_of result.now) }
{
    &version.schema().fields()[k]
}

/// Adds the line of a column with these statistics.
fn push_field_line(
    alloc: Global,
    text: &mut String,
    field: &Field,
    stats: &ColumnStats,
) -> Result<(), NoMemory>
    ensures { (items : List Item) → AreStats stats.now (kind_of_field (field_of field.now)) items
        → OnOk result (string_bytes text.new
        ≡ string_bytes text.old ++ field_line (field_of field.now) items) }
{
    let line = column_line(alloc, field, stats)?;
    text.push_str(&line)?;
    Ok(())
}
