//! What a version of a table shows, as tables of cases say it.

ghost use Rattle.std.specs.Prelude.{◌<◌, length};

use arrays::RecordBatch;
use shared::{ColumnStats, Entry, Scalar, Version};
use std::alloc::Global;
use std::sync::Arc;
use test_samples::{Shown, shows};

/// What is true of a version.
pub(crate) enum Fact {
    /// It has so many fields.
    Fields(usize),
    /// Its batches have so many rows.
    Sizes(&'static [u32]),
    /// Which workers appended how many rows, entry by entry.
    Book(&'static [(u32, u32)]),
    /// What a column holds: the place of the batch, and that of the column.
    Column(usize, usize, Shown),
    /// The same of an exported batch, one for each entry of the book.
    Exported(usize, usize, Shown),
    /// The texts of a column's dictionary, if it has one.
    Words(usize, Option<Shown>),
    /// The statistics of a column.
    Stats(usize, Stats),
    /// Those of a column of a batch.
    BatchStats(usize, usize, Stats),
}

/// All that a scene asks of a version.
pub(crate) type Facts = &'static [Fact];

/// How many rows there are and how many of them are null, the sum, the least and the greatest.
pub(crate) type Stats = (u64, u64, Option<i128>, Cell, Cell);

/// A value of a statistic.
#[derive(Clone, Copy)]
pub(crate) enum Cell {
    Nothing,
    Int(i128),
    Text(&'static str),
}

/// Whether all of this is true of a version.
pub(crate) fn shows_all(alloc: Global, version: &Version, facts: Facts) -> bool {
    for fact in facts {
        if !is_true(alloc, version, fact) {
            return false;
        }
    }
    true
}

/// Whether this is.
fn is_true(alloc: Global, version: &Version, fact: &Fact) -> bool {
    let columns = version.schema().len();
    match fact {
        Fact::Fields(count) => columns == *count,
        Fact::Sizes(sizes) => has_sizes(version.batches(), *sizes),
        Fact::Book(book) => has_book(version, *book),
        Fact::Column(batch, column, shown) => {
            shows_column(version.batches(), *batch, *column, *shown)
        }
        Fact::Exported(batch, column, shown) => match version.export(alloc) {
            Ok(file) => shows_column(file.batches(), *batch, *column, *shown),
            Err(_) => false,
        },
        Fact::Words(column, words) => *column < columns && has_words(version, *column, *words),
        Fact::Stats(column, stats) => {
            *column < columns && are_stats(version.stats(*column), *stats)
        }
        Fact::BatchStats(batch, column, stats) => {
            *batch < version.batches().len()
                && *column < columns
                && are_stats(version.batch_stats(*batch, *column), *stats)
        }
    }
}

/// Whether the batches have so many rows.
fn has_sizes(batches: &[Arc<RecordBatch>], sizes: &[u32]) -> bool {
    batches
        .iter()
        .map(|batch| batch.rows())
        .eq(sizes.iter().copied())
}

/// Whether these workers appended so many rows each, and nobody any other.
fn has_book(version: &Version, book: &[(u32, u32)]) -> bool {
    let mut count = 0u64;
    for (place, (worker, rows)) in book.iter().enumerate() {
        let entry = Entry {
            worker: *worker,
            rows: *rows,
        };
        if place as u64 >= u64::from(version.book_len()) || version.book_at(place as u32) != entry {
            return false;
        }
        count = count.wrapping_add(u64::from(*rows));
    }
    version.book_len() as usize == book.len() && version.rows() == count
}

/// Whether the column at this place of the batch at that place holds this.
fn shows_column(batches: &[Arc<RecordBatch>], batch: usize, column: usize, shown: Shown) -> bool {
    let Some(batch) = batches.get(batch) else {
        return false;
    };
    match batch.columns().get(column) {
        Some(array) => shows(&array.view(), shown),
        None => false,
    }
}

/// Whether a column's dictionary has these texts.
fn has_words(version: &Version, column: usize, words: Option<Shown>) -> bool
    requires { column < length version.now.fields }
{
    match (version.dictionary(column), words) {
        (Some(found), Some(shown)) => shows(&found.view(), shown),
        (None, None) => true,
        _ => false,
    }
}

/// Whether statistics are these.
fn are_stats(found: &ColumnStats, stats: Stats) -> bool {
    let (rows, nulls, sum, least, greatest) = stats;
    found.rows == rows
        && found.nulls == nulls
        && found.sum == sum
        && is_cell(&found.least, least)
        && is_cell(&found.greatest, greatest)
}

/// Whether a scalar is this.
fn is_cell(found: &Option<Scalar>, cell: Cell) -> bool {
    match (found, cell) {
        (None, Cell::Nothing) => true,
        (Some(Scalar::Int(number)), Cell::Int(wanted)) => *number == wanted,
        (Some(Scalar::Text(text)), Cell::Text(wanted)) => text.as_str() == wanted,
        _ => false,
    }
}
