//! `bench table FIRST BATCHES ROWS NEW COLUMNS` admits a batch of so many rows to a table, two columns of 64-bit numbers and one of
//! texts, each of which is another; then so many batches of so many rows, which have the same texts, but for so many that no
//! batch had before it. Then it adds so many columns of 64-bit numbers. It prints how many rows the table has, how many distinct
//! texts, and how many columns.

use crate::fault::Fault;
use crate::making::{Nulls, Rule, batch, digits, field, longs};
use crate::number;
use arrays::{DataType, INT64, RecordBatch};
use std::alloc::Global;
use std::sync::Arc;
use table::{TableState, Version};

/// What a table is filled with.
#[derive(Clone, Copy)]
pub(crate) struct Filling {
    /// How many rows the first batch has.
    pub(crate) first: u32,
    /// How many come behind it, and how many rows each of them has.
    pub(crate) batches: u32,
    pub(crate) rows: u32,
    /// How many texts of each of them are new.
    pub(crate) fresh: u32,
    /// How many columns are added then.
    pub(crate) columns: u32,
}

/// Runs what the words ask for.
pub(crate) fn run(rt: &HostRuntime, words: &[String]) -> Result<(), Fault> {
    let filling = Filling {
        first: number(words, 0)?,
        batches: number(words, 1)?,
        rows: number(words, 2)?,
        fresh: number(words, 3)?,
        columns: number(words, 4)?,
    };
    tell(rt, filling)
}

/// Fills a table and prints what it has.
pub(crate) fn tell(rt: &HostRuntime, filling: Filling) -> Result<(), Fault> {
    let Some(version) = filled(rt.alloc(), filling) else {
        return Err(Fault::Memory);
    };
    let (rows, texts, columns) = (version.rows(), text_count(&version), version.schema().len());
    println!(rt; "{rows} {texts} {columns}").or(Err(Fault::Output))
}

// How many distinct texts the column of texts has.
fn text_count(version: &Version) -> usize {
    if version.schema().len() < 3 {
        return 0;
    }
    match version.dictionary(2) {
        Some(words) => words.view().len(),
        None => 0,
    }
}

// The table, once the columns are added.
fn filled(alloc: Global, filling: Filling) -> Option<Arc<Version>> {
    let mut table = appended(alloc, filling)?;
    for _column in 0..filling.columns {
        let added = field(alloc, "c", DataType::Int(INT64))?;
        table.add_column(added).ok()?;
    }
    table.version().ok()
}

// The table with its batches. Where no text is new it is one batch that is admitted again and again, so that making it takes no time.
fn appended(alloc: Global, filling: Filling) -> Option<TableState> {
    let begin = batch_at(alloc, 0, filling.first, 0, 0)?;
    let again = batch_at(alloc, 0, filling.rows, 0, 0)?;
    let mut table = TableState::new(alloc, begin.schema().copy(alloc).ok()?).ok()?;
    table.admit(0, &begin).ok()?;
    for place in 0..filling.batches {
        if filling.fresh == 0 {
            table.admit(0, &again).ok()?;
        } else {
            let first = place
                .wrapping_mul(filling.fresh)
                .wrapping_add(filling.first);
            let next = batch_at(alloc, place, filling.rows, filling.fresh, first)?;
            table.admit(0, &next).ok()?;
        }
    }
    Some(table)
}

/// The batch at a place, of so many rows; so many of its texts are those from one on.
pub(crate) fn batch_at(
    alloc: Global,
    place: u32,
    rows: u32,
    fresh: u32,
    first: u32,
) -> Option<RecordBatch> {
    let columns = vec![in alloc;
        longs(alloc, rows, Nulls::Never, Rule::Spread(place, 0))?,
        longs(
            alloc,
            rows,
            Nulls::Never,
            Rule::Spread(place.wrapping_add(1), 0)
        )?,
        digits(alloc, rows, Nulls::Never, Rule::Rising(fresh, first))?,
    ]
    .ok()?;
    batch(alloc, &["a", "b", "s"], rows, columns)
}
