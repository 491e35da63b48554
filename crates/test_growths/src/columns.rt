//! Columns that calls are tried on.

use arrays::{Array, RawArray};
use std::alloc::Global;
use std::test::Fail;
use test_samples::{
    Flat, INT8, INT32, INT64, NAMES, NARROW, Positions, Sample, WIDE, WIDE_IN_NARROW, Widths,
    raw_sample, sampled_at,
};

/// A column.
#[derive(Clone, Copy)]
pub(crate) enum Column {
    Numbers,
    /// The numbers 1, 2, 3 and 4, none of which is null.
    Long,
    Bools,
    Texts,
    LargeTexts,
    Codes,
    Lists,
    LargeLists,
    ListsOfLists,
    /// Large lists, of lists that aren't.
    LargeListsOfLists,
    /// Rows to be taken.
    Rows,
    /// Of so many rows the first and the third are kept.
    Kept(u64),
}

#[rattlefmt::skip]
static NUMBERS: Sample = Sample::Numbers(INT8, &[Some(1), None, Some(3), Some(4)]);

#[rattlefmt::skip]
static LONG: Sample = Sample::Of((Flat::Int(INT64), 4, &[None, Some(
    b"\x01\0\0\0\0\0\0\0\x02\0\0\0\0\0\0\0\x03\0\0\0\0\0\0\0\x04\0\0\0\0\0\0\0",
)]));

static BOOLS: Sample = Sample::Bools(&[Some(true), None, Some(false), Some(true)]);

static TEXTS: Sample = Sample::Texts(NAMES);

static ROWS: Sample = Sample::Numbers(INT32, &[Some(2), None, Some(0), Some(2)]);

static KEPT: Positions = &[None, Some(&[0x05])];

impl Column {
    /// How wide its offsets are.
    fn widths(self) -> Widths {
        match self {
            Column::LargeTexts | Column::LargeLists => WIDE,
            Column::LargeListsOfLists => WIDE_IN_NARROW,
            _ => NARROW,
        }
    }

    /// What it holds.
    fn sample(self) -> Sample {
        match self {
            Column::Numbers => NUMBERS,
            Column::Long => LONG,
            Column::Bools => BOOLS,
            Column::Texts | Column::LargeTexts => TEXTS,
            Column::Codes => Sample::Coded,
            Column::Lists | Column::LargeLists => Sample::Lists,
            Column::ListsOfLists | Column::LargeListsOfLists => Sample::ListsOfLists,
            Column::Rows => ROWS,
            Column::Kept(rows) => Sample::Of((Flat::Bool, rows, KEPT)),
        }
    }

    /// The column as an array.
    pub(crate) fn array(self, alloc: Global) -> Result<Array, Fail> {
        sampled_at(alloc, self.widths(), self.sample())
    }

    /// The parts of the array.
    pub(crate) fn parts(self, alloc: Global) -> Result<RawArray, Fail> {
        raw_sample(alloc, self.widths(), self.sample())
    }
}
