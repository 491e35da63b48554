//! Arrays that a stranger may hand in, as rows: each with its name, in groups of one fault. Beside those that are refused
//! stand those that are lawful, or have the next fault, a step from them.

mod depths;
mod dictionaries;
pub(super) mod forms;
mod large;
mod lengths;
mod lists;
mod numbers;
mod orders;
mod texts;
mod validity;

use super::Content::{Bytes, Nothing, Offsets};
use super::Inner::{self, Numbers};
use super::{Slot, in_lists};
use Place::{Entries, InLists, InNulls, Top};
use arrays::{DataType, LayoutFault, RawArray, Width, validate};
use forms::Form;
use std::alloc::Global;
use std::process::Abort;
use std::test::Fail;
use test_samples::{NARROW, Positions, WIDTHS, Widths, raw};

/// What it is, and its parts.
pub(super) type Row = (&'static str, Form);

/// The rows of one fault, or of none.
pub(super) type Group = (Option<LayoutFault>, &'static [Row]);

/// Where an array stands. Nothing above it names any of its slots, and all of them are looked at.
#[derive(Clone, Copy, Debug)]
pub(super) enum Place {
    Top,
    /// In so many lists in one another.
    InLists(usize),
    /// In so many lists in one another that are null.
    InNulls(usize),
    /// As the texts of a dictionary.
    Entries,
}

/// Each place of an array of no lists and no codes, but for a dictionary.
const ANYWHERE: &[Place] = &[
    Top,
    InLists(1),
    InLists(2),
    InLists(8),
    InNulls(1),
    InNulls(8),
];

/// Each place of an array of lists.
const OF_LISTS: &[Place] = &[
    Top,
    InLists(1),
    InLists(2),
    InLists(7),
    InNulls(1),
    InNulls(7),
];

const INT8: Inner = Numbers(Width::W8, true);

const INT64: Inner = Numbers(Width::W64, true);

/// The limits of narrow offsets.
const LEAST_NARROW: i64 = -2147483648;

const MOST_NARROW: i64 = 2147483647;

/// A list without items.
const NO_ITEMS: Slot = [Nothing, Offsets(&[0, 0])];

/// The same, under a null.
const NULL_ITEMS: Slot = [Bytes(&[0]), Offsets(&[0, 0])];

/// A null over the code 0.
const NULL_CODE: Positions = &[Some(&[0]), Some(&[0; 4])];

/// The array at its place. What stands above it is lawful if the place is one for its type.
fn placed(alloc: Global, widths: Widths, place: Place, array: RawArray) -> Result<RawArray, Fail> {
    match place {
        Top => Ok(array),
        InLists(lists) => in_lists(alloc, widths, lists, array, NO_ITEMS),
        InNulls(lists) => in_lists(alloc, widths, lists, array, NULL_ITEMS),
        Entries => {
            let mut codes = raw(alloc, DataType::Dict, 1, NULL_CODE)?;
            codes.dictionary = Some(Box::new(alloc, array)?);
            Ok(codes)
        }
    }
}

/// Asserts the fault of an array at each place.
fn expect_row(
    rt: &impl Abort,
    alloc: Global,
    widths: Widths,
    places: &[Place],
    row: Row,
    fault: Option<LayoutFault>,
) -> Result<(), Fail> {
    let (name, form) = row;
    for place in places {
        let array = placed(alloc, widths, *place, form.parts(alloc, widths)?)?;
        let reported = validate(alloc, array).err();
        assert!(rt;
            reported == fault,
            "{reported:?} for {fault:?}: {name}, {place:?}, {widths:?}"
        );
    }
    Ok(())
}

/// Asserts the fault of each row, at each place.
fn expect_rows(
    rt: &impl Abort,
    alloc: Global,
    widths: Widths,
    places: &[Place],
    group: Group,
) -> Result<(), Fail> {
    let (fault, rows) = group;
    for row in rows {
        expect_row(rt, alloc, widths, places, *row, fault)?;
    }
    Ok(())
}

/// Asserts the fault of each row of each group, at each place.
pub(super) fn expect_at(
    rt: &impl Abort,
    alloc: Global,
    widths: Widths,
    places: &[Place],
    groups: &[Group],
) -> Result<(), Fail> {
    for group in groups {
        expect_rows(rt, alloc, widths, places, *group)?;
    }
    Ok(())
}

/// Asserts it at all widths.
pub(super) fn expect(
    rt: &impl Abort,
    alloc: Global,
    places: &[Place],
    groups: &[Group],
) -> Result<(), Fail> {
    for widths in WIDTHS {
        expect_at(rt, alloc, widths, places, groups)?;
    }
    Ok(())
}

/// Asserts it of texts: at all widths, and of narrow ones as those of a dictionary too.
fn expect_texts(rt: &impl Abort, alloc: Global, groups: &[Group]) -> Result<(), Fail> {
    expect(rt, alloc, ANYWHERE, groups)?;
    expect_at(rt, alloc, NARROW, &[Entries], groups)
}
