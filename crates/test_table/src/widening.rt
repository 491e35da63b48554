//! Columns added to a table in use.

use crate::batches::{ONE_AND_TWO, THREE, THREE_AND_X};
use crate::facts::{Cell, Fact, Facts, Stats, shows_all};
use crate::scenes::{Column, End, Flat, Group, Scene, Step, expect, field_of};
use shared::{AddFault, Refusal, TableState, Version};
use std::alloc::Global;
use std::sync::Arc;
use std::test::Fail;
use test_samples::{Batch, INT8, INT64, Sample, Shown, UINT16, batch_of, fields_of};

/// Texts, numbers and large texts.
const M: Column = ("m", true, 0, Flat::Utf8);

const L: Column = ("l", true, 0, Flat::Int(INT8));

const K: Column = ("k", true, 0, Flat::LargeUtf8);

const FOUR_AND_Y: Batch = (
    1,
    &[
        ("n", true, Sample::Numbers(INT64, &[Some(4)])),
        ("m", true, Sample::Strings(&[Some("y")])),
    ],
);

const THREE_X_AND_7: Batch = (
    1,
    &[
        ("n", true, THREE),
        ("m", true, Sample::Strings(&[Some("x")])),
        ("l", true, Sample::Numbers(INT8, &[Some(7)])),
    ],
);

/// A table to which 1 and 2 were appended.
const NARROW: Facts = &[Fact::Fields(1), Fact::Book(&[(0, 2)])];

/// The same with a column of texts.
const NO_X: Facts = &[
    Fact::Fields(2),
    Fact::Book(&[(0, 2)]),
    Fact::Column(0, 0, Shown::Numbers(&[Some(1), Some(2)])),
    Fact::Column(0, 1, Shown::Encoded(&[None, None], &[], &[None, None])),
    Fact::Words(1, Some(Shown::Texts(&[]))),
    Fact::Stats(1, (2, 2, None, Cell::Nothing, Cell::Nothing)),
];

/// Behind that, 3 with x.
const X_BEHIND: Facts = &[
    Fact::Fields(2),
    Fact::Book(&[(0, 2), (0, 1)]),
    Fact::Column(
        0,
        1,
        Shown::Encoded(&[None, None], &[Some("x")], &[None, None]),
    ),
    Fact::Column(1, 0, Shown::Numbers(&[Some(3)])),
    Fact::Column(1, 1, Shown::Encoded(&[Some(0)], &[Some("x")], &[Some("x")])),
    Fact::Words(1, Some(Shown::Texts(&[Some("x")]))),
    Fact::Stats(1, (3, 2, None, Cell::Text("x"), Cell::Text("x"))),
];

/// What two workers appended, of whom either added the column.
const X_AND_Y: Facts = &[
    Fact::Fields(2),
    Fact::Book(&[(0, 2), (0, 1), (1, 1)]),
    Fact::Column(0, 1, Shown::Named(&[None, None])),
    Fact::Column(1, 1, Shown::Encoded(&[Some(0)], &[Some("x")], &[Some("x")])),
    Fact::Column(2, 0, Shown::Numbers(&[Some(4)])),
    Fact::Column(
        2,
        1,
        Shown::Encoded(&[Some(1)], &[Some("x"), Some("y")], &[Some("y")]),
    ),
];

/// Two workers, of whom each added a column.
const BOTH: Facts = &[
    Fact::Fields(3),
    Fact::Book(&[(0, 2), (1, 1)]),
    Fact::Column(0, 2, Shown::Numbers(&[None, None])),
    Fact::Column(1, 2, Shown::Numbers(&[Some(7)])),
    Fact::Exported(0, 1, Shown::Named(&[None, None])),
    Fact::Exported(1, 1, Shown::Named(&[Some("x")])),
    Fact::Exported(1, 2, Shown::Numbers(&[Some(7)])),
];

/// The two batches in one, with codes of the table.
const JOINED: Facts = &[
    Fact::Sizes(&[3]),
    Fact::Column(0, 0, Shown::Numbers(&[Some(1), Some(2), Some(3)])),
    Fact::Column(0, 1, X_LAST),
    Fact::Exported(0, 1, Shown::Named(&[None, None])),
];

const X_LAST: Shown = Shown::Encoded(
    &[None, None, Some(0)],
    &[Some("x")],
    &[None, None, Some("x")],
);

/// The same with large texts.
const WIDER: Facts = &[
    Fact::Fields(3),
    Fact::Sizes(&[3]),
    Fact::Column(0, 1, X_LAST),
    Fact::Column(0, 2, Shown::Texts(&[None, None, None])),
];

pub(crate) static WIDENED: [Scene; 5] = [
    // What was shown before stays; a batch without the column is refused.
    Scene {
        fields: ONE_AND_TWO,
        workers: 2,
        readers: 1,
        steps: &[
            Step::Append(0, ONE_AND_TWO, Ok(0)),
            Step::Learn(0, 0),
            Step::Latest(0, NARROW),
            Step::Look(0, NARROW),
            Step::Add(0, M, Ok(())),
            Step::Latest(0, NO_X),
            Step::Look(0, NO_X),
            Step::Append(0, THREE_AND_X, Ok(1)),
            Step::Learn(0, 1),
            Step::Latest(0, X_BEHIND),
            Step::Append(1, ONE_AND_TWO, Err(Refusal::SchemaDiffers { column: 1 })),
            Step::Owns(0, 2, 3),
            Step::Owns(1, 0, 0),
            Step::Latest(0, X_BEHIND),
        ],
        end: End::Gathered(X_BEHIND),
    },
    // Who adds the column need not be who appended.
    Scene {
        fields: ONE_AND_TWO,
        workers: 2,
        readers: 0,
        steps: &[
            Step::Append(0, ONE_AND_TWO, Ok(0)),
            Step::Add(0, M, Ok(())),
            Step::Append(0, THREE_AND_X, Ok(1)),
            Step::Append(1, FOUR_AND_Y, Ok(2)),
            Step::Owns(1, 1, 1),
        ],
        end: End::Gathered(X_AND_Y),
    },
    Scene {
        fields: ONE_AND_TWO,
        workers: 2,
        readers: 1,
        steps: &[
            Step::Append(0, ONE_AND_TWO, Ok(0)),
            Step::Add(1, M, Ok(())),
            Step::Append(0, THREE_AND_X, Ok(1)),
            Step::Append(1, FOUR_AND_Y, Ok(2)),
            Step::Owns(0, 2, 3),
        ],
        end: End::Gathered(X_AND_Y),
    },
    Scene {
        fields: ONE_AND_TWO,
        workers: 2,
        readers: 0,
        steps: &[
            Step::Append(0, ONE_AND_TWO, Ok(0)),
            Step::Add(0, M, Ok(())),
            Step::Add(1, L, Ok(())),
            Step::Append(1, THREE_X_AND_7, Ok(1)),
        ],
        end: End::Gathered(BOTH),
    },
    // Batches are joined before another column is added, and behind it.
    Scene {
        fields: ONE_AND_TWO,
        workers: 2,
        readers: 1,
        steps: &[
            Step::Append(0, ONE_AND_TWO, Ok(0)),
            Step::Add(1, M, Ok(())),
            Step::Append(0, THREE_AND_X, Ok(1)),
            Step::Latest(0, X_BEHIND),
            Step::Join(0, 100, JOINED),
            Step::Latest(0, JOINED),
            Step::Add(0, K, Ok(())),
            Step::Latest(0, WIDER),
            Step::Join(1, 100, WIDER),
            Step::Latest(0, WIDER),
        ],
        end: End::Closed,
    },
];

#[test]
fn columns_are_added_between_batches(rt: HostRuntime) -> Result<(), Fail> {
    expect(&rt, rt.alloc(), Group::Widened)
}

/// A statistic of a column of nulls.
const NO_NUMBERS: Stats = (2, 2, Some(0), Cell::Nothing, Cell::Nothing);

const NO_VALUES: Stats = (2, 2, None, Cell::Nothing, Cell::Nothing);

pub(crate) static TYPED: [Scene; 2] = [
    Scene {
        fields: ONE_AND_TWO,
        workers: 1,
        readers: 0,
        steps: &[
            Step::Append(0, ONE_AND_TWO, Ok(0)),
            Step::Add(0, ("m", true, 0, Flat::Bool), Ok(())),
            Step::Add(0, ("m", true, 0, Flat::Dict), Ok(())),
            Step::Add(0, ("m", true, 0, Flat::Int(UINT16)), Ok(())),
            Step::Add(0, ("m", true, 1, Flat::Bool), Ok(())),
            Step::Add(0, ("m", true, 8, Flat::LargeUtf8), Ok(())),
            Step::Look(
                0,
                &[
                    Fact::Fields(6),
                    Fact::Column(0, 0, Shown::Numbers(&[Some(1), Some(2)])),
                    Fact::Column(0, 1, Shown::Bools(&[None, None])),
                    Fact::Column(0, 2, Shown::Named(&[None, None])),
                    Fact::Column(0, 3, Shown::Numbers(&[None, None])),
                    Fact::Stats(1, NO_VALUES),
                    Fact::Stats(3, NO_NUMBERS),
                    Fact::Stats(4, NO_VALUES),
                    Fact::BatchStats(0, 5, NO_VALUES),
                ],
            ),
        ],
        end: End::Closed,
    },
    // A refusal changes nothing.
    Scene {
        fields: ONE_AND_TWO,
        workers: 1,
        readers: 1,
        steps: &[
            Step::Append(0, ONE_AND_TWO, Ok(0)),
            Step::Add(0, ("m", true, 1, Flat::Dict), Err(AddFault::DictInList)),
            Step::Add(0, ("m", true, 8, Flat::Dict), Err(AddFault::DictInList)),
            Step::Add(0, ("m", true, 9, Flat::Dict), Err(AddFault::TooDeep)),
            Step::Add(0, ("m", false, 9, Flat::Dict), Err(AddFault::NotNullable)),
            Step::Add(0, ("m", false, 0, Flat::Dict), Err(AddFault::NotNullable)),
            Step::Owns(0, 1, 2),
            Step::Look(0, NARROW),
            Step::Latest(0, NARROW),
            Step::Append(0, ONE_AND_TWO, Ok(1)),
        ],
        end: End::Gathered(&[Fact::Fields(1), Fact::Sizes(&[2, 2])]),
    },
];

#[test]
fn columns_of_each_type_are_added(rt: HostRuntime) -> Result<(), Fail> {
    expect(&rt, rt.alloc(), Group::Typed)
}

/// A version of a table to which 1 and 2 were appended.
fn narrow(alloc: Global) -> Result<Arc<Version>, Fail> {
    let mut table = TableState::new(alloc, fields_of(alloc, ONE_AND_TWO)?)?;
    table.admit(0, &batch_of(alloc, ONE_AND_TWO)?)?;
    Ok(table.version()?)
}

/// The same with a column of texts, and one of numbers behind it.
const NO_X_AND_NO_NUMBER: Facts = &[
    Fact::Fields(3),
    Fact::Book(&[(0, 2)]),
    Fact::Sizes(&[2]),
    Fact::Column(0, 0, Shown::Numbers(&[Some(1), Some(2)])),
    Fact::Column(0, 1, Shown::Named(&[None, None])),
    Fact::Column(0, 2, Shown::Numbers(&[None, None])),
    Fact::Exported(0, 2, Shown::Numbers(&[None, None])),
    Fact::Words(1, Some(Shown::Texts(&[]))),
    Fact::Words(2, None),
    Fact::Stats(0, (2, 0, Some(3), Cell::Int(1), Cell::Int(2))),
    Fact::Stats(1, NO_VALUES),
    Fact::Stats(2, NO_NUMBERS),
    Fact::BatchStats(0, 2, NO_NUMBERS),
];

#[test]
fn a_version_is_given_columns_behind_its_own(rt: HostRuntime) -> Result<(), Fail> {
    let alloc = rt.alloc();
    let version = narrow(alloc)?;
    let wider = version.with_column(alloc, &field_of(alloc, M)?)?;
    let widest = wider.with_column(alloc, &field_of(alloc, L)?)?;
    assert!(rt; shows_all(alloc, &*widest, NO_X_AND_NO_NUMBER));
    assert!(rt; has_names(&*widest, &["n", "m", "l"]));
    // The versions that it was made of stay as they were.
    assert!(rt; shows_all(alloc, &*wider, NO_X) && has_names(&*wider, &["n", "m"]));
    assert!(rt; shows_all(alloc, &*version, NARROW) && has_names(&*version, &["n"]));
    Ok(())
}

/// Whether the fields have these names.
fn has_names(version: &Version, names: &[&str]) -> bool {
    let fields = version.schema().fields();
    fields
        .iter()
        .map(|field| field.name.as_str())
        .eq(names.iter().copied())
}

/// Columns that no version is given, and why.
static REFUSED: [(Column, AddFault); 5] = [
    (("m", true, 1, Flat::Dict), AddFault::DictInList),
    (("m", true, 8, Flat::Dict), AddFault::DictInList),
    (("m", true, 9, Flat::Dict), AddFault::TooDeep),
    (("m", false, 9, Flat::Dict), AddFault::NotNullable),
    (("m", false, 0, Flat::Dict), AddFault::NotNullable),
];

#[test]
fn a_version_is_given_no_column_that_a_table_refuses(rt: HostRuntime) -> Result<(), Fail> {
    let alloc = rt.alloc();
    let version = narrow(alloc)?;
    for (column, fault) in &REFUSED {
        let refused = version.with_column(alloc, &field_of(alloc, *column)?).err();
        assert!(rt; refused == Some(*fault), "{refused:?} for {fault:?}");
        assert!(rt; shows_all(alloc, &*version, NARROW));
    }
    Ok(())
}
