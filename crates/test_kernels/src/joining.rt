//! Tests of views that are joined.

use crate::pieces::Piece::{self, All, Part};
use crate::pieces::{NUMBERS, Selected, TRUTHS, is_selected};
use arrays::{Array, View};
use select::{SelectFault, concat};
use std::alloc::Global;
use std::process::Abort;
use std::test::Fail;
use test_samples::Sample::{Coded, Lists, ListsOfLists, Of, Texts};
use test_samples::{Flat, INT32, INT64, NAMES, NARROW, Positions, Shown, UINT32, WIDTHS, Widths};

/// The text é.
const ACCENTED: Piece = All(Texts((None, &[0, 2], b"\xc3\xa9")));

/// The numbers of the lists.
const FIRST: &[Option<i128>] = &[Some(12), Some(-7), Some(25)];

const THIRD: &[Option<i128>] = &[Some(0), Some(-127), Some(127), Some(50)];

/// Pieces, and what they give one after the other.
type Joined = (&'static [Piece], Selected);

static NUMBERS_AND_TRUTHS: [Joined; 2] = [
    (
        &[
            Part(NUMBERS, 3, 3),
            Part(NUMBERS, 7, 1),
            Part(NUMBERS, 5, 0),
            Part(NUMBERS, 0, 2),
        ],
        Selected::Slots(Shown::Numbers(&[Some(4), None, Some(6), None, Some(1), Some(2)])),
    ),
    (
        &[Part(TRUTHS, 3, 4), Part(TRUTHS, 1, 2)],
        Selected::Slots(Shown::Bools(&[
            Some(true),
            None,
            Some(false),
            None,
            Some(false),
            Some(true),
        ])),
    ),
];

static OTHERS: [Joined; 7] = [
    (
        &[All(Texts(NAMES)), ACCENTED],
        Selected::Slots(Shown::Texts(&[Some("joe"), None, None, Some("mark"), Some("é")])),
    ),
    (
        &[Part(Texts(NAMES), 3, 1), Part(Texts(NAMES), 0, 2)],
        Selected::Slots(Shown::Texts(&[Some("mark"), Some("joe"), None])),
    ),
    // Lists, without what lies before them.
    (
        &[Part(Lists, 2, 2), All(Lists)],
        Selected::Lists(
            Shown::Lists(&[
                Some(THIRD),
                Some(&[]),
                Some(FIRST),
                None,
                Some(THIRD),
                Some(&[]),
            ]),
            &[(&[0, 4, 4, 7, 7, 11, 11], 11)],
        ),
    ),
    // A view alone is copied.
    (
        &[Part(Lists, 1, 2)],
        Selected::Lists(Shown::Lists(&[None, Some(THIRD)]), &[(&[0, 0, 4], 4)]),
    ),
    (
        &[Part(ListsOfLists, 2, 1), Part(ListsOfLists, 0, 2)],
        Selected::Lists(
            Shown::ListsOfLists(&[
                Some(&[Some(THIRD), Some(&[])]),
                Some(&[Some(FIRST), None]),
                None,
            ]),
            &[(&[0, 2, 4, 4], 4), (&[0, 4, 4, 7, 7], 7)],
        ),
    ),
    // Codes, with both dictionaries.
    (
        &[All(Coded), Part(Coded, 3, 2)],
        Selected::Slots(Shown::Encoded(
            &[Some(2), Some(0), Some(3), None, Some(1), None, Some(5)],
            &[
                Some("a"),
                Some("b"),
                Some("a"),
                None,
                Some("a"),
                Some("b"),
                Some("a"),
                None,
            ],
            &[Some("a"), Some("a"), None, None, Some("b"), None, Some("b")],
        )),
    ),
    (
        &[Part(Coded, 2, 0)],
        Selected::Slots(Shown::Encoded(&[], &[Some("a"), Some("b"), Some("a"), None], &[])),
    ),
];

/// The arrays of the pieces, with offsets of these widths.
fn arrays_of(alloc: Global, widths: Widths, pieces: &[Piece]) -> Result<Vec<Array>, Fail> {
    let mut arrays = Vec::new(alloc);
    for piece in pieces {
        arrays.push(piece.array(alloc, widths)?)?;
    }
    Ok(arrays)
}

/// The slots of the pieces in their arrays.
fn views_of<'a>(
    alloc: Global,
    pieces: &[Piece],
    arrays: &'a [Array],
) -> Result<Vec<View<'a>>, Fail> {
    let mut views = Vec::new(alloc);
    for (piece, array) in pieces.iter().zip(arrays) {
        views.push(piece.slots(array))?;
    }
    Ok(views)
}

/// Pieces one after the other.
fn joined(
    alloc: Global,
    widths: Widths,
    pieces: &[Piece],
) -> Result<Result<Array, SelectFault>, Fail> {
    let arrays = arrays_of(alloc, widths, pieces)?;
    let views = views_of(alloc, pieces, &arrays)?;
    if views.is_empty() {
        return Err("there are no views".into());
    }
    Ok(concat(alloc, &views))
}

/// Whether this is what the pieces give, of the type of the first.
fn is_joined(
    alloc: Global,
    widths: Widths,
    rows: &Array,
    pieces: &[Piece],
    selected: Selected,
) -> Result<bool, Fail> {
    match pieces.first() {
        Some(piece) => {
            let array = piece.array(alloc, widths)?;
            Ok(is_selected(rows, &array.view(), selected))
        }
        None => Ok(false),
    }
}

/// Asserts what pieces give whose offsets are of these widths.
fn expect_joined(
    rt: &impl Abort,
    alloc: Global,
    widths: Widths,
    cases: &[Joined],
) -> Result<(), Fail> {
    for (i, (pieces, selected)) in cases.iter().enumerate() {
        let rows = joined(alloc, widths, *pieces)??;
        let is_joined = is_joined(alloc, widths, &rows, *pieces, *selected)?;
        assert!(rt; is_joined, "case {i}, {widths:?}");
    }
    Ok(())
}

#[test]
fn numbers_and_truths_are_joined_from_any_slot(rt: HostRuntime) -> Result<(), Fail> {
    expect_joined(&rt, rt.alloc(), NARROW, &NUMBERS_AND_TRUTHS)
}

#[test]
fn texts_lists_and_codes_are_joined(rt: HostRuntime) -> Result<(), Fail> {
    for widths in WIDTHS {
        expect_joined(&rt, rt.alloc(), widths, &OTHERS)?;
    }
    Ok(())
}

/// Pieces of several types.
static REFUSED: [[Piece; 2]; 4] = [
    [All(Texts((None, &[], b""))), All(Coded)],
    [
        All(Of((Flat::Int(INT32), 0, NOTHING))),
        All(Of((Flat::Int(INT64), 0, NOTHING))),
    ],
    [
        All(Of((Flat::Int(UINT32), 0, NOTHING))),
        All(Of((Flat::Int(INT32), 0, NOTHING))),
    ],
    [All(Lists), All(ListsOfLists)],
];

const NOTHING: Positions = &[None, Some(&[])];

#[test]
fn views_of_several_types_are_refused(rt: HostRuntime) -> Result<(), Fail> {
    for widths in WIDTHS {
        for (i, pieces) in REFUSED.iter().enumerate() {
            let answer = joined(rt.alloc(), widths, pieces)?;
            assert!(rt;
                answer.err() == Some(SelectFault::TypesDiffer),
                "case {i}, {widths:?}"
            );
        }
    }
    Ok(())
}
