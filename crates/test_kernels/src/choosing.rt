//! Tests of rows that are taken, kept or copied, and of what is refused.

use crate::pieces::Piece::{self, All, Part};
use crate::pieces::{INT8S, NUMBERS, Selected, TRUTHS, is_selected};
use arrays::{Array, DataType, OffsetWidth, View, validate};
use select::{SelectFault, concat, copy, filter, take};
use std::alloc::Global;
use std::process::Abort;
use std::test::Fail;
use test_samples::Sample::{Coded, Lists, ListsOfLists, Of, Texts};
use test_samples::{
    Flat, INT8, NAMES, NARROW, Shown, UINT8, UINT64, WIDTHS, Widths, field, has_item, raw_lists,
};

/// Whether rows are taken by indices, kept by a mask, or all copied.
#[derive(Clone, Copy)]
enum Choice {
    Take(Piece),
    Filter(Piece),
    Copy,
}

/// The rows that a choice gives.
fn chosen(
    alloc: Global,
    choice: Choice,
    view: &View<'_>,
) -> Result<Result<Array, SelectFault>, Fail> {
    Ok(match choice {
        Choice::Take(indices) => take(alloc, view, &indices.slots(&indices.array(alloc, NARROW)?)),
        Choice::Filter(mask) => filter(alloc, view, &mask.slots(&mask.array(alloc, NARROW)?)),
        Choice::Copy => Ok(copy(alloc, view)?),
    })
}

/// The numbers 10 and 20.
const TENS: Piece = All(Of((INT8S, 2, &[None, Some(&[10, 20])])));

const EMPTY: Piece = All(Of((INT8S, 0, &[None, Some(&[])])));

const ZERO: Piece = All(Of((INT8S, 1, &[None, Some(&[0])])));

/// The indices 2, null, 1, 0, behind others.
const INDICES: Piece = Part(
    Of((INT8S, 7, &[Some(&[0x6f]), Some(&[7, 7, 7, 2, 9, 1, 0])])),
    3,
    4,
);

/// The indices 4, null, 0, 4, 2, 3.
const REPEATED: Piece = All(Of((
    Flat::Int(UINT8),
    6,
    &[Some(&[0x3d]), Some(&[4, 9, 0, 4, 2, 3])],
)));

/// The texts joe, null, an empty one, mark and é, with bytes under the null.
const FIVE_NAMES: Piece = All(Texts((
    Some(&[0x1d]),
    &[0, 3, 5, 5, 9, 11],
    b"joe\xff\xffmark\xc3\xa9",
)));

/// True, true, null, true.
const MASK: Piece = All(Of((Flat::Bool, 4, &[Some(&[0x0b]), Some(&[0x0f])])));

/// False, true, true, true, null.
const MASK_OF_CODES: Piece = All(Of((Flat::Bool, 5, &[Some(&[0x0f]), Some(&[0x1e])])));

/// The truth values true, null, false, null, true.
const MASK_OF_PART: Piece = Part(TRUTHS, 3, 5);

/// 66 bytes.
const LETTERS: &[u8] = b"0123456789ABCDEFGHIJKLMNOPQRSTUVWXYZabcdefghijklmnopqrstuvwxyz!#$%";

/// As many truth values: true at 0, 63 and 65; null over true at 1, 62 and 64, and over false at 3.
const MASK_OF_LETTERS: Piece = All(Of((
    Flat::Bool,
    66,
    &[
        Some(b"\xf5\xff\xff\xff\xff\xff\xff\xbf\x02"),
        Some(b"\x03\0\0\0\0\0\0\xc0\x03"),
    ],
)));

/// The numbers of the lists.
const FIRST: &[Option<i128>] = &[Some(12), Some(-7), Some(25)];

const THIRD: &[Option<i128>] = &[Some(0), Some(-127), Some(127), Some(50)];

/// The entries of the codes.
const ENTRIES: &[Option<&str>] = &[Some("a"), Some("b"), Some("a"), None];

/// Slots, a choice of them, and what it gives.
type Chosen = (Piece, Choice, Selected);

static TAKEN: [Chosen; 6] = [
    // 1, null, 1, 0, with a number under the null that names no row.
    (
        TENS,
        Choice::Take(All(Of((INT8S, 4, &[Some(&[0x0d]), Some(&[1, 99, 1, 0])])))),
        Selected::Slots(Shown::Numbers(&[Some(20), None, Some(20), Some(10)])),
    ),
    // The same, with a number under the null that names a row.
    (
        TENS,
        Choice::Take(All(Of((INT8S, 4, &[Some(&[0x0d]), Some(&[1, 0, 1, 0])])))),
        Selected::Slots(Shown::Numbers(&[Some(20), None, Some(20), Some(10)])),
    ),
    // A column without rows gives nulls alone.
    (
        EMPTY,
        Choice::Take(All(Of((INT8S, 1, &[Some(&[0]), Some(&[5])])))),
        Selected::Slots(Shown::Numbers(&[None])),
    ),
    (
        ZERO,
        Choice::Take(EMPTY),
        Selected::Slots(Shown::Numbers(&[])),
    ),
    (
        Part(NUMBERS, 3, 3),
        Choice::Take(INDICES),
        Selected::Slots(Shown::Numbers(&[Some(6), None, None, Some(4)])),
    ),
    (
        Part(TRUTHS, 3, 3),
        Choice::Take(INDICES),
        Selected::Slots(Shown::Bools(&[Some(false), None, None, Some(true)])),
    ),
];

static TAKEN_LISTS: [Chosen; 3] = [
    // Lists, without what lies between.
    (
        All(Lists),
        Choice::Take(All(Of((INT8S, 3, &[None, Some(&[3, 0, 1])])))),
        Selected::Lists(
            Shown::Lists(&[Some(&[]), Some(FIRST), None]),
            &[(&[0, 0, 3, 3], 3)],
        ),
    ),
    (
        Part(Lists, 1, 3),
        Choice::Take(All(Of((INT8S, 1, &[None, Some(&[1])])))),
        Selected::Lists(Shown::Lists(&[Some(THIRD)]), &[(&[0, 4], 4)]),
    ),
    (
        All(ListsOfLists),
        Choice::Take(All(Of((INT8S, 2, &[None, Some(&[1, 0])])))),
        Selected::Lists(
            Shown::ListsOfLists(&[None, Some(&[Some(FIRST), None])]),
            &[(&[0, 0, 2], 2), (&[0, 3, 3], 3)],
        ),
    ),
];

static TAKEN_TEXTS: [Chosen; 2] = [
    (
        All(Coded),
        Choice::Take(REPEATED),
        Selected::Slots(Shown::Encoded(
            &[Some(1), None, Some(2), Some(1), Some(3), None],
            ENTRIES,
            &[Some("b"), None, Some("a"), Some("b"), None, None],
        )),
    ),
    (
        FIVE_NAMES,
        Choice::Take(REPEATED),
        Selected::Slots(Shown::Texts(&[
            Some("é"),
            None,
            Some("joe"),
            Some("é"),
            Some(""),
            Some("mark"),
        ])),
    ),
];

static KEPT: [Chosen; 5] = [
    // A null drops its row: 1, 2, null, 4 by true, null, true, false.
    (
        All(Of((INT8S, 4, &[Some(&[0x0b]), Some(&[1, 2, 9, 4])]))),
        Choice::Filter(All(Of((Flat::Bool, 4, &[Some(&[0x0d]), Some(&[0x07])])))),
        Selected::Slots(Shown::Numbers(&[Some(1), None])),
    ),
    (
        Part(NUMBERS, 3, 5),
        Choice::Filter(MASK_OF_PART),
        Selected::Slots(Shown::Numbers(&[Some(4), None])),
    ),
    (
        Part(TRUTHS, 2, 5),
        Choice::Filter(MASK_OF_PART),
        Selected::Slots(Shown::Bools(&[Some(true), None])),
    ),
    (
        Part(NUMBERS, 3, 0),
        Choice::Filter(Part(TRUTHS, 5, 0)),
        Selected::Slots(Shown::Numbers(&[])),
    ),
    // A word of 64 slots and two more: true first, last, and last in the word, with nulls beside these.
    (
        All(Of((INT8S, 66, &[None, Some(LETTERS)]))),
        Choice::Filter(MASK_OF_LETTERS),
        Selected::Slots(Shown::Numbers(&[Some(48), Some(35), Some(37)])),
    ),
];

static KEPT_OTHERS: [Chosen; 4] = [
    (
        All(Texts(NAMES)),
        Choice::Filter(MASK),
        Selected::Slots(Shown::Texts(&[Some("joe"), None, Some("mark")])),
    ),
    (
        All(Lists),
        Choice::Filter(MASK),
        Selected::Lists(
            Shown::Lists(&[Some(FIRST), None, Some(&[])]),
            &[(&[0, 3, 3, 3], 3)],
        ),
    ),
    (
        All(ListsOfLists),
        Choice::Filter(Part(TRUTHS, 3, 3)),
        Selected::Lists(
            Shown::ListsOfLists(&[Some(&[Some(FIRST), None])]),
            &[(&[0, 2], 2), (&[0, 3, 3], 3)],
        ),
    ),
    (
        All(Coded),
        Choice::Filter(MASK_OF_CODES),
        Selected::Slots(Shown::Encoded(
            &[Some(0), Some(3), None],
            ENTRIES,
            &[Some("a"), None, None],
        )),
    ),
];

static COPIED: [Chosen; 7] = [
    (
        Part(NUMBERS, 3, 3),
        Choice::Copy,
        Selected::Slots(Shown::Numbers(&[Some(4), None, Some(6)])),
    ),
    (
        Part(TRUTHS, 3, 4),
        Choice::Copy,
        Selected::Slots(Shown::Bools(&[Some(true), None, Some(false), None])),
    ),
    (
        Part(Texts(NAMES), 2, 2),
        Choice::Copy,
        Selected::Slots(Shown::Texts(&[None, Some("mark")])),
    ),
    // Lists, without what lies round them.
    (
        Part(Lists, 1, 2),
        Choice::Copy,
        Selected::Lists(Shown::Lists(&[None, Some(THIRD)]), &[(&[0, 0, 4], 4)]),
    ),
    (
        Part(ListsOfLists, 1, 2),
        Choice::Copy,
        Selected::Lists(
            Shown::ListsOfLists(&[None, Some(&[Some(THIRD), Some(&[])])]),
            &[(&[0, 0, 2], 2), (&[0, 4, 4], 4)],
        ),
    ),
    // Codes, with the whole dictionary.
    (
        Part(Coded, 3, 2),
        Choice::Copy,
        Selected::Slots(Shown::Encoded(&[None, Some(1)], ENTRIES, &[None, Some("b")])),
    ),
    (
        Part(Coded, 2, 0),
        Choice::Copy,
        Selected::Slots(Shown::Encoded(&[], ENTRIES, &[])),
    ),
];

/// Asserts what choices give of arrays whose offsets are of these widths.
fn expect_chosen_at(
    rt: &impl Abort,
    alloc: Global,
    widths: Widths,
    cases: &[Chosen],
) -> Result<(), Fail> {
    for (i, (piece, choice, selected)) in cases.iter().enumerate() {
        let array = piece.array(alloc, widths)?;
        let view = piece.slots(&array);
        let rows = chosen(alloc, *choice, &view)??;
        assert!(rt;
            is_selected(&rows, &view, *selected),
            "case {i}, {widths:?}"
        );
    }
    Ok(())
}

/// Asserts it at each width.
fn expect_chosen(rt: &impl Abort, alloc: Global, cases: &[Chosen]) -> Result<(), Fail> {
    for widths in WIDTHS {
        expect_chosen_at(rt, alloc, widths, cases)?;
    }
    Ok(())
}

#[test]
fn numbers_and_truths_are_taken(rt: HostRuntime) -> Result<(), Fail> {
    expect_chosen_at(&rt, rt.alloc(), NARROW, &TAKEN)
}

#[test]
fn lists_are_taken_without_what_lies_between(rt: HostRuntime) -> Result<(), Fail> {
    expect_chosen(&rt, rt.alloc(), &TAKEN_LISTS)
}

#[test]
fn texts_and_codes_are_taken(rt: HostRuntime) -> Result<(), Fail> {
    expect_chosen(&rt, rt.alloc(), &TAKEN_TEXTS)
}

#[test]
fn numbers_and_truths_are_kept(rt: HostRuntime) -> Result<(), Fail> {
    expect_chosen_at(&rt, rt.alloc(), NARROW, &KEPT)
}

#[test]
fn texts_lists_and_codes_are_kept(rt: HostRuntime) -> Result<(), Fail> {
    expect_chosen(&rt, rt.alloc(), &KEPT_OTHERS)
}

#[test]
fn rows_are_copied(rt: HostRuntime) -> Result<(), Fail> {
    expect_chosen(&rt, rt.alloc(), &COPIED)
}

/// 1 and the greatest number of 64 bits.
const HUGE: Piece = All(Of((
    Flat::Int(UINT64),
    2,
    &[
        None,
        Some(b"\x01\0\0\0\0\0\0\0\xff\xff\xff\xff\xff\xff\xff\xff"),
    ],
)));

static REFUSED: [(Piece, Choice, SelectFault); 9] = [
    (
        TENS,
        Choice::Take(All(Of((INT8S, 4, &[None, Some(&[0, 2, 1, 7])])))),
        SelectFault::IndexOutOfRange { row: 1 },
    ),
    (
        TENS,
        Choice::Take(All(Of((INT8S, 2, &[None, Some(&[0, 2])])))),
        SelectFault::IndexOutOfRange { row: 1 },
    ),
    (
        TENS,
        Choice::Take(All(Of((INT8S, 1, &[None, Some(&[255])])))),
        SelectFault::IndexOutOfRange { row: 0 },
    ),
    (
        TENS,
        Choice::Take(HUGE),
        SelectFault::IndexOutOfRange { row: 1 },
    ),
    (
        EMPTY,
        Choice::Take(ZERO),
        SelectFault::IndexOutOfRange { row: 0 },
    ),
    (
        TENS,
        Choice::Take(All(Of((Flat::Bool, 1, &[None, Some(&[0])])))),
        SelectFault::WrongKind,
    ),
    // A wrong kind comes before a wrong length.
    (
        TENS,
        Choice::Filter(All(Of((INT8S, 3, &[None, Some(&[1, 1, 1])])))),
        SelectFault::WrongKind,
    ),
    (
        Part(TRUTHS, 5, 0),
        Choice::Filter(Part(NUMBERS, 3, 0)),
        SelectFault::WrongKind,
    ),
    (
        TENS,
        Choice::Filter(All(Of((Flat::Bool, 3, &[None, Some(&[0x07])])))),
        SelectFault::LengthsDiffer,
    ),
];

#[test]
fn what_names_no_rows_is_refused(rt: HostRuntime) -> Result<(), Fail> {
    for (i, (piece, choice, fault)) in REFUSED.iter().enumerate() {
        let array = piece.array(rt.alloc(), NARROW)?;
        let answer = chosen(rt.alloc(), *choice, &piece.slots(&array))?;
        assert!(rt; answer.err() == Some(*fault), "case {i}");
    }
    Ok(())
}

/// Whether lists have items of the name.
fn has_readings(rows: Result<Array, SelectFault>) -> bool {
    match rows {
        Ok(rows) => has_item(&rows.view(), "reading", false),
        Err(_) => false,
    }
}

#[test]
fn an_item_keeps_its_name(rt: HostRuntime) -> Result<(), Fail> {
    for width in [OffsetWidth::Narrow, OffsetWidth::Wide] {
        let reading = field(rt.alloc(), "reading", false, DataType::Int(INT8))?;
        let lists = validate(rt.alloc(), raw_lists(rt.alloc(), width, reading)?)?;
        for choice in [Choice::Take(ZERO), Choice::Filter(MASK), Choice::Copy] {
            assert!(rt; has_readings(chosen(rt.alloc(), choice, &lists.view())?));
        }
        assert!(rt; has_readings(concat(rt.alloc(), &[lists.view(), lists.view()])));
    }
    Ok(())
}
