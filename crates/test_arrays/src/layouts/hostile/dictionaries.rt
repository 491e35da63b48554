//! Codes and their dictionaries.

use super::Place::{Entries, InLists, InNulls, Top};
use super::forms::Form::{Alone, Codes, Over, Values};
use super::{Group, INT8, expect, expect_at};
use crate::layouts::Content::{self, Bytes, Int32s, Nothing, Offsets};
use crate::layouts::Inner::{Bits, Indices, Texts};
use crate::layouts::{LONGER, Part};
use arrays::LayoutFault::{
    BufferTooShort, ChildDiffers, ExtraBuffer, IndexPastDictionary, MissingBuffer, NullCountDiffers,
};
use arrays::OffsetWidth;
use std::test::Fail;
use test_samples::{NARROW, WIDTHS};

const EMPTY: Content = Bytes(&[]);

const TEXTS: Part = (0, Texts, 0, None, &[EMPTY; 3]);

/// The texts a, a and null.
const THREE: Part = (
    0,
    Texts,
    3,
    Some(1),
    &[Bytes(&[3]), Offsets(&[0, 1, 2, 2]), Bytes(b"aa")],
);

static POSITIONS: &[Group] = &[
    (
        Some(MissingBuffer),
        &[
            (
                "no position",
                Over((0, Indices, 0, None, &[]), &[], Some(TEXTS)),
            ),
            (
                "a bitmap alone",
                Over((0, Indices, 1, None, &[Bytes(&[0])]), &[], Some(THREE)),
            ),
            (
                "nothing as codes",
                Over((0, Indices, 0, None, &[EMPTY, Nothing]), &[], Some(TEXTS)),
            ),
        ],
    ),
    (
        None,
        &[(
            "two",
            Over((0, Indices, 0, None, &[EMPTY; 2]), &[], Some(TEXTS)),
        )],
    ),
    (
        Some(ExtraBuffer),
        &[
            (
                "three",
                Over((0, Indices, 0, None, &[EMPTY; 3]), &[], Some(TEXTS)),
            ),
            (
                "a third without bytes",
                Over(
                    (0, Indices, 0, None, &[EMPTY, EMPTY, Nothing]),
                    &[],
                    Some(TEXTS),
                ),
            ),
        ],
    ),
];

static SIZES: &[Group] = &[
    (
        None,
        &[
            ("four bytes", Codes(1, None, &[0], 3)),
            ("8 of 8 bits", Codes(8, Some(&[0xff]), &[0; 9], 3)),
        ],
    ),
    (
        Some(BufferTooShort),
        &[
            ("no byte", Codes(1, None, &[], 3)),
            (
                "three bytes",
                Over(
                    (0, Indices, 1, None, &[Nothing, Bytes(&[0; 3])]),
                    &[],
                    Some(THREE),
                ),
            ),
            ("a byte of each of four", Codes(4, None, &[0], 3)),
            ("no bit", Codes(1, Some(&[]), &[0], 3)),
            ("9 of 8 bits", Codes(9, Some(&[0xff]), &[0; 9], 3)),
        ],
    ),
];

/// Only the nulls of the codes are counted.
static COUNTS: &[Group] = &[
    (
        None,
        &[
            (
                "none",
                Over(
                    (0, Indices, 1, Some(0), &[Nothing, Int32s(&[2])]),
                    &[],
                    Some(THREE),
                ),
            ),
            (
                "one",
                Over(
                    (0, Indices, 2, Some(1), &[Bytes(&[2]), Int32s(&[0, 2])]),
                    &[],
                    Some(THREE),
                ),
            ),
        ],
    ),
    (
        Some(NullCountDiffers),
        &[
            (
                "a null entry",
                Over(
                    (0, Indices, 1, Some(1), &[Nothing, Int32s(&[2])]),
                    &[],
                    Some(THREE),
                ),
            ),
            (
                "both",
                Over(
                    (0, Indices, 2, Some(2), &[Bytes(&[2]), Int32s(&[0, 2])]),
                    &[],
                    Some(THREE),
                ),
            ),
        ],
    ),
];

static CODES: &[Group] = &[
    (
        None,
        &[
            ("the last entry", Codes(1, None, &[2], 3)),
            ("a null of no entries", Codes(1, Some(&[0]), &[0], 0)),
            ("behind no codes", Codes(0, None, &[-1, 3], 0)),
            ("behind the last code", Codes(1, None, &[0, -1, 3], 3)),
            (
                "the null ninth",
                Codes(9, Some(&[0xff, 0]), &[0, 0, 0, 0, 0, 0, 0, 0, 3], 3),
            ),
        ],
    ),
    (
        Some(IndexPastDictionary { row: 0 }),
        &[
            ("past the last entry", Codes(1, None, &[3], 3)),
            ("2^31 - 1", Codes(1, None, &[2147483647], 3)),
            ("-2^31", Codes(1, None, &[-2147483648], 3)),
            // Its lower bytes are 0.
            ("2^16", Codes(1, None, &[65536], 3)),
            ("of no entries", Codes(1, None, &[0], 0)),
        ],
    ),
    (
        Some(IndexPastDictionary { row: 1 }),
        &[("valid behind a null", Codes(3, Some(&[6]), &[3, -1, 3], 3))],
    ),
    (
        Some(IndexPastDictionary { row: 2 }),
        &[("the last of three", Codes(3, None, &[0, 2, 3], 3))],
    ),
    (
        Some(IndexPastDictionary { row: 8 }),
        &[("the ninth alone", Codes(9, Some(&[0, 1]), &[3; 9], 3))],
    ),
];

/// The code 0, and none.
const FIRST: Part = (0, Indices, 1, None, &[Nothing, Int32s(&[0])]);

const NO_CODES: Part = (0, Indices, 0, None, &[Nothing, EMPTY]);

const TRUTHS: Part = (0, Bits, 0, None, &[Nothing, EMPTY]);

const NUMBER: Part = (0, LONGER, 1, None, &[Nothing, Bytes(&[0; 4])]);

const LIST: Part = (1, Texts, 1, None, &[Nothing, Offsets(&[0, 0])]);

/// Dictionaries that aren't there or aren't texts, and children beside them.
static PARTS: &[Group] = &[
    (None, &[("texts", Over(FIRST, &[], Some(THREE)))]),
    (
        Some(ChildDiffers),
        &[
            ("none of no codes", Over(NO_CODES, &[], None)),
            ("texts as a child", Over(FIRST, &[THREE], None)),
            ("texts beside a child", Over(FIRST, &[TRUTHS], Some(THREE))),
            ("numbers", Over(FIRST, &[], Some(NUMBER))),
            ("lists of texts", Over(FIRST, &[], Some(LIST))),
            ("codes", Over(FIRST, &[], Some(FIRST))),
        ],
    ),
];

/// What is no array of texts, or is one over others.
static AS_ENTRIES: &[Group] = &[
    (None, &[("texts", Alone(THREE))]),
    (
        Some(ChildDiffers),
        &[
            ("codes with their texts", Over(FIRST, &[], Some(THREE))),
            ("lists with their texts", Over(LIST, &[THREE], None)),
            ("no numbers", Values(INT8, 0, &[])),
            ("texts over texts", Over(THREE, &[THREE], None)),
            ("texts of a dictionary", Over(THREE, &[], Some(THREE))),
        ],
    ),
];

/// Lawful codes, which no list may have as its items.
static IN_A_LIST: &[Group] = &[(
    Some(ChildDiffers),
    &[
        ("a code", Over(FIRST, &[], Some(THREE))),
        ("no code", Over(NO_CODES, &[], Some(TEXTS))),
    ],
)];

#[test]
fn codes_from_outside_are_checked(rt: HostRuntime) -> Result<(), Fail> {
    for groups in [POSITIONS, SIZES, COUNTS, CODES, PARTS] {
        expect_at(&rt, rt.alloc(), NARROW, &[Top], groups)?;
    }
    expect_at(&rt, rt.alloc(), NARROW, &[Entries], AS_ENTRIES)?;
    let lists = [InLists(1), InLists(2), InLists(8), InNulls(1), InNulls(8)];
    expect(&rt, rt.alloc(), &lists, IN_A_LIST)
}

/// Lawful arrays that are no dictionary, over lawful codes.
static LARGE: &[Group] = &[(
    Some(ChildDiffers),
    &[
        ("texts", Over(FIRST, &[], Some(THREE))),
        ("no texts", Over(NO_CODES, &[], Some(TEXTS))),
    ],
)];

#[test]
fn large_texts_are_no_dictionary(rt: HostRuntime) -> Result<(), Fail> {
    for widths in WIDTHS {
        if widths.texts == OffsetWidth::Wide {
            expect_at(&rt, rt.alloc(), widths, &[Top], LARGE)?;
        }
    }
    Ok(())
}
