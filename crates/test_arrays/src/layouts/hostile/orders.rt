//! Arrays with several faults, of which the first is reported, and arrays without that one.

use super::Place::Top;
use super::forms::Form::{Alone, Over, Values, Words};
use super::{ANYWHERE, Group, INT8, OF_LISTS, expect, expect_at, expect_texts};
use crate::layouts::Content::{self, Bytes, Int32s, Nothing, Offsets};
use crate::layouts::Inner::{Bits, Indices, Texts};
use crate::layouts::Part;
use arrays::LayoutFault::{
    BufferTooShort, ChildDiffers, ExtraBuffer, IndexPastDictionary, MissingBuffer, NotUtf8,
    NullCountDiffers, OffsetDecreases, OffsetNegative, OffsetPastEnd, TooDeep, TooLong,
};
use std::test::Fail;
use test_samples::NARROW;

const EMPTY: Content = Bytes(&[]);

const SEVEN: Content = Bytes(&[7]);

static NUMBERS: &[Group] = &[
    (
        Some(TooLong),
        &[(
            "and missing",
            Alone((0, INT8, 1 << 31, None, &[Nothing, Nothing])),
        )],
    ),
    (
        Some(MissingBuffer),
        &[
            ("missing", Alone((0, INT8, 1, None, &[Nothing, Nothing]))),
            (
                "and more",
                Alone((0, INT8, 1, None, &[Nothing, Nothing, SEVEN])),
            ),
        ],
    ),
    (
        Some(ExtraBuffer),
        &[
            ("more", Alone((0, INT8, 1, None, &[Nothing, SEVEN, SEVEN]))),
            (
                "and short",
                Alone((0, Bits, 9, None, &[Nothing, SEVEN, Nothing])),
            ),
        ],
    ),
    (
        Some(BufferTooShort),
        &[
            ("short", Values(Bits, 9, &[7])),
            (
                "and counted",
                Alone((0, Bits, 9, Some(1), &[SEVEN, Bytes(&[7; 2])])),
            ),
        ],
    ),
    (
        Some(NullCountDiffers),
        &[(
            "counted",
            Alone((0, Bits, 9, Some(1), &[Bytes(&[7; 2]), Bytes(&[7; 2])])),
        )],
    ),
];

static TEXTS: &[Group] = &[
    (
        Some(MissingBuffer),
        &[(
            "and more",
            Alone((0, Texts, 1, None, &[Nothing, Nothing, EMPTY, EMPTY])),
        )],
    ),
    (
        Some(ExtraBuffer),
        &[(
            "and short",
            Alone((0, Texts, 1, None, &[EMPTY, EMPTY, EMPTY, EMPTY])),
        )],
    ),
    (
        Some(BufferTooShort),
        &[("and negative", Words(1, Some(&[]), &[0, -1], b"a"))],
    ),
    (
        Some(OffsetNegative),
        &[
            ("negative", Words(1, Some(&[1]), &[0, -1], b"a")),
            ("and decreasing", Words(2, None, &[1, 0, -1], b"a")),
        ],
    ),
    (
        Some(OffsetDecreases { row: 0 }),
        &[
            ("decreasing", Words(2, None, &[1, 0, 0], b"a")),
            ("and past the end", Words(2, None, &[3, 0, 2], b"a")),
        ],
    ),
    (
        Some(OffsetPastEnd),
        &[(
            "and counted",
            Alone((
                0,
                Texts,
                1,
                Some(1),
                &[Nothing, Offsets(&[0, 2]), Bytes(b"a")],
            )),
        )],
    ),
    (
        Some(NullCountDiffers),
        &[(
            "and no UTF-8",
            Alone((
                0,
                Texts,
                1,
                Some(1),
                &[Nothing, Offsets(&[0, 1]), Bytes(b"\xff")],
            )),
        )],
    ),
    (
        Some(NotUtf8 { row: 0 }),
        &[(
            "no UTF-8",
            Alone((
                0,
                Texts,
                1,
                Some(0),
                &[Nothing, Offsets(&[0, 1]), Bytes(b"\xff")],
            )),
        )],
    ),
];

/// A child that lacks its bytes, one that is long too, and one that is lawful.
const BARE: Part = (0, INT8, 1, None, &[]);

const LONG: Part = (0, INT8, 1 << 31, None, &[]);

const NUMBER: Part = (0, INT8, 1, None, &[Nothing, SEVEN]);

/// A list of one item.
const LIST: Part = (1, INT8, 1, Some(0), &[Nothing, Offsets(&[0, 1])]);

static LISTS: &[Group] = &[
    (
        None,
        &[("a child with its bytes", Over(LIST, &[NUMBER], None))],
    ),
    (
        Some(ExtraBuffer),
        &[(
            "and no child",
            Over((1, INT8, 0, None, &[EMPTY; 3]), &[], None),
        )],
    ),
    (
        Some(ChildDiffers),
        &[(
            "and short",
            Over((1, INT8, 1, None, &[Nothing, EMPTY]), &[], None),
        )],
    ),
    (
        Some(BufferTooShort),
        &[
            (
                "over a bare child",
                Over((1, INT8, 1, None, &[Nothing, EMPTY]), &[BARE], None),
            ),
            (
                "and negative",
                Over(
                    (1, INT8, 1, None, &[Nothing, Offsets(&[-1])]),
                    &[BARE],
                    None,
                ),
            ),
        ],
    ),
    (
        Some(OffsetNegative),
        &[(
            "and decreasing",
            Over(
                (1, INT8, 1, None, &[Nothing, Offsets(&[1, -1])]),
                &[BARE],
                None,
            ),
        )],
    ),
    (
        Some(OffsetDecreases { row: 0 }),
        &[(
            "and past the end",
            Over(
                (1, INT8, 2, None, &[Nothing, Offsets(&[3, 0, 2])]),
                &[BARE],
                None,
            ),
        )],
    ),
    (
        Some(OffsetPastEnd),
        &[
            (
                "over a bare child",
                Over(
                    (1, INT8, 1, None, &[Nothing, Offsets(&[0, 2])]),
                    &[BARE],
                    None,
                ),
            ),
            (
                "and counted",
                Over(
                    (1, INT8, 1, Some(1), &[Nothing, Offsets(&[0, 2])]),
                    &[BARE],
                    None,
                ),
            ),
        ],
    ),
    (
        Some(NullCountDiffers),
        &[(
            "over a long child",
            Over(
                (1, INT8, 1, Some(1), &[Nothing, Offsets(&[0, 1])]),
                &[LONG],
                None,
            ),
        )],
    ),
    (
        Some(TooLong),
        &[("a long child", Over(LIST, &[LONG], None))],
    ),
    (
        Some(MissingBuffer),
        &[("a bare child", Over(LIST, &[BARE], None))],
    ),
];

/// A dictionary that lacks its bytes, and one that is lawful.
const UNWRITTEN: Part = (0, Texts, 2, None, &[]);

const WRITTEN: Part = (0, Texts, 2, None, &[Nothing, Offsets(&[0; 3]), EMPTY]);

const CODE: Part = (0, Indices, 1, Some(0), &[Nothing, Int32s(&[1])]);

static CODES: &[Group] = &[
    (
        None,
        &[(
            "a dictionary with its bytes",
            Over(CODE, &[], Some(WRITTEN)),
        )],
    ),
    (
        Some(TooLong),
        &[("and deep", Alone((9, Indices, 1 << 31, None, &[])))],
    ),
    (
        Some(TooDeep),
        &[("and missing", Alone((9, Indices, 1, None, &[])))],
    ),
    (
        Some(MissingBuffer),
        &[
            (
                "and no dictionary",
                Alone((0, Indices, 1, None, &[Nothing])),
            ),
            ("a bare dictionary", Over(CODE, &[], Some(UNWRITTEN))),
        ],
    ),
    (
        Some(ChildDiffers),
        &[("and short", Values(Indices, 1, &[]))],
    ),
    (
        Some(BufferTooShort),
        &[(
            "of a bare dictionary",
            Over(
                (0, Indices, 1, None, &[Nothing, EMPTY]),
                &[],
                Some(UNWRITTEN),
            ),
        )],
    ),
    (
        Some(NullCountDiffers),
        &[(
            "and past the entries",
            Over(
                (0, Indices, 1, Some(1), &[Nothing, Int32s(&[2])]),
                &[],
                Some(UNWRITTEN),
            ),
        )],
    ),
    (
        Some(IndexPastDictionary { row: 0 }),
        &[(
            "of a bare dictionary",
            Over(
                (0, Indices, 1, Some(0), &[Nothing, Int32s(&[2])]),
                &[],
                Some(UNWRITTEN),
            ),
        )],
    ),
];

#[test]
fn the_first_of_several_faults_is_reported(rt: HostRuntime) -> Result<(), Fail> {
    expect(&rt, rt.alloc(), ANYWHERE, NUMBERS)?;
    expect_texts(&rt, rt.alloc(), TEXTS)?;
    expect(&rt, rt.alloc(), OF_LISTS, LISTS)?;
    expect_at(&rt, rt.alloc(), NARROW, &[Top], CODES)
}
