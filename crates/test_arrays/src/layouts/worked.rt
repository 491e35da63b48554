//! Worked rows of arrays from outside.

use super::Content::{Bytes, Cut, Int32s, Nothing, Offsets};
use super::Inner::{Bits, Indices, Texts};
use super::hostile::Place::Top;
use super::hostile::forms::Form::{Alone, Over, Words};
use super::hostile::{Group, expect, expect_at};
use super::{LONGER, Part};
use arrays::LayoutFault::{
    BufferTooShort, IndexPastDictionary, MissingBuffer, NotUtf8, NullCountDiffers, OffsetDecreases,
    OffsetNegative, OffsetPastEnd, TooDeep, TooLong,
};
use std::test::Fail;
use test_samples::NARROW;

const FIVE: &[i64] = &[1, 0, 2, 4, 8];

const NAMES: &[u8] = b"joe\xff\xffmark";

/// The texts x and y.
const LETTERS: Part = (
    0,
    Texts,
    2,
    None,
    &[Nothing, Offsets(&[0, 1, 2]), Bytes(b"xy")],
);

/// The last is no text.
const SPOILT: Part = (
    0,
    Texts,
    3,
    None,
    &[Nothing, Offsets(&[0, 1, 2, 3]), Bytes(b"ab\xff")],
);

const LAWFUL: Group = (
    None,
    &[
        (
            "numbers",
            Alone((0, LONGER, 5, Some(1), &[Bytes(&[0xfd]), Int32s(FIVE)])),
        ),
        ("texts", Words(4, Some(&[0x09]), &[0, 3, 5, 5, 9], NAMES)),
        ("a late text", Words(1, None, &[2, 5], b"xxjoe")),
        ("no offsets", Words(0, None, &[], b"")),
    ],
);

static ROWS: &[Group] = &[
    LAWFUL,
    (
        Some(NullCountDiffers),
        &[(
            "2 nulls",
            Alone((0, LONGER, 5, Some(2), &[Bytes(&[0xfd]), Int32s(FIVE)])),
        )],
    ),
    (
        Some(NotUtf8 { row: 1 }),
        &[(
            "valid bytes",
            Words(4, Some(&[0x0b]), &[0, 3, 5, 5, 9], NAMES),
        )],
    ),
    (
        Some(BufferTooShort),
        &[
            (
                "a part of an offset",
                Alone((0, Texts, 0, None, &[Nothing, Cut(&[0], 1), Bytes(b"")])),
            ),
            (
                "a byte less",
                Alone((
                    0,
                    Texts,
                    4,
                    None,
                    &[Nothing, Cut(&[0, 3, 3, 3, 7], 1), Bytes(b"joemark")],
                )),
            ),
            ("2^31 - 1", Words(2147483647, None, &[0, 0], b"")),
        ],
    ),
    (
        Some(OffsetDecreases { row: 1 }),
        &[(
            "under a null",
            Words(2, Some(&[0x01]), &[0, 5, 3], b"abcde"),
        )],
    ),
    (
        Some(OffsetNegative),
        &[("-1", Words(1, None, &[-1, 0], b"joe"))],
    ),
    (
        Some(OffsetPastEnd),
        &[("4 of 3", Words(1, None, &[0, 4], b"joe"))],
    ),
    (
        Some(MissingBuffer),
        &[(
            "and counted",
            Alone((0, LONGER, 5, Some(2), &[Bytes(&[0xfd]), Nothing])),
        )],
    ),
    // The row is that of the child.
    (
        Some(NotUtf8 { row: 2 }),
        &[(
            "in a list",
            Over(
                (1, Texts, 1, None, &[Nothing, Offsets(&[0, 3])]),
                &[SPOILT],
                None,
            ),
        )],
    ),
    (
        Some(TooDeep),
        &[("9 lists", Alone((9, Bits, 1, None, &[])))],
    ),
    (
        Some(TooLong),
        &[("2^31", Alone((0, Texts, 2147483648, None, &[])))],
    ),
];

/// Codes into a dictionary, of which the second is past it.
static CODES: &[Group] = &[
    (
        None,
        &[(
            "a null code",
            Over(
                (0, Indices, 2, None, &[Bytes(&[0x01]), Int32s(&[0, 5])]),
                &[],
                Some(LETTERS),
            ),
        )],
    ),
    (
        Some(IndexPastDictionary { row: 1 }),
        &[(
            "a valid code",
            Over(
                (0, Indices, 2, None, &[Bytes(&[0x03]), Int32s(&[0, 5])]),
                &[],
                Some(LETTERS),
            ),
        )],
    ),
];

#[test]
fn worked_rows_are_as_they_are_told(rt: HostRuntime) -> Result<(), Fail> {
    expect(&rt, rt.alloc(), &[Top], ROWS)?;
    expect_at(&rt, rt.alloc(), NARROW, &[Top], CODES)
}
