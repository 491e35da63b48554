//! Lengths at their limit and past it, over buffers of a few bytes: none that is long has all its bytes.

use super::Place::Top;
use super::forms::Form::{Codes, Lists, Truths, Values, Words};
use super::{
    ANYWHERE, Group, INT8, INT64, LEAST_NARROW, MOST_NARROW, OF_LISTS, expect, expect_at,
    expect_texts,
};
use crate::layouts::LONGER;
use arrays::LayoutFault::{
    BufferTooShort, IndexPastDictionary, OffsetNegative, OffsetPastEnd, TooLong,
};
use std::test::Fail;
use test_samples::NARROW;

/// The greatest length of an array.
const MOST: u64 = 2147483647;

/// Of its lower 32 bits it would be 1.
const ODD: u64 = 4294967297;

static NUMBERS: &[Group] = &[
    (None, &[("a number", Values(INT64, 1, &[0; 8]))]),
    (
        Some(BufferTooShort),
        &[
            ("2^31 - 1 of a byte", Values(INT8, MOST, &[0; 8])),
            ("2^31 - 1 of 8 bytes", Values(INT64, MOST, &[0; 8])),
            ("2^31 bytes", Values(INT64, 1 << 28, &[])),
            ("2^32 bytes by 8", Values(INT64, 1 << 29, &[])),
            ("2^32 bytes by 4", Values(LONGER, 1 << 30, &[])),
            ("2^31 - 1 bits", Truths(MOST, None, None)),
            (
                "2^31 - 1 bits, and their bitmap",
                Truths(MOST, Some(0), Some(&[0; 8])),
            ),
        ],
    ),
    (
        Some(TooLong),
        &[
            ("2^31 of a byte", Values(INT8, MOST + 1, &[0; 8])),
            ("2^31 of 8 bytes", Values(INT64, MOST + 1, &[0; 8])),
            ("2^32", Values(INT64, 1 << 32, &[])),
            ("2^32 + 1", Values(INT64, ODD, &[0; 8])),
            ("2^64 bytes", Values(INT64, 1 << 61, &[])),
            ("2^63", Values(INT8, 1 << 63, &[])),
            ("2^31 bits", Truths(MOST + 1, None, None)),
            ("2^32 bits", Truths(1 << 32, None, Some(&[]))),
            ("2^64 - 1 bits", Truths(u64::MAX, None, Some(&[]))),
        ],
    ),
];

static TEXTS: &[Group] = &[
    (None, &[("a text", Words(1, None, &[0, 0], b""))]),
    (
        Some(BufferTooShort),
        &[
            ("2^32 bytes by 4", Words(1073741823, None, &[], b"")),
            ("2^32 bytes by 8", Words(536870911, None, &[], b"")),
            ("2^31 - 1", Words(MOST, Some(&[0; 8]), &[0, 0], b"")),
        ],
    ),
    (
        Some(TooLong),
        &[
            ("2^31", Words(MOST + 1, Some(&[0; 8]), &[0, 0], b"")),
            ("2^32", Words(1 << 32, None, &[], b"")),
            ("2^32 + 1", Words(ODD, None, &[0, 0], b"")),
            (
                "2^64 bytes by 4",
                Words(4611686018427387903, None, &[], b""),
            ),
            (
                "2^64 bytes by 8",
                Words(2305843009213693951, None, &[], b""),
            ),
            ("2^64 - 1", Words(u64::MAX, None, &[], b"")),
        ],
    ),
];

static LISTS: &[Group] = &[
    (None, &[("a list", Lists(1, None, &[0, 0], 0))]),
    (
        Some(BufferTooShort),
        &[
            ("2^32 bytes by 4", Lists(1073741823, None, &[], 0)),
            ("2^32 bytes by 8", Lists(536870911, None, &[], 0)),
            ("2^31 - 1", Lists(MOST, None, &[0, 0], 0)),
        ],
    ),
    (
        Some(TooLong),
        &[
            ("2^31", Lists(MOST + 1, None, &[0, 0], 0)),
            ("2^32", Lists(1 << 32, None, &[], 0)),
            ("2^32 + 1", Lists(ODD, None, &[0, 0], 0)),
            ("2^64 - 1", Lists(u64::MAX, None, &[], 0)),
        ],
    ),
];

/// Lists whose child says that it is long.
static ITEMS: &[Group] = &[
    (None, &[("an item", Lists(1, None, &[0, 1], 1))]),
    (
        Some(OffsetPastEnd),
        &[
            ("an item of none", Lists(1, None, &[0, 1], 0)),
            (
                "one past 2^31 - 2",
                Lists(1, None, &[0, MOST_NARROW], MOST - 1),
            ),
        ],
    ),
    (
        Some(BufferTooShort),
        &[("all of 2^31 - 1", Lists(1, None, &[0, MOST_NARROW], MOST))],
    ),
    (
        Some(TooLong),
        &[
            (
                "all but one of 2^31",
                Lists(1, None, &[0, MOST_NARROW], MOST + 1),
            ),
            ("one of 2^32", Lists(1, None, &[0, 1], 1 << 32)),
            ("none of 2^64 - 1", Lists(1, None, &[0, 0], u64::MAX)),
        ],
    ),
    (
        Some(OffsetNegative),
        &[
            (
                "-2^31 of 2^31",
                Lists(1, None, &[0, LEAST_NARROW], MOST + 1),
            ),
            ("-1 of 2^64 - 1", Lists(1, None, &[0, -1], u64::MAX)),
        ],
    ),
];

static CODES: &[Group] = &[
    (None, &[("a code", Codes(1, None, &[0], 1))]),
    (
        Some(BufferTooShort),
        &[
            ("2^32 bytes", Codes(1 << 30, None, &[], 1)),
            ("2^31 - 1", Codes(MOST, None, &[0, 0], 1)),
        ],
    ),
    (
        Some(TooLong),
        &[
            ("2^31", Codes(MOST + 1, None, &[0, 0], 1)),
            ("2^32", Codes(1 << 32, None, &[], 1)),
            ("2^32 + 1", Codes(ODD, None, &[0], 1)),
            ("2^64 - 1", Codes(u64::MAX, None, &[], 1)),
        ],
    ),
];

/// Dictionaries that say that they are long.
static ENTRIES: &[Group] = &[
    (
        Some(BufferTooShort),
        &[("the last of 2^31 - 1", Codes(1, None, &[2147483646], MOST))],
    ),
    (
        Some(TooLong),
        &[
            ("the last of 2^31", Codes(1, None, &[2147483647], MOST + 1)),
            ("the first of 2^32", Codes(1, None, &[0], 1 << 32)),
            ("none of 2^64 - 1", Codes(0, None, &[], u64::MAX)),
        ],
    ),
    (
        Some(IndexPastDictionary { row: 0 }),
        &[
            ("past 2^31 - 1", Codes(1, None, &[2147483647], MOST)),
            // As an unsigned number it would be below either.
            ("-1 of 2^32", Codes(1, None, &[-1], 1 << 32)),
            ("-1 of 2^64 - 1", Codes(1, None, &[-1], u64::MAX)),
        ],
    ),
];

#[test]
fn lengths_are_limited(rt: HostRuntime) -> Result<(), Fail> {
    expect(&rt, rt.alloc(), ANYWHERE, NUMBERS)?;
    expect_texts(&rt, rt.alloc(), TEXTS)?;
    expect(&rt, rt.alloc(), OF_LISTS, LISTS)?;
    expect(&rt, rt.alloc(), OF_LISTS, ITEMS)?;
    expect_at(&rt, rt.alloc(), NARROW, &[Top], CODES)?;
    expect_at(&rt, rt.alloc(), NARROW, &[Top], ENTRIES)
}
