//! Bitmaps that are too short, and null counts that differ.

use super::forms::Form::{Alone, Truths, Words};
use super::{ANYWHERE, Group, INT8, expect, expect_texts};
use crate::layouts::Content::{Bytes, Nothing, Offsets};
use crate::layouts::Inner::Texts;
use arrays::LayoutFault::{BufferTooShort, NullCountDiffers};
use std::test::Fail;

static BITMAPS: &[Group] = &[
    (
        None,
        &[
            ("no slot, no byte", Truths(0, None, Some(&[]))),
            ("a slot, a byte", Truths(1, None, Some(&[1]))),
            ("a slot, three bytes", Truths(1, None, Some(&[1, 0, 0]))),
            ("8 slots, a byte", Truths(8, None, Some(&[0xff]))),
            ("9 slots, two bytes", Truths(9, None, Some(&[0xff; 2]))),
            ("64 slots, 8 bytes", Truths(64, None, Some(&[0; 8]))),
            ("504 slots, 63 bytes", Truths(504, None, Some(&[0; 63]))),
            ("512 slots, 64 bytes", Truths(512, None, Some(&[0; 64]))),
            (
                "a number, a byte",
                Alone((0, INT8, 1, None, &[Bytes(&[0]), Bytes(&[7])])),
            ),
        ],
    ),
    (
        Some(BufferTooShort),
        &[
            ("a slot, no byte", Truths(1, None, Some(&[]))),
            ("9 slots, a byte", Truths(9, None, Some(&[0xff]))),
            ("17 slots, two bytes", Truths(17, None, Some(&[0xff; 2]))),
            ("65 slots, 8 bytes", Truths(65, None, Some(&[0; 8]))),
            // 63 bytes are stored as 64.
            ("505 slots, 63 bytes", Truths(505, None, Some(&[0; 63]))),
            ("513 slots, 64 bytes", Truths(513, None, Some(&[0; 64]))),
            (
                "a number, no byte",
                Alone((0, INT8, 1, None, &[Bytes(&[]), Bytes(&[7])])),
            ),
        ],
    ),
];

static BITMAPS_OF_TEXTS: &[Group] = &[
    (
        None,
        &[
            ("a text, a byte", Words(1, Some(&[0]), &[0, 1], b"a")),
            ("8 texts, a byte", Words(8, Some(&[0]), &[0; 9], b"")),
        ],
    ),
    (
        Some(BufferTooShort),
        &[
            ("a text, no byte", Words(1, Some(&[]), &[0, 1], b"a")),
            ("9 texts, a byte", Words(9, Some(&[0]), &[0; 10], b"")),
        ],
    ),
];

/// 64 nulls and a slot that is valid.
const LAST_OF_65: Option<&[u8]> = Some(&[0, 0, 0, 0, 0, 0, 0, 0, 1]);

static COUNTS: &[Group] = &[
    (
        None,
        &[
            ("0 of no slots", Truths(0, Some(0), None)),
            ("0 of no slots in a byte", Truths(0, Some(0), Some(&[0]))),
            ("0 of two, both false", Truths(2, Some(0), None)),
            ("0 of three", Truths(3, Some(0), Some(&[7]))),
            ("8 of eight", Truths(8, Some(8), Some(&[0]))),
            ("1 of twelve", Truths(12, Some(1), Some(&[0xff, 7]))),
            ("15 of sixteen", Truths(16, Some(15), Some(&[0, 0x80]))),
            ("64 of 65", Truths(65, Some(64), LAST_OF_65)),
        ],
    ),
    (
        Some(NullCountDiffers),
        &[
            ("1 of no slots", Truths(0, Some(1), None)),
            ("-1 of no slots", Truths(0, Some(u64::MAX), None)),
            ("8 of no slots in a byte", Truths(0, Some(8), Some(&[0]))),
            ("2 of two, both false", Truths(2, Some(2), None)),
            ("2^32 of two", Truths(2, Some(1 << 32), None)),
            ("2^63 of two", Truths(2, Some(1 << 63), None)),
            ("-1 of two", Truths(2, Some(u64::MAX), None)),
            ("1 of three valid", Truths(3, Some(1), Some(&[7]))),
            ("5 past the slots", Truths(3, Some(5), Some(&[7]))),
            ("0 of eight nulls", Truths(8, Some(0), Some(&[0]))),
            ("7 of eight nulls", Truths(8, Some(7), Some(&[0]))),
            ("9 of eight nulls", Truths(8, Some(9), Some(&[0]))),
            ("2^32 + 8 of eight", Truths(8, Some(4294967304), Some(&[0]))),
            ("0 of twelve", Truths(12, Some(0), Some(&[0xff, 7]))),
            ("5 of twelve", Truths(12, Some(5), Some(&[0xff, 7]))),
            ("16 of sixteen", Truths(16, Some(16), Some(&[0, 0x80]))),
            ("63 of 65", Truths(65, Some(63), LAST_OF_65)),
            ("65 of 65", Truths(65, Some(65), LAST_OF_65)),
        ],
    ),
];

static COUNTS_OF_TEXTS: &[Group] = &[
    (
        None,
        &[
            (
                "1 of two",
                Alone((
                    0,
                    Texts,
                    2,
                    Some(1),
                    &[Bytes(&[2]), Offsets(&[0, 1, 1]), Bytes(b"a")],
                )),
            ),
            (
                "0 of two, both empty",
                Alone((
                    0,
                    Texts,
                    2,
                    Some(0),
                    &[Nothing, Offsets(&[0; 3]), Bytes(&[])],
                )),
            ),
        ],
    ),
    (
        Some(NullCountDiffers),
        &[
            (
                "an empty one as null",
                Alone((
                    0,
                    Texts,
                    2,
                    Some(2),
                    &[Bytes(&[2]), Offsets(&[0, 1, 1]), Bytes(b"a")],
                )),
            ),
            (
                "2 of two, both empty",
                Alone((
                    0,
                    Texts,
                    2,
                    Some(2),
                    &[Nothing, Offsets(&[0; 3]), Bytes(&[])],
                )),
            ),
            (
                "-1 of two",
                Alone((
                    0,
                    Texts,
                    2,
                    Some(u64::MAX),
                    &[Bytes(&[2]), Offsets(&[0, 1, 1]), Bytes(b"a")],
                )),
            ),
        ],
    ),
];

#[test]
fn bitmaps_and_null_counts_are_checked(rt: HostRuntime) -> Result<(), Fail> {
    expect(&rt, rt.alloc(), ANYWHERE, BITMAPS)?;
    expect_texts(&rt, rt.alloc(), BITMAPS_OF_TEXTS)?;
    expect(&rt, rt.alloc(), ANYWHERE, COUNTS)?;
    expect_texts(&rt, rt.alloc(), COUNTS_OF_TEXTS)
}
