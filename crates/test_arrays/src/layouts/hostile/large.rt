//! Offsets that 32 bits don't hold.

use super::forms::Form::{Alone, Lists, Words};
use super::{ANYWHERE, Group, OF_LISTS, expect_at};
use crate::layouts::Content::{self, Bytes, Cut, Nothing};
use crate::layouts::Inner::Texts;
use arrays::LayoutFault::{
    BufferTooShort, MissingBuffer, OffsetDecreases, OffsetNegative, OffsetPastEnd, TooLong,
};
use arrays::{DataType, OffsetWidth, validate};
use std::test::Fail;
use test_samples::{Positions, Shown, WIDTHS, has_width, raw, shows};

const EMPTY: Content = Bytes(&[]);

static TEXTS: &[Group] = &[
    (
        None,
        &[
            ("no offset", Alone((0, Texts, 0, None, &[EMPTY; 3]))),
            ("8 bytes", Words(1, None, &[0, 8], b"12345678")),
            (
                "2^32 behind the last",
                Words(1, None, &[0, 3, 1 << 32], b"joe"),
            ),
        ],
    ),
    (
        Some(MissingBuffer),
        &[(
            "nothing as offsets",
            Alone((0, Texts, 0, None, &[EMPTY, Nothing, EMPTY])),
        )],
    ),
    (
        Some(BufferTooShort),
        &[
            (
                "half an offset",
                Alone((0, Texts, 0, None, &[Nothing, Cut(&[0], 4), EMPTY])),
            ),
            (
                "two halves",
                Alone((0, Texts, 1, None, &[Nothing, Bytes(&[0; 8]), EMPTY])),
            ),
            (
                "39 bytes for four",
                Alone((
                    0,
                    Texts,
                    4,
                    None,
                    &[Bytes(&[9]), Cut(&[0, 3, 3, 3, 7], 1), Bytes(b"joemark")],
                )),
            ),
        ],
    ),
    (
        Some(OffsetNegative),
        &[
            ("-2^63", Words(1, None, &[0, i64::MIN], b"")),
            ("-2^63 first", Words(1, None, &[i64::MIN, 0], b"")),
            ("-2^63 of none", Words(0, None, &[i64::MIN], b"")),
            // Its lower half is 0.
            ("-2^32", Words(1, None, &[-4294967296, 0], b"")),
        ],
    ),
    (
        Some(OffsetDecreases { row: 0 }),
        &[
            ("from 2^63 - 1", Words(1, None, &[i64::MAX, 0], b"joe")),
            // Its lower half is 0.
            ("from 2^32", Words(1, None, &[1 << 32, 3], b"joe")),
        ],
    ),
    (
        Some(OffsetDecreases { row: 1 }),
        &[(
            "2^32 + 1 between",
            Words(2, None, &[0, 4294967297, 3], b"joe"),
        )],
    ),
    (
        Some(OffsetPastEnd),
        &[
            // As a number of 32 bits it would be negative.
            ("2^31", Words(1, None, &[0, 1 << 31], b"")),
            // Its lower half is 0, and that of the next is 3.
            ("2^32", Words(1, None, &[0, 1 << 32], b"")),
            ("2^32 + 3", Words(1, None, &[0, 4294967299], b"joe")),
            ("2^63 - 1", Words(1, None, &[0, i64::MAX], b"joe")),
            ("none at 2^32", Words(0, None, &[1 << 32], b"")),
            ("empty at 2^32", Words(1, None, &[1 << 32, 1 << 32], b"")),
            ("null up to 2^32", Words(1, Some(&[0]), &[0, 1 << 32], b"")),
        ],
    ),
];

static LISTS: &[Group] = &[
    (
        Some(OffsetNegative),
        &[
            ("-2^63", Lists(1, None, &[0, i64::MIN], 2)),
            ("-2^63 of none", Lists(0, None, &[i64::MIN], 2)),
            // Its lower half is 0.
            ("-2^32", Lists(1, None, &[-4294967296, 0], 2)),
        ],
    ),
    (
        Some(OffsetDecreases { row: 0 }),
        &[
            ("from 2^63 - 1", Lists(1, None, &[i64::MAX, 0], 2)),
            // Its lower half is 0.
            ("from 2^32", Lists(1, None, &[1 << 32, 2], 2)),
        ],
    ),
    (
        Some(OffsetPastEnd),
        &[
            ("2^31", Lists(1, None, &[0, 1 << 31], 2)),
            // Its lower half is 2.
            ("2^32 + 2", Lists(1, None, &[0, 4294967298], 2)),
            ("2^63 - 1", Lists(1, None, &[0, i64::MAX], 2)),
            ("none at 2^32", Lists(0, None, &[1 << 32], 2)),
            ("null up to 2^32", Lists(1, Some(&[0]), &[0, 1 << 32], 2)),
        ],
    ),
    // No child is so long, whatever its lists say.
    (
        Some(TooLong),
        &[
            ("all of 2^31", Lists(1, None, &[0, 1 << 31], 1 << 31)),
            (
                "all of 2^63 - 1",
                Lists(1, None, &[0, i64::MAX], 9223372036854775807),
            ),
        ],
    ),
];

#[test]
fn offsets_have_64_bits(rt: HostRuntime) -> Result<(), Fail> {
    for widths in WIDTHS {
        if widths.texts == OffsetWidth::Wide {
            expect_at(&rt, rt.alloc(), widths, ANYWHERE, TEXTS)?;
        }
        if widths.inner == OffsetWidth::Wide {
            expect_at(&rt, rt.alloc(), widths, OF_LISTS, LISTS)?;
        }
    }
    Ok(())
}

/// The bytes of the offsets 0, 3, 3, 3 and 7.
const OFFSETS: &[u8; 40] =
    b"\0\0\0\0\0\0\0\0\x03\0\0\0\0\0\0\0\x03\0\0\0\0\0\0\0\x03\0\0\0\0\0\0\0\x07\0\0\0\0\0\0\0";

#[test]
fn reads_the_bytes_of_offsets(rt: HostRuntime) -> Result<(), Fail> {
    let positions: Positions = &[Some(&[0x09]), Some(OFFSETS), Some(b"joemark")];
    let texts = validate(
        rt.alloc(),
        raw(rt.alloc(), DataType::LargeUtf8, 4, positions)?,
    )?;
    let view = texts.view();
    let expected = Shown::Texts(&[Some("joe"), None, None, Some("mark")]);
    assert!(rt; shows(&view, expected) && has_width(&view, OffsetWidth::Wide));
    Ok(())
}
