//! Numbers and truth values: positions that are missing or more, bytes that are too few, and what stands in them.

use super::forms::Form::{Alone, Over, Values};
use super::{ANYWHERE, Group, INT8, INT64, expect};
use crate::layouts::Content::{Bytes, Nothing, Offsets};
use crate::layouts::Inner::{self, Bits, Numbers, Texts};
use crate::layouts::{LONGER, Part, UNSIGNED};
use arrays::LayoutFault::{BufferTooShort, ChildDiffers, ExtraBuffer, MissingBuffer};
use arrays::Width;
use std::test::Fail;

const UINT8: Inner = Numbers(Width::W8, false);

const UINT32: Inner = Numbers(Width::W32, false);

const UINT64: Inner = Numbers(Width::W64, false);

/// Three numbers of each type, and a byte less.
static WIDTHS: &[Group] = &[
    (
        None,
        &[
            ("Int8", Values(INT8, 3, &[0x80; 3])),
            ("Int32", Values(LONGER, 3, &[0x80; 12])),
            ("Int64", Values(INT64, 3, &[0x80; 24])),
            ("UInt8", Values(UINT8, 3, &[0xff; 3])),
            ("UInt16", Values(UNSIGNED, 3, &[0xff; 6])),
            ("UInt32", Values(UINT32, 3, &[0xff; 12])),
            ("UInt64", Values(UINT64, 3, &[0xff; 24])),
        ],
    ),
    (
        Some(BufferTooShort),
        &[
            ("Int8", Values(INT8, 3, &[0x80; 2])),
            ("Int32", Values(LONGER, 3, &[0x80; 11])),
            ("Int64", Values(INT64, 3, &[0x80; 23])),
            ("UInt8", Values(UINT8, 3, &[0xff; 2])),
            ("UInt16", Values(UNSIGNED, 3, &[0xff; 5])),
            ("UInt32", Values(UINT32, 3, &[0xff; 11])),
            ("UInt64", Values(UINT64, 3, &[0xff; 23])),
        ],
    ),
];

static SIZES: &[Group] = &[
    (
        None,
        &[
            ("0, no byte", Values(INT64, 0, &[])),
            ("0, three bytes", Values(INT64, 0, &[7; 3])),
            ("a byte more", Values(LONGER, 1, &[7; 5])),
            (
                "a null",
                Alone((0, INT8, 1, None, &[Bytes(&[0]), Bytes(&[7])])),
            ),
            ("63 of 63", Values(INT8, 63, &[7; 63])),
            ("8 bits", Values(Bits, 8, &[0xaa])),
            ("504 bits", Values(Bits, 504, &[0; 63])),
        ],
    ),
    (
        Some(BufferTooShort),
        &[
            ("1, no byte", Values(INT64, 1, &[])),
            (
                "a null, no byte",
                Alone((0, INT8, 1, None, &[Bytes(&[0]), Bytes(&[])])),
            ),
            // 63 bytes are stored as 64.
            ("64 of 63", Values(INT8, 64, &[7; 63])),
            ("65 of 64", Values(INT8, 65, &[7; 64])),
            ("a bit, no byte", Values(Bits, 1, &[])),
            ("9 bits", Values(Bits, 9, &[0xaa])),
            ("505 bits", Values(Bits, 505, &[0; 63])),
        ],
    ),
];

static POSITIONS: &[Group] = &[
    (
        Some(MissingBuffer),
        &[
            ("no position", Alone((0, INT64, 0, None, &[]))),
            ("a bitmap alone", Alone((0, INT64, 0, None, &[Bytes(&[])]))),
            (
                "none that holds any",
                Alone((0, INT64, 0, None, &[Nothing, Nothing])),
            ),
            (
                "no truth values",
                Alone((0, Bits, 0, None, &[Bytes(&[]), Nothing])),
            ),
        ],
    ),
    (
        None,
        &[
            ("two", Alone((0, INT64, 0, None, &[Bytes(&[]), Bytes(&[])]))),
            (
                "two of bits",
                Alone((0, Bits, 0, None, &[Bytes(&[]), Bytes(&[])])),
            ),
        ],
    ),
    (
        Some(ExtraBuffer),
        &[
            ("three", Alone((0, INT64, 0, None, &[Bytes(&[]); 3]))),
            (
                "a third without bytes",
                Alone((0, Bits, 0, None, &[Nothing, Bytes(&[]), Nothing])),
            ),
            ("nine", Alone((0, INT8, 1, None, &[Bytes(&[1]); 9]))),
        ],
    ),
];

const NUMBER: Part = (0, INT8, 1, None, &[Nothing, Bytes(&[7])]);

const TRUTH: Part = (0, Bits, 1, None, &[Nothing, Bytes(&[1])]);

const TEXT: Part = (0, Texts, 1, None, &[Nothing, Offsets(&[0, 0]), Bytes(&[])]);

static PARTS: &[Group] = &[
    (
        None,
        &[("a number", Alone(NUMBER)), ("a truth value", Alone(TRUTH))],
    ),
    (
        Some(ChildDiffers),
        &[
            ("a number over a truth value", Over(NUMBER, &[TRUTH], None)),
            ("a number over two", Over(NUMBER, &[NUMBER, NUMBER], None)),
            ("a number of a dictionary", Over(NUMBER, &[], Some(TEXT))),
            ("a truth value over one", Over(TRUTH, &[TRUTH], None)),
            (
                "a truth value of a dictionary",
                Over(TRUTH, &[], Some(TEXT)),
            ),
            ("a truth value with both", Over(TRUTH, &[TRUTH], Some(TEXT))),
        ],
    ),
];

#[test]
fn numbers_from_outside_are_checked(rt: HostRuntime) -> Result<(), Fail> {
    for groups in [WIDTHS, SIZES, POSITIONS, PARTS] {
        expect(&rt, rt.alloc(), ANYWHERE, groups)?;
    }
    Ok(())
}
