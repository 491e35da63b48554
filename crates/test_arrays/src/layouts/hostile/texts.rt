//! Texts: positions, offsets, and bytes that are no UTF-8.

use super::forms::Form::{Alone, Over, Words};
use super::{Group, INT8, LEAST_NARROW, MOST_NARROW, expect_texts};
use crate::layouts::Content::{self, Bytes, Cut, Nothing, Offsets};
use crate::layouts::Inner::Texts;
use crate::layouts::Part;
use arrays::LayoutFault::{
    BufferTooShort, ChildDiffers, ExtraBuffer, MissingBuffer, NotUtf8, OffsetDecreases,
    OffsetNegative, OffsetPastEnd,
};
use std::test::Fail;

const EMPTY: Content = Bytes(&[]);

static POSITIONS: &[Group] = &[
    (
        Some(MissingBuffer),
        &[
            ("no position", Alone((0, Texts, 0, None, &[]))),
            ("a bitmap alone", Alone((0, Texts, 1, None, &[Bytes(&[1])]))),
            ("two", Alone((0, Texts, 0, None, &[EMPTY, EMPTY]))),
            (
                "nothing as offsets",
                Alone((0, Texts, 0, None, &[Nothing, Nothing, EMPTY])),
            ),
            (
                "nothing as bytes",
                Alone((0, Texts, 0, None, &[Nothing, EMPTY, Nothing])),
            ),
        ],
    ),
    (None, &[("three", Alone((0, Texts, 0, None, &[EMPTY; 3])))]),
    (
        Some(ExtraBuffer),
        &[
            ("four", Alone((0, Texts, 0, None, &[EMPTY; 4]))),
            ("nine", Alone((0, Texts, 0, None, &[EMPTY; 9]))),
        ],
    ),
];

/// Offsets that are too few.
static SIZES: &[Group] = &[
    (
        None,
        &[
            ("0, an offset", Words(0, None, &[0], b"")),
            (
                "0, an offset and more",
                Alone((0, Texts, 0, None, &[Nothing, Bytes(&[0; 9]), EMPTY])),
            ),
            ("1, two offsets", Words(1, None, &[0, 0], b"")),
            ("15, 16 offsets", Words(15, None, &[0; 16], b"")),
        ],
    ),
    (
        Some(BufferTooShort),
        &[
            (
                "0, a byte",
                Alone((0, Texts, 0, None, &[Nothing, Bytes(&[0]), EMPTY])),
            ),
            ("1, no offset", Words(1, None, &[], b"")),
            ("1, an offset", Words(1, None, &[0], b"")),
            (
                "1, a byte less",
                Alone((0, Texts, 1, None, &[Nothing, Cut(&[0, 0], 1), EMPTY])),
            ),
            (
                "0, a byte less",
                Alone((0, Texts, 0, None, &[Nothing, Cut(&[0], 1), EMPTY])),
            ),
            // 63 bytes are stored as 64, and 127 as 128.
            (
                "15, a byte less",
                Alone((0, Texts, 15, None, &[Nothing, Cut(&[0; 16], 1), EMPTY])),
            ),
            ("16, 16 offsets", Words(16, None, &[0; 16], b"")),
        ],
    ),
];

static RISING: &[Group] = &[
    (
        None,
        &[
            ("-1 behind that of none", Words(0, None, &[0, -1], b"")),
            ("-1 behind the last", Words(1, None, &[0, 1, -1], b"a")),
            ("all the same", Words(3, None, &[1, 1, 1, 1], b"abc")),
            ("less behind the last", Words(1, None, &[0, 3, 1], b"abc")),
        ],
    ),
    (
        Some(OffsetNegative),
        &[
            ("-1 of none", Words(0, None, &[-1], b"")),
            ("-2^31 of none", Words(0, None, &[LEAST_NARROW], b"")),
            ("-2^31 first", Words(1, None, &[LEAST_NARROW, 1], b"a")),
            // As an unsigned number it would only be past the end.
            ("-2^31 last", Words(1, None, &[0, LEAST_NARROW], b"a")),
            (
                "both limits",
                Words(1, None, &[MOST_NARROW, LEAST_NARROW], b"a"),
            ),
            ("-1 between nulls", Words(2, Some(&[0]), &[0, -1, 1], b"a")),
            ("all negative", Words(2, Some(&[0]), &[-3, -2, -1], b"a")),
        ],
    ),
    (
        Some(OffsetDecreases { row: 0 }),
        &[
            ("each", Words(3, None, &[3, 2, 1, 0], b"abc")),
            ("from 2^31 - 1", Words(1, None, &[MOST_NARROW, 0], b"abc")),
        ],
    ),
    (
        Some(OffsetDecreases { row: 1 }),
        &[
            ("and comes back", Words(3, None, &[0, 2, 1, 2], b"abc")),
            (
                "from past the end",
                Words(2, None, &[0, MOST_NARROW, 3], b"abc"),
            ),
        ],
    ),
    (
        Some(OffsetDecreases { row: 2 }),
        &[
            ("the last", Words(3, None, &[0, 1, 2, 1], b"abc")),
            ("the last null", Words(3, Some(&[0]), &[0, 1, 2, 1], b"abc")),
        ],
    ),
];

/// 63 letters, and the euro sign over the 64th byte.
const EURO: &[u8] = b"aaaaaaaaaaaaaaaaaaaaaaaaaaaaaaaaaaaaaaaaaaaaaaaaaaaaaaaaaaaaaaa\xe2\x82\xac";

static PAST_END: &[Group] = &[
    (
        None,
        &[
            ("at the end", Words(1, None, &[0, 3], b"joe")),
            ("at the end of no bytes", Words(1, None, &[0, 0], b"")),
            ("empty at the end", Words(1, None, &[3, 3], b"joe")),
            ("none at the end", Words(0, None, &[3], b"joe")),
            ("66 of 66", Words(1, None, &[0, 66], EURO)),
            ("63 of 63", Words(1, None, &[0, 63], &[0x61; 63])),
        ],
    ),
    (
        Some(OffsetPastEnd),
        &[
            ("past no bytes", Words(1, None, &[0, 1], b"")),
            ("2^31 - 1", Words(1, None, &[0, MOST_NARROW], b"joe")),
            ("empty past the end", Words(1, None, &[4, 4], b"joe")),
            (
                "empty at 2^31 - 1",
                Words(1, None, &[MOST_NARROW, MOST_NARROW], b"joe"),
            ),
            ("null past the end", Words(1, Some(&[0]), &[0, 4], b"joe")),
            ("none past the end", Words(0, None, &[4], b"joe")),
            ("none at 2^31 - 1", Words(0, None, &[MOST_NARROW], b"")),
            ("67 of 66", Words(1, None, &[0, 67], EURO)),
            // 63 bytes are stored as 64.
            ("64 of 63", Words(1, None, &[0, 64], &[0x61; 63])),
        ],
    ),
];

/// One character, and its neighbours that are none.
static CHARACTERS: &[Group] = &[
    (
        None,
        &[
            ("0", Words(1, None, &[0, 1], b"\0")),
            ("127", Words(1, None, &[0, 1], b"\x7f")),
            ("128", Words(1, None, &[0, 2], b"\xc2\x80")),
            ("2048", Words(1, None, &[0, 3], b"\xe0\xa0\x80")),
            (
                "before surrogates",
                Words(1, None, &[0, 3], b"\xed\x9f\xbf"),
            ),
            ("after surrogates", Words(1, None, &[0, 3], b"\xee\x80\x80")),
            ("65536", Words(1, None, &[0, 4], b"\xf0\x90\x80\x80")),
            ("the greatest", Words(1, None, &[0, 4], b"\xf4\x8f\xbf\xbf")),
        ],
    ),
    (
        Some(NotUtf8 { row: 0 }),
        &[
            ("its second byte", Words(1, None, &[0, 1], b"\x80")),
            ("its first byte", Words(1, None, &[0, 2], b"\xc2a")),
            ("0 in two bytes", Words(1, None, &[0, 2], b"\xc0\x80")),
            ("127 in two bytes", Words(1, None, &[0, 2], b"\xc1\xbf")),
            ("2047 in three", Words(1, None, &[0, 3], b"\xe0\x9f\xbf")),
            (
                "the first surrogate",
                Words(1, None, &[0, 3], b"\xed\xa0\x80"),
            ),
            (
                "the last surrogate",
                Words(1, None, &[0, 3], b"\xed\xbf\xbf"),
            ),
            (
                "two surrogates",
                Words(1, None, &[0, 6], b"\xed\xa0\xbd\xed\xb8\x80"),
            ),
            (
                "65535 in four",
                Words(1, None, &[0, 4], b"\xf0\x8f\xbf\xbf"),
            ),
            (
                "past the greatest",
                Words(1, None, &[0, 4], b"\xf4\x90\x80\x80"),
            ),
            (
                "of five bytes",
                Words(1, None, &[0, 5], b"\xf8\x88\x80\x80\x80"),
            ),
            ("three of four", Words(1, None, &[0, 3], b"\xf0\x9f\x98")),
            (
                "without its end",
                Words(1, None, &[0, 3], b"\xf0\x9f\x98\x80"),
            ),
            (
                "without its start",
                Words(1, None, &[1, 4], b"\xf0\x9f\x98\x80"),
            ),
        ],
    ),
];

/// Which slots are looked at, and the least that is no text.
static SLOTS: &[Group] = &[
    (
        None,
        &[
            ("behind the last", Words(1, None, &[0, 1], b"b\xff")),
            ("before that of none", Words(0, None, &[2], b"\xff\xff")),
            (
                "nulls",
                Words(3, Some(&[0]), &[0, 1, 2, 3], b"\xff\xff\xff"),
            ),
            (
                "empty within a character",
                Words(1, None, &[1, 1], b"\xc3\xa9"),
            ),
            (
                "a character in two nulls",
                Words(2, Some(&[0]), &[0, 1, 2], b"\xc3\xa9"),
            ),
            ("the sign by itself", Words(2, None, &[0, 63, 66], EURO)),
        ],
    ),
    (
        Some(NotUtf8 { row: 0 }),
        &[
            ("a byte of the sign", Words(1, None, &[0, 64], EURO)),
            ("two bytes of the sign", Words(1, None, &[0, 65], EURO)),
        ],
    ),
    (
        Some(NotUtf8 { row: 1 }),
        &[
            (
                "valid behind a null",
                Words(3, Some(&[6]), &[0, 1, 2, 3], b"\xff\xff\xff"),
            ),
            (
                "the end of a character",
                Words(2, Some(&[2]), &[0, 1, 2], b"\xc3\xa9"),
            ),
            (
                "behind an empty one",
                Words(2, None, &[1, 1, 2], b"\xc3\xa9"),
            ),
            ("the end of the sign", Words(2, None, &[64, 64, 66], EURO)),
        ],
    ),
    (
        Some(NotUtf8 { row: 8 }),
        &[(
            "the ninth alone",
            Words(
                9,
                Some(&[0, 1]),
                &[0, 1, 2, 3, 4, 5, 6, 7, 8, 9],
                &[0xff; 9],
            ),
        )],
    ),
];

const TEXT: Part = (0, Texts, 1, None, &[Nothing, Offsets(&[0, 0]), EMPTY]);

const NO_NUMBERS: Part = (0, INT8, 0, None, &[Nothing, EMPTY]);

static PARTS: &[Group] = &[
    (None, &[("a text", Alone(TEXT))]),
    (
        Some(ChildDiffers),
        &[
            ("a text over a text", Over(TEXT, &[TEXT], None)),
            ("a text over numbers", Over(TEXT, &[NO_NUMBERS], None)),
            ("a text of a dictionary", Over(TEXT, &[], Some(TEXT))),
        ],
    ),
];

#[test]
fn texts_from_outside_are_checked(rt: HostRuntime) -> Result<(), Fail> {
    for groups in [POSITIONS, SIZES, PARTS, RISING, PAST_END, CHARACTERS, SLOTS] {
        expect_texts(&rt, rt.alloc(), groups)?;
    }
    Ok(())
}
