//! Lists: positions, offsets and the one child.

use super::Place::{InLists, InNulls, Top};
use super::forms::Form::{self, Lists, Over, Words};
use super::{Group, INT8, INT64, LEAST_NARROW, MOST_NARROW, OF_LISTS, expect};
use crate::layouts::Content::{self, Bytes, Cut, Nothing, Offsets};
use crate::layouts::Inner::{self, Bits, Indices, Numbers, Texts};
use crate::layouts::{Part, parts};
use arrays::LayoutFault::{
    BufferTooShort, ChildDiffers, ExtraBuffer, MissingBuffer, NotUtf8, NullCountDiffers,
    OffsetDecreases, OffsetNegative, OffsetPastEnd,
};
use arrays::{Width, validate};
use std::alloc::Global;
use std::test::Fail;
use test_samples::{WIDTHS, Widths};

const EMPTY: Content = Bytes(&[]);

const NUMBERS: Part = (0, INT8, 0, None, &[Nothing, EMPTY]);

static POSITIONS: &[Group] = &[
    (
        Some(MissingBuffer),
        &[
            (
                "no position",
                Over((1, INT8, 0, None, &[]), &[NUMBERS], None),
            ),
            (
                "a bitmap alone",
                Over((1, INT8, 1, None, &[Bytes(&[1])]), &[NUMBERS], None),
            ),
            (
                "nothing as offsets",
                Over((1, INT8, 0, None, &[EMPTY, Nothing]), &[NUMBERS], None),
            ),
        ],
    ),
    (
        None,
        &[(
            "two",
            Over((1, INT8, 0, None, &[EMPTY; 2]), &[NUMBERS], None),
        )],
    ),
    (
        Some(ExtraBuffer),
        &[
            (
                "three",
                Over((1, INT8, 0, None, &[EMPTY; 3]), &[NUMBERS], None),
            ),
            (
                "a third without bytes",
                Over(
                    (1, INT8, 0, None, &[EMPTY, EMPTY, Nothing]),
                    &[NUMBERS],
                    None,
                ),
            ),
        ],
    ),
];

/// Offsets and bitmaps that are too few.
static SIZES: &[Group] = &[
    (
        None,
        &[
            ("0, an offset", Lists(0, None, &[0], 0)),
            ("0, no offset, two items", Lists(0, None, &[], 2)),
            ("1, two offsets", Lists(1, None, &[0, 0], 2)),
            ("8, a byte of bits", Lists(8, Some(&[0]), &[0; 9], 2)),
        ],
    ),
    (
        Some(BufferTooShort),
        &[
            (
                "0, a byte",
                Over(
                    (1, INT8, 0, None, &[Nothing, Bytes(&[0])]),
                    &[NUMBERS],
                    None,
                ),
            ),
            (
                "0, a byte less",
                Over(
                    (1, INT8, 0, None, &[Nothing, Cut(&[0], 1)]),
                    &[NUMBERS],
                    None,
                ),
            ),
            ("1, no offset", Lists(1, None, &[], 2)),
            ("1, an offset", Lists(1, None, &[0], 2)),
            (
                "1, a byte less",
                Over(
                    (1, INT8, 1, None, &[Nothing, Cut(&[0, 0], 1)]),
                    &[NUMBERS],
                    None,
                ),
            ),
            ("1, no byte of bits", Lists(1, Some(&[]), &[0, 0], 2)),
            ("9, a byte of bits", Lists(9, Some(&[0]), &[0; 10], 2)),
        ],
    ),
];

static RISING: &[Group] = &[
    (
        None,
        &[
            ("-1 behind the last", Lists(1, None, &[0, 2, -1], 2)),
            ("all the same", Lists(2, None, &[2, 2, 2], 2)),
        ],
    ),
    (
        Some(OffsetNegative),
        &[
            ("-1 of none", Lists(0, None, &[-1], 2)),
            ("-2^31 first", Lists(1, None, &[LEAST_NARROW, 2], 2)),
            // As an unsigned number it would only be past the end.
            ("-2^31 last", Lists(1, None, &[0, LEAST_NARROW], 2)),
            ("-1 between nulls", Lists(2, Some(&[0]), &[0, -1, 2], 2)),
        ],
    ),
    (
        Some(OffsetDecreases { row: 0 }),
        &[
            ("the first", Lists(2, None, &[1, 0, 2], 2)),
            ("each null", Lists(2, Some(&[0]), &[2, 1, 0], 2)),
            ("from 2^31 - 1", Lists(1, None, &[MOST_NARROW, 0], 2)),
        ],
    ),
    (
        Some(OffsetDecreases { row: 1 }),
        &[
            ("the last", Lists(2, None, &[0, 2, 1], 2)),
            ("from past the end", Lists(2, None, &[0, MOST_NARROW, 2], 2)),
        ],
    ),
];

static PAST_END: &[Group] = &[
    (
        None,
        &[
            ("at the end", Lists(1, None, &[0, 2], 2)),
            ("empty at the end", Lists(1, None, &[2, 2], 2)),
            ("none at the end", Lists(0, None, &[2], 2)),
        ],
    ),
    // The child has bytes for one more, and no slot.
    (
        Some(OffsetPastEnd),
        &[
            ("an item more", Lists(1, None, &[0, 3], 2)),
            ("an item of none", Lists(1, None, &[0, 1], 0)),
            ("2^31 - 1", Lists(1, None, &[0, MOST_NARROW], 2)),
            ("empty past the end", Lists(1, None, &[3, 3], 2)),
            ("null past the end", Lists(1, Some(&[0]), &[0, 3], 2)),
            ("none past the end", Lists(0, None, &[3], 2)),
        ],
    ),
];

/// Two nulls.
const NULLS: Part = (0, INT8, 2, Some(2), &[Bytes(&[0]), Bytes(&[7; 2])]);

static COUNTS: &[Group] = &[
    (
        None,
        &[
            (
                "0 without bits",
                Over(
                    (1, INT8, 1, Some(0), &[Nothing, Offsets(&[0, 0])]),
                    &[NULLS],
                    None,
                ),
            ),
            (
                "1 of two",
                Over(
                    (1, INT8, 2, Some(1), &[Bytes(&[2]), Offsets(&[0, 0, 2])]),
                    &[NULLS],
                    None,
                ),
            ),
        ],
    ),
    (
        Some(NullCountDiffers),
        &[
            (
                "an empty one as null",
                Over(
                    (1, INT8, 1, Some(1), &[Nothing, Offsets(&[0, 0])]),
                    &[NULLS],
                    None,
                ),
            ),
            (
                "7 past the lists",
                Over(
                    (1, INT8, 2, Some(7), &[Bytes(&[2]), Offsets(&[0, 0, 2])]),
                    &[NULLS],
                    None,
                ),
            ),
            (
                "those of the items",
                Over(
                    (1, INT8, 1, Some(2), &[Bytes(&[1]), Offsets(&[0, 2])]),
                    &[NULLS],
                    None,
                ),
            ),
        ],
    ),
];

const UNSIGNED: Part = (0, Numbers(Width::W8, false), 0, None, &[Nothing, EMPTY]);

const LONG: Part = (0, INT64, 0, None, &[Nothing, EMPTY]);

const TRUTHS: Part = (0, Bits, 0, None, &[Nothing, EMPTY]);

const TEXTS: Part = (0, Texts, 0, None, &[EMPTY; 3]);

const CODES: Part = (0, Indices, 0, None, &[Nothing, EMPTY]);

const LISTS: Part = (1, INT8, 0, None, &[Nothing, EMPTY]);

static CHILDREN: &[Group] = &[
    (None, &[("its child", Over(LISTS, &[NUMBERS], None))]),
    (
        Some(ChildDiffers),
        &[
            ("none", Over(LISTS, &[], None)),
            ("three", Over(LISTS, &[NUMBERS, NUMBERS, NUMBERS], None)),
            ("and then another", Over(LISTS, &[NUMBERS, TEXTS], None)),
            ("and a dictionary", Over(LISTS, &[NUMBERS], Some(TEXTS))),
            ("without a sign", Over(LISTS, &[UNSIGNED], None)),
            ("of another width", Over(LISTS, &[LONG], None)),
            ("truth values", Over(LISTS, &[TRUTHS], None)),
            ("lists", Over(LISTS, &[LISTS], None)),
        ],
    ),
];

/// A list of no texts, over two.
const OF_TEXT: Part = (1, Texts, 1, None, &[Bytes(&[0]), Offsets(&[1, 1])]);

const SPOILT: Part = (
    0,
    Texts,
    2,
    None,
    &[Nothing, Offsets(&[0, 1, 2]), Bytes(b"a\xff")],
);

const COVERED: Part = (
    0,
    Texts,
    2,
    None,
    &[Bytes(&[1]), Offsets(&[0, 1, 2]), Bytes(b"a\xff")],
);

static UNNAMED: &[Group] = &[
    (None, &[("under a null", Over(OF_TEXT, &[COVERED], None))]),
    (
        Some(NotUtf8 { row: 1 }),
        &[("valid", Over(OF_TEXT, &[SPOILT], None))],
    ),
];

const LISTS_OF_LISTS: Part = (2, INT8, 0, None, &[Nothing, EMPTY]);

const LISTS_OF_CODES: Part = (1, Indices, 0, None, &[Nothing, EMPTY]);

/// Children of another depth, and codes.
static DEEPER: &[Group] = &[(
    Some(ChildDiffers),
    &[
        ("over numbers", Over(LISTS_OF_LISTS, &[NUMBERS], None)),
        (
            "over the same",
            Over(LISTS_OF_LISTS, &[LISTS_OF_LISTS], None),
        ),
        ("over lists of none", Over(LISTS_OF_LISTS, &[LISTS], None)),
        (
            "texts that are codes",
            Over((1, Texts, 0, None, &[Nothing, EMPTY]), &[CODES], None),
        ),
        (
            "codes that are texts",
            Over(LISTS_OF_CODES, &[TEXTS], Some(TEXTS)),
        ),
        (
            "lists of codes",
            Over(
                (2, Indices, 0, None, &[Nothing, EMPTY]),
                &[LISTS_OF_CODES],
                None,
            ),
        ),
    ],
)];

#[test]
fn lists_from_outside_are_checked(rt: HostRuntime) -> Result<(), Fail> {
    for groups in [
        POSITIONS, SIZES, COUNTS, RISING, PAST_END, CHILDREN, UNNAMED,
    ] {
        expect(&rt, rt.alloc(), OF_LISTS, groups)?;
    }
    let places = [Top, InLists(1), InLists(6), InNulls(6)];
    expect(&rt, rt.alloc(), &places, DEEPER)
}

const ONE_ITEM: &[Content] = &[Nothing, Offsets(&[0, 1])];

/// A list of a list of truth values, and of a text: the type of its items, and the item.
static OF_LISTS_AND_TEXTS: &[(usize, Inner, Form)] = &[
    (2, Bits, Lists(1, None, &[0, 1], 1)),
    (1, Texts, Words(1, None, &[0, 1], b"a")),
];

/// Whether the child of a list of one item is lawful where its width is that of the items alone. The list's type is of some
/// widths, the child of others.
fn is_reported(
    alloc: Global,
    widths: Widths,
    others: Widths,
    (lists, inner, child): (usize, Inner, Form),
) -> Result<bool, Fail> {
    let items = lists.saturating_sub(1);
    let is_same = widths.of_lists(items) == others.of_lists(items);
    let mut list = parts(alloc, widths, (lists, inner, 1, None, ONE_ITEM))?;
    list.children.push(child.parts(alloc, others)?)?;
    let fault = validate(alloc, list).err();
    Ok(fault == if is_same { None } else { Some(ChildDiffers) })
}

#[test]
fn the_child_has_the_width_of_the_items(rt: HostRuntime) -> Result<(), Fail> {
    for widths in WIDTHS {
        for others in WIDTHS {
            for case in OF_LISTS_AND_TEXTS {
                let is_reported = is_reported(rt.alloc(), widths, others, *case)?;
                assert!(rt; is_reported, "{widths:?} over {others:?}");
            }
        }
    }
    Ok(())
}
