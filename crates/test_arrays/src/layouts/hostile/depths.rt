//! Lists in one another: at most 8, counted in the type of the outermost array alone.

use super::Place::{InLists, InNulls, Top};
use super::forms::Form::{Alone, Lists, Over, Truths, Words};
use super::{Group, INT8, INT64, expect};
use crate::layouts::Content::{Bytes, Int32s, Nothing, Offsets};
use crate::layouts::Inner::{Indices, Texts};
use crate::layouts::Part;
use arrays::LayoutFault::{ChildDiffers, OffsetPastEnd, TooDeep};
use std::test::Fail;

const NUMBER: Part = (0, INT64, 1, None, &[Nothing, Bytes(&[7; 8])]);

const CODE: Part = (0, Indices, 1, None, &[Nothing, Int32s(&[0])]);

const TEXT: Part = (0, Texts, 1, None, &[Nothing, Offsets(&[0, 1]), Bytes(b"a")]);

static IN_SEVEN: &[Group] = &[
    (None, &[("a list", Lists(1, None, &[0, 1], 1))]),
    (
        Some(OffsetPastEnd),
        &[("past its item", Lists(1, None, &[0, 2], 1))],
    ),
];

static IN_EIGHT: &[Group] = &[
    (
        None,
        &[
            ("a number", Alone(NUMBER)),
            ("a truth value", Truths(1, None, None)),
            ("a text", Words(1, None, &[0, 1], b"a")),
        ],
    ),
    (
        Some(ChildDiffers),
        &[("a code", Over(CODE, &[], Some(TEXT)))],
    ),
    (
        Some(TooDeep),
        &[
            ("a list", Lists(1, None, &[0, 1], 1)),
            ("past its item", Lists(1, None, &[0, 2], 1)),
        ],
    ),
];

static IN_MORE: &[Group] = &[(
    Some(TooDeep),
    &[
        ("a number", Alone(NUMBER)),
        ("a truth value", Truths(1, None, None)),
        ("a text", Words(1, None, &[0, 1], b"a")),
        ("a code", Over(CODE, &[], Some(TEXT))),
        ("a number without bytes", Alone((0, INT64, 1, None, &[]))),
    ],
)];

const SIX: Part = (6, INT8, 1, None, &[Nothing, Offsets(&[0, 0])]);

const EIGHT: Part = (8, INT8, 1, None, &[Nothing, Offsets(&[0, 0])]);

const NINE: Part = (9, INT8, 1, None, &[Nothing, Offsets(&[0, 0])]);

const NINE_OF_TEXTS: Part = (9, Texts, 1, None, &[Nothing, Offsets(&[0, 0])]);

/// Types that differ by lists: how deep a child's type is isn't looked at.
static TYPES: &[Group] = &[
    (
        Some(ChildDiffers),
        &[
            ("8 over 6", Over(EIGHT, &[SIX], None)),
            ("8 over 8", Over(EIGHT, &[EIGHT], None)),
            ("8 over 9", Over(EIGHT, &[NINE], None)),
            ("a number over 9", Over(NUMBER, &[NINE], None)),
            ("codes of 9", Over(CODE, &[], Some(NINE_OF_TEXTS))),
        ],
    ),
    (
        Some(TooDeep),
        &[
            ("9 over 8", Over(NINE, &[EIGHT], None)),
            ("9 over none", Alone(NINE)),
            (
                "9 of codes",
                Alone((9, Indices, 1, None, &[Nothing, Offsets(&[0, 0])])),
            ),
        ],
    ),
];

#[test]
fn at_most_eight_lists_stand_in_one_another(rt: HostRuntime) -> Result<(), Fail> {
    expect(&rt, rt.alloc(), &[InLists(7), InNulls(7)], IN_SEVEN)?;
    expect(&rt, rt.alloc(), &[InLists(8), InNulls(8)], IN_EIGHT)?;
    expect(
        &rt,
        rt.alloc(),
        &[InLists(9), InNulls(9), InLists(64)],
        IN_MORE,
    )?;
    expect(&rt, rt.alloc(), &[Top], TYPES)
}
