//! Tests of views and of their types.

use crate::testing::has_bits;
use arrays::{DataType, OffsetWidth, ViewType, validate};
use std::test::Fail;
use test_samples::Sample::{self, Coded, Lists, ListsOfLists, Of, Texts};
use test_samples::{
    Flat, INT8, INT32, NAMES, NARROW, Parts, Positions, Shown, UINT32, WIDE, WIDE_IN_NARROW,
    WIDTHS, Words, built, lists_of, raw, raw_words, sampled_at, shows, shows_texts, slots_of,
};

/// The numbers 0, 1, null, 2, null and 3.
const NUMBERS: Parts = (
    Flat::Int(INT32),
    6,
    &[
        Some(&[0x2b]),
        Some(b"\0\0\0\0\x01\0\0\0\0\0\0\0\x02\0\0\0\0\0\0\0\x03\0\0\0"),
    ],
);

/// From the first on: 1, 0, null, 0, 1, 1, null, 0, 1, 1.
const TRUTHS: Parts = (Flat::Bool, 10, &[Some(&[0xbb, 0x03]), Some(&[0x75, 0x03])]);

/// The text `joe`, which doesn't begin at the first byte.
const LATE: Words = (None, &[2, 5], b"xxjoe");

/// The texts of the dictionary.
const ENTRIES: &[Option<&str>] = &[Some("a"), Some("b"), Some("a"), None];

/// Arrays, of their slots the first and how many, and what these hold.
static SLICES: [(Sample, usize, usize, Shown); 9] = [
    (Of(NUMBERS), 3, 3, Shown::Numbers(&[Some(2), None, Some(3)])),
    (
        Of(TRUTHS),
        3,
        6,
        Shown::Bools(&[
            Some(false),
            Some(true),
            Some(true),
            None,
            Some(false),
            Some(true),
        ]),
    ),
    (
        Texts(NAMES),
        0,
        4,
        Shown::Texts(&[Some("joe"), None, None, Some("mark")]),
    ),
    (Texts(NAMES), 2, 2, Shown::Texts(&[None, Some("mark")])),
    (Texts(LATE), 0, 1, Shown::Texts(&[Some("joe")])),
    (
        Lists,
        1,
        3,
        Shown::Lists(&[
            None,
            Some(&[Some(0), Some(-127), Some(127), Some(50)]),
            Some(&[]),
        ]),
    ),
    (
        ListsOfLists,
        1,
        2,
        Shown::ListsOfLists(&[
            None,
            Some(&[Some(&[Some(0), Some(-127), Some(127), Some(50)]), Some(&[])]),
        ]),
    ),
    (
        Coded,
        0,
        5,
        Shown::Encoded(
            &[Some(2), Some(0), Some(3), None, Some(1)],
            ENTRIES,
            &[Some("a"), Some("a"), None, None, Some("b")],
        ),
    ),
    (
        Coded,
        3,
        2,
        Shown::Encoded(&[None, Some(1)], ENTRIES, &[None, Some("b")]),
    ),
];

#[test]
fn slices_hold_their_slots(rt: HostRuntime) -> Result<(), Fail> {
    for widths in WIDTHS {
        for (sample, start, len, shown) in &SLICES {
            let array = sampled_at(rt.alloc(), widths, *sample)?;
            assert!(rt;
                shows(&slots_of(&array, *start, *len), *shown),
                "slots from {start} on, {widths:?}"
            );
        }
    }
    Ok(())
}

#[test]
fn slices_have_their_part_of_a_bitmap(rt: HostRuntime) -> Result<(), Fail> {
    let array = built(rt.alloc(), NUMBERS)?;
    match slots_of(&array, 3, 3).validity() {
        Some(bits) => {
            assert!(rt; has_bits(&bits, &[true, false, true]) && bits.count_ones() == 2);
        }
        None => panic!(rt; "there is a bitmap"),
    }
    Ok(())
}

/// The texts `x` and `y`.
const LETTERS: Words = (None, &[0, 1, 2], b"xy");

/// The code 0, and a null over one that names no entry.
const PAST: Positions = &[Some(&[0x01]), Some(&[0, 0, 0, 0, 5, 0, 0, 0])];

#[test]
fn shows_no_text_where_a_null_names_no_entry(rt: HostRuntime) -> Result<(), Fail> {
    let mut codes = raw(rt.alloc(), DataType::Dict, 2, PAST)?;
    let entries = raw_words(rt.alloc(), OffsetWidth::Narrow, LETTERS)?;
    codes.dictionary = Some(Box::new(rt.alloc(), entries)?);
    let past = validate(rt.alloc(), codes)?;
    assert!(rt; shows_texts(&past.view(), &[Some("x"), None]));
    Ok(())
}

#[test]
fn types_are_the_same_as_themselves_alone(rt: HostRuntime) -> Result<(), Fail> {
    let types = [
        DataType::Int(INT8),
        DataType::Int(INT32),
        DataType::Int(UINT32),
        DataType::Bool,
        DataType::Utf8,
        DataType::LargeUtf8,
        lists_of(rt.alloc(), NARROW, 1, DataType::Int(INT8))?,
        lists_of(rt.alloc(), NARROW, 1, DataType::Utf8)?,
        lists_of(rt.alloc(), NARROW, 1, DataType::LargeUtf8)?,
        lists_of(rt.alloc(), WIDE, 1, DataType::Int(INT8))?,
        lists_of(rt.alloc(), WIDE, 1, DataType::Utf8)?,
        lists_of(rt.alloc(), NARROW, 2, DataType::Utf8)?,
        lists_of(rt.alloc(), WIDE_IN_NARROW, 2, DataType::Utf8)?,
        DataType::Dict,
    ];
    for (i, ty) in types.iter().enumerate() {
        for (j, other) in types.iter().enumerate() {
            let is_same = ViewType::of(ty).is_same(ViewType::of(other));
            assert!(rt; is_same == (i == j), "types {i} and {j}");
        }
    }
    Ok(())
}
