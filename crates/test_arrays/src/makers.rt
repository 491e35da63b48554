//! Tests of arrays that are made of lawful parts, and of copies.

ghost use Rattle.std.specs.Prelude.{◌≡◌, pos, [], ◌∷◌, Some, IfOk};
ghost use Rattle.arrays.specs.Prelude.{AreOffsetBytes, int, int32, null, offsets_in, text};
ghost use Rattle.arrays.specs.Kind as kind;

use arrays::{
    Array, Buffer, DataType, IntBuilder, IntType, LayoutFault, OffsetSlots, OffsetWidth,
    TextBuilder, ViewType, Words,
};
use std::alloc::Global;
use std::process::Abort;
use std::sync::Arc;
use std::test::Fail;
use test_samples::Sample::{self, Coded, Lists, ListsOfLists, Of, Texts};
use test_samples::{
    Flat, INT16, INT32, NAMES, Parts, Shown, WIDTHS, field, has_item, has_width, offset_bytes,
    sampled, sampled_at, shows, shows_bools, shows_lists, shows_numbers,
};

/// What lists from outside say of themselves: the type of their items, how many they are, their bitmap and offsets.
type Outside<'a> = (IntType, u32, &'a [u8], &'a [i64]);

/// Lists from outside over the numbers 1, 2 and 3, whose offsets are of this width.
fn tried(
    alloc: Global,
    width: OffsetWidth,
    outside: Outside<'_>,
) -> Result<Result<Array, LayoutFault>, Fail> {
    let (item, len, validity, offsets) = outside;
    let values = Buffer::from_bytes(alloc, &[1, 0, 2, 0, 3, 0])?;
    let child = Array::from_numbers(alloc, INT16, 3, None, values)?;
    let item = field(alloc, "item", true, DataType::Int(item))?;
    let slots = OffsetSlots {
        width,
        len,
        validity: Some(Buffer::from_bytes(alloc, validity)?),
        offsets: Buffer::from_vec(offset_bytes(alloc, width, offsets)?)?,
    };
    Ok(Array::try_list(alloc, item, slots, child))
}

#[test]
fn makes_lists_of_offsets_from_outside(rt: HostRuntime) -> Result<(), Fail> {
    for width in [OffsetWidth::Narrow, OffsetWidth::Wide] {
        let array = tried(rt.alloc(), width, (INT16, 3, &[0x05], &[1, 2, 3, 3]))??;
        let view = array.view();
        assert!(rt; shows_lists(&view, &[Some(&[Some(2)]), None, Some(&[])]));
        assert!(rt; has_item(&view, "item", true) && has_width(&view, width));
    }
    Ok(())
}

/// Lawful offsets, and some of which one is missing.
const OFFSETS: &[i64] = &[0, 1, 3, 3];

const SHORT: &[i64] = &[0, 1, 3];

/// What is wrong at each width.
static WRONG: [(Outside<'_>, LayoutFault); 9] = [
    ((INT16, 2147483648, &[0x05], OFFSETS), LayoutFault::TooLong),
    ((INT32, 3, &[0x05], OFFSETS), LayoutFault::ChildDiffers),
    ((INT16, 3, &[], OFFSETS), LayoutFault::BufferTooShort),
    ((INT16, 3, &[0x05], SHORT), LayoutFault::BufferTooShort),
    (
        (INT16, 2147483647, &[0x05], OFFSETS),
        LayoutFault::BufferTooShort,
    ),
    (
        (INT16, 3, &[0x05], &[0, 1, -1, 3]),
        LayoutFault::OffsetNegative,
    ),
    ((INT16, 0, &[], &[-2147483648]), LayoutFault::OffsetNegative),
    (
        (INT16, 3, &[0x05], &[0, 2, 1, 3]),
        LayoutFault::OffsetDecreases { row: 1 },
    ),
    (
        (INT16, 3, &[0x05], &[0, 1, 3, 4]),
        LayoutFault::OffsetPastEnd,
    ),
];

/// What is wrong with offsets that 32 bits don't hold. The lower halves of the last are lawful.
static WRONG_OF_64_BITS: [(Outside<'_>, LayoutFault); 4] = [
    ((INT16, 0, &[], &[i64::MIN]), LayoutFault::OffsetNegative),
    (
        (INT16, 3, &[0x05], &[0, 1, 3, 1 << 31]),
        LayoutFault::OffsetPastEnd,
    ),
    (
        (INT16, 3, &[0x05], &[0, 4294967297, 3, 3]),
        LayoutFault::OffsetDecreases { row: 1 },
    ),
    (
        (INT16, 3, &[0x05], &[0, 1, 3, 4294967299]),
        LayoutFault::OffsetPastEnd,
    ),
];

/// Asserts the fault of each.
fn expect_wrong(
    rt: &impl Abort,
    alloc: Global,
    width: OffsetWidth,
    cases: &[(Outside<'_>, LayoutFault)],
) -> Result<(), Fail> {
    for (outside, fault) in cases {
        let reported = tried(alloc, width, *outside)?.err();
        assert!(rt;
            reported == Some(*fault),
            "{reported:?} for {fault:?}, {width:?}"
        );
    }
    Ok(())
}

#[test]
fn tells_what_is_wrong_with_lists_from_outside(rt: HostRuntime) -> Result<(), Fail> {
    for width in [OffsetWidth::Narrow, OffsetWidth::Wide] {
        expect_wrong(&rt, rt.alloc(), width, &WRONG)?;
    }
    expect_wrong(&rt, rt.alloc(), OffsetWidth::Wide, &WRONG_OF_64_BITS)
}

/// The numbers 1, 0, 2, 4 and 8, of which the second is null.
const NUMBERS: Parts = (
    Flat::Int(INT32),
    5,
    &[
        Some(&[0xfd]),
        Some(&[1, 0, 0, 0, 0, 0, 0, 0, 2, 0, 0, 0, 4, 0, 0, 0, 8, 0, 0, 0]),
    ],
);

/// Arrays, and what they and their copies hold.
static COPIED: [(Sample, Shown); 5] = [
    (
        Of(NUMBERS),
        Shown::Numbers(&[Some(1), None, Some(2), Some(4), Some(8)]),
    ),
    (
        Texts(NAMES),
        Shown::Texts(&[Some("joe"), None, None, Some("mark")]),
    ),
    (
        Lists,
        Shown::Lists(&[
            Some(&[Some(12), Some(-7), Some(25)]),
            None,
            Some(&[Some(0), Some(-127), Some(127), Some(50)]),
            Some(&[]),
        ]),
    ),
    (
        ListsOfLists,
        Shown::ListsOfLists(&[
            Some(&[Some(&[Some(12), Some(-7), Some(25)]), None]),
            None,
            Some(&[Some(&[Some(0), Some(-127), Some(127), Some(50)]), Some(&[])]),
        ]),
    ),
    (
        Coded,
        Shown::Encoded(
            &[Some(2), Some(0), Some(3), None, Some(1)],
            &[Some("a"), Some("b"), Some("a"), None],
            &[Some("a"), Some("a"), None, None, Some("b")],
        ),
    ),
];

/// Whether an array and its copy hold this, and are of one type.
fn is_copied(array: &Array, copy: &Array, shown: Shown) -> bool {
    let (old, new) = (array.view(), copy.view());
    shows(&old, shown) && shows(&new, shown) && new.ty().is_same(old.ty())
}

#[test]
fn copies_arrays(rt: HostRuntime) -> Result<(), Fail> {
    for widths in WIDTHS {
        for (i, (sample, shown)) in COPIED.iter().enumerate() {
            let array = sampled_at(rt.alloc(), widths, *sample)?;
            let copy = array.copy(rt.alloc())?;
            assert!(rt; is_copied(&array, &copy, *shown), "array {i}, {widths:?}");
        }
    }
    Ok(())
}

/// The texts `a`, `b` and `a`, and a null.
const TEXTS: test_samples::Words = (Some(&[0x07]), &[0, 1, 2, 3, 3], b"aba");

/// The codes 2, 0, 3, null and 1, with the texts as their dictionary.
fn encoded(rt: &impl Abort, alloc: Global) -> Result<Array, Fail> {
    let texts = sampled(alloc, Texts(TEXTS))?;
    let ViewType::Text(OffsetWidth::Narrow) = texts.view().ty() else {
        panic!(rt; "these are no texts");
    };
    assert!(rt; texts.len() == 4);
    let words = Arc::new(alloc, Words::of(texts))?;
    let codes = Array::of_ints(alloc, &[Some(2_i32), Some(0), Some(3), None, Some(1)])?;
    Ok(Array::dict(codes, words))
}

const ENCODED: Shown = Shown::Encoded(
    &[Some(2), Some(0), Some(3), None, Some(1)],
    &[Some("a"), Some("b"), Some("a"), None],
    &[Some("a"), Some("a"), None, None, Some("b")],
);

#[test]
fn makes_and_copies_a_dictionary(rt: HostRuntime) -> Result<(), Fail> {
    let array = encoded(&rt, rt.alloc())?;
    let copy = array.copy(rt.alloc())?;
    assert!(rt; is_copied(&array, &copy, ENCODED));
    Ok(())
}

/// A column of a text.
fn one(alloc: Global, first: &str) -> Result<Array, Fail>
    ensures kind { IfOk result (λ a. a.kind ≡ kind.utf8) }
    ensures items { IfOk result (λ a. a.items ≡ text first.now ∷ []) }
{
    let mut texts = TextBuilder::with_capacity(alloc, OffsetWidth::Narrow, 1, 0)?;
    texts.push(Some(first))?;
    Ok(texts.finish()?)
}

/// A column of two texts.
fn two(alloc: Global, first: &str, second: &str) -> Result<Array, Fail>
    ensures kind { IfOk result (λ a. a.kind ≡ kind.utf8) }
    ensures items { IfOk result (λ a. a.items ≡ text first.now ∷ text second.now ∷ []) }
{
    let mut texts = TextBuilder::with_capacity(alloc, OffsetWidth::Narrow, 2, 0)?;
    texts.push(Some(first))?;
    texts.push(Some(second))?;
    Ok(texts.finish()?)
}

/// The codes 0 and null.
fn first_code(alloc: Global) -> Result<Array, Fail>
    ensures kind { IfOk result (λ a. a.kind ≡ kind.int int32) }
    ensures items { IfOk result (λ a. a.items ≡ int (pos 0) ∷ null ∷ []) }
{
    let mut builder = IntBuilder::with_capacity(alloc, INT32, 2)?;
    builder.push(Some(0))?;
    builder.push(None)?;
    Ok(builder.finish()?)
}

/// A column of a text and null, over a dictionary of one text and over one of two.
fn over_both(alloc: Global, first: &str, second: &str) -> Result<(Array, Array), Fail> {
    let short = Arc::new(alloc, Words::of(one(alloc, first)?))?;
    let long = Arc::new(alloc, Words::of(two(alloc, first, second)?))?;
    let array = Array::dict(first_code(alloc)?, short);
    let longer = array.with_dictionary(long)?;
    Ok((array, longer))
}

#[test]
fn shows_the_same_over_a_longer_dictionary(rt: HostRuntime) -> Result<(), Fail> {
    let (array, longer) = over_both(rt.alloc(), "a", "b")?;
    let codes: &[Option<i128>] = &[Some(0), None];
    let texts: &[Option<&str>] = &[Some("a"), None];
    assert!(rt; shows(&array.view(), Shown::Encoded(codes, &[Some("a")], texts)));
    assert!(rt;
        shows(
            &longer.view(),
            Shown::Encoded(codes, &[Some("a"), Some("b")], texts)
        )
    );
    Ok(())
}
