//! Tests of columns in the making, and of validities.

ghost use Rattle.std.specs.Prelude.{◌≡◌, ◌<◌, ◌+◌, [], ◌∷◌, None, Some, length, IfOk, OnOk};
ghost use Rattle.arrays.specs.Kind as kind;

use crate::testing::{AllBut, has_bits};
use arrays::BuildFault::OffsetsFull;
use arrays::validity::{buffer_of, validity_of};
use arrays::{
    Array, BitmapBuf, BoolBuilder, Buffer, BuildFault, DataType, IntBuilder, Integer, ListBuilder,
    NoMemory, OffsetWidth, TextBuilder, ValidityBuilder, View, ViewType,
};
use std::alloc::Global;
use std::test::Fail;
use test_samples::{
    INT16, INT32, Shown, field, has_item, has_offsets, has_width, is_result, is_result_of_bools,
    is_result_of_numbers, shows,
};

/// Pushes of so many slots that are valid or not, how many slots there are then, and the validity that is kept.
type Pushes = (&'static [(bool, usize)], usize, Option<&'static [bool]>);

static PUSHES: &[Pushes] = &[
    (
        &[
            (true, 1),
            (true, 2),
            (false, 1),
            (true, 1),
            (true, 3),
            (false, 1),
        ],
        9,
        Some(&[true, true, true, false, true, true, true, true, false]),
    ),
    (&[(false, 1)], 1, Some(&[false])),
    // None is kept without a null.
    (&[], 0, None),
    (&[(true, 1), (true, 4)], 5, None),
];

/// Whether a validity is kept with these bits, or none is.
fn is_kept(validity: &Option<BitmapBuf>, bits: Option<&[bool]>) -> bool {
    match (validity, bits) {
        (Some(bitmap), Some(bits)) => has_bits(&bitmap.bits(), bits),
        (None, None) => true,
        _ => false,
    }
}

#[test]
fn builds_validities(rt: HostRuntime) -> Result<(), Fail> {
    for (pushes, len, kept) in PUSHES {
        let mut valid = ValidityBuilder::new(rt.alloc());
        for (is_valid, count) in *pushes {
            assert!(rt; valid.len() < 100 && *count < 100);
            if *count == 1 {
                valid.push(*is_valid)?;
            } else {
                valid.push_valid(*count)?;
            }
        }
        assert!(rt; valid.len() == *len);
        assert!(rt; is_kept(&valid.finish()?, *kept), "of {len} slots");
    }
    Ok(())
}

#[test]
fn adds_the_bytes_of_numbers(rt: HostRuntime) -> Result<(), Fail> {
    let mut bytes = Vec::new(rt.alloc());
    <i8 as Integer>::push(&mut bytes, -1)?;
    <u8 as Integer>::push(&mut bytes, 254)?;
    <i16 as Integer>::push(&mut bytes, -2)?;
    <u16 as Integer>::push(&mut bytes, 0x0102)?;
    <i32 as Integer>::push(&mut bytes, -3)?;
    <u32 as Integer>::push(&mut bytes, 0x0102_0304)?;
    <i64 as Integer>::push(&mut bytes, -4)?;
    <u64 as Integer>::push(&mut bytes, 0x0102_0304_0506_0708)?;
    let expected: &[u8] =
        b"\xff\xfe\xfe\xff\x02\x01\xfd\xff\xff\xff\x04\x03\x02\x01\xfc\xff\xff\xff\xff\xff\xff\xff\x08\x07\x06\x05\x04\x03\x02\x01";
    assert!(rt; *bytes == *expected);
    Ok(())
}

/// Puts the numbers 70000, null and -1 at the end.
fn push_numbers(builder: &mut IntBuilder) -> Result<(), NoMemory>
    requires ty { builder.old.ty ≡ INT32 }
    requires room { length builder.old.items < 2147483640 }
{
    builder.push(Some(70_000))?;
    builder.push(None)?;
    builder.push(Some(-1))
}

#[test]
fn builds_numbers(rt: HostRuntime) -> Result<(), Fail> {
    let mut builder = IntBuilder::with_capacity(rt.alloc(), INT32, 3)?;
    push_numbers(&mut builder)?;
    let array = builder.finish()?;
    assert!(rt; is_result_of_numbers(&array, &[Some(70_000), None, Some(-1)]));
    Ok(())
}

/// The numbers 5, null and -6.
fn pushed(alloc: Global) -> Result<IntBuilder, Fail>
    ensures ty { IfOk result (λ b. b.ty ≡ INT16) }
    ensures len { IfOk result (λ b. length b.items ≡ 3) }
{
    let mut builder = IntBuilder::with_capacity(alloc, INT16, 3)?;
    builder.push_as::<i16>(Some(5))?;
    builder.push_as::<i16>(None)?;
    builder.push_as::<i16>(Some(-6))?;
    Ok(builder)
}

/// The numbers 1, -2, 3 and 4, of which the second is null if there is a validity.
fn numbers(alloc: Global, has_validity: bool) -> Result<Array, Fail>
    ensures kind { IfOk result (λ a. a.kind ≡ kind.int INT16) }
    ensures len { IfOk result (λ a. length a.items ≡ 4) }
{
    let validity = if has_validity {
        Some(Buffer::from_bytes(alloc, &[0x0d])?)
    } else {
        None
    };
    let values = Buffer::from_bytes(alloc, &[1, 0, 0xfe, 0xff, 3, 0, 4, 0])?;
    Ok(Array::from_numbers(alloc, INT16, 4, validity, values)?)
}

#[test]
fn extends_numbers_after_a_null(rt: HostRuntime) -> Result<(), Fail> {
    for (has_validity, second) in [(true, None), (false, Some(-2))] {
        let more = numbers(rt.alloc(), has_validity)?;
        let array = pushed(rt.alloc())?.extended::<i16>(&more.view())?.finish()?;
        let expected = [Some(5), None, Some(-6), Some(1), second, Some(3), Some(4)];
        assert!(rt; is_result_of_numbers(&array, &expected), "{second:?}");
    }
    Ok(())
}

#[test]
fn makes_columns_of_slices(rt: HostRuntime) -> Result<(), Fail> {
    let alloc = rt.alloc();
    let numbers = Array::of_ints(alloc, &[Some(-70_000_i64), None, Some(2)])?;
    assert!(rt; is_result_of_numbers(&numbers, &[Some(-70_000), None, Some(2)]));
    let bytes = Array::of_ints(alloc, &[Some(255_u8)])?;
    assert!(rt; is_result_of_numbers(&bytes, &[Some(255)]));
    let bools = Array::of_bools(alloc, &[Some(true), Some(false), None])?;
    assert!(rt; is_result_of_bools(&bools, &[Some(true), Some(false), None]));
    let texts = Array::of_texts(alloc, &[Some("a"), None, Some("")])?;
    assert!(rt; is_result(&texts, Shown::Texts(&[Some("a"), None, Some("")])));
    let none = Array::of_texts(alloc, &[])?;
    assert!(rt; is_result(&none, Shown::Texts(&[])));
    Ok(())
}

/// Puts true, false and true at the end.
fn push_bools(builder: &mut BoolBuilder) -> Result<(), NoMemory>
    requires { length builder.old < 2147483640 }
    ensures { OnOk result (length builder.new ≡ length builder.old + 3) }
{
    builder.push(Some(true))?;
    builder.push(Some(false))?;
    builder.push(Some(true))
}

#[test]
fn builds_truth_values(rt: HostRuntime) -> Result<(), Fail> {
    let mut builder = BoolBuilder::with_capacity(rt.alloc(), 4)?;
    push_bools(&mut builder)?;
    builder.push(None)?;
    let array = builder.finish()?;
    assert!(rt; is_result_of_bools(&array, &[Some(true), Some(false), Some(true), None]));
    Ok(())
}

/// Puts the texts a, null, bé and an empty one at the end.
fn push_texts(builder: &mut TextBuilder) -> Result<(), BuildFault>
    requires { length builder.old.items < 2147483640 }
{
    builder.push(Some("a"))?;
    builder.push(None)?;
    builder.push(Some("b\u{e9}"))?;
    builder.push(Some(""))
}

/// Whether texts without a dictionary lie in these bytes.
fn has_bytes(view: &View<'_>, bytes: &str) -> bool {
    match view.ty() {
        ViewType::Text(width) => view.texts(width).bytes == bytes.as_bytes(),
        _ => false,
    }
}

const BUILT_TEXTS: Shown = Shown::Texts(&[Some("a"), None, Some("b\u{e9}"), Some("")]);

#[test]
fn builds_texts(rt: HostRuntime) -> Result<(), Fail> {
    for width in [OffsetWidth::Narrow, OffsetWidth::Wide] {
        let mut builder = TextBuilder::with_capacity(rt.alloc(), width, 1, 1)?;
        push_texts(&mut builder)?;
        let array = builder.finish()?;
        let view = array.view();
        assert!(rt;
            shows(&view, BUILT_TEXTS) && has_width(&view, width),
            "{width:?}"
        );
        assert!(rt; has_offsets(&view, &[0, 1, 1, 4, 4]) && has_bytes(&view, "ab\u{e9}"));
    }
    Ok(())
}

/// Four texts: an empty one, ab, the third as it is given, and dé.
fn four_texts(alloc: Global, third: Option<&str>) -> Result<Array, Fail>
    ensures kind { IfOk result (λ a. a.kind ≡ kind.utf8) }
    ensures len { IfOk result (λ a. length a.items ≡ 4) }
{
    let mut texts = TextBuilder::with_capacity(alloc, OffsetWidth::Narrow, 4, 0)?;
    texts.push(Some(""))?;
    texts.push(Some("ab"))?;
    texts.push(third)?;
    texts.push(Some("d\u{e9}"))?;
    Ok(texts.finish()?)
}

/// A text, and all of the four but the first.
fn extended_texts(alloc: Global, width: OffsetWidth, third: Option<&str>) -> Result<Array, Fail> {
    let four = four_texts(alloc, third)?;
    let mut texts = TextBuilder::with_capacity(alloc, width, 1, 0)?;
    texts.push(Some("x"))?;
    let more = four.view().slice(1, 3);
    Ok(texts.extended(&more.texts(OffsetWidth::Narrow))?.finish()?)
}

const WITH_NULL: Shown = Shown::Texts(&[Some("x"), Some("ab"), None, Some("d\u{e9}")]);

const WITHOUT_NULL: Shown = Shown::Texts(&[Some("x"), Some("ab"), Some("c"), Some("d\u{e9}")]);

#[test]
fn extends_texts_by_a_slice(rt: HostRuntime) -> Result<(), Fail> {
    for (width, third, expected) in [
        (OffsetWidth::Narrow, None, WITH_NULL),
        (OffsetWidth::Narrow, Some("c"), WITHOUT_NULL),
        (OffsetWidth::Wide, None, WITH_NULL),
        (OffsetWidth::Wide, Some("c"), WITHOUT_NULL),
    ] {
        let array = extended_texts(rt.alloc(), width, third)?;
        let view = array.view();
        assert!(rt;
            shows(&view, expected) && has_width(&view, width),
            "{width:?} {third:?}"
        );
    }
    Ok(())
}

/// Puts the lengths 1, null, 0 and 2 at the end.
fn push_lengths(builder: &mut ListBuilder) -> Result<(), BuildFault>
    requires { builder.old.lengths ≡ [] }
    ensures { OnOk result (builder.new.lengths ≡ Some 1 ∷ None ∷ Some 0 ∷ Some 2 ∷ []) }
{
    builder.push(Some(1))?;
    builder.push(None)?;
    builder.push(Some(0))?;
    builder.push(Some(2))
}

/// The lists of 1, null, of nothing, and of 2 and 3, with this field of their items.
fn lists(alloc: Global, width: OffsetWidth, name: &str, nullable: bool) -> Result<Array, Fail> {
    let numbers = Buffer::from_bytes(alloc, &[1, 0, 2, 0, 3, 0])?;
    let child = Array::from_numbers(alloc, INT16, 3, None, numbers)?;
    let item = field(alloc, name, nullable, DataType::Int(INT16))?;
    let mut builder = ListBuilder::with_capacity(alloc, width, 1)?;
    push_lengths(&mut builder)?;
    Ok(builder.finish(item, child)?)
}

const BUILT: Shown = Shown::Lists(&[Some(&[Some(1)]), None, Some(&[]), Some(&[Some(2), Some(3)])]);

const BUILT_OFFSETS: &[usize] = &[0, 1, 1, 1, 3];

#[test]
fn builds_lists_with_their_items_field(rt: HostRuntime) -> Result<(), Fail> {
    for width in [OffsetWidth::Narrow, OffsetWidth::Wide] {
        for (name, nullable) in [("item", true), ("entry", false)] {
            let array = lists(rt.alloc(), width, name, nullable)?;
            let copy = array.copy(rt.alloc())?;
            for view in [array.view(), copy.view()] {
                assert!(rt;
                    shows(&view, BUILT) && has_item(&view, name, nullable),
                    "{name}"
                );
                assert!(rt; has_offsets(&view, BUILT_OFFSETS) && has_width(&view, width));
            }
        }
    }
    Ok(())
}

/// No array has more items, whatever the offsets count.
#[test]
fn tells_more_items_than_an_array_has(rt: HostRuntime) -> Result<(), Fail> {
    for width in [OffsetWidth::Narrow, OffsetWidth::Wide] {
        let mut builder = ListBuilder::with_capacity(rt.alloc(), width, 4)?;
        assert!(rt; builder.push(Some(usize::MAX)) == Err(OffsetsFull));
        builder.push(Some(2147483646))?;
        assert!(rt; builder.push(Some(2)) == Err(OffsetsFull));
        builder.push(Some(1))?;
        builder.push(None)?;
        builder.push(Some(0))?;
        assert!(rt; builder.push(Some(1)) == Err(OffsetsFull));
    }
    Ok(())
}
