//! Parts of arrays, each given in a line.

use crate::layouts::Content::{self, Bytes, Int32s, Nothing, Offsets};
use crate::layouts::Inner::{self, Bits, Indices, Texts};
use crate::layouts::{Part, assembled, parts, parts_over};
use Form::{Alone, Codes, Lists, Over, Truths, Values, Words};
use arrays::{DataType, RawArray};
use std::alloc::Global;
use std::test::Fail;
use test_samples::{Positions, Widths, raw};

/// The bytes of a bitmap, none where it is absent.
type Bitmap = Option<&'static [u8]>;

/// The parts of an array.
#[derive(Clone, Copy)]
pub(in crate::layouts) enum Form {
    Alone(Part),
    /// Over its children and its dictionary.
    Over(Part, &'static [Part], Option<Part>),
    /// Values without a bitmap: of which type, how many and their bytes.
    Values(Inner, u64, &'static [u8]),
    /// Truth values, of which 520 have their bytes: how many, their null count and their bitmap.
    Truths(u64, Option<u64>, Bitmap),
    /// Texts: how many, their bitmap, offsets and bytes.
    Words(u64, Bitmap, &'static [i64], &'static [u8]),
    /// Lists: how many, their bitmap and offsets, and how many items there are, of which 8 have their bytes.
    Lists(u64, Bitmap, &'static [i64], u64),
    /// Codes: how many, their bitmap and numbers, and how many entries there are, of which 3 have their offsets.
    Codes(u64, Bitmap, &'static [i64], u64),
}

impl Form {
    /// The parts, with offsets of these widths.
    pub(in crate::layouts) fn parts(self, alloc: Global, widths: Widths) -> Result<RawArray, Fail> {
        match self {
            Alone(part) => parts(alloc, widths, part),
            Over(own, children, dictionary) => {
                assembled(alloc, widths, (own, children, dictionary))
            }
            Values(inner, slots, bytes) => {
                parts_over(
                    alloc,
                    widths,
                    (0, inner, slots, None),
                    &[Nothing, Bytes(bytes)],
                )
            }
            Truths(slots, null_count, bitmap) => {
                let positions = [Content::Bitmap(bitmap), Bytes(&[0; 65])];
                parts_over(alloc, widths, (0, Bits, slots, null_count), &positions)
            }
            Words(slots, bitmap, offsets, bytes) => {
                let positions = [Content::Bitmap(bitmap), Offsets(offsets), Bytes(bytes)];
                parts_over(alloc, widths, (0, Texts, slots, None), &positions)
            }
            Lists(slots, bitmap, offsets, items) => {
                let positions = [Content::Bitmap(bitmap), Offsets(offsets)];
                let lists = parts_over(alloc, widths, (1, Bits, slots, None), &positions)?;
                over_truths(alloc, lists, items)
            }
            Codes(slots, bitmap, codes, entries) => {
                let positions = [Content::Bitmap(bitmap), Int32s(codes)];
                let codes = parts_over(alloc, widths, (0, Indices, slots, None), &positions)?;
                over_texts(alloc, codes, entries)
            }
        }
    }
}

/// Lists over so many truth values.
fn over_truths(alloc: Global, lists: RawArray, items: u64) -> Result<RawArray, Fail> {
    let mut lists = lists;
    let child = raw(alloc, DataType::Bool, items, &[None, Some(&[0x55])])?;
    lists.children.push(child)?;
    Ok(lists)
}

/// Three texts without bytes.
const ENTRIES: Positions = &[None, Some(&[0; 16]), Some(&[])];

/// Codes over so many texts.
fn over_texts(alloc: Global, codes: RawArray, entries: u64) -> Result<RawArray, Fail> {
    let mut codes = codes;
    let dictionary = raw(alloc, DataType::Utf8, entries, ENTRIES)?;
    codes.dictionary = Some(Box::new(alloc, dictionary)?);
    Ok(codes)
}
